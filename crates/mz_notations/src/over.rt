//! What patterns read to, under loci.
ghost use Rattle.std.specs.Prelude.{◌≡◌, map, IfOk};
ghost use Rattle.mz_cluster_items.specs.OverLoci.{term_over_loci};
ghost use Rattle.mz_notations.specs.OverLoci.{literal_over_loci, meaning_over_loci};

use mz_cluster_items::over_loci::term_over_loci;
use mz_core::notation::Meaning;
use mz_loci::loci::type_over_loci;
use mz_logic::literal::Literal;
use mz_logic::term::Terms;
use std::alloc::{AllocError, Global};

fn terms_over_loci(alloc: Global, ts: &Terms, least: u32, count: u32) -> Result<Terms, AllocError>
    ensures { IfOk result (λ us. us ≡ map (term_over_loci least count) ts.now) }
{
    let mut out = Vec::new(alloc);
    for t in &ts.items {
        out.push(term_over_loci(alloc, t, least, count)?)?;
    }
    Ok(Terms { items: out })
}

/// A literal, with so many loci as the constants from `least` on, as it stands under them.
pub fn literal_over_loci(
    alloc: Global,
    l: &Literal,
    least: u32,
    count: u32,
) -> Result<Literal, AllocError>
    ensures { IfOk result (λ k. k ≡ literal_over_loci least count l.now) }
{
    match l {
        Literal::Atom {
            positive,
            sym,
            args,
        } => {
            let args = terms_over_loci(alloc, args, least, count)?;
            Ok(Literal::Atom {
                positive: *positive,
                sym: *sym,
                args,
            })
        }
        Literal::Eq {
            positive,
            left,
            right,
        } => {
            let left = term_over_loci(alloc, left, least, count)?;
            let right = term_over_loci(alloc, right, least, count)?;
            Ok(Literal::Eq {
                positive: *positive,
                left,
                right,
            })
        }
    }
}

/// What a pattern reads to, with so many loci as the constants from `least` on, as it stands under them.
pub fn meaning_over_loci(
    alloc: Global,
    m: &Meaning,
    least: u32,
    count: u32,
) -> Result<Meaning, AllocError>
    ensures { IfOk result (λ n. n ≡ meaning_over_loci least count m.now) }
{
    match m {
        Meaning::OfTerm(t) => Ok(Meaning::OfTerm(term_over_loci(alloc, t, least, count)?)),
        Meaning::OfLiteral(l) => {
            Ok(Meaning::OfLiteral(literal_over_loci(alloc, l, least, count)?))
        }
        Meaning::OfType(ty) => Ok(Meaning::OfType(type_over_loci(alloc, ty, least, count)?)),
    }
}
