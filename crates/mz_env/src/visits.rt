//! Which articles are let in with a list of articles.
ghost use Rattle.std.specs.Prelude.{◌≡◌, ◌++◌, ◌∷◌, [], map, None, Some, IfOk, OnOk, MatchOption};
ghost use Rattle.std.specs.Arc.{arc_value};
ghost use Rattle.mz_env.specs.Visits.{export_named, Visits};

use crate::articles::Articles;
use mz_axioms::exports::Exports;
use mz_base::name::Name;
use mz_base::names::Names;
use mz_core::outcome::Export;
use std::alloc::{AllocError, Global};
use std::sync::Arc;

/// The first export of the article with the number.
pub fn export_named<'a>(exports: &'a [Arc<Export>], number: u64) -> Option<&'a Arc<Export>>
    ensures { MatchOption result (export_named (map arc_value exports.now) number ≡ None) (λ e. export_named (map arc_value exports.now) number ≡ Some (arc_value e.now)) }
{
    match exports.split_first() {
        None => None,
        Some((e, rest)) => {
            if e.name.number == number {
                Some(e)
            } else {
                export_named(rest, number)
            }
        }
    }
}

/// Puts exports at the end.
fn push_exports(out: &mut Exports, more: &Exports) -> Result<(), AllocError>
    ensures { OnOk result (out.new ≡ out.old ++ more.now) }
{
    for e in more.as_slice() {
        out.push(e.clone()?)?;
    }
    Ok(())
}

/// The exports that are let in with an article that may be begun already: none, or those of its dependencies and
/// then its own. Dependencies nested deeper than `rest` are as no memory.
#[cycle(visiting)]
#[tactic(auto, using(crate::proofs::VisitLemmas::visit_rules))]
fn visit_one(
    alloc: Global,
    exports: &Exports,
    n: &Name,
    begun: &mut Articles,
    rest: usize,
) -> Result<Exports, AllocError>
    ensures { IfOk result (λ es. Visits exports.now begun.old (n.now ∷ []) begun.new es) }
{
    if begun.has(n.number) {
        let none = Exports::new(alloc)?;
        return Ok(none);
    }
    match export_named(exports.as_slice(), n.number) {
        None => {
            let none = Exports::new(alloc)?;
            Ok(none)
        }
        Some(e) => {
            let inner = rest.checked_sub(1).ok_or(AllocError)?;
            begun.push(alloc, *n)?;
            let mut out = visit(alloc, exports, &e.dependencies, begun, inner)?;
            out.push(e.clone()?)?;
            Ok(out)
        }
    }
}

/// The exports that are let in with these articles, in their order: before each that wasn't begun those of its
/// dependencies, and each once. Dependencies nested deeper than `rest` are as no memory.
#[cycle(visiting)]
#[tactic(auto, using(crate::proofs::VisitLemmas::visits_rules))]
pub fn visit(
    alloc: Global,
    exports: &Exports,
    names: &Names,
    begun: &mut Articles,
    rest: usize,
) -> Result<Exports, AllocError>
    ensures { IfOk result (λ es. Visits exports.now begun.old names.now begun.new es) }
{
    let mut out = Exports::new(alloc)?;
    for n in &names.items {
        let more = visit_one(alloc, exports, n, begun, rest)?;
        push_exports(&mut out, &more)?;
    }
    Ok(out)
}
