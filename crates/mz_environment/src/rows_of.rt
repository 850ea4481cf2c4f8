//! The rows of an item.
ghost use Rattle.std.specs.Prelude.{◌≡◌, ◌∷◌, [], Some, IfOk};
ghost use Rattle.mz_logic.specs.Term.{App, terms_of};
ghost use Rattle.mz_environment.specs.Rows.{row, row_on, row_where, redefined_functor_rows, redefined_mode_rows, functor_rows, mode_rows, letter_rows};

use crate::plain::{has_loci, is_bare, is_mode, term_has_loci};
use crate::rows::{Row, Rows};
use mz_core::hidden::set_type;
use mz_core::item::Item;
use mz_core::scheme::SchemeLetter;
use mz_core::soft_type::SoftType;
use mz_core::soft_types::SoftTypes;
use mz_items::loci::variables;
use mz_logic::sym::Sym;
use mz_logic::term::{Term, TermNode, Terms};
use std::alloc::{AllocError, Global};

/// One row.
fn one_row(
    alloc: Global,
    loci: &SoftTypes,
    s: Sym,
    ts: &Terms,
    ty: &SoftType,
) -> Result<Rows, AllocError>
    ensures { IfOk result (λ rs. rs ≡ row loci.now s ts.now ty.now ∷ []) }
{
    let loci = loci.copy(alloc)?;
    let args = ts.copy(alloc)?;
    let ty = ty.copy(alloc)?;
    let mut out = Rows::new(alloc);
    out.push(Row {
        loci,
        sym: s,
        args,
        ty,
    })?;
    Ok(out)
}

/// One row: the symbol on all loci.
fn row_on(alloc: Global, loci: &SoftTypes, s: Sym, ty: &SoftType) -> Result<Rows, AllocError>
    ensures { IfOk result (λ rs. rs ≡ row_on loci.now s ty.now ∷ []) }
{
    let args = variables(alloc, 0, loci.items.len())?;
    one_row(alloc, loci, s, &args, ty)
}

/// The new type of an application that has all loci.
#[tactic(auto, using(crate::proofs::RowLemmas::told_row))]
fn new_application_rows(
    alloc: Global,
    loci: &SoftTypes,
    t: &Term,
    ty: &SoftType,
) -> Result<Rows, AllocError>
    ensures { IfOk result (λ rs. rs ≡ redefined_functor_rows loci.now t.now (Some ty.now)) }
{
    match &t.node {
        TermNode::Bound(_) => Ok(Rows::new(alloc)),
        TermNode::Const(_) => Ok(Rows::new(alloc)),
        TermNode::App(s, ts) => {
            if !term_has_loci(alloc, loci, t)? {
                return Ok(Rows::new(alloc));
            }
            let rows = one_row(alloc, loci, *s, ts, ty)?;
            Ok(rows)
        }
    }
}

fn redefined_functor_rows(
    alloc: Global,
    loci: &SoftTypes,
    t: &Term,
    ty: &Option<SoftType>,
) -> Result<Rows, AllocError>
    ensures { IfOk result (λ rs. rs ≡ redefined_functor_rows loci.now t.now ty.now) }
{
    match ty {
        None => Ok(Rows::new(alloc)),
        Some(ty) => new_application_rows(alloc, loci, t, ty),
    }
}

fn redefined_mode_rows(
    alloc: Global,
    loci: &SoftTypes,
    mode: &SoftType,
    ty: &Option<SoftType>,
) -> Result<Rows, AllocError>
    ensures { IfOk result (λ rs. rs ≡ redefined_mode_rows loci.now mode.now ty.now) }
{
    match ty {
        None => Ok(Rows::new(alloc)),
        Some(ty) => {
            let all = has_loci(alloc, loci, mode)?;
            if is_bare(mode) && is_mode(mode.radix.sym.kind) && all {
                one_row(alloc, loci, mode.radix.sym, &mode.radix.args, ty)
            } else {
                Ok(Rows::new(alloc))
            }
        }
    }
}

/// The types that an item states of functors' applications. Where the pattern of a redefinition reads to a term that
/// lacks a locus, there is none.
pub fn functor_rows(alloc: Global, item: &Item) -> Result<Rows, AllocError>
    ensures { IfOk result (λ rs. rs ≡ functor_rows item.now) }
{
    match item {
        Item::FunctorMeans(d) => row_on(alloc, &d.pattern.loci, d.sym, &d.ty),
        Item::FunctorEquals(d) => row_on(alloc, &d.pattern.loci, d.sym, &d.ty),
        Item::RedefinedFunctor(d) => {
            redefined_functor_rows(alloc, &d.pattern.loci, &d.term, &d.ty)
        }
        Item::SetTerm(s) => row_on(alloc, &s.loci, s.sym, &set_type(alloc)),
        Item::Choice(c) => row_on(alloc, &c.loci, c.sym, &c.ty),
        _ => Ok(Rows::new(alloc)),
    }
}

/// The parents that an item states of modes. Where the pattern of a redefinition reads to a type with adjectives,
/// to a structure, to `object` or `set`, or lacks a locus, there is none.
pub fn mode_rows(alloc: Global, item: &Item) -> Result<Rows, AllocError>
    ensures { IfOk result (λ rs. rs ≡ mode_rows item.now) }
{
    match item {
        Item::ModeMeans(d) => row_on(alloc, &d.pattern.loci, d.sym, &d.ty),
        Item::RedefinedMode(d) => redefined_mode_rows(alloc, &d.pattern.loci, &d.mode, &d.ty),
        _ => Ok(Rows::new(alloc)),
    }
}

/// The type of a functor letter of a scheme, on its places.
pub fn letter_rows(alloc: Global, l: &SchemeLetter) -> Result<Rows, AllocError>
    ensures { IfOk result (λ rs. rs ≡ letter_rows l.now) }
{
    match l {
        SchemeLetter::OfFunctor(s, places, ty) => row_on(alloc, places, *s, ty),
        SchemeLetter::OfPredicate(_, _) => Ok(Rows::new(alloc)),
    }
}
