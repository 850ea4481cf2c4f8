//! The unfoldings of an item.
ghost use Rattle.std.specs.Prelude.{◌≡◌, ◌++◌, ◌∷◌, [], IfOk, map};
ghost use Rattle.mz_logic.specs.Term.{Bound};
ghost use Rattle.mz_logic.specs.Substitution.{shift};
ghost use Rattle.mz_logic.specs.declared.literal.Literal.TheVariants.{Atom};
ghost use Rattle.mz_ground.specs.declared.trigger.Trigger.TheVariants.{Atom as AtomTrigger};
ghost use Rattle.mz_items.specs.Loci.{predicate_on, attribute_on};
ghost use Rattle.mz_items.specs.RedefinitionRows.{type_or};
ghost use Rattle.mz_environment.specs.Unfoldings.{unfolding_of, signed_definiens, literal_unfoldings, literal_definition, literal_redefinition, mode_unfoldings, mode_definition, mode_redefinition, equation_unfoldings, functor_definition, functor_redefinition, unfoldings_of};

use crate::plain::{atom_has_loci, has_loci, is_application, is_bare, is_mode, term_has_loci};
use crate::unfoldings::{Unfolding, Unfoldings};
use mz_core::definition::{AtomDefinition, AttributeDefinition};
use mz_core::formula_definiens::FormulaDefiniens;
use mz_core::item::Item;
use mz_core::redefinition::{FunctorMeaning, FunctorRedefinition, ModeRedefinition};
use mz_core::soft_type::SoftType;
use mz_core::soft_types::SoftTypes;
use mz_core::statement::Statement;
use mz_core::statement_forms::opposite;
use mz_ground::trigger::Trigger;
use mz_items::loci::{attribute_on, mode_on, predicate_on, term_on};
use mz_logic::literal::Literal;
use mz_logic::shift::{shift, shift_terms};
use mz_logic::sym::Sym;
use mz_logic::term::{Term, Terms};
use std::alloc::{AllocError, Global};

/// One unfolding.
fn one_unfolding(
    alloc: Global,
    loci: SoftTypes,
    head: Trigger,
    definiens: Statement,
) -> Result<Unfoldings, AllocError>
    ensures { IfOk result (λ us. us ≡ unfolding_of loci head definiens ∷ []) }
{
    let mut out = Unfoldings::new(alloc);
    out.push(Unfolding {
        loci,
        head,
        definiens,
    })?;
    Ok(out)
}

/// The loci and one more.
fn with_locus(alloc: Global, loci: &SoftTypes, ty: &SoftType) -> Result<SoftTypes, AllocError>
    ensures { IfOk result (λ tys. tys ≡ loci.now ++ ty.now ∷ []) }
{
    let mut out = loci.copy(alloc)?;
    out.push(ty.copy(alloc)?)?;
    Ok(out)
}

fn signed_definiens(alloc: Global, positive: bool, d: &Statement) -> Result<Statement, AllocError>
    ensures { IfOk result (λ s. s ≡ signed_definiens positive d.now) }
{
    let s = d.copy(alloc)?;
    if positive { Ok(s) } else { opposite(alloc, s) }
}

/// The unfolding of an atom that has all loci.
fn atom_unfoldings(
    alloc: Global,
    loci: &SoftTypes,
    positive: bool,
    s: Sym,
    ts: &Terms,
    d: &Statement,
) -> Result<Unfoldings, AllocError>
    ensures { IfOk result (λ us. us ≡ literal_unfoldings loci.now (Atom positive s ts.now) d.now) }
{
    if !atom_has_loci(alloc, loci, s, ts)? {
        return Ok(Unfoldings::new(alloc));
    }
    let loci = loci.copy(alloc)?;
    let head = Trigger::Atom(s, ts.copy(alloc)?);
    let d = signed_definiens(alloc, positive, d)?;
    one_unfolding(alloc, loci, head, d)
}

fn literal_unfoldings(
    alloc: Global,
    loci: &SoftTypes,
    l: &Literal,
    d: &Statement,
) -> Result<Unfoldings, AllocError>
    ensures { IfOk result (λ us. us ≡ literal_unfoldings loci.now l.now d.now) }
{
    match l {
        Literal::Atom {
            positive,
            sym,
            args,
        } => atom_unfoldings(alloc, loci, *positive, *sym, args, d),
        Literal::Eq { .. } => Ok(Unfoldings::new(alloc)),
    }
}

fn literal_definition(
    alloc: Global,
    loci: &SoftTypes,
    l: &Literal,
    d: &FormulaDefiniens,
) -> Result<Unfoldings, AllocError>
    ensures { IfOk result (λ us. us ≡ literal_definition loci.now l.now d.now) }
{
    match d {
        FormulaDefiniens::Plain(d) => literal_unfoldings(alloc, loci, l, d),
        FormulaDefiniens::Cases(_) => Ok(Unfoldings::new(alloc)),
        FormulaDefiniens::CasesOtherwise(_, _) => Ok(Unfoldings::new(alloc)),
    }
}

fn literal_redefinition(
    alloc: Global,
    loci: &SoftTypes,
    l: &Literal,
    d: &Option<FormulaDefiniens>,
) -> Result<Unfoldings, AllocError>
    ensures { IfOk result (λ us. us ≡ literal_redefinition loci.now l.now d.now) }
{
    match d {
        None => Ok(Unfoldings::new(alloc)),
        Some(d) => literal_definition(alloc, loci, l, d),
    }
}

/// The atom of the mode at the last locus.
fn mode_head(alloc: Global, mode: &SoftType) -> Result<Trigger, AllocError>
    ensures { IfOk result (λ r. r ≡ AtomTrigger mode.now.radix.sym (map (shift 0 1) mode.now.radix.args ++ Bound 0 ∷ [])) }
{
    let mut args = shift_terms(alloc, &mode.radix.args, 0, 1)?;
    args.push(Term::bound(0))?;
    Ok(Trigger::Atom(mode.radix.sym, args))
}

fn mode_unfoldings(
    alloc: Global,
    loci: &SoftTypes,
    mode: &SoftType,
    ty: &SoftType,
    d: &Statement,
) -> Result<Unfoldings, AllocError>
    ensures { IfOk result (λ us. us ≡ mode_unfoldings loci.now mode.now ty.now d.now) }
{
    let all = has_loci(alloc, loci, mode)?;
    if is_bare(mode) && is_mode(mode.radix.sym.kind) && all {
        let loci = with_locus(alloc, loci, ty)?;
        let head = mode_head(alloc, mode)?;
        let d = d.copy(alloc)?;
        one_unfolding(alloc, loci, head, d)
    } else {
        Ok(Unfoldings::new(alloc))
    }
}

fn mode_definition(
    alloc: Global,
    loci: &SoftTypes,
    mode: &SoftType,
    ty: &SoftType,
    d: &FormulaDefiniens,
) -> Result<Unfoldings, AllocError>
    ensures { IfOk result (λ us. us ≡ mode_definition loci.now mode.now ty.now d.now) }
{
    match d {
        FormulaDefiniens::Plain(d) => mode_unfoldings(alloc, loci, mode, ty, d),
        FormulaDefiniens::Cases(_) => Ok(Unfoldings::new(alloc)),
        FormulaDefiniens::CasesOtherwise(_, _) => Ok(Unfoldings::new(alloc)),
    }
}

fn equation_unfoldings(
    alloc: Global,
    loci: &SoftTypes,
    t: &Term,
    ty: &SoftType,
    d: &Statement,
) -> Result<Unfoldings, AllocError>
    ensures { IfOk result (λ us. us ≡ equation_unfoldings loci.now t.now ty.now d.now) }
{
    let all = term_has_loci(alloc, loci, t)?;
    if is_application(t) && all {
        let loci = with_locus(alloc, loci, ty)?;
        let head = Trigger::Term(shift(alloc, t, 0, 1)?);
        let d = d.copy(alloc)?;
        one_unfolding(alloc, loci, head, d)
    } else {
        Ok(Unfoldings::new(alloc))
    }
}

fn functor_definition(
    alloc: Global,
    loci: &SoftTypes,
    t: &Term,
    ty: &SoftType,
    d: &FormulaDefiniens,
) -> Result<Unfoldings, AllocError>
    ensures { IfOk result (λ us. us ≡ functor_definition loci.now t.now ty.now d.now) }
{
    match d {
        FormulaDefiniens::Plain(d) => equation_unfoldings(alloc, loci, t, ty, d),
        FormulaDefiniens::Cases(_) => Ok(Unfoldings::new(alloc)),
        FormulaDefiniens::CasesOtherwise(_, _) => Ok(Unfoldings::new(alloc)),
    }
}

/// The new type of a redefinition, or else the old one.
fn type_or<'a>(new: &'a Option<SoftType>, old: &'a SoftType) -> &'a SoftType
    ensures { result.now ≡ type_or new.now old.now }
{
    match new {
        None => old,
        Some(ty) => ty,
    }
}

fn functor_redefinition(alloc: Global, d: &FunctorRedefinition) -> Result<Unfoldings, AllocError>
    ensures { IfOk result (λ us. us ≡ functor_redefinition d.now.pattern.loci d.now.term (type_or d.now.ty d.now.old) d.now.meaning) }
{
    let ty = type_or(&d.ty, &d.old);
    match &d.meaning {
        None => Ok(Unfoldings::new(alloc)),
        Some(FunctorMeaning::Means(m)) => {
            functor_definition(alloc, &d.pattern.loci, &d.term, ty, m)
        }
        Some(FunctorMeaning::Equals(_)) => Ok(Unfoldings::new(alloc)),
    }
}

fn mode_redefinition(alloc: Global, d: &ModeRedefinition) -> Result<Unfoldings, AllocError>
    ensures { IfOk result (λ us. us ≡ mode_redefinition d.now.pattern.loci d.now.mode (type_or d.now.ty d.now.old) d.now.meaning) }
{
    let ty = type_or(&d.ty, &d.old);
    match &d.meaning {
        None => Ok(Unfoldings::new(alloc)),
        Some(m) => mode_definition(alloc, &d.pattern.loci, &d.mode, ty, m),
    }
}

fn attribute_definition(alloc: Global, d: &AttributeDefinition) -> Result<Unfoldings, AllocError>
    ensures { IfOk result (λ us. us ≡ literal_definition d.now.pattern.loci (attribute_on d.now.pattern.loci d.now.subject d.now.sym) d.now.definiens) }
{
    let l = Box::new(
        alloc,
        attribute_on(alloc, &d.pattern.loci, d.subject, d.sym)?,
    )?;
    literal_definition(alloc, &d.pattern.loci, &l, &d.definiens)
}

fn predicate_definition(alloc: Global, d: &AtomDefinition) -> Result<Unfoldings, AllocError>
    ensures { IfOk result (λ us. us ≡ literal_definition d.now.pattern.loci (predicate_on d.now.pattern.loci d.now.sym) d.now.definiens) }
{
    let l = Box::new(alloc, predicate_on(alloc, &d.pattern.loci, d.sym)?)?;
    literal_definition(alloc, &d.pattern.loci, &l, &d.definiens)
}

/// The unfolding of an item, by the table in `docs/PROOFS.md`: one where a predicate, an attribute, a mode or a functor
/// by `means` is defined or redefined without cases and the pattern as read has all loci. More than
/// 4,294,967,295 loci are as no memory.
pub fn unfoldings_of(alloc: Global, item: &Item) -> Result<Unfoldings, AllocError>
    ensures { IfOk result (λ us. us ≡ unfoldings_of item.now) }
{
    match item {
        Item::FunctorMeans(d) => {
            let t = term_on(alloc, &d.pattern.loci, d.sym)?;
            functor_definition(alloc, &d.pattern.loci, &t, &d.ty, &d.definiens)
        }
        Item::Predicate(d) => predicate_definition(alloc, d),
        Item::Attribute(d) => attribute_definition(alloc, d),
        Item::ModeMeans(d) => {
            let mode = mode_on(alloc, &d.pattern.loci, d.sym)?;
            mode_definition(alloc, &d.pattern.loci, &mode, &d.ty, &d.definiens)
        }
        Item::RedefinedFunctor(d) => functor_redefinition(alloc, d),
        Item::RedefinedMode(d) => mode_redefinition(alloc, d),
        Item::RedefinedPredicate(d) => {
            literal_redefinition(alloc, &d.pattern.loci, &d.literal, &d.meaning)
        }
        Item::RedefinedAttribute(d) => {
            literal_redefinition(alloc, &d.pattern.loci, &d.literal, &d.meaning)
        }
        _ => Ok(Unfoldings::new(alloc)),
    }
}
