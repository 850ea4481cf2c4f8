//! Headings of predicates and attributes.
ghost use Rattle.std.specs.Prelude.{◌≡◌, IfOk};
ghost use Rattle.mz_defined.specs.Atoms.{atom_definiens, AtomRead, pattern_in, next_predicate, predicate_of, predicate_loci, predicate_heading, DefinesPredicate, next_attribute, first_place_of, attribute_of, attribute_loci, attribute_heading, DefinesAttribute};
ghost use Rattle.mz_defined.specs.Definientia.{label_in};
ghost use Rattle.mz_defined.specs.Headed.{DefinesBy};
ghost use Rattle.mz_defined.specs.Owing.{TakesOwing};
ghost use Rattle.mz_taken.specs.Answers.{OnTaken, Brings};

use crate::definientia::formulas_over;
use crate::headed::{has_few_loci, label_in, loci_count, not_built, too_large};
use crate::owing::take_owing;
use crate::results::read_atom;
use mz_base::place::Place;
use mz_base::text::Text;
use mz_context::context::Context;
use mz_core::definition::{AtomDefinition, AttributeDefinition};
use mz_core::formula_definiens::FormulaDefiniens;
use mz_core::item::Item;
use mz_core::pattern::Pattern;
use mz_loci::loci::{loci_from, locus_types};
use mz_logic::kind::Kind;
use mz_logic::sym::Sym;
use mz_obligations::obligation::Obligations;
use mz_patterns::patterns::{pattern, visible_attribute, visible_loci};
use mz_patterns::visible::Visible;
use mz_standing::standing::Standing;
use mz_taken::item_fault::{ItemFault, ItemRefusal, of_reading};
use mz_tree::expressions::FormulaTree;
use mz_tree_heading::heading::{AttributeHeadingTree, PredicateHeadingTree};
use mz_tree_heading::meaning::{CasesTree, MeaningTree};
use mz_tree_heading::patterns::{AttributePatternTree, PredicatePatternTree};
use mz_tree_item::definition::ConditionOrPropertyTree;
use mz_walk::prove_steps::ProveSteps;
use std::alloc::{AllocError, Global};

/// The visible loci of a predicate's pattern; none where the loci are bad.
fn predicate_loci(
    alloc: Global,
    ctx: &Context,
    least: u32,
    t: &PredicatePatternTree,
) -> Result<Option<Visible>, AllocError>
    ensures { IfOk result (λ v. v ≡ predicate_loci least ctx.now t.now) }
{
    let loci = loci_from(ctx.constants.items.as_slice(), least);
    visible_loci(alloc, loci, least, &t.left, &t.right)
}

/// The visible loci of an attribute's pattern; none where the loci are bad.
fn attribute_loci(
    alloc: Global,
    ctx: &Context,
    least: u32,
    t: &AttributePatternTree,
) -> Result<Option<Visible>, AllocError>
    ensures { IfOk result (λ v. v ≡ attribute_loci least ctx.now t.now) }
{
    let loci = loci_from(ctx.constants.items.as_slice(), least);
    visible_attribute(alloc, loci, least, &t.loci, &t.subject)
}

fn next_predicate(ctx: &Context) -> Result<Sym, AllocError>
    ensures { IfOk result (λ s. s ≡ next_predicate ctx.now) }
{
    let number = ctx.counts.predicates.checked_add(1).ok_or(AllocError)?;
    Ok(Sym {
        article: ctx.article,
        kind: Kind::Predicate,
        number,
    })
}

fn next_attribute(ctx: &Context) -> Result<Sym, AllocError>
    ensures { IfOk result (λ s. s ≡ next_attribute ctx.now) }
{
    let number = ctx.counts.attributes.checked_add(1).ok_or(AllocError)?;
    Ok(Sym {
        article: ctx.article,
        kind: Kind::Attribute,
        number,
    })
}

fn pattern_in(
    alloc: Global,
    ctx: &Context,
    least: u32,
    kind: Kind,
    symbol: &Text,
    v: Visible,
) -> Result<Pattern, AllocError>
    ensures { IfOk result (λ p. p ≡ pattern_in least ctx.now kind symbol.now v) }
{
    let loci = loci_from(ctx.constants.items.as_slice(), least);
    let types = locus_types(alloc, loci, least)?;
    pattern(alloc, kind, symbol, types, v)
}

/// A definiens that was read with the loci as constants, under them.
fn atom_definiens(
    alloc: Global,
    ctx: &Context,
    least: u32,
    d: &FormulaDefiniens,
) -> Result<FormulaDefiniens, AllocError>
    ensures { IfOk result (λ e. e ≡ atom_definiens least ctx.now d.now) }
{
    let count = loci_count(ctx, least)?;
    formulas_over(alloc, d, least, count, count)
}

/// A predicate, whose definiens was read with the loci as constants.
fn predicate_of(
    alloc: Global,
    ctx: &Context,
    least: u32,
    t: &PredicatePatternTree,
    v: Visible,
    d: &FormulaDefiniens,
) -> Result<Box<Item>, AllocError>
    ensures { IfOk result (λ x. x.value ≡ predicate_of least ctx.now t.now v d.now) }
{
    let sym = next_predicate(ctx)?;
    let definiens = atom_definiens(alloc, ctx, least, d)?;
    let pattern = pattern_in(alloc, ctx, least, Kind::Predicate, &t.symbol.spelling, v)?;
    let item = Box::new(
        alloc,
        Item::Predicate(AtomDefinition {
            pattern,
            sym,
            definiens,
        }),
    )?;
    Ok(item)
}

/// The first place, or 0. More than 4,294,967,295 are as no memory.
fn first_place_of(ns: &[u64]) -> Result<u32, AllocError>
    ensures { IfOk result (λ n. n ≡ first_place_of ns.now) }
{
    match ns.first() {
        None => Ok(0),
        Some(n) => u32::try_from(*n).map_err(|_| AllocError),
    }
}

/// An attribute, whose definiens was read with the loci as constants.
fn attribute_of(
    alloc: Global,
    ctx: &Context,
    least: u32,
    t: &AttributePatternTree,
    v: Visible,
    d: &FormulaDefiniens,
) -> Result<Box<Item>, AllocError>
    ensures { IfOk result (λ x. x.value ≡ attribute_of least ctx.now t.now v d.now) }
{
    let sym = next_attribute(ctx)?;
    let subject = first_place_of(v.right.as_slice())?;
    let definiens = atom_definiens(alloc, ctx, least, d)?;
    let pattern = pattern_in(alloc, ctx, least, Kind::Attribute, &t.symbol.spelling, v)?;
    let item = Box::new(
        alloc,
        Item::Attribute(AttributeDefinition {
            pattern,
            subject,
            sym,
            definiens,
        }),
    )?;
    Ok(item)
}

/// Takes a predicate, whose definiens was read.
fn put_predicate<P: ProveSteps>(
    alloc: Global,
    s: &mut Standing,
    os: &mut Obligations,
    least: u32,
    t: &PredicateHeadingTree<MeaningTree>,
    v: Visible,
    d: &FormulaDefiniens,
    ws: &[ConditionOrPropertyTree],
    behind: Place,
) -> Result<(), ItemFault>
    ensures { OnTaken result (Brings (TakesOwing least s.old t.now.pred (label_in t.now.meaning) (predicate_of least s.old.context t.now.pattern v d.now) ws.now behind) s.new os.old os.new) }
{
    if !has_few_loci(&s.context, least) {
        return Err(too_large(t.pred));
    }
    let item = predicate_of(alloc, &s.context, least, &t.pattern, v, d)?;
    let label = label_in(alloc, &t.meaning)?;
    take_owing::<P>(alloc, s, os, least, t.pred, label, item, ws, behind)
}

/// Takes an attribute, whose definiens was read.
fn put_attribute<P: ProveSteps>(
    alloc: Global,
    s: &mut Standing,
    os: &mut Obligations,
    least: u32,
    t: &AttributeHeadingTree<MeaningTree>,
    v: Visible,
    d: &FormulaDefiniens,
    ws: &[ConditionOrPropertyTree],
    behind: Place,
) -> Result<(), ItemFault>
    ensures { OnTaken result (Brings (TakesOwing least s.old t.now.attr (label_in t.now.meaning) (attribute_of least s.old.context t.now.pattern v d.now) ws.now behind) s.new os.old os.new) }
{
    if !has_few_loci(&s.context, least) {
        return Err(too_large(t.attr));
    }
    let item = attribute_of(alloc, &s.context, least, &t.pattern, v, d)?;
    let label = label_in(alloc, &t.meaning)?;
    take_owing::<P>(alloc, s, os, least, t.attr, label, item, ws, behind)
}

/// Takes the heading of a predicate by the definiens.
fn take_predicate_by<P: ProveSteps>(
    alloc: Global,
    s: &mut Standing,
    os: &mut Obligations,
    least: u32,
    t: &PredicateHeadingTree<MeaningTree>,
    f: &CasesTree<FormulaTree>,
    ws: &[ConditionOrPropertyTree],
    behind: Place,
) -> Result<(), ItemFault>
    ensures { OnTaken result (Brings (DefinesBy least s.old (predicate_heading least s.old.context t.now) (AtomRead least s.old f.now) ws.now behind) s.new os.old os.new) }
{
    match predicate_loci(alloc, &s.context, least, &t.pattern)? {
        None => Err(ItemFault::Refused(ItemRefusal::BadLoci(t.pred))),
        Some(v) => match read_atom(alloc, s, least, f) {
            Err(fault) => Err(of_reading(fault)),
            Ok(x) => put_predicate::<P>(alloc, s, os, least, t, v, &x, ws, behind),
        },
    }
}

/// Takes the heading of an attribute by the definiens.
fn take_attribute_by<P: ProveSteps>(
    alloc: Global,
    s: &mut Standing,
    os: &mut Obligations,
    least: u32,
    t: &AttributeHeadingTree<MeaningTree>,
    f: &CasesTree<FormulaTree>,
    ws: &[ConditionOrPropertyTree],
    behind: Place,
) -> Result<(), ItemFault>
    ensures { OnTaken result (Brings (DefinesBy least s.old (attribute_heading least s.old.context t.now) (AtomRead least s.old f.now) ws.now behind) s.new os.old os.new) }
{
    match attribute_loci(alloc, &s.context, least, &t.pattern)? {
        None => Err(ItemFault::Refused(ItemRefusal::BadLoci(t.attr))),
        Some(v) => match read_atom(alloc, s, least, f) {
            Err(fault) => Err(of_reading(fault)),
            Ok(x) => put_attribute::<P>(alloc, s, os, least, t, v, &x, ws, behind),
        },
    }
}

/// Takes the heading of a predicate in a block whose loci are the constants from `least` on, with what is written behind it; the first token
/// behind that stands at the place.
///
/// # Errors
/// `BadLoci` at its first token where its loci aren't those that the pattern wants; the refusal of its definiens; those of `take_owing`; or
/// there was no memory. `NotBuilt` at its first token behind `equals`, which the grammar has for functors alone.
pub fn take_predicate<P: ProveSteps>(
    alloc: Global,
    s: &mut Standing,
    os: &mut Obligations,
    least: u32,
    t: &PredicateHeadingTree<MeaningTree>,
    ws: &[ConditionOrPropertyTree],
    behind: Place,
) -> Result<(), ItemFault>
    ensures { OnTaken result (Brings (DefinesPredicate least s.old t.now ws.now behind) s.new os.old os.new) }
{
    match &t.meaning {
        MeaningTree::Means { cases, .. } => {
            take_predicate_by::<P>(alloc, s, os, least, t, cases, ws, behind)
        }
        MeaningTree::Equals { .. } => Err(not_built(t.pred)),
    }
}

/// Takes the heading of an attribute in a block whose loci are the constants from `least` on, with what is written behind it; the first token
/// behind that stands at the place.
///
/// # Errors
/// As of `take_predicate`.
pub fn take_attribute<P: ProveSteps>(
    alloc: Global,
    s: &mut Standing,
    os: &mut Obligations,
    least: u32,
    t: &AttributeHeadingTree<MeaningTree>,
    ws: &[ConditionOrPropertyTree],
    behind: Place,
) -> Result<(), ItemFault>
    ensures { OnTaken result (Brings (DefinesAttribute least s.old t.now ws.now behind) s.new os.old os.new) }
{
    match &t.meaning {
        MeaningTree::Means { cases, .. } => {
            take_attribute_by::<P>(alloc, s, os, least, t, cases, ws, behind)
        }
        MeaningTree::Equals { .. } => Err(not_built(t.attr)),
    }
}
