//! Headings of functors.
ghost use Rattle.std.specs.Prelude.{◌≡◌, ◌+◌, IfOk};
ghost use Rattle.mz_defined.specs.Definientia.{label_in, formulas_over, terms_over};
ghost use Rattle.mz_defined.specs.Functors.{MeansReadAt, EqualsReadAt, next_functor, functor_pattern, type_in_block, means_functor, equals_functor, functor_visible, means_functor_heading, equals_functor_heading, DefinesFunctor};
ghost use Rattle.mz_defined.specs.Headed.{DefinesBy};
ghost use Rattle.mz_defined.specs.Owing.{loci_count, TakesOwing};
ghost use Rattle.mz_taken.specs.Answers.{OnTaken, Brings};

use crate::definientia::{formulas_over, terms_over};
use crate::headed::{has_few_loci, label_in, loci_count, too_large};
use crate::owing::take_owing;
use crate::results::{read_equals, read_means};
use mz_base::place::Place;
use mz_context::context::Context;
use mz_core::definition::{EqualsDefinition, MeansDefinition};
use mz_core::formula_definiens::FormulaDefiniens;
use mz_core::item::Item;
use mz_core::pattern::Pattern;
use mz_core::soft_type::SoftType;
use mz_core::term_definiens::TermDefiniens;
use mz_loci::loci::{loci_from, locus_types, type_over_loci};
use mz_logic::kind::Kind;
use mz_logic::sym::Sym;
use mz_meanings::read_meaning::{ReadEquals, ReadMeans};
use mz_obligations::obligation::Obligations;
use mz_patterns::functors::{closed_pattern, functor_closing, functor_loci, functor_symbol};
use mz_patterns::visible::Visible;
use mz_standing::standing::Standing;
use mz_taken::item_fault::{ItemFault, ItemRefusal, of_reading};
use mz_tree::expressions::{FormulaTree, TermTree};
use mz_tree_heading::heading::FunctorHeadingTree;
use mz_tree_heading::meaning::{CasesTree, MeaningTree};
use mz_tree_heading::patterns::FunctorPatternTree;
use mz_tree_item::definition::ConditionOrPropertyTree;
use mz_walk::prove_steps::ProveSteps;
use std::alloc::{AllocError, Global};

/// The visible loci of a functor's pattern; none where the loci are bad.
fn functor_visible(
    alloc: Global,
    ctx: &Context,
    least: u32,
    t: &FunctorPatternTree,
) -> Result<Option<Visible>, AllocError>
    ensures { IfOk result (λ v. v ≡ functor_visible least ctx.now t.now) }
{
    let loci = loci_from(ctx.constants.items.as_slice(), least);
    functor_loci(alloc, loci, least, t)
}

fn next_functor(ctx: &Context) -> Result<Sym, AllocError>
    ensures { IfOk result (λ s. s ≡ next_functor ctx.now) }
{
    let number = ctx.counts.functors.checked_add(1).ok_or(AllocError)?;
    Ok(Sym {
        article: ctx.article,
        kind: Kind::Functor,
        number,
    })
}

fn functor_pattern(
    alloc: Global,
    ctx: &Context,
    least: u32,
    t: &FunctorPatternTree,
    v: Visible,
) -> Result<Pattern, AllocError>
    ensures { IfOk result (λ p. p ≡ functor_pattern least ctx.now t.now v) }
{
    let loci = loci_from(ctx.constants.items.as_slice(), least);
    let types = locus_types(alloc, loci, least)?;
    let symbol = functor_symbol(alloc, t)?;
    let closing = functor_closing(alloc, t)?;
    Ok(closed_pattern(Kind::Functor, symbol, closing, types, v))
}

/// A type that was read in a block, under its loci.
pub fn type_in_block(
    alloc: Global,
    ctx: &Context,
    least: u32,
    ty: &SoftType,
) -> Result<SoftType, AllocError>
    ensures { IfOk result (λ t. t ≡ type_in_block least ctx.now ty.now) }
{
    let count = loci_count(ctx, least)?;
    type_over_loci(alloc, ty, least, count)
}

/// Formulas as definientia that were read in a block with `it` behind its loci, under these and `it`.
pub fn formulas_in_block(
    alloc: Global,
    ctx: &Context,
    least: u32,
    d: &FormulaDefiniens,
) -> Result<FormulaDefiniens, AllocError>
    ensures { IfOk result (λ e. e ≡ formulas_over least (loci_count least ctx.now) (loci_count least ctx.now + 1) d.now) }
{
    let count = loci_count(ctx, least)?;
    let inner = count.checked_add(1).ok_or(AllocError)?;
    formulas_over(alloc, d, least, count, inner)
}

fn terms_in_block(
    alloc: Global,
    ctx: &Context,
    least: u32,
    d: &TermDefiniens,
) -> Result<TermDefiniens, AllocError>
    ensures { IfOk result (λ e. e ≡ terms_over least (loci_count least ctx.now) d.now) }
{
    let count = loci_count(ctx, least)?;
    terms_over(alloc, d, least, count)
}

/// A functor by `means`, whose type and definiens were read with the loci as constants.
fn means_functor(
    alloc: Global,
    ctx: &Context,
    least: u32,
    t: &FunctorPatternTree,
    v: Visible,
    x: &ReadMeans,
) -> Result<Box<Item>, AllocError>
    ensures { IfOk result (λ y. y.value ≡ means_functor least ctx.now t.now v x.now) }
{
    let sym = next_functor(ctx)?;
    let ty = type_in_block(alloc, ctx, least, &x.ty)?;
    let definiens = formulas_in_block(alloc, ctx, least, &x.definiens)?;
    let pattern = functor_pattern(alloc, ctx, least, t, v)?;
    let item = Box::new(
        alloc,
        Item::FunctorMeans(MeansDefinition {
            pattern,
            sym,
            ty,
            definiens,
        }),
    )?;
    Ok(item)
}

/// A functor by `equals`, whose type and definiens were read with the loci as constants.
fn equals_functor(
    alloc: Global,
    ctx: &Context,
    least: u32,
    t: &FunctorPatternTree,
    v: Visible,
    x: &ReadEquals,
) -> Result<Box<Item>, AllocError>
    ensures { IfOk result (λ y. y.value ≡ equals_functor least ctx.now t.now v x.now) }
{
    let sym = next_functor(ctx)?;
    let ty = type_in_block(alloc, ctx, least, &x.ty)?;
    let definiens = terms_in_block(alloc, ctx, least, &x.definiens)?;
    let pattern = functor_pattern(alloc, ctx, least, t, v)?;
    let item = Box::new(
        alloc,
        Item::FunctorEquals(EqualsDefinition {
            pattern,
            sym,
            ty,
            definiens,
        }),
    )?;
    Ok(item)
}

/// Takes a functor by `means`, which was read.
fn put_means<P: ProveSteps>(
    alloc: Global,
    s: &mut Standing,
    os: &mut Obligations,
    least: u32,
    t: &FunctorHeadingTree<MeaningTree>,
    v: Visible,
    x: &ReadMeans,
    ws: &[ConditionOrPropertyTree],
    behind: Place,
) -> Result<(), ItemFault>
    ensures { OnTaken result (Brings (TakesOwing least s.old t.now.func (label_in t.now.meaning) (means_functor least s.old.context t.now.pattern v x.now) ws.now behind) s.new os.old os.new) }
{
    if !has_few_loci(&s.context, least) {
        return Err(too_large(t.func));
    }
    let item = means_functor(alloc, &s.context, least, &t.pattern, v, x)?;
    let label = label_in(alloc, &t.meaning)?;
    take_owing::<P>(alloc, s, os, least, t.func, label, item, ws, behind)
}

/// Takes a functor by `equals`, which was read.
fn put_equals<P: ProveSteps>(
    alloc: Global,
    s: &mut Standing,
    os: &mut Obligations,
    least: u32,
    t: &FunctorHeadingTree<MeaningTree>,
    v: Visible,
    x: &ReadEquals,
    ws: &[ConditionOrPropertyTree],
    behind: Place,
) -> Result<(), ItemFault>
    ensures { OnTaken result (Brings (TakesOwing least s.old t.now.func (label_in t.now.meaning) (equals_functor least s.old.context t.now.pattern v x.now) ws.now behind) s.new os.old os.new) }
{
    if !has_few_loci(&s.context, least) {
        return Err(too_large(t.func));
    }
    let item = equals_functor(alloc, &s.context, least, &t.pattern, v, x)?;
    let label = label_in(alloc, &t.meaning)?;
    take_owing::<P>(alloc, s, os, least, t.func, label, item, ws, behind)
}

/// Takes the heading of a functor by `means`.
fn take_means<P: ProveSteps>(
    alloc: Global,
    s: &mut Standing,
    os: &mut Obligations,
    least: u32,
    t: &FunctorHeadingTree<MeaningTree>,
    f: &CasesTree<FormulaTree>,
    ws: &[ConditionOrPropertyTree],
    behind: Place,
) -> Result<(), ItemFault>
    ensures { OnTaken result (Brings (DefinesBy least s.old (means_functor_heading least s.old.context t.now) (MeansReadAt least s.old t.now.result f.now) ws.now behind) s.new os.old os.new) }
{
    match functor_visible(alloc, &s.context, least, &t.pattern)? {
        None => Err(ItemFault::Refused(ItemRefusal::BadLoci(t.func))),
        Some(v) => match read_means(alloc, s, least, &t.result, f) {
            Err(fault) => Err(of_reading(fault)),
            Ok(x) => put_means::<P>(alloc, s, os, least, t, v, &x, ws, behind),
        },
    }
}

/// Takes the heading of a functor by `equals`.
fn take_equals<P: ProveSteps>(
    alloc: Global,
    s: &mut Standing,
    os: &mut Obligations,
    least: u32,
    t: &FunctorHeadingTree<MeaningTree>,
    u: &CasesTree<TermTree>,
    ws: &[ConditionOrPropertyTree],
    behind: Place,
) -> Result<(), ItemFault>
    ensures { OnTaken result (Brings (DefinesBy least s.old (equals_functor_heading least s.old.context t.now) (EqualsReadAt least s.old t.now.result u.now) ws.now behind) s.new os.old os.new) }
{
    match functor_visible(alloc, &s.context, least, &t.pattern)? {
        None => Err(ItemFault::Refused(ItemRefusal::BadLoci(t.func))),
        Some(v) => match read_equals(alloc, s, least, &t.result, u) {
            Err(fault) => Err(of_reading(fault)),
            Ok(x) => put_equals::<P>(alloc, s, os, least, t, v, &x, ws, behind),
        },
    }
}

/// Takes the heading of a functor in a block whose loci are the constants from `least` on, with what is written behind it; the first token
/// behind that stands at the place.
///
/// # Errors
/// `BadLoci` at its first token where its loci aren't those that the pattern wants; the refusal of its type, and of its definiens; those of
/// `take_owing`; or there was no memory.
pub fn take_functor<P: ProveSteps>(
    alloc: Global,
    s: &mut Standing,
    os: &mut Obligations,
    least: u32,
    t: &FunctorHeadingTree<MeaningTree>,
    ws: &[ConditionOrPropertyTree],
    behind: Place,
) -> Result<(), ItemFault>
    ensures { OnTaken result (Brings (DefinesFunctor least s.old t.now ws.now behind) s.new os.old os.new) }
{
    match &t.meaning {
        MeaningTree::Means { cases, .. } => {
            take_means::<P>(alloc, s, os, least, t, cases, ws, behind)
        }
        MeaningTree::Equals { cases, .. } => {
            take_equals::<P>(alloc, s, os, least, t, cases, ws, behind)
        }
    }
}
