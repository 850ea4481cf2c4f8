//! Headings of modes and abbreviations.
ghost use Rattle.std.specs.Prelude.{◌≡◌, [], IfOk};
ghost use Rattle.mz_core.specs.Hidden.{is_of_any_object};
ghost use Rattle.mz_defined.specs.Definientia.{label_in};
ghost use Rattle.mz_defined.specs.Functors.{MeansReadAt, next_mode, mode_pattern, means_mode, mode_visible, mode_heading, DefinesMode, abbreviation_of, DefinesAbbreviation};
ghost use Rattle.mz_defined.specs.Headed.{DefinesBy, DefinesByFormulas};
ghost use Rattle.mz_defined.specs.Owing.{TakesWritten, TakesOwing};
ghost use Rattle.mz_resolve.specs.Answers.{OnRead};
ghost use Rattle.mz_resolve.specs.Calls.{TypeRead};
ghost use Rattle.mz_standing.specs.Standing.{with_left};
ghost use Rattle.mz_taken.specs.Answers.{OnTaken, Brings};

use crate::functors::{formulas_in_block, type_in_block};
use crate::headed::{has_few_loci, label_in, not_built, too_large};
use crate::owing::{take_item, take_owing};
use crate::results::read_means;
use mz_base::place::Place;
use mz_base::text::Text;
use mz_context::context::Context;
use mz_core::definition::MeansDefinition;
use mz_core::hidden::is_of_any_object;
use mz_core::item::Item;
use mz_core::notation::{Meaning, Notation};
use mz_core::pattern::Pattern;
use mz_core::soft_type::SoftType;
use mz_loci::loci::{loci_from, locus_types};
use mz_logic::kind::Kind;
use mz_logic::sym::Sym;
use mz_meanings::read_meaning::ReadMeans;
use mz_obligations::obligation::Obligations;
use mz_patterns::functors::{closed_pattern, mode_loci};
use mz_patterns::visible::Visible;
use mz_resolve::calls::type_of;
use mz_resolve::resolve_fault::ResolveFault;
use mz_standing::standing::Standing;
use mz_taken::item_fault::{ItemFault, ItemRefusal, of_reading};
use mz_tree::expressions::{FormulaTree, TypeTree};
use mz_tree_heading::heading::{AbbreviationTree, ModeHeadingTree};
use mz_tree_heading::meaning::{CasesTree, MeaningTree};
use mz_tree_heading::patterns::ModePatternTree;
use mz_tree_item::definition::ConditionOrPropertyTree;
use mz_walk::prove_steps::ProveSteps;
use std::alloc::{AllocError, Global};

/// The visible loci of a mode's pattern; none where the loci are bad.
fn mode_visible(
    alloc: Global,
    ctx: &Context,
    least: u32,
    t: &ModePatternTree,
) -> Result<Option<Visible>, AllocError>
    ensures { IfOk result (λ v. v ≡ mode_visible least ctx.now t.now) }
{
    let loci = loci_from(ctx.constants.items.as_slice(), least);
    mode_loci(alloc, loci, least, t)
}

fn next_mode(ctx: &Context) -> Result<Sym, AllocError>
    ensures { IfOk result (λ s. s ≡ next_mode ctx.now) }
{
    let number = ctx.counts.modes.checked_add(1).ok_or(AllocError)?;
    Ok(Sym {
        article: ctx.article,
        kind: Kind::Mode,
        number,
    })
}

/// Whether the next mode would be HIDDEN's `object` or `set` anew, as in an article of that name.
fn is_hidden(ctx: &Context) -> Result<bool, AllocError>
    ensures { IfOk result (λ b. b ≡ is_of_any_object (next_mode ctx.now)) }
{
    let sym = next_mode(ctx)?;
    Ok(is_of_any_object(sym))
}

fn mode_pattern(
    alloc: Global,
    ctx: &Context,
    least: u32,
    t: &ModePatternTree,
    v: Visible,
) -> Result<Pattern, AllocError>
    ensures { IfOk result (λ p. p ≡ mode_pattern least ctx.now t.now v) }
{
    let loci = loci_from(ctx.constants.items.as_slice(), least);
    let types = locus_types(alloc, loci, least)?;
    let symbol = t.symbol.spelling.copy(alloc)?;
    Ok(closed_pattern(Kind::Mode, symbol, Text::new(alloc), types, v))
}

/// A mode, whose type and definiens were read with the loci as constants.
fn means_mode(
    alloc: Global,
    ctx: &Context,
    least: u32,
    t: &ModePatternTree,
    v: Visible,
    x: &ReadMeans,
) -> Result<Box<Item>, AllocError>
    ensures { IfOk result (λ y. y.value ≡ means_mode least ctx.now t.now v x.now) }
{
    let sym = next_mode(ctx)?;
    let ty = type_in_block(alloc, ctx, least, &x.ty)?;
    let definiens = formulas_in_block(alloc, ctx, least, &x.definiens)?;
    let pattern = mode_pattern(alloc, ctx, least, t, v)?;
    let item = Box::new(
        alloc,
        Item::ModeMeans(MeansDefinition {
            pattern,
            sym,
            ty,
            definiens,
        }),
    )?;
    Ok(item)
}

/// Takes a mode, which was read.
fn put_mode<P: ProveSteps>(
    alloc: Global,
    s: &mut Standing,
    os: &mut Obligations,
    least: u32,
    t: &ModeHeadingTree<MeaningTree>,
    v: Visible,
    x: &ReadMeans,
    ws: &[ConditionOrPropertyTree],
    behind: Place,
) -> Result<(), ItemFault>
    ensures { OnTaken result (Brings (TakesOwing least s.old t.now.mode (label_in t.now.meaning) (means_mode least s.old.context t.now.pattern v x.now) ws.now behind) s.new os.old os.new) }
{
    if !has_few_loci(&s.context, least) {
        return Err(too_large(t.mode));
    }
    let item = means_mode(alloc, &s.context, least, &t.pattern, v, x)?;
    let label = label_in(alloc, &t.meaning)?;
    take_owing::<P>(alloc, s, os, least, t.mode, label, item, ws, behind)
}

/// Takes the heading of a mode by the definiens.
fn take_by_cases<P: ProveSteps>(
    alloc: Global,
    s: &mut Standing,
    os: &mut Obligations,
    least: u32,
    t: &ModeHeadingTree<MeaningTree>,
    f: &CasesTree<FormulaTree>,
    ws: &[ConditionOrPropertyTree],
    behind: Place,
) -> Result<(), ItemFault>
    ensures { OnTaken result (Brings (DefinesBy least s.old (mode_heading least s.old.context t.now) (MeansReadAt least s.old t.now.result f.now) ws.now behind) s.new os.old os.new) }
{
    match mode_visible(alloc, &s.context, least, &t.pattern)? {
        None => Err(ItemFault::Refused(ItemRefusal::BadLoci(t.mode))),
        Some(v) => match read_means(alloc, s, least, &t.result, f) {
            Err(fault) => Err(of_reading(fault)),
            Ok(x) => put_mode::<P>(alloc, s, os, least, t, v, &x, ws, behind),
        },
    }
}

/// Takes the heading of a mode whose symbol isn't one of HIDDEN's.
fn take_other<P: ProveSteps>(
    alloc: Global,
    s: &mut Standing,
    os: &mut Obligations,
    least: u32,
    t: &ModeHeadingTree<MeaningTree>,
    ws: &[ConditionOrPropertyTree],
    behind: Place,
) -> Result<(), ItemFault>
    ensures { OnTaken result (Brings (DefinesByFormulas least s.old (mode_heading least s.old.context t.now) (MeansReadAt least s.old t.now.result) ws.now behind t.now.meaning) s.new os.old os.new) }
{
    match &t.meaning {
        MeaningTree::Means { cases, .. } => {
            take_by_cases::<P>(alloc, s, os, least, t, cases, ws, behind)
        }
        MeaningTree::Equals { .. } => Err(not_built(t.mode)),
    }
}

/// Takes the heading of a mode in a block whose loci are the constants from `least` on, with what is written behind it; the first token
/// behind that stands at the place.
///
/// # Errors
/// `NotBuilt` at its first token where its symbol would be one of HIDDEN's, as in an article of that name; else as of `take_functor`.
pub fn take_mode<P: ProveSteps>(
    alloc: Global,
    s: &mut Standing,
    os: &mut Obligations,
    least: u32,
    t: &ModeHeadingTree<MeaningTree>,
    ws: &[ConditionOrPropertyTree],
    behind: Place,
) -> Result<(), ItemFault>
    ensures { OnTaken result (Brings (DefinesMode least s.old t.now ws.now behind) s.new os.old os.new) }
{
    let hidden = is_hidden(&s.context)?;
    if hidden {
        return Err(not_built(t.mode));
    }
    take_other::<P>(alloc, s, os, least, t, ws, behind)
}

/// A type that is part of nothing else, as `type_of`. Nothing but what is left changes.
fn read_type(
    alloc: Global,
    s: &mut Standing,
    least: u32,
    ty: &TypeTree,
) -> Result<SoftType, ResolveFault>
    ensures reads { OnRead result (λ o. TypeRead s.old.environment s.old.context least s.old.left ty.now o s.new.left) }
    ensures same { s.new ≡ with_left s.old s.new.left }
{
    type_of(
        alloc,
        &s.environment,
        &mut s.context,
        least,
        ty,
        &mut s.left,
    )
}

/// An abbreviation of the type, which was read with the loci as constants.
fn abbreviation_of(
    alloc: Global,
    ctx: &Context,
    least: u32,
    t: &ModePatternTree,
    v: Visible,
    ty: &SoftType,
) -> Result<Box<Item>, AllocError>
    ensures { IfOk result (λ y. y.value ≡ abbreviation_of least ctx.now t.now v ty.now) }
{
    let ty = type_in_block(alloc, ctx, least, ty)?;
    let pattern = mode_pattern(alloc, ctx, least, t, v)?;
    let item = Box::new(
        alloc,
        Item::Abbreviation(Notation {
            pattern,
            meaning: Meaning::OfType(ty),
        }),
    )?;
    Ok(item)
}

/// Takes an abbreviation, whose type was read.
fn put_abbreviation<P: ProveSteps>(
    alloc: Global,
    s: &mut Standing,
    os: &mut Obligations,
    least: u32,
    t: &AbbreviationTree,
    v: Visible,
    ty: &SoftType,
    ws: &[ConditionOrPropertyTree],
    behind: Place,
) -> Result<(), ItemFault>
    ensures { OnTaken result (Brings (TakesWritten least s.old [] (abbreviation_of least s.old.context t.now.pattern v ty.now) ws.now behind) s.new os.old os.new) }
{
    let item = abbreviation_of(alloc, &s.context, least, &t.pattern, v, ty)?;
    take_item::<P>(alloc, s, os, least, Text::new(alloc), item, ws, behind)
}

/// Takes the heading of an abbreviation in a block whose loci are the constants from `least` on, with what is written behind it; the first
/// token behind that stands at the place.
///
/// # Errors
/// `BadLoci` at its first token where its loci aren't those that the pattern wants; the refusal of its type; those of `take_item`; or there
/// was no memory.
pub fn take_abbreviation<P: ProveSteps>(
    alloc: Global,
    s: &mut Standing,
    os: &mut Obligations,
    least: u32,
    t: &AbbreviationTree,
    ws: &[ConditionOrPropertyTree],
    behind: Place,
) -> Result<(), ItemFault>
    ensures { OnTaken result (Brings (DefinesAbbreviation least s.old t.now ws.now behind) s.new os.old os.new) }
{
    match mode_visible(alloc, &s.context, least, &t.pattern)? {
        None => Err(ItemFault::Refused(ItemRefusal::BadLoci(t.mode))),
        Some(v) => match read_type(alloc, s, least, &t.ty) {
            Err(fault) => Err(of_reading(fault)),
            Ok(ty) => put_abbreviation::<P>(alloc, s, os, least, t, v, &ty, ws, behind),
        },
    }
}
