//! Blocks of definitions: their loci and headings, one after another.
ghost use Rattle.std.specs.Prelude.{◌≡◌, IfOk};
ghost use Rattle.mz_context.specs.Context.{next};
ghost use Rattle.mz_define.specs.Defines.{first_of_heading, first_of_part, first_of_parts, with_places, TakesPart, Defines};
ghost use Rattle.mz_define.specs.Headings.{Heads};
ghost use Rattle.mz_loci.specs.Loci.{behind_loci};
ghost use Rattle.mz_standing.specs.Standing.{with_context};
ghost use Rattle.mz_taken.specs.Answers.{OnTaken, Brings};
ghost use Rattle.mz_taken.specs.OneByOne.{OneByOne};

use mz_base::place::Place;
use mz_context::context::Context;
use mz_heading::atoms::{take_attribute, take_predicate};
use mz_heading::functors::take_functor;
use mz_heading::headed::not_built;
use mz_heading::modes::{take_abbreviation, take_mode};
use mz_let::loci::take_let;
use mz_loci::loci::end_loci;
use mz_obligations::obligation::Obligations;
use mz_standing::standing::Standing;
use mz_structure::struct_items::StructItems;
use mz_taken::item_fault::ItemFault;
use mz_tree_heading::heading::HeadingTree;
use mz_tree_item::definition::{ConditionOrPropertyTree, DefinitionPartTree, DefinitionTree};
use mz_walk::prove_steps::ProveSteps;
use std::alloc::{AllocError, Global};

fn first_of_heading(t: &HeadingTree) -> Place
    ensures { result ≡ first_of_heading t.now }
{
    match t {
        HeadingTree::Functor(t) => t.func,
        HeadingTree::Predicate(t) => t.pred,
        HeadingTree::Attribute(t) => t.attr,
        HeadingTree::Mode(t) => t.mode,
        HeadingTree::Abbreviation(t) => t.mode,
        HeadingTree::Structure(t) => t.struct_,
        HeadingTree::RedefinedFunctor { redefine, .. } => *redefine,
        HeadingTree::RedefinedPredicate { redefine, .. } => *redefine,
        HeadingTree::RedefinedAttribute { redefine, .. } => *redefine,
        HeadingTree::RedefinedMode { redefine, .. } => *redefine,
    }
}

fn first_of_part(p: &DefinitionPartTree) -> Place
    ensures { result ≡ first_of_part p.now }
{
    match p {
        DefinitionPartTree::Let(t) => t.let_,
        DefinitionPartTree::Heading { heading, .. } => first_of_heading(heading),
    }
}

/// The place of the first token of parts behind which `end` stands at the place.
fn first_of_parts(end: Place, ps: &[DefinitionPartTree]) -> Place
    ensures { result ≡ first_of_parts end ps.now }
{
    match ps.split_first() {
        None => end,
        Some((p, _)) => first_of_part(p),
    }
}

/// A heading, with the conditions and properties behind it; the first token behind these stands at the place.
#[tactic(auto, using(crate::proofs::BlockLemmas::heading_rules))]
fn take_heading<S: StructItems, P: ProveSteps>(
    alloc: Global,
    s: &mut Standing,
    os: &mut Obligations,
    least: u32,
    t: &HeadingTree,
    ws: &[ConditionOrPropertyTree],
    behind: Place,
) -> Result<(), ItemFault>
    ensures { OnTaken result (Brings (Heads least s.old behind t.now ws.now) s.new os.old os.new) }
{
    match t {
        HeadingTree::Predicate(t) => take_predicate::<P>(alloc, s, os, least, t, ws, behind),
        HeadingTree::Structure(t) => S::structure(alloc, least, s, os, t, ws),
        HeadingTree::Functor(t) => take_functor::<P>(alloc, s, os, least, t, ws, behind),
        HeadingTree::Attribute(t) => take_attribute::<P>(alloc, s, os, least, t, ws, behind),
        HeadingTree::Mode(t) => take_mode::<P>(alloc, s, os, least, t, ws, behind),
        HeadingTree::Abbreviation(t) => {
            take_abbreviation::<P>(alloc, s, os, least, t, ws, behind)
        }
        HeadingTree::RedefinedFunctor { redefine, .. } => Err(not_built(*redefine)),
        HeadingTree::RedefinedPredicate { redefine, .. } => Err(not_built(*redefine)),
        HeadingTree::RedefinedAttribute { redefine, .. } => Err(not_built(*redefine)),
        HeadingTree::RedefinedMode { redefine, .. } => Err(not_built(*redefine)),
    }
}

/// A part of a block; the first token behind it stands at the place.
fn take_part<S: StructItems, P: ProveSteps>(
    alloc: Global,
    s: &mut Standing,
    os: &mut Obligations,
    least: u32,
    part: &DefinitionPartTree,
    behind: Place,
) -> Result<(), ItemFault>
    ensures { OnTaken result (Brings (TakesPart least s.old (part.now, behind)) s.new os.old os.new) }
{
    match part {
        DefinitionPartTree::Let(t) => take_let(alloc, s, least, t),
        DefinitionPartTree::Heading {
            heading,
            conditions,
        } => take_heading::<S, P>(
            alloc,
            s,
            os,
            least,
            heading,
            conditions.items.as_slice(),
            behind,
        ),
    }
}

/// Parts one after another, behind which `end` stands at the place.
fn take_parts<S: StructItems, P: ProveSteps>(
    alloc: Global,
    s: &mut Standing,
    os: &mut Obligations,
    least: u32,
    end: Place,
    parts: &[DefinitionPartTree],
) -> Result<(), ItemFault>
    ensures { OnTaken result (Brings (OneByOne (TakesPart least) s.old (with_places end parts.now)) s.new os.old os.new) }
{
    let mut rest = parts;
    while let Some((part, others)) = rest.split_first() {
        let behind = first_of_parts(end, others);
        match take_part::<S, P>(alloc, s, os, least, part, behind) {
            Ok(()) => rest = others,
            Err(fault) => return Err(fault),
        }
    }
    Ok(())
}

/// All parts of a block.
fn take_all<S: StructItems, P: ProveSteps>(
    alloc: Global,
    s: &mut Standing,
    os: &mut Obligations,
    least: u32,
    t: &DefinitionTree,
) -> Result<(), ItemFault>
    ensures { OnTaken result (Brings (OneByOne (TakesPart least) s.old (with_places t.now.end t.now.parts)) s.new os.old os.new) }
{
    take_parts::<S, P>(alloc, s, os, least, t.end, t.parts.items.as_slice())
}

/// The number of the next constant.
fn next(ctx: &Context) -> Result<u32, AllocError>
    ensures { IfOk result (λ n. n ≡ next ctx.now) }
{
    u32::try_from(ctx.next()).map_err(|_| AllocError)
}

fn end(s: &mut Standing, least: u32)
    ensures { s.new ≡ with_context s.old (behind_loci s.old.context least) }
{
    end_loci(&mut s.context, least);
}

/// Takes a block of definitions, with its structures by `S` and its proofs by `P`. Its obligations are put behind the others.
///
/// # Errors
/// The first refusal in the order of the text, with its place; or there was no memory.
pub fn take_block<S: StructItems, P: ProveSteps>(
    alloc: Global,
    s: &mut Standing,
    os: &mut Obligations,
    t: &DefinitionTree,
) -> Result<(), ItemFault>
    ensures { OnTaken result (Brings (Defines s.old t.now) s.new os.old os.new) }
{
    let least = next(&s.context)?;
    match take_all::<S, P>(alloc, s, os, least, t) {
        Ok(()) => {
            end(s, least);
            Ok(())
        }
        Err(fault) => Err(fault),
    }
}
