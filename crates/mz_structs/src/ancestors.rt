//! The ancestors of a structure, read one after another.
ghost use Rattle.std.specs.Prelude.{◌≡◌, ◌++◌, [], map, IfOk, OnOk};
ghost use Rattle.mz_cited.specs.Cited.{tree_of, members};
ghost use Rattle.mz_structure.specs.Fields.{reading, no_ancestry, ReadsAncestor};
ghost use Rattle.mz_structure.specs.Structures.{ancestor_trees};
ghost use Rattle.mz_structure_items.specs.Selectors.{selectors_of_type};
ghost use Rattle.mz_structs.specs.Ends.{AncestorEnds};
ghost use Rattle.mz_taken.specs.Answers.{OnTaken, Leads};
ghost use Rattle.mz_taken.specs.OneByOne.{OneByOne};

use mz_base::place::Place;
use mz_base::text::Text;
use mz_context::context::Context;
use mz_core::outcome::Left;
use mz_core::soft_type::SoftType;
use mz_core::soft_types::SoftTypes;
use mz_environment::environment::Environment;
use mz_environment::structures::Structures;
use mz_resolve::calls::type_of;
use mz_structure::ancestry::Ancestry;
use mz_structure_items::selectors::{
    NamedSelectors, are_fields, push_selectors, selectors_of_type,
};
use mz_taken::item_fault::{ItemFault, ItemRefusal, of_reading};
use mz_tree::chain::Next;
use mz_tree::expressions::TypeTree;
use mz_tree::lists::Separated;
use mz_tree::word::Comma;
use mz_tree_heading::structure::AncestorsTree;
use std::alloc::Global;

/// No ancestors yet.
pub fn no_ancestry(alloc: Global) -> Ancestry
    ensures { result ≡ no_ancestry }
{
    Ancestry {
        types: SoftTypes::new(alloc),
        inherited: NamedSelectors::new(alloc),
    }
}

/// Puts an ancestor, whose first token stands at the place, behind the others: each of its selectors has to be a field.
#[tactic(auto, using(crate::proofs::AncestorLemmas::end_rules))]
fn put_ancestor(
    alloc: Global,
    all: &Structures,
    names: &[Text],
    out: &mut Ancestry,
    place: Place,
    ty: SoftType,
) -> Result<(), ItemFault>
    ensures { OnTaken result (AncestorEnds names.now out.old out.new place ty (selectors_of_type all.now ty)) }
{
    let own = selectors_of_type(alloc, all, &ty)?;
    push_selectors(alloc, &mut out.inherited, own.items.as_slice())?;
    let fit = are_fields(names, out.inherited.items.as_slice(), own.items.as_slice());
    if !fit {
        return Err(ItemFault::Refused(ItemRefusal::AncestorUnfit(place)));
    }
    out.types.push(ty)?;
    Ok(())
}

/// Reads an ancestor of a structure whose fields have these names.
fn read_ancestor(
    alloc: Global,
    env: &Environment,
    ctx: &mut Context,
    least: u32,
    names: &[Text],
    t: &TypeTree,
    out: &mut Ancestry,
    left: &mut Left,
) -> Result<(), ItemFault>
    ensures reads { OnTaken result (Leads (ReadsAncestor env.now ctx.old least names.now (reading out.old left.old) t.now) (reading out.new left.new)) }
    ensures same { ctx.new ≡ ctx.old }
{
    match type_of(alloc, env, ctx, least, t, left) {
        Err(fault) => Err(of_reading(fault)),
        Ok(ty) => put_ancestor(alloc, &env.structures, names, out, t.first_place(), ty),
    }
}

/// So with further ancestors.
fn read_further(
    alloc: Global,
    env: &Environment,
    ctx: &mut Context,
    least: u32,
    names: &[Text],
    ts: &[Next<Comma, TypeTree>],
    out: &mut Ancestry,
    left: &mut Left,
) -> Result<(), ItemFault>
    ensures reads { OnTaken result (Leads (OneByOne (ReadsAncestor env.now ctx.old least names.now) (reading out.old left.old) (map tree_of ts.now)) (reading out.new left.new)) }
    ensures same { ctx.new ≡ ctx.old }
{
    match ts.split_first() {
        None => Ok(()),
        Some((t, others)) => {
            match read_ancestor(alloc, env, ctx, least, names, &t.tree, out, left) {
                Err(fault) => Err(fault),
                Ok(()) => read_further(alloc, env, ctx, least, names, others, out, left),
            }
        }
    }
}

fn first_of(ts: &Separated<TypeTree>) -> &TypeTree
    ensures { result.now ≡ ts.now.first }
{
    &ts.first
}

fn others_of(ts: &Separated<TypeTree>) -> &[Next<Comma, TypeTree>]
    ensures { result.now ≡ ts.now.more }
{
    ts.more.items.as_slice()
}

fn read_members(
    alloc: Global,
    env: &Environment,
    ctx: &mut Context,
    least: u32,
    names: &[Text],
    ts: &Separated<TypeTree>,
    out: &mut Ancestry,
    left: &mut Left,
) -> Result<(), ItemFault>
    ensures reads { OnTaken result (Leads (OneByOne (ReadsAncestor env.now ctx.old least names.now) (reading out.old left.old) (members ts.now)) (reading out.new left.new)) }
    ensures same { ctx.new ≡ ctx.old }
{
    let first = first_of(ts);
    let others = others_of(ts);
    match read_ancestor(alloc, env, ctx, least, names, first, out, left) {
        Err(fault) => Err(fault),
        Ok(()) => read_further(alloc, env, ctx, least, names, others, out, left),
    }
}

/// Reads the ancestors of a structure, if it has any, whose fields have these names. The context is as before.
pub fn read_ancestors(
    alloc: Global,
    env: &Environment,
    ctx: &mut Context,
    least: u32,
    names: &[Text],
    t: &Option<AncestorsTree>,
    out: &mut Ancestry,
    left: &mut Left,
) -> Result<(), ItemFault>
    ensures reads { OnTaken result (Leads (OneByOne (ReadsAncestor env.now ctx.old least names.now) (reading out.old left.old) (ancestor_trees t.now)) (reading out.new left.new)) }
    ensures same { ctx.new ≡ ctx.old }
{
    match t {
        None => Ok(()),
        Some(t) => read_members(alloc, env, ctx, least, names, &t.types, out, left),
    }
}
