//! Statements that introduce names: `consider`, `reconsider`, `set`, `deffunc` and `defpred`.
ghost use Rattle.std.specs.Prelude.{◌≡◌, ◌∷◌, [], map, true, is_some, Some, None, IfOk, OnOk};
ghost use Rattle.std.specs.Bool.{OnTrue, OnFalse};
ghost use Rattle.mz_core.specs.declared.outcome.Left.{Left};
ghost use Rattle.mz_context.specs.Context.{next};
ghost use Rattle.mz_names.specs.Closing.{there_are};
ghost use Rattle.mz_cited.specs.Cited.{members, tree_of};
ghost use Rattle.mz_steps.specs.declared.read_step.ReadStep.TheVariants as read;
ghost use Rattle.mz_justified.specs.Answers.{OnMade};
ghost use Rattle.mz_justified.specs.Kept.{justifications_keep};
ghost use Rattle.mz_justified.specs.Justified.{Justified, Put};
ghost use Rattle.mz_walk.specs.Walked.{state, OneByOne};
ghost use Rattle.mz_walk.specs.Performing.{Performs};
ghost use Rattle.mz_walk.specs.Introductions.{spent_for, OwesEach, JustifiesEach, Considers, types_owed, Retypes, Reconsiders, SetsOne, Introduces};
ghost use Rattle.mz_walk.specs.Answers.{reached, IsBrought, Brings};

use crate::fault::resolved;
use crate::linked::is_linked;
use crate::perform::{perform, perform_all, perform_alone};
use crate::private::{define_functor, define_predicate};
use crate::read_steps::reconsider_steps;
use mz_base::place::Place;
use mz_context::context::Context;
use mz_core::outcome::Left;
use mz_core::statement::Statement;
use mz_core::statements::Statements;
use mz_core::type_statements::is_of_type;
use mz_given::given::Given;
use mz_justified::grounds::{ground, place_of};
use mz_justified::justified::{justify_simply, oblige};
use mz_justified::kept::justifications_keep;
use mz_justified::proof_fault::{ProofFault, ProofRefusal};
use mz_justified::walker::{Opening, Walker};
use mz_names::refusal::Refusal;
use mz_obligations::obligation::Obligations;
use mz_obligations::spend_obligation::spend_obligation;
use mz_parts::definitions::Definitions;
use mz_parts::described::{Description, describe};
use mz_parts::named::read_named;
use mz_parts::retyped::read_reconsidered;
use mz_sizes::keeps::statement_keeps;
use mz_steps::block::Block;
use mz_steps::read_step::ReadStep;
use mz_steps::rows::existential;
use mz_tree::chain::Next;
use mz_tree::lists::Separated;
use mz_tree::word::Comma;
use mz_tree_proof::introduction::{ConsiderTree, IntroductionTree, NamedTermTree, ReconsiderTree};
use mz_tree_proof::references::SimpleTree;
use std::alloc::{AllocError, Global};

/// Takes an obligation off what the article has left for each statement; false where it has fewer.
#[tactic(auto, using(crate::proofs::EachLemmas::spend_rules))]
fn spend_each(left: &mut Left, ss: &[Statement]) -> bool
    ensures spent { OnTrue result (spent_for ss.now left.old ≡ Some left.new) }
    ensures fewer { OnFalse result (spent_for ss.now left.old ≡ None) }
{
    let mut rest = ss;
    while let Some((_s, others)) = rest.split_first() {
        if !spend_obligation(left) {
            return false;
        }
        rest = others;
    }
    true
}

/// Puts the obligations of the statements, by what is given, behind the others.
#[tactic(auto, using(crate::proofs::EachLemmas::oblige_rules))]
fn oblige_each(
    walker: Walker<'_>,
    ctx: &Context,
    given: &Given,
    ss: &[Statement],
    place: Place,
    os: &mut Obligations,
) -> Result<(), AllocError>
    ensures { OnOk result (IsBrought (OwesEach walker.entry.env.now walker.entry.at ctx.now given.now place ss.now) os.old os.new) }
{
    let mut rest = ss;
    while let Some((s, others)) = rest.split_first() {
        oblige(walker, ctx, given, s, place, os)?;
        rest = others;
    }
    Ok(())
}

/// The same of statements for which the justification makes no instance that is too large.
///
/// Refusals, in this order: `TooManyObligations` at the justification where fewer are left than there are statements, and
/// those of the references.
#[tactic(auto, using(crate::proofs::EachLemmas::justify_rules))]
fn justify_kept(
    walker: Walker<'_>,
    ctx: &Context,
    opening: Opening,
    behind: Place,
    tree: &SimpleTree,
    ss: &Statements,
    left: &mut Left,
    os: &mut Obligations,
) -> Result<(), ProofFault>
    requires { justifications_keep walker.env.now ctx.now opening.linked tree.now ss.now ≡ true }
    ensures { OnMade result (Brings (λ o. JustifiesEach walker.entry.env.now walker.entry.at ctx.now opening.first opening.linked behind tree.now ss.now left.old o) left.new os.old os.new) }
{
    match ss.items.as_slice().split_first() {
        None => Ok(()),
        Some((_, more)) => {
            if !spend_each(left, more) {
                let place = place_of(behind, tree);
                return Err(ProofFault::Refused(ProofRefusal::TooManyObligations(place)));
            }
            match ground(walker, ctx, opening, behind, tree, left) {
                Ok(given) => {
                    let place = place_of(behind, tree);
                    oblige_each(walker, ctx, &given, ss.items.as_slice(), place, os)?;
                    Ok(())
                }
                Err(f) => Err(f),
            }
        }
    }
}

/// Puts the obligations of the statements, which are all justified by the same references, behind the others.
///
/// Refusals, in this order: `TooLarge` at the step where an instance of a scheme for one of them is beyond the limits;
/// `TooManyObligations` at the justification where fewer are left than there are statements, and those of the references.
#[tactic(auto, using(crate::proofs::EachLemmas::large_rules))]
fn justify_each(
    walker: Walker<'_>,
    ctx: &Context,
    opening: Opening,
    behind: Place,
    tree: &SimpleTree,
    ss: &Statements,
    left: &mut Left,
    os: &mut Obligations,
) -> Result<(), ProofFault>
    ensures { OnMade result (Brings (λ o. JustifiesEach walker.entry.env.now walker.entry.at ctx.now opening.first opening.linked behind tree.now ss.now left.old o) left.new os.old os.new) }
{
    let linked = opening.linked;
    let kept = justifications_keep(walker, ctx, linked, tree, ss.items.as_slice())?;
    if !kept {
        return Err(ProofFault::too_large(opening.first));
    }
    justify_kept(walker, ctx, opening, behind, tree, ss, left, os)
}

/// The obligation that there are such objects.
#[tactic(auto, using(crate::proofs::ConsiderLemmas::existential_rules))]
fn justify_existential(
    walker: Walker<'_>,
    ctx: &Context,
    first: Place,
    tree: &ConsiderTree,
    d: &Description,
    left: &mut Left,
    os: &mut Obligations,
) -> Result<(), ProofFault>
    ensures { OnMade result (Put (λ o. Justified walker.entry.env.now walker.entry.at ctx.now first (is_some tree.now.then) tree.now.semicolon tree.now.simple (there_are (next ctx.now) d.now.variables d.now.statement) left.old o left.new) os.old os.new) }
{
    let s = existential(walker.alloc, ctx, &d.variables, &d.statement)?;
    let linked = tree.then.is_some();
    let opening = Opening { first, linked };
    let behind = tree.semicolon;
    justify_simply(walker, ctx, opening, behind, &tree.simple, &s, left, os)
}

/// `consider x being T such that A`, as it was read.
#[tactic(auto, using(crate::proofs::SkeletonLemmas::given_step_rules))]
fn consider(
    walker: Walker<'_>,
    ctx: &mut Context,
    block: &mut Block,
    first: Place,
    d: Description,
) -> Result<(), ProofFault>
    ensures { (l : Left) → OnMade result (λ o. Performs walker.entry.env.now first (state ctx.old block.old l) (read.Consider d.variables d.statement) d.propositions (reached o (state ctx.new block.new l))) }
{
    let step = ReadStep::Consider(d.variables, d.statement);
    perform(
        walker.alloc,
        walker.env,
        ctx,
        block,
        first,
        &step,
        &d.propositions,
    )
}

/// `consider x being T such that A`: it is read, it is justified that there is such an object, and then it is in force.
#[tactic(auto, using(crate::proofs::ConsiderLemmas::consider_rules))]
fn considers(
    walker: Walker<'_>,
    ctx: &mut Context,
    block: &mut Block,
    first: Place,
    tree: &ConsiderTree,
    left: &mut Left,
    os: &mut Obligations,
) -> Result<(), ProofFault>
    ensures { OnMade result (Brings (λ o. Considers walker.entry.env.now walker.entry.at first (state ctx.old block.old left.old) tree.now o) (state ctx.new block.new left.new) os.old os.new) }
{
    if !is_linked(tree.then.is_some(), ctx) {
        return Err(ProofFault::Refused(ProofRefusal::StepNoFit(first)));
    }
    let propositions = &tree.such.propositions;
    match describe(
        walker.alloc,
        walker.env,
        ctx,
        0,
        first,
        &tree.declarations,
        propositions,
        left,
    ) {
        Ok(d) => match justify_existential(walker, ctx, first, tree, &d, left, os) {
            Ok(()) => consider(walker, ctx, block, first, d),
            Err(f) => Err(f),
        },
        Err(f) => Err(resolved(f)),
    }
}

/// That the terms are of their types. None where one of these statements is beyond the limits.
#[tactic(auto, using(crate::proofs::ReconsiderLemmas::owed_rules))]
fn types_owed(alloc: Global, ds: &Definitions) -> Result<Option<Statements>, AllocError>
    ensures { IfOk result (λ o. o ≡ types_owed ds.now) }
{
    let mut out = Statements::new(alloc);
    let mut rest = ds.items.as_slice();
    while let Some((d, others)) = rest.split_first() {
        let s = is_of_type(alloc, &d.ty, &d.term)?;
        if !statement_keeps(&s) {
            return Ok(None);
        }
        out.push(s)?;
        rest = others;
    }
    Ok(Some(out))
}

/// `reconsider x = t as T`, as it was read: for each name it is justified that its term is of the type, and then the names are
/// in force.
#[tactic(auto, using(crate::proofs::ReconsiderLemmas::retype_rules))]
fn reconsider(
    walker: Walker<'_>,
    ctx: &mut Context,
    block: &mut Block,
    first: Place,
    tree: &ReconsiderTree,
    ds: &Definitions,
    left: &mut Left,
    os: &mut Obligations,
) -> Result<(), ProofFault>
    ensures { OnMade result (Brings (λ o. Retypes walker.entry.env.now walker.entry.at first (state ctx.old block.old left.old) tree.now ds.now o) (state ctx.new block.new left.new) os.old os.new) }
{
    match types_owed(walker.alloc, ds)? {
        None => Err(ProofFault::Refused(ProofRefusal::Resolve(Refusal::TooLarge(first)))),
        Some(ss) => {
            let linked = tree.then.is_some();
            let opening = Opening { first, linked };
            let behind = tree.semicolon;
            match justify_each(walker, ctx, opening, behind, &tree.simple, &ss, left, os) {
                Ok(()) => {
                    let steps = reconsider_steps(walker.alloc, ds)?;
                    perform_all(walker.alloc, walker.env, ctx, block, first, &steps)
                }
                Err(f) => Err(f),
            }
        }
    }
}

/// `reconsider x = t as T`: all terms are read, then the type, and then it is justified for each name.
#[tactic(auto, using(crate::proofs::ReconsiderLemmas::reconsider_rules))]
fn reconsiders(
    walker: Walker<'_>,
    ctx: &mut Context,
    block: &mut Block,
    first: Place,
    tree: &ReconsiderTree,
    left: &mut Left,
    os: &mut Obligations,
) -> Result<(), ProofFault>
    ensures { OnMade result (Brings (λ o. Reconsiders walker.entry.env.now walker.entry.at first (state ctx.old block.old left.old) tree.now o) (state ctx.new block.new left.new) os.old os.new) }
{
    if !is_linked(tree.then.is_some(), ctx) {
        return Err(ProofFault::Refused(ProofRefusal::StepNoFit(first)));
    }
    match read_reconsidered(
        walker.alloc,
        walker.env,
        ctx,
        0,
        &tree.retyped,
        &tree.ty,
        left,
    ) {
        Ok(ds) => reconsider(walker, ctx, block, first, tree, &ds, left, os),
        Err(f) => Err(resolved(f)),
    }
}

/// A name for a term.
#[tactic(auto, using(crate::proofs::SetLemmas::set_rules))]
fn set_one(
    walker: Walker<'_>,
    ctx: &mut Context,
    block: &mut Block,
    first: Place,
    tree: &NamedTermTree,
    left: &mut Left,
) -> Result<(), ProofFault>
    ensures { OnMade result (λ o. SetsOne walker.entry.env.now first (state ctx.old block.old left.old) tree.now (reached o (state ctx.new block.new left.new))) }
{
    match read_named(walker.alloc, walker.env, ctx, 0, tree, left) {
        Ok(d) => perform_alone(
            walker.alloc,
            walker.env,
            ctx,
            block,
            first,
            &ReadStep::Set(d),
        ),
        Err(f) => Err(resolved(f)),
    }
}

/// Further names, one by one.
#[tactic(auto, using(crate::proofs::SetLemmas::each_rules))]
fn set_each(
    walker: Walker<'_>,
    ctx: &mut Context,
    block: &mut Block,
    first: Place,
    trees: &[Next<Comma, NamedTermTree>],
    left: &mut Left,
) -> Result<(), ProofFault>
    ensures { OnMade result (λ o. OneByOne (SetsOne walker.entry.env.now first) (state ctx.old block.old left.old) (map tree_of trees.now) (reached o (state ctx.new block.new left.new))) }
{
    let mut rest = trees;
    while let Some((next, others)) = rest.split_first() {
        match set_one(walker, ctx, block, first, &next.tree, left) {
            Ok(()) => rest = others,
            Err(f) => return Err(f),
        }
    }
    Ok(())
}

/// All names, one by one.
#[tactic(auto, using(crate::proofs::SetLemmas::all_rules))]
fn set_all(
    walker: Walker<'_>,
    ctx: &mut Context,
    block: &mut Block,
    first: Place,
    trees: &Separated<NamedTermTree>,
    left: &mut Left,
) -> Result<(), ProofFault>
    ensures { OnMade result (λ o. OneByOne (SetsOne walker.entry.env.now first) (state ctx.old block.old left.old) (members trees.now) (reached o (state ctx.new block.new left.new))) }
{
    match set_one(walker, ctx, block, first, &trees.first, left) {
        Ok(()) => set_each(walker, ctx, block, first, trees.more.items.as_slice(), left),
        Err(f) => Err(f),
    }
}

/// A statement that introduces names. The obligations are put behind the others. Behind `then` a statement just before is
/// wanted: without one it is refused with `StepNoFit` at its place, before it is read.
#[tactic(auto, using(crate::proofs::SetLemmas::introduce_rules))]
pub fn introduce(
    walker: Walker<'_>,
    ctx: &mut Context,
    block: &mut Block,
    first: Place,
    tree: &IntroductionTree,
    left: &mut Left,
    os: &mut Obligations,
) -> Result<(), ProofFault>
    ensures { OnMade result (Brings (λ o. Introduces walker.entry.env.now walker.entry.at first (state ctx.old block.old left.old) tree.now o) (state ctx.new block.new left.new) os.old os.new) }
{
    match tree {
        IntroductionTree::Consider(t) => { considers(walker, ctx, block, first, t, left, os) }
        IntroductionTree::Reconsider(t) => { reconsiders(walker, ctx, block, first, t, left, os) }
        IntroductionTree::Set(t) => set_all(walker, ctx, block, first, &t.named, left),
        IntroductionTree::Deffunc(t) => define_functor(walker, ctx, block, t, left),
        IntroductionTree::Defpred(t) => define_predicate(walker, ctx, block, t, left),
    }
}
