//! The walk over the steps of reasonings, with the reasonings that stand in them.
//!
//! Each call puts the obligations that it makes behind the others, in the order of the text, and lowers what the article has
//! left. `first` is the place of a step's first token. After a refusal nothing is said of the context, of the obligations and
//! of what is left.
ghost use Rattle.std.specs.Prelude.{◌≡◌, OnOk};
ghost use Rattle.mz_tree_proof.specs.Reasoning.{steps_of, supposes_of, more_supposes};
ghost use Rattle.mz_parts.specs.Propositions.{label_in};
ghost use Rattle.mz_justified.specs.Answers.{OnMade};
ghost use Rattle.mz_walk.specs.Walked.{state};
ghost use Rattle.mz_walk.specs.Walk.{Justifies, Proves, Says, SaysNow, States, Goes, Splits, Supposes, GoesAll};
ghost use Rattle.mz_walk.specs.Answers.{Brings};
ghost use Rattle.mz_performing.specs.Splits.{TakesCases};
ghost use Rattle.mz_context.specs.Grown.{Grew};
ghost use Rattle.mz_proof.specs.Case.{TakesCase};

use crate::ahead::foresee;
use crate::parts::{case_parts, stated_parts};
use mz_base::place::Place;
use mz_compact::begun::{begin, finish};
use mz_compact::cases::begin_case;
use mz_compact::nows::state_now;
use mz_compact::sides::{justify_sides, place_behind};
use mz_context::context::Context;
use mz_core::outcome::Left;
use mz_core::statement::Statement;
use mz_core::statements::Statements;
use mz_formulas::sentence::Sentence;
use mz_justified::grounds::ground;
use mz_justified::justified::justify_simply;
use mz_justified::proof_fault::{ProofFault, ProofRefusal};
use mz_justified::walker::{Opening, Walker};
use mz_now::now_part::NowParts;
use mz_obligations::obligation::Obligations;
use mz_performing::begun::Begun;
use mz_performing::blocks::{enter_proof, is_proved, leave};
use mz_performing::cases::end_split;
use mz_performing::introductions::introduce;
use mz_performing::linked::is_now;
use mz_skeleton::skeleton::step_on;
use mz_steps::block::Block;
use mz_steps::changes::begin_now;
use mz_tree_proof::reasoning::{
    CompactTree, JustNode, JustTree, StatementNode, StatementTree, StepNode, StepTree, Steps,
    SupposeTree, SupposeTrees,
};
use mz_tree_proof::references::LabelTree;
use mz_tree_proof::skeleton::SplitTree;

/// The justification of a sentence: by references, of the closed sentence, or by a proof, in which its free reserved variables
/// are constants. The context is as before.
#[cycle(walk)]
pub fn justify(
    walker: Walker<'_>,
    ctx: &mut Context,
    opening: Opening,
    behind: Place,
    tree: &JustTree,
    x: &Sentence,
    left: &mut Left,
    os: &mut Obligations,
) -> Result<(), ProofFault>
    ensures justifies { OnMade result (Brings (Justifies walker.entry.env.now walker.entry.at ctx.old opening.first opening.linked behind tree.now x.now left.old) left.new os.old os.new) }
    ensures same { OnOk result (ctx.new ≡ ctx.old) }
{
    match &tree.node {
        JustNode::Simple(t) => justify_simply(walker, ctx, opening, behind, t, &x.closed, left, os),
        JustNode::Proof(_, steps, end) => {
            let aside = enter_proof(walker.alloc, ctx, x)?;
            let outside = Box::new(walker.alloc, aside)?;
            match prove(walker, ctx, steps, *end, left, os) {
                Ok(()) => {
                    leave(ctx, Box::into_inner(outside));
                    Ok(())
                }
                Err(f) => Err(f),
            }
        }
    }
}

/// The steps of a proof of the context's thesis, behind which an `end` stands at the place. What they put into force stays.
#[cycle(walk)]
pub fn prove(
    walker: Walker<'_>,
    ctx: &mut Context,
    steps: &Steps,
    end: Place,
    left: &mut Left,
    os: &mut Obligations,
) -> Result<(), ProofFault>
    ensures proves { OnMade result (Brings (Proves walker.entry.env.now walker.entry.at ctx.old (steps_of steps.now) end left.old) left.new os.old os.new) }
    ensures grows { OnOk result (Grew ctx.old ctx.new) }
{
    let mut block = Block::Proof;
    match go_all(walker, ctx, &mut block, steps, left, os) {
        Ok(()) => {}
        Err(f) => return Err(f),
    }
    if is_proved(ctx) {
        Ok(())
    } else {
        Err(ProofFault::Refused(ProofRefusal::ThesisLeft(end)))
    }
}

/// The equations that its further sides have to justify.
fn further_of(x: &Begun) -> &[Statement]
    ensures { result.now ≡ x.now.compact.said.further }
{
    x.compact.said.further.items.as_slice()
}

/// A compact statement, which is linked where `then` or `hence` stands before it, and concluded behind `thus` and `hence`.
#[cycle(walk)]
fn say(
    walker: Walker<'_>,
    ctx: &mut Context,
    block: &mut Block,
    opening: Opening,
    concluded: bool,
    tree: &CompactTree,
    left: &mut Left,
    os: &mut Obligations,
) -> Result<(), ProofFault>
    ensures { OnMade result (Brings (Says walker.entry.env.now walker.entry.at (state ctx.old block.old left.old) opening.first opening.linked concluded tree.now) (state ctx.new block.new left.new) os.old os.new) }
{
    let (p, just, sides, semicolon) = stated_parts(tree);
    let ks = sides.items.as_slice();
    let begun = match begin(
        walker, ctx, block, opening, concluded, p, just, ks, semicolon, left,
    ) {
        Ok(x) => x,
        Err(f) => return Err(f),
    };
    let x = Box::new(walker.alloc, begun)?;
    let behind = place_behind(ks, semicolon);
    let s = &x.compact.sentence;
    match justify(walker, ctx, opening, behind, just, s, left, os) {
        Ok(()) => {}
        Err(f) => return Err(f),
    }
    let ss = further_of(&x);
    match justify_sides(walker, ctx, opening.first, semicolon, ks, ss, left, os) {
        Ok(()) => {}
        Err(f) => return Err(f),
    }
    finish(walker.alloc, ctx, block, Box::into_inner(x))?;
    Ok(())
}

/// A `now` under the label, where one is written, or `hereby`, by which what its steps state is concluded.
#[cycle(walk)]
fn say_now(
    walker: Walker<'_>,
    ctx: &mut Context,
    block: &mut Block,
    first: Place,
    concluded: bool,
    label: &Option<LabelTree>,
    steps: &Steps,
    left: &mut Left,
    os: &mut Obligations,
) -> Result<(), ProofFault>
    ensures { OnMade result (Brings (SaysNow walker.entry.env.now walker.entry.at (state ctx.old block.old left.old) first concluded (label_in label.now) (steps_of steps.now)) (state ctx.new block.new left.new) os.old os.new) }
{
    let aside = begin_now(walker.alloc, ctx)?;
    let outside = Box::new(walker.alloc, aside)?;
    let parts = NowParts::new(walker.alloc);
    let mut inside = Block::Now(parts);
    match go_all(walker, ctx, &mut inside, steps, left, os) {
        Ok(()) => {}
        Err(f) => return Err(f),
    }
    leave(ctx, Box::into_inner(outside));
    state_now(walker, ctx, block, first, concluded, label, &inside)
}

/// A statement.
#[cycle(walk)]
pub fn state(
    walker: Walker<'_>,
    ctx: &mut Context,
    block: &mut Block,
    first: Place,
    tree: &StatementTree,
    left: &mut Left,
    os: &mut Obligations,
) -> Result<(), ProofFault>
    ensures { OnMade result (Brings (States walker.entry.env.now walker.entry.at (state ctx.old block.old left.old) first tree.now) (state ctx.new block.new left.new) os.old os.new) }
{
    match &tree.node {
        StatementNode::Compact(then, t) => {
            let opening = Opening {
                first,
                linked: then.is_some(),
            };
            say(walker, ctx, block, opening, false, t, left, os)
        }
        StatementNode::Now(label, _, steps, _, _) => {
            say_now(walker, ctx, block, first, false, label, steps, left, os)
        }
        StatementNode::Introduction(t) => { introduce(walker, ctx, block, first, t, left, os) }
    }
}

/// A step.
#[cycle(walk)]
fn go(
    walker: Walker<'_>,
    ctx: &mut Context,
    block: &mut Block,
    first: Place,
    tree: &StepTree,
    left: &mut Left,
    os: &mut Obligations,
) -> Result<(), ProofFault>
    ensures { OnMade result (Brings (Goes walker.entry.env.now walker.entry.at (state ctx.old block.old left.old) first tree.now) (state ctx.new block.new left.new) os.old os.new) }
{
    match &tree.node {
        StepNode::Statement(t) => state(walker, ctx, block, first, t, left, os),
        StepNode::Thus(_, t) => {
            let opening = Opening {
                first,
                linked: false,
            };
            say(walker, ctx, block, opening, true, t, left, os)
        }
        StepNode::Hence(_, t) => {
            let opening = Opening {
                first,
                linked: true,
            };
            say(walker, ctx, block, opening, true, t, left, os)
        }
        StepNode::Hereby(_, steps, _, _) => {
            say_now(walker, ctx, block, first, true, &None, steps, left, os)
        }
        StepNode::Skeleton(t) => step_on(walker.alloc, walker.env, ctx, block, first, t, left),
        StepNode::Cases(t, u, us) => {
            if is_now(block) {
                return Err(ProofFault::Refused(ProofRefusal::StepNoFit(first)));
            }
            split(walker, ctx, block, first, t, u, us, left, os)
        }
    }
}

/// A split into cases: what can be told of it ahead comes first; then what justifies it is looked at, then the cases are taken,
/// and then it is asked, before what they ask, that one of them holds.
#[cycle(walk)]
fn split(
    walker: Walker<'_>,
    ctx: &mut Context,
    block: &Block,
    first: Place,
    tree: &SplitTree,
    case: &SupposeTree,
    more: &SupposeTrees,
    left: &mut Left,
    os: &mut Obligations,
) -> Result<(), ProofFault>
    ensures { OnMade result (Brings (Splits walker.entry.env.now walker.entry.at (state ctx.old block.now left.old) first tree.now (more_supposes case.now (supposes_of more.now))) (state ctx.new block.now left.new) os.old os.new) }
{
    let linked = tree.then.is_some();
    let opening = Opening { first, linked };
    match foresee(walker, ctx, opening, &tree.simple, case, more, left) {
        Ok(()) => {}
        Err(f) => return Err(f),
    }
    let behind = tree.semicolon;
    let given = match ground(walker, ctx, opening, behind, &tree.simple, left) {
        Ok(ss) => ss,
        Err(f) => return Err(f),
    };
    let mut asked = Obligations::new(walker.alloc);
    let mut supposed = Statements::new(walker.alloc);
    match suppose_all(walker, ctx, case, more, left, &mut asked, &mut supposed) {
        Ok(()) => {}
        Err(f) => return Err(f),
    }
    end_split(walker, ctx, first, tree, &given, supposed, asked, os)
}

/// The cases of a split. What they suppose is put behind the statements. The context is as before.
#[cycle(walk)]
fn suppose_all(
    walker: Walker<'_>,
    ctx: &mut Context,
    case: &SupposeTree,
    more: &SupposeTrees,
    left: &mut Left,
    os: &mut Obligations,
    ss: &mut Statements,
) -> Result<(), ProofFault>
    ensures supposes { OnMade result (TakesCases (Supposes walker.entry.env.now walker.entry.at ctx.old (more_supposes case.now (supposes_of more.now)) left.old) left.new ss.old ss.new os.old os.new) }
    ensures same { OnOk result (ctx.new ≡ ctx.old) }
{
    match suppose(walker, ctx, case, left, os, ss) {
        Ok(()) => {}
        Err(f) => return Err(f),
    }
    for t in &more.items {
        match suppose(walker, ctx, t, left, os, ss) {
            Ok(()) => {}
            Err(f) => return Err(f),
        }
    }
    Ok(())
}

/// A case of a split. What it supposes is put behind the statements. The context is as before.
#[cycle(walk)]
fn suppose(
    walker: Walker<'_>,
    ctx: &mut Context,
    tree: &SupposeTree,
    left: &mut Left,
    os: &mut Obligations,
    ss: &mut Statements,
) -> Result<(), ProofFault>
    ensures supposes { OnMade result (TakesCase walker.entry.env.now walker.entry.at ctx.old tree.now left.old left.new ss.old ss.new os.old os.new) }
    ensures same { OnOk result (ctx.new ≡ ctx.old) }
{
    let (first, hypotheses, _, steps, end, _) = case_parts(tree);
    let aside = match begin_case(walker, ctx, first, hypotheses, left, ss) {
        Ok(o) => o,
        Err(f) => return Err(f),
    };
    let aside = Box::new(walker.alloc, aside)?;
    match prove(walker, ctx, steps, end, left, os) {
        Ok(()) => {
            leave(ctx, Box::into_inner(aside));
            Ok(())
        }
        Err(f) => Err(f),
    }
}

/// Steps one after another.
#[cycle(walk)]
fn go_all(
    walker: Walker<'_>,
    ctx: &mut Context,
    block: &mut Block,
    steps: &Steps,
    left: &mut Left,
    os: &mut Obligations,
) -> Result<(), ProofFault>
    ensures { OnMade result (Brings (GoesAll walker.entry.env.now walker.entry.at (state ctx.old block.old left.old) (steps_of steps.now)) (state ctx.new block.new left.new) os.old os.new) }
{
    for step in &steps.items {
        let first = step.first_place();
        match go(walker, ctx, block, first, step, left, os) {
            Ok(()) => {}
            Err(f) => return Err(f),
        }
    }
    Ok(())
}
