//! Compact statements as they are read: a proposition, or an iterative equality t0 = t1 .= t2 .. .= tn.
ghost use Rattle.std.specs.Prelude.{◌≡◌, [], IfOk};
ghost use Rattle.mz_justified.specs.Answers.{OnMade};
ghost use Rattle.mz_walk.specs.Compact.{saying, compact, SaidBy, EqualityRead, CompactRead};

use crate::equalities::equality_made;
use mz_base::place::Place;
use mz_context::context::Context;
use mz_core::outcome::Left;
use mz_core::statements::Statements;
use mz_formulas::sentence::Sentence;
use mz_justified::proof_fault::ProofFault;
use mz_justified::walker::Walker;
use mz_parts::retyped::read_sides;
use mz_performing::fault::resolved;
use mz_resolve::calls::sentence;
use mz_steps::rows::next_number;
use mz_tree_proof::equality_step::EqualityStepTree;
use mz_tree_proof::propositions::PropositionTree;
use mz_walk::compact::{Compact, Said};
use std::alloc::{AllocError, Global};

fn plain(alloc: Global, s: Sentence) -> Result<Compact, AllocError>
    ensures { IfOk result (λ x. x ≡ compact s (saying s.closed [])) }
{
    let states = s.closed.copy(alloc)?;
    let further = Statements::new(alloc);
    Ok(Compact {
        sentence: s,
        said: Said { states, further },
    })
}

/// What is said by a sentence with further sides, which are all read before anything is made of them. The context is as before.
#[tactic(auto, using(crate::proofs::CompactLemmas::equality_rules))]
fn read_equality(
    walker: Walker<'_>,
    ctx: &mut Context,
    first: Place,
    s: &Sentence,
    sides: &[EqualityStepTree],
    left: &mut Left,
) -> Result<Said, ProofFault>
    ensures reads { OnMade result (λ o. EqualityRead walker.entry.env.now ctx.old first left.old s.now sides.now o left.new) }
    ensures same { ctx.new ≡ ctx.old }
{
    match read_sides(walker.alloc, walker.env, ctx, 0, &s.variables, sides, left) {
        Ok(us) => {
            let n = next_number(ctx)?;
            match equality_made(walker.alloc, first, n, s, &us)? {
                Ok(said) => Ok(said),
                Err(r) => Err(ProofFault::Refused(r)),
            }
        }
        Err(f) => Err(resolved(f)),
    }
}

/// A compact statement with further sides.
#[tactic(auto, using(crate::proofs::CompactLemmas::iterative_rules))]
fn read_iterative(
    walker: Walker<'_>,
    ctx: &mut Context,
    first: Place,
    s: Sentence,
    sides: &[EqualityStepTree],
    left: &mut Left,
) -> Result<Compact, ProofFault>
    ensures reads { OnMade result (λ o. SaidBy walker.entry.env.now ctx.old first left.old s sides.now o left.new) }
    ensures same { ctx.new ≡ ctx.old }
{
    match read_equality(walker, ctx, first, &s, sides, left) {
        Ok(said) => Ok(Compact { sentence: s, said }),
        Err(f) => Err(f),
    }
}

/// A compact statement: its sentence is read, and then its further sides, where there are some. The context is as before.
///
/// Refusals: those of the sentence and of the sides; where there are further sides, `StepNoFit` at the step where the sentence
/// is no equation, and `TooLarge` there where what is made of them is beyond the limits.
#[tactic(auto, using(crate::proofs::CompactLemmas::compact_rules))]
pub fn read_compact(
    walker: Walker<'_>,
    ctx: &mut Context,
    first: Place,
    tree: &PropositionTree,
    sides: &[EqualityStepTree],
    left: &mut Left,
) -> Result<Compact, ProofFault>
    ensures reads { OnMade result (λ o. CompactRead walker.entry.env.now ctx.old first left.old tree.now sides.now o left.new) }
    ensures same { ctx.new ≡ ctx.old }
{
    match sentence(walker.alloc, walker.env, ctx, 0, &tree.formula, left) {
        Ok(s) => match sides.split_first() {
            None => {
                let x = plain(walker.alloc, s)?;
                Ok(x)
            }
            Some(_) => read_iterative(walker, ctx, first, s, sides, left),
        },
        Err(f) => Err(resolved(f)),
    }
}
