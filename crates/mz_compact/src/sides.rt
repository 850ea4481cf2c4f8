//! How the further sides of an iterative equality are justified.
ghost use Rattle.std.specs.Prelude.{◌≡◌, length, IfOk};
ghost use Rattle.mz_justified.specs.Answers.{OnMade};
ghost use Rattle.mz_walk.specs.Compact.{place_behind, sides_keep, JustifiesSides};
ghost use Rattle.mz_walk.specs.Answers.{Brings};

use mz_base::place::Place;
use mz_context::context::Context;
use mz_core::outcome::Left;
use mz_core::statement::Statement;
use mz_justified::justified::justify_simply;
use mz_justified::kept::justification_keeps;
use mz_justified::proof_fault::ProofFault;
use mz_justified::walker::{Opening, Walker};
use mz_obligations::obligation::Obligations;
use mz_tree_proof::equality_step::EqualityStepTree;
use std::alloc::AllocError;

/// The place of the token behind an equation: the sign before the next side, or the semicolon.
pub fn place_behind(sides: &[EqualityStepTree], semicolon: Place) -> Place
    ensures { result ≡ place_behind sides.now semicolon }
{
    match sides.split_first() {
        Some((k, _)) => k.sign,
        None => semicolon,
    }
}

/// Whether the instances that the justifications of further sides make for their equations have at most 65,536 nodes and a depth of at
/// most 512 each.
#[tactic(auto, using(crate::proofs::SideLemmas::keep_rules))]
pub fn sides_keep(
    walker: Walker<'_>,
    ctx: &Context,
    sides: &[EqualityStepTree],
    ss: &[Statement],
) -> Result<bool, AllocError>
    ensures { IfOk result (λ b. b ≡ sides_keep walker.entry.env.now ctx.now sides.now ss.now) }
{
    let mut rest = sides;
    let mut equations = ss;
    while let Some((k, others)) = rest.split_first() {
        match equations.split_first() {
            None => return Ok(true),
            Some((s, more)) => {
                let kept = justification_keeps(walker, ctx, false, &k.simple, s)?;
                if !kept {
                    return Ok(false);
                }
                rest = others;
                equations = more;
            }
        }
    }
    Ok(true)
}

/// The equations of further sides, each justified behind its own one. The obligations are put behind the others.
#[tactic(auto, using(crate::proofs::SideLemmas::side_rules))]
pub fn justify_sides(
    walker: Walker<'_>,
    ctx: &Context,
    first: Place,
    semicolon: Place,
    sides: &[EqualityStepTree],
    ss: &[Statement],
    left: &mut Left,
    os: &mut Obligations,
) -> Result<(), ProofFault>
    requires { length ss.now ≡ length sides.now }
    ensures { OnMade result (Brings (λ o. JustifiesSides walker.entry.env.now walker.entry.at ctx.now first semicolon sides.now ss.now left.old o) left.new os.old os.new) }
{
    let opening = Opening {
        first,
        linked: false,
    };
    let mut rest = sides;
    let mut equations = ss;
    while let Some((k, others)) = rest.split_first() {
        match equations.split_first() {
            Some((s, more)) => {
                let behind = place_behind(others, semicolon);
                let simple = &k.simple;
                match justify_simply(walker, ctx, opening, behind, simple, s, left, os) {
                    Ok(()) => {}
                    Err(f) => return Err(f),
                }
                rest = others;
                equations = more;
            }
            None => unreachable!(),
        }
    }
    Ok(())
}
