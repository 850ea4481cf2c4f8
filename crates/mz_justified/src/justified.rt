//! The obligation of a statement by its justification.
ghost use Rattle.std.specs.Prelude.{◌≡◌, ◌++◌, true, IfOk, OnOk};
ghost use Rattle.mz_types.specs.Known.{letters_clauses, typing};
ghost use Rattle.mz_given.specs.declared.given.Given.TheVariants.{ByStatements, ByScheme};
ghost use Rattle.mz_from.specs.Verdict.{IsVerdict};
ghost use Rattle.mz_justified.specs.Answers.{OnMade};
ghost use Rattle.mz_justified.specs.Kept.{justification_keeps};
ghost use Rattle.mz_justified.specs.Justified.{place_of, Owes, Justified, IsPut, Put};

use crate::grounds::{ground, place_of};
use crate::kept::justification_keeps;
use crate::proof_fault::ProofFault;
use crate::walker::{Opening, Walker};
use mz_base::place::Place;
use mz_clauses::clauses_of::letter_clauses;
use mz_context::context::Context;
use mz_context::letters::NamedLetters;
use mz_core::outcome::Left;
use mz_core::scheme::Scheme;
use mz_core::statement::Statement;
use mz_core::statements::Statements;
use mz_from::verdict::fit_scheme;
use mz_given::given::Given;
use mz_ground::clauses::Clauses;
use mz_obligations::obligation::{Duty, Obligation, Obligations, SchemeVerdict};
use mz_obligations::spend_obligation::obligation;
use mz_tree_proof::references::SimpleTree;
use mz_types::known::typing;
use std::alloc::{AllocError, Global};

/// Puts these at the end.
fn append(out: &mut Clauses, more: Clauses) -> Result<(), AllocError>
    ensures { OnOk result (out.new ≡ out.old ++ more) }
{
    let mut rest = more;
    out.items.append(&mut rest.items)?;
    Ok(())
}

/// The type clauses of the letters in force.
fn letters_clauses(alloc: Global, letters: &NamedLetters) -> Result<Clauses, AllocError>
    ensures { IfOk result (λ cs. cs ≡ letters_clauses letters.now) }
{
    let mut out = Clauses::new(alloc);
    for letter in &letters.items {
        let clauses = letter_clauses(alloc, &letter.letter)?;
        append(&mut out, clauses)?;
    }
    Ok(out)
}

/// The obligation of the statement by statements that are given, at the place, where so much can be used.
#[tactic(auto, using(crate::proofs::OweLemmas::owe_rules))]
fn owed_by_statements(
    walker: Walker<'_>,
    ctx: &Context,
    given: &Statements,
    s: &Statement,
    place: Place,
) -> Result<Obligation, AllocError>
    ensures { IfOk result (λ o. Owes walker.entry.env.now walker.entry.at ctx.now (ByStatements given.now) s.now place o) }
{
    let letters = letters_clauses(walker.alloc, &ctx.letters)?;
    match typing(walker.alloc, walker.env, ctx)? {
        Some(clauses) => {
            let o = obligation(
                walker.alloc,
                clauses.as_slice(),
                &walker.env.expansions,
                &ctx.constants,
                given,
                s,
                place,
                walker.at,
                &letters,
            )?;
            Ok(o)
        }
        None => {
            let o = obligation(
                walker.alloc,
                walker.env.typing.as_slice(),
                &walker.env.expansions,
                &ctx.constants,
                given,
                s,
                place,
                walker.at,
                &letters,
            )?;
            Ok(o)
        }
    }
}

/// What is found by the scheme and what is cited, by the clauses that decide what fits in the context.
#[tactic(auto, using(crate::proofs::OweLemmas::verdict_rules))]
fn verdict(
    walker: Walker<'_>,
    ctx: &Context,
    scheme: &Scheme,
    cited: &Statements,
    s: &Statement,
) -> Result<SchemeVerdict, AllocError>
    ensures { IfOk result (λ v. IsVerdict (typing walker.entry.env.now ctx.now) ctx.now.constants scheme.now cited.now s.now v) }
{
    match typing(walker.alloc, walker.env, ctx)? {
        Some(clauses) => {
            let v = fit_scheme(
                walker.alloc,
                clauses.as_slice(),
                &ctx.constants,
                scheme,
                cited,
                s,
            )?;
            Ok(v)
        }
        None => {
            let clauses = walker.env.typing.as_slice();
            let v = fit_scheme(walker.alloc, clauses, &ctx.constants, scheme, cited, s)?;
            Ok(v)
        }
    }
}

/// The obligation of the statement by a scheme and what is cited for its premises, at the place.
#[tactic(auto, using(crate::proofs::OweLemmas::follow_rules))]
fn owed_by_scheme(
    walker: Walker<'_>,
    ctx: &Context,
    scheme: &Scheme,
    cited: &Statements,
    s: &Statement,
    place: Place,
) -> Result<Obligation, AllocError>
    ensures { IfOk result (λ o. Owes walker.entry.env.now walker.entry.at ctx.now (ByScheme scheme.now cited.now) s.now place o) }
{
    let v = verdict(walker, ctx, scheme, cited, s)?;
    let letters = letters_clauses(walker.alloc, &ctx.letters)?;
    Ok(Obligation {
        place,
        extent: walker.at,
        letters,
        duty: Duty::From(v),
    })
}

/// The obligation of the statement by what is given, at the place, where so much can be used.
fn owed(
    walker: Walker<'_>,
    ctx: &Context,
    given: &Given,
    s: &Statement,
    place: Place,
) -> Result<Obligation, AllocError>
    ensures { IfOk result (λ o. Owes walker.entry.env.now walker.entry.at ctx.now given.now s.now place o) }
{
    match given {
        Given::ByStatements(ss) => owed_by_statements(walker, ctx, ss, s, place),
        Given::ByScheme(scheme, cited) => owed_by_scheme(walker, ctx, scheme, cited, s, place),
    }
}

/// Puts the obligation of the statement, by what is given, behind the others.
#[tactic(auto, using(crate::proofs::OweLemmas::oblige_rules))]
pub fn oblige(
    walker: Walker<'_>,
    ctx: &Context,
    given: &Given,
    s: &Statement,
    place: Place,
    os: &mut Obligations,
) -> Result<(), AllocError>
    ensures { OnOk result (IsPut (Owes walker.entry.env.now walker.entry.at ctx.now given.now s.now place) os.old os.new) }
{
    let o = owed(walker, ctx, given, s, place)?;
    os.push(o)
}

/// The same of a justification whose instances keep the limits.
///
/// Refusals, in this order: `StepNoFit` at the step where it is linked and follows no statement; `TooManyObligations` at the
/// justification; `UnknownLabel` at the first reference that cites nothing, that of a scheme among them.
#[tactic(auto, using(crate::proofs::OweLemmas::justify_rules))]
fn justify_kept(
    walker: Walker<'_>,
    ctx: &Context,
    opening: Opening,
    behind: Place,
    tree: &SimpleTree,
    s: &Statement,
    left: &mut Left,
    os: &mut Obligations,
) -> Result<(), ProofFault>
    requires { justification_keeps walker.env.now ctx.now opening.linked tree.now s.now ≡ true }
    ensures { OnMade result (Put (λ o. Justified walker.entry.env.now walker.entry.at ctx.now opening.first opening.linked behind tree.now s.now left.old o left.new) os.old os.new) }
{
    match ground(walker, ctx, opening, behind, tree, left) {
        Ok(given) => {
            oblige(walker, ctx, &given, s, place_of(behind, tree), os)?;
            Ok(())
        }
        Err(f) => Err(f),
    }
}

/// Puts the obligation of the statement, by its justification, behind the others, and takes it off what the article has left.
/// `first` is the place of the step's first token, `linked` says that the step begins with `then` or `hence`, and `behind` is
/// the place of the token behind the statement.
///
/// Refusals, in this order: `TooLarge` at the step where an instance of a scheme that the justification makes is beyond the limits of an
/// expression; `StepNoFit` at the step where it is linked and follows no statement; `TooManyObligations` at the justification;
/// `UnknownLabel` at the first reference that cites nothing, that of a scheme among them. Where one of the last two is told, no instance
/// is made.
#[tactic(auto, using(crate::proofs::OweLemmas::large_rules))]
pub fn justify_simply(
    walker: Walker<'_>,
    ctx: &Context,
    opening: Opening,
    behind: Place,
    tree: &SimpleTree,
    s: &Statement,
    left: &mut Left,
    os: &mut Obligations,
) -> Result<(), ProofFault>
    ensures { OnMade result (Put (λ o. Justified walker.entry.env.now walker.entry.at ctx.now opening.first opening.linked behind tree.now s.now left.old o left.new) os.old os.new) }
{
    let kept = justification_keeps(walker, ctx, opening.linked, tree, s)?;
    if !kept {
        return Err(ProofFault::too_large(opening.first));
    }
    justify_kept(walker, ctx, opening, behind, tree, s, left, os)
}
