//! Reservations, theorems and statements of an article's own level, read with their reasonings.
ghost use Rattle.std.specs.Prelude.{◌≡◌, ◌∷◌, [], IfOk, OnOk, Some};
ghost use Rattle.mz_base.specs.declared.place.Place.{Place};
ghost use Rattle.mz_cited.specs.Cited.{members};
ghost use Rattle.mz_context.specs.Context.{next};
ghost use Rattle.mz_core.specs.declared.item.Item.TheVariants.{Theorem};
ghost use Rattle.mz_parts.specs.Propositions.{label_in};
ghost use Rattle.mz_justified.specs.Answers.{OnMade};
ghost use Rattle.mz_resolve.specs.Answers.{OnRead};
ghost use Rattle.mz_reserve.specs.Reserve.{Reserves, come_to};
ghost use Rattle.mz_standing.specs.Standing.{with_left, with_context, with_item, behind_item, behind_theorem};
ghost use Rattle.mz_steps.specs.declared.block.Block.TheVariants.{Proof};
ghost use Rattle.mz_tree.specs.Places.{first_place};
ghost use Rattle.mz_tree_proof.specs.SpellReasoning.{spell_statement};
ghost use Rattle.mz_walk.specs.Answers.{Brings};
ghost use Rattle.mz_walk.specs.Walk.{States};
ghost use Rattle.mz_walk.specs.Walked.{state};
ghost use Rattle.mz_article_items.specs.Items.{IsReserved, ReadsTheorem, JustifiesTheorem, IsTheorem, IsStatement};

use crate::fault::resolved;
use mz_context::context::Context;
use mz_formulas::sentence::Sentence;
use mz_justified::proof_fault::ProofFault;
use mz_justified::walker::{Opening, Walker};
use mz_obligations::obligation::{Extent, Obligations};
use mz_parts::propositions::stated_by;
use mz_reserve::reserve::reserve;
use mz_resolve::calls::sentence;
use mz_resolve::resolve_fault::ResolveFault;
use mz_standing::changes::{end_statement, extent_of, put_theorem};
use mz_standing::standing::Standing;
use mz_tree_item::schemes::TheoremTree;
use mz_tree_part::reserve::ReserveTree;
use mz_tree_proof::reasoning::StatementTree;
use mz_walk::prove_steps::ProveSteps;
use std::alloc::{AllocError, Global};

/// Reserves the identifiers of a reservation.
#[tactic(auto, using(crate::proofs::ItemLemmas::told_changed))]
fn reserve_segments(alloc: Global, s: &mut Standing, t: &ReserveTree) -> Result<(), ResolveFault>
    ensures reads { OnRead result (λ o. Reserves s.old.environment s.old.context s.old.left (members t.now.segments) (come_to o s.new.context) s.new.left) }
    ensures same { s.new ≡ with_left (with_context s.old s.new.context) s.new.left }
{
    reserve(
        alloc,
        &s.environment,
        &mut s.context,
        &mut s.left,
        &t.segments,
    )
}

/// Ends the statement just before.
fn end_previous(s: &mut Standing)
    ensures { s.new ≡ with_context s.old (behind_item s.old.context) }
{
    end_statement(&mut s.context)
}

/// A reservation.
#[tactic(auto, using(crate::proofs::ItemLemmas::reserve_rules))]
pub fn read_reserve(
    alloc: Global,
    s: &mut Standing,
    os: &Obligations,
    t: &ReserveTree,
) -> Result<(), ProofFault>
    ensures { OnMade result (Brings (IsReserved s.old t.now) s.new os.now os.now) }
{
    match reserve_segments(alloc, s, t) {
        Err(fault) => Err(resolved(fault)),
        Ok(()) => {
            end_previous(s);
            Ok(())
        }
    }
}

/// The number of the next constant.
fn next(ctx: &Context) -> Result<u32, AllocError>
    ensures { IfOk result (λ n. n ≡ next ctx.now) }
{
    u32::try_from(ctx.next()).map_err(|_| AllocError)
}

/// The sentence of a theorem, in which no constant of the article's own level may be used.
#[tactic(auto, using(crate::proofs::ItemLemmas::told_kept))]
fn read_sentence(alloc: Global, s: &mut Standing, t: &TheoremTree) -> Result<Sentence, ResolveFault>
    ensures reads { OnRead result (λ o. ReadsTheorem s.old t.now o s.new.left) }
    ensures same { s.new ≡ with_left s.old s.new.left }
{
    let least = next(&s.context)?;
    sentence(
        alloc,
        &s.environment,
        &mut s.context,
        least,
        &t.proposition.formula,
        &mut s.left,
    )
}

/// The justification of a theorem.
#[tactic(auto, using(crate::proofs::ItemLemmas::justify_rules))]
fn justify<P: ProveSteps>(
    alloc: Global,
    s: &mut Standing,
    os: &mut Obligations,
    t: &TheoremTree,
    x: &Sentence,
) -> Result<(), ProofFault>
    ensures made { OnMade result (Brings (JustifiesTheorem s.old t.now x.now s.old.left) s.new.left os.old os.new) }
    ensures same { OnOk result (s.new ≡ with_left s.old s.new.left) }
{
    let above = extent_of(s);
    let walker = Walker {
        alloc,
        env: &s.environment,
        at: above,
    };
    let opening = Opening {
        first: t.theorem,
        linked: false,
    };
    P::justify(
        walker,
        &mut s.context,
        opening,
        t.semicolon,
        &t.just,
        x,
        &mut s.left,
        os,
    )
}

/// Puts the theorem of the sentence behind the items.
fn put(alloc: Global, s: &mut Standing, t: &TheoremTree, x: &Sentence) -> Result<(), AllocError>
    ensures { OnOk result (s.new ≡ with_item (with_context s.old (behind_theorem s.old.context (label_in t.now.proposition.label) x.now.closed)) (Theorem x.now.closed)) }
{
    let stated = stated_by(alloc, &t.proposition, x)?;
    put_theorem(alloc, s, stated.label, &stated.statement)
}

/// A theorem: its sentence is read, then justified; behind that it can be cited.
#[tactic(auto, using(crate::proofs::ItemLemmas::theorem_rules))]
pub fn read_theorem<P: ProveSteps>(
    alloc: Global,
    s: &mut Standing,
    os: &mut Obligations,
    t: &TheoremTree,
) -> Result<(), ProofFault>
    ensures { OnMade result (Brings (IsTheorem s.old t.now) s.new os.old os.new) }
{
    match read_sentence(alloc, s, t) {
        Err(fault) => Err(resolved(fault)),
        Ok(x) => match justify::<P>(alloc, s, os, t, &x) {
            Err(fault) => Err(fault),
            Ok(()) => {
                put(alloc, s, t, &x)?;
                Ok(())
            }
        },
    }
}

/// Takes a statement of the article's own level, above which so much stands.
fn take_statement<P: ProveSteps>(
    alloc: Global,
    s: &mut Standing,
    os: &mut Obligations,
    t: &StatementTree,
    at: Extent,
) -> Result<(), ProofFault>
    ensures made { OnMade result (λ o. (first : Place) × (first_place (spell_statement t.now) ≡ Some first) × Brings (States s.old.environment at (state s.old.context Proof s.old.left) first t.now) (state s.new.context Proof s.new.left) os.old os.new o) }
    ensures same { OnOk result (s.new ≡ with_left (with_context s.old s.new.context) s.new.left) }
{
    let walker = Walker {
        alloc,
        env: &s.environment,
        at,
    };
    P::statement(walker, &mut s.context, t, &mut s.left, os)
}

/// A statement of the article's own level.
#[tactic(auto, using(crate::proofs::ItemLemmas::statement_rules))]
pub fn read_statement<P: ProveSteps>(
    alloc: Global,
    s: &mut Standing,
    os: &mut Obligations,
    t: &StatementTree,
) -> Result<(), ProofFault>
    ensures { OnMade result (Brings (IsStatement s.old t.now) s.new os.old os.new) }
{
    let at = extent_of(s);
    take_statement::<P>(alloc, s, os, t, at)
}
