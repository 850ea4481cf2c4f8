//! What atoms and equations are unfolded to.
ghost use Rattle.std.specs.Prelude.{◌≡◌, ◌<◌, ◌∷◌, [], length, slice_index_or, IfOk, reverse};
ghost use Rattle.mz_core.specs.Statement.{Eq};
ghost use Rattle.mz_thesis.specs.Unfolding.{formals, is_sought, definiens_at, Gives, FirstGives, UnfoldsTo};

use crate::sought::Sought;
use mz_context::constants::Constants;
use mz_core::statement::{Statement, StatementNode};
use mz_core::type_substitution::substitute_statement;
use mz_environment::unfoldings::{Unfolding, Unfoldings};
use mz_fits::fixed::Fixed;
use mz_fits::matches::{accepted, all_match};
use mz_ground::clause::Clause;
use mz_ground::trigger::Trigger;
use mz_logic::beyond::Beyond;
use mz_logic::term::{Term, Terms};
use std::alloc::{AllocError, Global};

fn is_sought(sought: Sought, head: &Trigger) -> bool
    ensures { result ≡ is_sought sought head.now }
{
    match (sought, head) {
        (Sought::AtomOf(s), Trigger::Atom(r, _)) => r.is(s),
        (Sought::Equation, Trigger::Term(_)) => true,
        _ => false,
    }
}

fn formals(alloc: Global, head: &Trigger) -> Result<Terms, AllocError>
    ensures { IfOk result (λ ts. ts ≡ formals head.now) }
{
    match head {
        Trigger::Term(t) => pair(alloc, t, &Term::bound(0)),
        Trigger::Atom(_, ts) => ts.copy(alloc),
    }
}

fn pair(alloc: Global, t: &Term, u: &Term) -> Result<Terms, AllocError>
    ensures { IfOk result (λ ts. ts ≡ t.now ∷ u.now ∷ []) }
{
    let mut out = Terms::new(alloc);
    out.push(t.copy(alloc)?)?;
    out.push(u.copy(alloc)?)?;
    Ok(out)
}

fn definiens_at(
    alloc: Global,
    values: Terms,
    definiens: &Statement,
) -> Result<Statement, AllocError>
    ensures { IfOk result (λ s. s ≡ definiens_at values definiens.now) }
{
    let mut inside = values;
    inside.items.reverse();
    substitute_statement(alloc, definiens, 0, &inside, Beyond::Lowered)
}

/// What the unfolding gives for terms in the places of its head: its definiens, where they match and the guards of all
/// loci fit.
#[tactic(auto, using(crate::proofs::UnfoldingLemmas::gives_rules))]
fn gives(
    alloc: Global,
    clauses: &[Clause],
    constants: &Constants,
    one: &Unfolding,
    terms: &[Term],
) -> Result<Option<Statement>, AllocError>
    ensures { IfOk result (λ o. Gives clauses.now constants.now one.now terms.now o) }
{
    let count = one.loci.items.len();
    let none = Fixed::none(alloc, count)?;
    let formals = formals(alloc, &one.head)?;
    let us = formals.items.as_slice();
    match all_match(alloc, clauses, constants, count, none, us, terms)? {
        None => Ok(None),
        Some(fixed) => match accepted(alloc, clauses, constants, &one.loci, &fixed)? {
            None => Ok(None),
            Some(values) => {
                let s = definiens_at(alloc, values, &one.definiens)?;
                Ok(Some(s))
            }
        },
    }
}

#[tactic(auto, using(crate::proofs::TableLemmas::table_rules))]
fn count_of(us: &Unfoldings) -> usize
    ensures { result ≡ length us.now }
{
    us.as_slice().len()
}

#[tactic(auto, using(crate::proofs::TableLemmas::table_rules))]
fn at(us: &Unfoldings, index: usize) -> &Unfolding
    requires { index < length us.now }
    ensures { result.now ≡ slice_index_or us.now index result.now }
{
    let shared = us.as_slice();
    &shared[index]
}

/// What the latest of the unfoldings gives that is sought and gives something.
#[tactic(auto, using(crate::proofs::UnfoldingLemmas::first_rules))]
fn latest_gives(
    alloc: Global,
    clauses: &[Clause],
    constants: &Constants,
    sought: Sought,
    terms: &[Term],
    unfoldings: &Unfoldings,
) -> Result<Option<Statement>, AllocError>
    ensures { IfOk result (λ o. FirstGives clauses.now constants.now sought terms.now (reverse unfoldings.now) o) }
{
    let mut count = count_of(unfoldings);
    while count > 0 {
        count -= 1;
        let u = at(unfoldings, count);
        if is_sought(sought, &u.head) {
            match gives(alloc, clauses, constants, u, terms)? {
                Some(s) => return Ok(Some(s)),
                None => {}
            }
        }
    }
    Ok(None)
}

#[tactic(auto, using(crate::proofs::UnfoldingLemmas::equation_rules))]
fn equation_unfolds_to(
    alloc: Global,
    clauses: &[Clause],
    constants: &Constants,
    unfoldings: &Unfoldings,
    left: &Term,
    right: &Term,
) -> Result<Option<Statement>, AllocError>
    ensures { IfOk result (λ o. UnfoldsTo clauses.now constants.now unfoldings.now (Eq left.now right.now) o) }
{
    let sides = pair(alloc, right, left)?;
    let sides = sides.items.as_slice();
    match latest_gives(
        alloc,
        clauses,
        constants,
        Sought::Equation,
        sides,
        unfoldings,
    )? {
        Some(s) => Ok(Some(s)),
        None => {
            let others = pair(alloc, left, right)?;
            let others = others.items.as_slice();
            latest_gives(
                alloc,
                clauses,
                constants,
                Sought::Equation,
                others,
                unfoldings,
            )
        }
    }
}

/// What an atom or an equation is unfolded to, by the latest unfolding whose arguments match and whose guards fit: an
/// equation by one of its right side, else by one of its left side. None of any other statement.
#[tactic(auto, using(crate::proofs::UnfoldingLemmas::unfolds_rules))]
pub fn unfolds_to(
    alloc: Global,
    clauses: &[Clause],
    constants: &Constants,
    unfoldings: &Unfoldings,
    s: &Statement,
) -> Result<Option<Statement>, AllocError>
    ensures { IfOk result (λ o. UnfoldsTo clauses.now constants.now unfoldings.now s.now o) }
{
    match &s.node {
        StatementNode::Atom(sym, ts) => {
            let sought = Sought::AtomOf(*sym);
            latest_gives(
                alloc,
                clauses,
                constants,
                sought,
                ts.items.as_slice(),
                unfoldings,
            )
        }
        StatementNode::Eq(left, right) => {
            equation_unfolds_to(alloc, clauses, constants, unfoldings, left, right)
        }
        _ => Ok(None),
    }
}
