//! Which letters are fixed by following a formula of a scheme beside another one.
ghost use Rattle.std.specs.Prelude.{◌≡◌, ◌++◌, ◌∷◌, [], OnOk};
ghost use Rattle.mz_logic.specs.Formula.{Atom, Not};
ghost use Rattle.mz_following.specs.Following.{with_term, with_formula, followed_term, followed_terms, followed};

use crate::places::{formula_beside, term_beside};
use mz_logic::formula::{Formula, FormulaNode};
use mz_logic::letters::{Body, Letter, Letters};
use mz_logic::sym::Sym;
use mz_logic::term::{Term, TermNode, Terms};
use std::alloc::{AllocError, Global};

fn with_term(
    alloc: Global,
    letters: &mut Letters,
    letter: Sym,
    args: &Terms,
    part: &Term,
) -> Result<(), AllocError>
    ensures { OnOk result (letters.new ≡ with_term letter args.now part.now letters.old) }
{
    if letters.term(letter).is_some() {
        return Ok(());
    }
    match term_beside(alloc, args, part)? {
        Some(body) => {
            let body = Body::OfTerm(body);
            letters.push(Letter { letter, body })
        }
        None => Ok(()),
    }
}

fn with_formula(
    alloc: Global,
    letters: &mut Letters,
    letter: Sym,
    args: &Terms,
    part: &Formula,
) -> Result<(), AllocError>
    ensures { OnOk result (letters.new ≡ with_formula letter args.now part.now letters.old) }
{
    if letters.formula(letter).is_some() {
        return Ok(());
    }
    match formula_beside(alloc, args, part)? {
        Some(body) => {
            let body = Body::OfFormula(body);
            let fixed = Letter { letter, body };
            letters.push(fixed)
        }
        None => Ok(()),
    }
}

#[cycle(follow_terms)]
#[tactic(auto, using(crate::proofs::FollowLemmas::follow_rules))]
fn follow_term(alloc: Global, letters: &mut Letters, t: &Term, u: &Term) -> Result<(), AllocError>
    ensures { OnOk result (letters.new ≡ followed_term t.now u.now letters.old) }
{
    match &t.node {
        TermNode::App(s, ts) => {
            if s.is_functor_letter() {
                return with_term(alloc, &mut *letters, *s, ts, u);
            }
            match &u.node {
                TermNode::App(r, us) => {
                    if s.is(*r) {
                        follow_terms(alloc, &mut *letters, ts, us)
                    } else {
                        Ok(())
                    }
                }
                _ => Ok(()),
            }
        }
        _ => Ok(()),
    }
}

#[cycle(follow_terms)]
#[tactic(auto, using(crate::proofs::FollowLemmas::short_rules))]
fn follow_terms(
    alloc: Global,
    letters: &mut Letters,
    ts: &Terms,
    us: &Terms,
) -> Result<(), AllocError>
    ensures { OnOk result (letters.new ≡ followed_terms ts.now us.now letters.old) }
{
    for i in 0..ts.items.len() {
        if i >= us.items.len() {
            return Ok(());
        }
        follow_term(alloc, &mut *letters, &ts.items[i], &us.items[i])?;
    }
    Ok(())
}

fn follow_atom(
    alloc: Global,
    letters: &mut Letters,
    s: Sym,
    ts: &Terms,
    g: &Formula,
) -> Result<(), AllocError>
    ensures { OnOk result (letters.new ≡ followed (Atom s ts.now) g.now letters.old) }
{
    if s.is_predicate_letter() {
        return with_formula(alloc, letters, s, ts, g);
    }
    match &g.node {
        FormulaNode::Atom(r, us) => {
            if s.is(*r) {
                follow_terms(alloc, letters, ts, us)
            } else {
                Ok(())
            }
        }
        _ => Ok(()),
    }
}

fn with_negation(
    alloc: Global,
    letters: &mut Letters,
    letter: Sym,
    args: &Terms,
    part: &Formula,
) -> Result<(), AllocError>
    ensures { OnOk result (letters.new ≡ with_formula letter args.now (Not part.now) letters.old) }
{
    let part = part.copy(alloc)?;
    let part = Formula::not(alloc, part)?;
    with_formula(alloc, letters, letter, args, &part)
}

/// Follows a formula of a scheme beside the negation of another one, which is no negation.
#[cycle(follow)]
fn follow_negation(
    alloc: Global,
    letters: &mut Letters,
    f: &Formula,
    g: &Formula,
) -> Result<(), AllocError>
    ensures { OnOk result (letters.new ≡ followed f.now (Not g.now) letters.old) }
{
    match &f.node {
        FormulaNode::Atom(s, ts) => {
            if s.is_predicate_letter() {
                with_negation(alloc, letters, *s, ts, g)
            } else {
                Ok(())
            }
        }
        FormulaNode::Not(f) => follow(alloc, letters, f, g),
        _ => Ok(()),
    }
}

/// Follows a formula of a scheme beside another one, and fixes letters: each at its first application whose arguments are distinct
/// variables and beside which the part has no other variable that is bound around it. A number above 4,294,967,295 is as no memory.
#[cycle(follow)]
pub fn follow(
    alloc: Global,
    letters: &mut Letters,
    f: &Formula,
    g: &Formula,
) -> Result<(), AllocError>
    ensures { OnOk result (letters.new ≡ followed f.now g.now letters.old) }
{
    match (&f.node, &g.node) {
        (FormulaNode::Atom(s, ts), _) => follow_atom(alloc, letters, *s, ts, g),
        (FormulaNode::Not(f), FormulaNode::Not(g)) => follow(alloc, letters, f, g),
        (FormulaNode::Not(f), _) => follow_negation(alloc, letters, f, g),
        (FormulaNode::Eq(t, u), FormulaNode::Eq(v, w)) => {
            follow_term(alloc, &mut *letters, t, v)?;
            follow_term(alloc, letters, u, w)
        }
        (FormulaNode::And(f, h), FormulaNode::And(g, k)) => {
            follow(alloc, &mut *letters, f, g)?;
            follow(alloc, letters, h, k)
        }
        (FormulaNode::All(f), FormulaNode::All(g)) => follow(alloc, letters, f, g),
        _ => Ok(()),
    }
}
