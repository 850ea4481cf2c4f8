//! Which goals have only variables with a mark, or none with one.
ghost use Rattle.std.specs.Prelude.{◌≡◌, map, IfOk, None, ◌||◌, not, if◌then◌else◌};
ghost use Rattle.mz_logic.specs.Term.{terms_of};
ghost use Rattle.mz_search.specs.Goals.{goal_of};
ghost use Rattle.mz_search.specs.Kept.{flag_at, index_kept, term_kept, terms_kept, formula_kept, place_kept, goal_kept};

use crate::goal::Goal;
use mz_logic::formula::{Formula, FormulaNode};
use mz_logic::term::{Term, TermNode, Terms};
use mz_match::assignment::Assignment;
use std::alloc::{AllocError, Global};

fn flag_at(flags: &[bool], i: usize) -> bool
    ensures { result ≡ flag_at flags.now i }
{
    if i < flags.len() { flags[i] } else { false }
}

fn index_kept(flags: &[bool], depth: usize, i: usize) -> bool
    ensures { result ≡ index_kept flags.now depth i }
{
    i < depth || flag_at(flags, i - depth)
}

#[cycle(kept)]
fn term_kept(flags: &[bool], depth: usize, t: &Term) -> bool
    ensures { result ≡ term_kept flags.now depth t.now }
{
    match &t.node {
        TermNode::Bound(i) => index_kept(flags, depth, *i as usize),
        TermNode::Const(_) => true,
        TermNode::App(_, ts) => terms_kept(flags, depth, ts),
    }
}

#[cycle(kept)]
fn terms_kept(flags: &[bool], depth: usize, ts: &Terms) -> bool
    ensures { result ≡ terms_kept flags.now depth (terms_of ts.now) }
{
    for t in &ts.items {
        if !term_kept(flags, depth, t) {
            return false;
        }
    }
    true
}

fn formula_kept(flags: &[bool], depth: usize, f: &Formula) -> Result<bool, AllocError>
    ensures { IfOk result (λ b. b ≡ formula_kept flags.now depth f.now) }
{
    match &f.node {
        FormulaNode::Truth => Ok(true),
        FormulaNode::Eq(t, u) => Ok(term_kept(flags, depth, t) && term_kept(flags, depth, u)),
        FormulaNode::Atom(_, ts) => Ok(terms_kept(flags, depth, ts)),
        FormulaNode::Not(g) => formula_kept(flags, depth, g),
        FormulaNode::And(g, h) => {
            let first = formula_kept(flags, depth, g)?;
            if first {
                formula_kept(flags, depth, h)
            } else {
                Ok(false)
            }
        }
        FormulaNode::All(b) => {
            let next = depth.checked_add(1).ok_or(AllocError)?;
            formula_kept(flags, next, b)
        }
    }
}

fn place_kept(e: &Assignment, marks: &[bool], inside: bool, place: usize) -> bool
    ensures { result ≡ place_kept e.now marks.now inside place }
{
    match e.at(place) {
        Some(_) => true,
        None => {
            if inside {
                flag_at(marks, place)
            } else {
                !flag_at(marks, place)
            }
        }
    }
}

/// Whether each variable of the goal that has no class has a mark, or with `inside` false none.
pub fn goal_kept(
    alloc: Global,
    e: &Assignment,
    marks: &[bool],
    inside: bool,
    g: &Goal,
) -> Result<bool, AllocError>
    ensures { IfOk result (λ b. b ≡ goal_kept e.now marks.now inside (goal_of g.now)) }
{
    let mut flags = Vec::new(alloc);
    for place in &g.scope {
        flags.push(place_kept(e, marks, inside, *place))?;
    }
    formula_kept(flags.as_slice(), 0, g.formula)
}
