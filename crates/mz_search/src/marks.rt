//! Marks for the variables that hang together.
use crate::goal::Goal;
use crate::kept::goal_kept;
use mz_logic::formula::{Formula, FormulaNode};
use mz_logic::term::{Term, TermNode, Terms};
use mz_match::assignment::Assignment;
use std::alloc::{AllocError, Global};

/// Marks for the variables of a goal and of those goals that it hangs together with by variables without a class.
/// Any answer is right, since each goal is tested again.
pub fn marks_from(
    alloc: Global,
    goal: &Goal,
    others: &[Goal],
    e: &Assignment,
) -> Result<Vec<bool>, AllocError> {
    let mut marks = Vec::new(alloc);
    for _x in &e.slots {
        marks.push(false)?;
    }
    mark_goal(marks.as_mut_slice(), goal);
    for _round in 0..e.slots.len() {
        if !mark_more(alloc, marks.as_mut_slice(), others, e)? {
            return Ok(marks);
        }
    }
    Ok(marks)
}

/// Marks the variables of each goal that has some of them marked and some not, and says whether there is one.
fn mark_more(
    alloc: Global,
    marks: &mut [bool],
    others: &[Goal],
    e: &Assignment,
) -> Result<bool, AllocError> {
    let mut changed = false;
    for g in others {
        if !goal_kept(alloc, e, marks, false, g)? {
            if !goal_kept(alloc, e, marks, true, g)? {
                mark_goal(marks, g);
                changed = true;
            }
        }
    }
    Ok(changed)
}

fn mark_goal(marks: &mut [bool], g: &Goal) {
    mark_formula(marks, g.scope.as_slice(), 0, g.formula);
}

fn mark_formula(marks: &mut [bool], scope: &[usize], depth: usize, f: &Formula) {
    match &f.node {
        FormulaNode::Truth => {}
        FormulaNode::Eq(t, u) => {
            mark_term(marks, scope, depth, t);
            mark_term(marks, scope, depth, u);
        }
        FormulaNode::Atom(_, ts) => mark_terms(marks, scope, depth, ts),
        FormulaNode::Not(g) => mark_formula(marks, scope, depth, g),
        FormulaNode::And(g, h) => {
            mark_formula(marks, scope, depth, g);
            mark_formula(marks, scope, depth, h);
        }
        FormulaNode::All(b) => mark_formula(marks, scope, depth.saturating_add(1), b),
    }
}

#[cycle(mark)]
fn mark_term(marks: &mut [bool], scope: &[usize], depth: usize, t: &Term) {
    match &t.node {
        TermNode::Bound(i) => mark_index(marks, scope, depth, *i as usize),
        TermNode::Const(_) => {}
        TermNode::App(_, ts) => mark_terms(marks, scope, depth, ts),
    }
}

#[cycle(mark)]
fn mark_terms(marks: &mut [bool], scope: &[usize], depth: usize, ts: &Terms) {
    for t in &ts.items {
        mark_term(marks, scope, depth, t);
    }
}

fn mark_index(marks: &mut [bool], scope: &[usize], depth: usize, i: usize) {
    if i >= depth && i - depth < scope.len() {
        let place = scope[i - depth];
        if place < marks.len() {
            marks[place] = true;
        }
    }
}
