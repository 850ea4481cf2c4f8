//! Which variables of terms have no class yet.
use mz_logic::formula::{Formula, FormulaNode};
use mz_logic::term::{Term, TermNode, Terms};
use mz_match::assignment::Assignment;

/// A literal is matched ahead only where no more variables than these have to be found within applications.
const FEW: u32 = 2;

/// Whether a literal has few assignments that match it: its sides or arguments are variables, constants and
/// applications that together have at most two variables without a class, and it isn't the negation of an equation of
/// two such variables.
pub fn is_quickly_matched(positive: bool, f: &Formula, e: &Assignment) -> bool {
    match &f.node {
        FormulaNode::Eq(t, u) => {
            let free = !positive && is_open(t, e) && is_open(u, e);
            let left = within(t, e, 0);
            !free && are_few(within(u, e, left))
        }
        FormulaNode::Atom(_, ts) => {
            let mut seen = 0;
            for t in &ts.items {
                seen = within(t, e, seen);
            }
            are_few(seen)
        }
        _ => true,
    }
}

// Whether the term is a variable without a class.
fn is_open(t: &Term, e: &Assignment) -> bool {
    match &t.node {
        TermNode::Bound(index) => open_bit(e, *index as usize) != 0,
        _ => false,
    }
}

fn are_few(seen: u64) -> bool {
    let mut rest = seen;
    for _i in 0..FEW {
        rest = rest & rest.wrapping_sub(1);
    }
    rest == 0
}

// The variables of an application, as bits beside those seen so far; a variable alone counts for nothing.
fn within(t: &Term, e: &Assignment, seen: u64) -> u64 {
    match &t.node {
        TermNode::App(_, ts) => all_within(ts, e, seen),
        _ => seen,
    }
}

#[cycle(open)]
fn open_within(t: &Term, e: &Assignment, seen: u64) -> u64 {
    match &t.node {
        TermNode::Bound(index) => seen | open_bit(e, *index as usize),
        TermNode::Const(_) => seen,
        TermNode::App(_, ts) => all_within(ts, e, seen),
    }
}

#[cycle(open)]
fn all_within(ts: &Terms, e: &Assignment, seen: u64) -> u64 {
    let mut all = seen;
    for t in &ts.items {
        all = open_within(t, e, all);
    }
    all
}

fn open_bit(e: &Assignment, index: usize) -> u64 {
    match e.slots.get(index) {
        Some(None) => { if index < 64 { 1 << index } else { u64::MAX } }
        _ => 0,
    }
}
