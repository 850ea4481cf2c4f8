//! Runs, grouped by hand.
use mz_grouping::grouping::{Part, Step, grouped, has_neighbours};
use std::alloc::Global;
use std::mem::forget;
use std::process::Abort;

const OPERAND: Part = Part::Operand;

/// Symbols of the priorities 64 and 66 directly after an operand, and one that stands after none.
const AFTER_64: Part = Part::Symbol(64, true);

const AFTER_66: Part = Part::Symbol(66, true);

const ALONE_64: Part = Part::Symbol(64, false);

/// The places of the symbols in the order in which they are applied; none where two operands are neighbours.
fn order(rt: &impl Abort, alloc: Global, parts: &[Part]) -> Vec<u64> {
    let mut out = Vec::new(alloc);
    let steps = steps_of(rt, alloc, parts);
    for step in &steps {
        if let Step::Apply(place, _, _) = step {
            out.push(*place as u64).expect(rt, "memory");
        }
    }
    out
}

/// The steps of a run; none where two operands are neighbours.
fn steps_of(rt: &impl Abort, alloc: Global, parts: &[Part]) -> Vec<Step> {
    if has_neighbours(parts) {
        return Vec::new(alloc);
    }
    grouped(alloc, parts).expect(rt, "memory")
}

#[test]
fn equal_priorities_group_to_the_left(rt: HostRuntime) {
    let alloc = rt.alloc();
    let parts = [OPERAND, AFTER_64, OPERAND, AFTER_64, OPERAND];
    assert!(rt; order(&rt, alloc, parts.as_slice()).as_slice() == [1, 3].as_slice());
}

#[test]
fn the_least_priority_is_applied_last(rt: HostRuntime) {
    let alloc = rt.alloc();
    let parts = [OPERAND, AFTER_64, OPERAND, AFTER_66, OPERAND];
    assert!(rt; order(&rt, alloc, parts.as_slice()).as_slice() == [3, 1].as_slice());
    let parts = [OPERAND, AFTER_66, OPERAND, AFTER_64, OPERAND];
    assert!(rt; order(&rt, alloc, parts.as_slice()).as_slice() == [1, 3].as_slice());
}

#[test]
fn symbols_in_a_row(rt: HostRuntime) {
    let alloc = rt.alloc();
    // Of postfix symbols in a row only the first stands directly after an operand.
    let parts = [OPERAND, AFTER_64, ALONE_64];
    assert!(rt; order(&rt, alloc, parts.as_slice()).as_slice() == [2, 1].as_slice());
    // Of prefix symbols none does: the first is the head.
    let parts = [ALONE_64, ALONE_64, OPERAND];
    assert!(rt; order(&rt, alloc, parts.as_slice()).as_slice() == [1, 0].as_slice());
    let parts = [OPERAND, OPERAND, AFTER_64];
    assert!(rt; order(&rt, alloc, parts.as_slice()).len() == 0);
}

#[test]
fn what_stands_beside_a_symbol(rt: HostRuntime) {
    let alloc = rt.alloc();
    let parts = [OPERAND, AFTER_64];
    let steps = steps_of(&rt, alloc, parts.as_slice());
    assert!(rt; steps.as_slice() == [Step::Take(0), Step::Apply(1, true, false)].as_slice());
    let parts = [ALONE_64, OPERAND];
    let steps = steps_of(&rt, alloc, parts.as_slice());
    assert!(rt; steps.as_slice() == [Step::Take(1), Step::Apply(0, false, true)].as_slice());
}

#[test]
fn a_long_run_is_grouped(rt: HostRuntime) {
    let alloc = rt.alloc();
    let mut parts = Vec::new(alloc);
    for k in 0..190000u64 {
        parts
            .push(Part::Symbol((k % 256) as u32, false))
            .expect(&rt, "memory");
    }
    let count = order(&rt, alloc, parts.as_slice()).len();
    forget(parts);
    assert!(rt; count == 190000);
}
