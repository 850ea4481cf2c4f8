//! Both forms answer each problem as it was worked out.
use crate::facts::problems::{Problem, is_as_told};
use crate::facts::tables::{EIGHTH, FIFTH, FIRST, FOURTH, SECOND, SEVENTH, SIXTH, THIRD};
use mz_classes::classes::Classes;
use mz_classes::close_classes::close_classes;
use mz_facts::close::close;
use mz_facts::facts::Facts;
use mz_ground::fact_set::FactSet;
use mz_ground::ground::ground;
use mz_item_samples::types::clauses;
use mz_logic::sym::Sym;
use mz_samples::parts::disjunct;
use std::alloc::Global;
use std::mem::forget;
use std::process::Abort;

/// The class of the term with a number, in the numbered form.
fn class_number(f: &Classes, number: u32) -> u32 {
    if (number as usize) < f.ground().terms.len() {
        f.class_of(number)
    } else {
        0
    }
}

/// The same in the plain form.
fn plain_class(f: &Classes, plain: &Facts, number: u32) -> usize {
    if (number as usize) < f.ground().terms.len() {
        let place = f.term_place(number);
        if place < plain.ground().terms.len() {
            return plain.class_at(place);
        }
    }
    0
}

/// Whether two terms have one class in the one form exactly where they have one in the other.
fn have_same_classes(f: &Classes, plain: &Facts) -> bool {
    let count = u32::try_from(f.ground().terms.len()).unwrap_or(u32::MAX);
    for i in 0..count {
        for j in 0..count {
            let equal = plain_class(f, plain, i) == plain_class(f, plain, j);
            if (class_number(f, i) == class_number(f, j)) != equal {
                return false;
            }
        }
    }
    true
}

/// How many atoms with the symbol are facts with the sign, in the plain form.
fn count_signed(plain: &Facts, sym: Sym, positive: bool) -> usize {
    let mut count = 0usize;
    for k in 0..plain.ground().atoms.len() {
        if plain.ground().atoms.get(k).sym.is(sym) && plain.is_signed(k, positive) {
            count = count.saturating_add(1);
        }
    }
    count
}

/// Whether as many atoms of each symbol and sign are facts in the one form as in the other.
fn have_same_signs(f: &Classes, plain: &Facts) -> bool {
    for a in &plain.ground().atoms.items {
        for positive in [true, false] {
            if f.signed(a.sym, positive).as_slice().len() != count_signed(plain, a.sym, positive) {
                return false;
            }
        }
    }
    true
}

/// Both forms have the facts of the problem, and the same classes and signs.
fn check(rt: &impl Abort, alloc: Global, p: Problem) {
    let text = p.0;
    let d = disjunct(alloc, text).expect(rt, "a disjunct");
    let cs = clauses(alloc, p.1).expect(rt, "clauses");
    let g = ground(alloc, &d, cs.as_slice()).expect(rt, "a ground part");
    let plain = close(alloc, &g, &d, cs.as_slice()).expect(rt, "memory");
    let classes = close_classes(alloc, &g, &d, cs.as_slice()).expect(rt, "memory");
    forget(d);
    forget(cs);
    forget(g);
    let of_plain = is_as_told(alloc, &plain, p).expect(rt, "literals");
    let of_classes = is_as_told(alloc, &classes, p).expect(rt, "literals");
    let same_classes = have_same_classes(&classes, &plain);
    let same_signs = have_same_signs(&classes, &plain);
    forget(plain);
    forget(classes);
    assert!(rt; of_plain && of_classes, "facts at {text}");
    assert!(rt; same_classes && same_signs, "classes at {text}");
}

fn check_all(rt: &impl Abort, alloc: Global, problems: &[Problem]) {
    for p in problems {
        check(rt, alloc, *p);
    }
}

#[test]
fn first_problems(rt: HostRuntime) {
    check_all(&rt, rt.alloc(), &FIRST);
}

#[test]
fn second_problems(rt: HostRuntime) {
    check_all(&rt, rt.alloc(), &SECOND);
}

#[test]
fn third_problems(rt: HostRuntime) {
    check_all(&rt, rt.alloc(), &THIRD);
}

#[test]
fn fourth_problems(rt: HostRuntime) {
    check_all(&rt, rt.alloc(), &FOURTH);
}

#[test]
fn fifth_problems(rt: HostRuntime) {
    check_all(&rt, rt.alloc(), &FIFTH);
}

#[test]
fn sixth_problems(rt: HostRuntime) {
    check_all(&rt, rt.alloc(), &SIXTH);
}

#[test]
fn seventh_problems(rt: HostRuntime) {
    check_all(&rt, rt.alloc(), &SEVENTH);
}

#[test]
fn eighth_problems(rt: HostRuntime) {
    check_all(&rt, rt.alloc(), &EIGHTH);
}
