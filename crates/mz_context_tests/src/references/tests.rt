//! References with what they cite, and numerals with their values, worked out by hand. What a question is done with is
//! forgotten, not dropped.
use crate::references::samples::{R, context, environment, references, statements};
use mz_base::place::Place;
use mz_cited::cited::cite;
use mz_cited::numerals::value_of;
use mz_core::statements::Statements;
use std::alloc::Global;
use std::mem::forget;
use std::process::Abort;

/// References, the first one apart, and the names of what they cite; or the column of the first that cites nothing.
const CITED: [(R, &[R], &[u32], u64); 13] = [
    ((1, "A2", ""), &[], &[2], 0),
    ((1, "A1", ""), &[], &[3], 0),
    ((1, "A3", ""), &[], &[], 1),
    ((1, "a1", ""), &[], &[], 1),
    ((1, "TARSKI", "1"), &[], &[10], 0),
    ((1, "tarski", "21"), &[], &[11, 10], 0),
    ((1, "TARSKI", "A"), &[], &[12], 0),
    ((1, "TARSKI", "B"), &[], &[], 1),
    ((1, "TARSKI", "0"), &[], &[], 1),
    (
        (1, "XBOOLE_0", "1BA"),
        &[(2, "A2", ""), (3, "TARSKI", "22")],
        &[20, 22, 21, 2, 11, 11],
        0,
    ),
    (
        (1, "A2", ""),
        &[(2, "XBOOLE_0", "12"), (3, "A3", "")],
        &[],
        2,
    ),
    ((1, "XBOOLE_1", "1"), &[], &[], 1),
    ((1, "XBOOLE_01", "1"), &[], &[], 1),
];

fn is_right(
    rt: &impl Abort,
    alloc: Global,
    cited: Result<Statements, Place>,
    wanted: &[u32],
    column: u64,
) -> bool {
    match cited {
        Ok(ss) => {
            let us = statements(rt, alloc, wanted);
            let same = column == 0 && ss.equals(&us);
            forget(ss);
            forget(us);
            same
        }
        Err(place) => place.column == column,
    }
}

fn check_cited(
    rt: &impl Abort,
    alloc: Global,
    first: R,
    others: &[R],
    wanted: &[u32],
    column: u64,
) {
    let text = first.1;
    let env = environment(rt, alloc);
    let ctx = context(rt, alloc);
    let trees = references(rt, alloc, first, others);
    let cited = cite(alloc, &env, &ctx, &trees).expect(rt, "memory");
    forget(env);
    forget(ctx);
    forget(trees);
    let right = is_right(rt, alloc, cited, wanted, column);
    assert!(rt; right, "{text}");
}

#[test]
fn references_cite_statements(rt: HostRuntime) {
    for (first, others, wanted, column) in &CITED {
        check_cited(&rt, rt.alloc(), *first, others, wanted, *column);
    }
}

/// Numerals with their values, and with false where they are too great.
const NUMERALS: [(&str, bool, u64); 6] = [
    ("0", true, 0),
    ("7", true, 7),
    ("0042", true, 42),
    ("18446744073709551615", true, 18446744073709551615),
    ("18446744073709551616", false, 0),
    ("184467440737095516150", false, 0),
];

fn check_numeral(rt: &impl Abort, text: &str, within: bool, value: u64) {
    let right = match value_of(text.as_bytes()) {
        Some(n) => within && n == value,
        None => !within,
    };
    assert!(rt; right, "{text}");
}

#[test]
fn numerals_have_values(rt: HostRuntime) {
    for (text, within, value) in &NUMERALS {
        check_numeral(&rt, text, *within, *value);
    }
}
