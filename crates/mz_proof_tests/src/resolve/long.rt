//! Long texts, which nest nothing: they are read by loops, up to the first subexpression that is too large.
use crate::resolve::answers::{Call, Symbols, answer, is_answer};
use crate::resolve::environments::environment;
use mz_item_samples::contexts::{put_constants, start};
use mz_item_samples::items::{ItemRow, MeaningRow, NotationRow};
use mz_item_samples::types::{OBJECT, SET, TypeRow};
use mz_logic::kind::Kind;
use std::alloc::Global;
use std::mem::forget;
use std::process::Abort;

const SYMBOLS: Symbols = b"GMag\nUcar\nOsin\nO+\n";

const MAG: TypeRow = ("A.G1", "");

const NOTATIONS: &[NotationRow] = &[
    (
        Kind::Structure,
        ("Mag", &[], &[], &[]),
        MeaningRow::Type(MAG),
    ),
    (
        Kind::Selector,
        ("car", &[MAG], &[], &[0]),
        MeaningRow::Term("(A.U1 b0)"),
    ),
];

/// The structure `Mag`, whose field `car` is a `Mag` again, `sin` of what stands behind it, and `+` between two objects.
const ITEMS: [ItemRow; 3] = [
    ItemRow::Structure(("A.G1", "A.V1", "A.A1"), &[], &[("A.U1", MAG)], NOTATIONS),
    ItemRow::Functor("A.O1", ("sin", &[OBJECT], &[], &[0]), SET, "true"),
    ItemRow::Functor("A.O2", ("+", &[OBJECT, OBJECT], &[0], &[1]), SET, "true"),
];

fn add(rt: &impl Abort, bytes: &mut Vec<u8>, words: &str, times: usize) {
    for _ in 0..times {
        bytes
            .extend_from_slice(words.as_bytes())
            .expect(rt, "memory");
    }
}

/// Whether the words, so often, and then the rest are refused so. The constant `s` is a `Mag`.
fn is_refused(
    rt: &impl Abort,
    alloc: Global,
    words: &str,
    times: usize,
    rest: &str,
    wanted: &str,
) -> bool {
    let env = environment(rt, alloc, &ITEMS);
    let mut ctx = start(alloc, 1);
    put_constants(alloc, &mut ctx, &[("s", MAG)]).expect(rt, "constants");
    let mut bytes = Vec::new(alloc);
    add(rt, &mut bytes, words, times);
    add(rt, &mut bytes, rest, 1);
    let text = str::from_utf8(bytes.as_slice()).ok().expect(rt, "a text");
    let found = answer(
        rt,
        alloc,
        SYMBOLS,
        &env,
        &mut ctx,
        Call::Formula,
        0,
        1000000,
        text,
    );
    let same = is_answer(found, wanted, None);
    forget(bytes);
    forget(env);
    forget(ctx);
    same
}

/// Of 60,000 selectors the seventh from the inside isn't read: that its argument is a `Mag` takes five layers of instances, and
/// there are four.
#[test]
fn selectors(rt: HostRuntime) {
    let same = is_refused(&rt, rt.alloc(), "the car of ", 60000, "s = s", "A659958");
    assert!(rt; same);
}

/// Of 190,000 functors the one before 511 others makes a term of the depth 513.
#[test]
fn functors_before_their_argument(rt: HostRuntime) {
    let same = is_refused(&rt, rt.alloc(), "sin ", 190000, "s = s", "L757983");
    assert!(rt; same);
}

/// The last of them has no notation with one argument.
#[test]
fn functors_without_a_notation(rt: HostRuntime) {
    let same = is_refused(&rt, rt.alloc(), "+ ", 190000, "s = s", "N380029");
    assert!(rt; same);
}
