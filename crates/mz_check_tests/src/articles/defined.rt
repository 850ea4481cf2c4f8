//! Articles over a definition of another one.
use crate::articles::checking::{Row, check_rows, exports, vocabulary};
use mz_axioms::exports::Exports;
use mz_base::name::Name;
use mz_base::names::Names;
use mz_core::items::Items;
use mz_core::notations::Notations;
use mz_core::outcome::Export;
use mz_item_samples::items::{ItemRow, MeaningRow, PatternRow, item, notation};
use mz_item_samples::types::OBJECT;
use mz_logic::kind::Kind;
use std::alloc::Global;
use std::mem::forget;
use std::process::Abort;
use std::sync::Arc;

/// `x ## y` for `let x,y be object`.
const PATTERN: PatternRow = ("##", &[OBJECT, OBJECT], &[0], &[1]);

/// `pred x ## y means x = y`.
fn items(rt: &impl Abort, alloc: Global) -> Items {
    let row = ItemRow::Predicate("W.R1", PATTERN, "(= b1 b0)");
    let item = item(alloc, row).expect(rt, "an item");
    let mut out = Items::new(alloc);
    out.push(item).expect(rt, "memory");
    out
}

fn notations(rt: &impl Abort, alloc: Global) -> Notations {
    let meaning = MeaningRow::Literal("(W.R1 b1 b0)");
    let row = (Kind::Predicate, PATTERN, meaning);
    let notation = notation(alloc, row).expect(rt, "a notation");
    let mut out = Notations::new(alloc);
    out.push(notation).expect(rt, "memory");
    out
}

/// The built-in exports, and that of W.
fn exports_with_definition(rt: &impl Abort, alloc: Global) -> Exports {
    let mut out = exports(rt, alloc);
    let export = Export {
        name: Name::read(b"W").expect(rt, "a name"),
        dependencies: Names::new(alloc),
        items: items(rt, alloc),
        notations: notations(rt, alloc),
    };
    let shared = Arc::new(alloc, export).expect(rt, "memory");
    assert!(rt; out.len() < 515);
    out.insert(shared);
    out
}

const DEFINED: [Row; 15] = [
    // the constructor of a notation must be let in
    ("environ vocabularies V; notations W; begin", "1:35 27 1"),
    // by any directive
    (
        "environ vocabularies V; notations W; constructors W; begin",
        "accepted 0",
    ),
    // the first fault in the order of the text: a constructor
    ("environ notations W; theorems D; begin", "1:19 27 1"),
    // or an export
    ("environ theorems D; notations W; begin", "1:18 29"),
    // or a requirement
    ("environ requirements D; notations W; begin", "1:22 28"),
    // a definition's theorem
    (
        "environ vocabularies V; notations W; constructors W; theorems W; begin theorem for x being object holds x ## x by W:def 1;",
        "accepted 1",
    ),
    // what follows from it no more
    (
        "environ vocabularies V; notations W; constructors W; theorems W; begin theorem for x,y being object holds x ## y by W:def 1;",
        "1:114 61 1",
    ),
    // only `theorems` lets it be cited
    (
        "environ vocabularies V; notations W; constructors W; begin theorem for x being object holds x ## x by W:def 1;",
        "1:103 43",
    ),
    // it is no theorem of that number
    (
        "environ vocabularies V; notations W; constructors W; theorems W; begin theorem for x being object holds x ## x by W:1;",
        "1:115 43",
    ),
    // there is one definition
    (
        "environ vocabularies V; notations W; constructors W; theorems W; begin theorem for x being object holds x ## x by W:def 2;",
        "1:115 43",
    ),
    // nothing is known of the predicate where it isn't cited
    (
        "environ vocabularies V; notations W; constructors W; theorems W; begin theorem for x being object holds x ## x;",
        "1:111 61 1",
    ),
    // nor unfolded
    (
        "environ vocabularies V; notations W; constructors W; definitions W; begin theorem for x being object holds x ## x;",
        "accepted 1",
    ),
    // the symbol is in the vocabulary alone
    (
        "environ notations W; constructors W; begin theorem for x being object holds x ## x;",
        "1:79 11",
    ),
    // and read by its notations alone
    (
        "environ vocabularies V; constructors W; begin theorem for x being object holds x ## x;",
        "1:82 31",
    ),
    // at two arguments
    (
        "environ vocabularies V; notations W; constructors W; begin theorem for x being object holds x ## x,x;",
        "1:95 32",
    ),
];

#[test]
fn a_definition_of_another_article(rt: HostRuntime) {
    let exports = exports_with_definition(&rt, rt.alloc());
    let all = vocabulary(&rt, rt.alloc(), b"V", b"R##");
    check_rows(&rt, rt.alloc(), &exports, &all, &DEFINED);
    forget(all);
    forget(exports);
}
