//! Articles that cite a theorem of another one.
use crate::articles::checking::{
    Row, check_rows, exports, no_vocabularies, outcome_named, outcome_of, vocabulary,
};
use mz_axioms::exports::Exports;
use mz_base::name::Name;
use mz_core::outcome::{Export, Outcome};
use std::alloc::Global;
use std::mem::forget;
use std::process::Abort;
use std::sync::Arc;
use std::thread::Threads;

/// Each thing is in a set.
const B: &[u8] =
    b"environ theorems TARSKI_0; begin\ntheorem for x being object ex z being set st x in z\nproof let x be object; consider z being set such that\nA: for a being object holds a in z iff a = x or a = x by TARSKI_0:3;\ntake z; thus x in z by A; end;";

/// A scheme.
const S: &[u8] =
    b"environ begin scheme Sc { P[object], Q[object] } : for x being object holds Q[x] provided A1: for x being object st P[x] holds Q[x] and A2: for x being object holds P[x] proof let x be object; P[x] by A2; hence thesis by A1; end;";

/// An article that rests on B.
const C: &[u8] = b"environ theorems B; begin theorem for x being object holds x = x;";

/// The export of an accepted article.
fn accepted(rt: &impl Abort, outcome: Outcome) -> Export {
    match outcome {
        Outcome::Accepted(export) => export,
        Outcome::Rejected(faults) => {
            forget(faults);
            rt.abort()
        }
    }
}

/// Adds the export of the article, which is accepted and has no vocabulary.
fn add_article(
    rt: &(impl Abort + Threads + Sync),
    alloc: Global,
    exports: &mut Exports,
    name: &[u8],
    text: &[u8],
) {
    let none = no_vocabularies(alloc);
    let export = accepted(rt, outcome_named(rt, alloc, name, exports, &none, text));
    forget(none);
    let shared = Arc::new(alloc, export).expect(rt, "memory");
    assert!(rt; exports.len() < 515);
    exports.insert(shared);
}

/// The built-in exports, and those of B and C.
fn exports_of_two(rt: &(impl Abort + Threads + Sync), alloc: Global) -> Exports {
    let mut out = exports(rt, alloc);
    add_article(rt, alloc, &mut out, b"B", B);
    add_article(rt, alloc, &mut out, b"C", C);
    out
}

const CITING: [Row; 10] = [
    // another article's theorem
    (
        "environ theorems B; begin theorem for x being object ex z being set st x in z by B:1;",
        "accepted 1",
    ),
    // doesn't follow without it
    (
        "environ begin theorem for x being object ex z being set st x in z;",
        "1:66 61 1",
    ),
    // nor from another axiom alone
    (
        "environ theorems TARSKI_0; begin theorem for x being object ex z being set st x in z by TARSKI_0:3;",
        "1:86 61 1",
    ),
    // only `theorems` lets it be cited
    (
        "environ constructors B; notations B; begin theorem for x being object ex z being set st x in z by B:1;",
        "1:99 43",
    ),
    // and not what rests on it
    (
        "environ theorems C; begin theorem for x being object ex z being set st x in z by B:1;",
        "1:82 43",
    ),
    // B has no second theorem
    (
        "environ theorems B; begin theorem for x being object ex z being set st x in z by B:2;",
        "1:82 43",
    ),
    // nor a definition
    (
        "environ theorems B; begin theorem for x being object ex z being set st x in z by B:def 1;",
        "1:82 43",
    ),
    // an article without an export
    ("environ theorems B,D; begin", "1:20 29"),
    // which is told before the items
    ("environ theorems D; begin theorem x = x;", "1:18 29"),
    // but behind the grammar
    ("environ theorems D; begin theorem ;", "1:35 14"),
];

#[test]
fn a_theorem_of_another_article(rt: HostRuntime) {
    let exports = exports_of_two(&rt, rt.alloc());
    let none = no_vocabularies(rt.alloc());
    check_rows(&rt, rt.alloc(), &exports, &none, &CITING);
    forget(none);
    forget(exports);
}

const BY_SCHEMES: [Row; 4] = [
    // a scheme of another article
    (
        "environ schemes S; begin A: for x being object holds x in x or not x in x; C: for x being object st x in x or not x in x holds x = x; theorem for x being object holds x = x from S:sch 1(C,A);",
        "accepted 1",
    ),
    // it isn't let in by `theorems`
    (
        "environ theorems S; begin A: for x being object holds x in x or not x in x; C: for x being object st x in x or not x in x holds x = x; theorem for x being object holds x = x from S:sch 1(C,A);",
        "1:180 43",
    ),
    // nor has it a second one
    (
        "environ schemes S; begin A: for x being object holds x in x or not x in x; C: for x being object st x in x or not x in x holds x = x; theorem for x being object holds x = x from S:sch 2(C,A);",
        "1:179 43",
    ),
    // its label is unknown here
    (
        "environ schemes S; begin A: for x being object holds x in x or not x in x; C: for x being object st x in x or not x in x holds x = x; theorem for x being object holds x = x from Sc(C,A);",
        "1:179 43",
    ),
];

#[test]
fn a_scheme_of_another_article(rt: HostRuntime) {
    let mut exports = exports(&rt, rt.alloc());
    add_article(&rt, rt.alloc(), &mut exports, b"S", S);
    let none = no_vocabularies(rt.alloc());
    check_rows(&rt, rt.alloc(), &exports, &none, &BY_SCHEMES);
    forget(none);
    forget(exports);
}

/// Whether the export is A's and rests directly on these articles.
fn rests_on(rt: &impl Abort, export: &Export, wanted: &[&str]) -> bool {
    let found = export.dependencies.as_slice();
    if export.name != Name::read(b"A").expect(rt, "a name") || found.len() != wanted.len() {
        return false;
    }
    for (name, word) in found.iter().zip(wanted) {
        if *name != Name::read(word.as_bytes()).expect(rt, "a name") {
            return false;
        }
    }
    true
}

/// The articles of all directives, each once, in the order of the text; but no vocabulary and no requirement.
#[test]
fn what_an_export_rests_on(rt: HostRuntime) {
    let exports = exports_of_two(&rt, rt.alloc());
    let all = vocabulary(&rt, rt.alloc(), b"V", b"R##");
    let text =
        b"environ theorems C; vocabularies V; definitions TARSKI_0, C; requirements HIDDEN; notations B; begin";
    let outcome = outcome_of(&rt, rt.alloc(), &exports, &all, text);
    let export = accepted(&rt, outcome);
    assert!(rt; rests_on(&rt, &export, &["C", "TARSKI_0", "B"]));
    forget(export);
    forget(all);
    forget(exports);
}
