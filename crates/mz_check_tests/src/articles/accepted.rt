//! What accepted articles state.
use crate::articles::checking::{exports, no_vocabularies, outcome_of};
use mz_axioms::exports::Exports;
use mz_core::item::Item;
use mz_core::outcome::Outcome;
use mz_item_samples::texts::statement_text;
use std::alloc::Global;
use std::mem::forget;
use std::process::Abort;
use std::thread::Threads;

/// The formula of a theorem.
fn theorem_text(rt: &impl Abort, alloc: Global, item: &Item) -> Vec<u8> {
    match item {
        Item::Theorem(s) => statement_text(alloc, s).expect(rt, "memory"),
        _ => rt.abort(),
    }
}

/// The formula of an article's only item.
fn stated(
    rt: &(impl Abort + Threads + Sync),
    alloc: Global,
    exports: &Exports,
    text: &str,
) -> Vec<u8> {
    let none = no_vocabularies(alloc);
    let outcome = outcome_of(rt, alloc, exports, &none, text.as_bytes());
    forget(none);
    match outcome {
        Outcome::Accepted(export) => {
            assert!(rt; export.items.items.len() == 1, "{text}");
            let found = theorem_text(rt, alloc, &export.items.items[0]);
            forget(export);
            found
        }
        Outcome::Rejected(faults) => {
            forget(faults);
            rt.abort()
        }
    }
}

fn check_stated(
    rt: &(impl Abort + Threads + Sync),
    alloc: Global,
    exports: &Exports,
    text: &str,
    wanted: &str,
) {
    let found = stated(rt, alloc, exports, text);
    let same = found.as_slice() == wanted.as_bytes();
    forget(found);
    assert!(rt; same, "{text}");
}

const STATED: [(&str, &str); 5] = [
    (
        "environ begin theorem for x being object holds x = x;",
        "(all (= b0 b0))",
    ),
    // the theorem alone, and not what stands beside it
    (
        "environ begin B: for x being object holds x = x; theorem for x being object st x in x holds x = x by B;",
        "(all (not (and (HIDDEN.R1 b0 b0) (not (= b0 b0)))))",
    ),
    // for all reserved variables, in the order of the text
    (
        "environ begin reserve X,Y for set; theorem Y in X implies X = X;",
        "(all (all (not (and (HIDDEN.R1 b1 b0) (not (= b0 b0))))))",
    ),
    (
        "environ begin theorem ex x being object st x = x;",
        "(not (all (not (= b0 b0))))",
    ),
    // the closed sentence, and not what its proof proves at constants
    (
        "environ begin reserve x for object; theorem x = x proof thus x = x; end;",
        "(all (= b0 b0))",
    ),
];

#[test]
fn what_accepted_articles_state(rt: HostRuntime) {
    let exports = exports(&rt, rt.alloc());
    for (text, wanted) in &STATED {
        check_stated(&rt, rt.alloc(), &exports, text, wanted);
    }
    forget(exports);
}
