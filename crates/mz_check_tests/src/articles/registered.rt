//! Articles over the registrations of another one.
use crate::articles::checking::{Row, check, check_rows, exports, outcome_named, vocabulary};
use mz_axioms::exports::Exports;
use mz_base::vocabularies::Vocabularies;
use mz_core::outcome::{Export, Outcome};
use std::alloc::Global;
use std::mem::forget;
use std::process::Abort;
use std::sync::Arc;
use std::thread::Threads;

/// Attributes that each set has, `void` that none has, and registrations of them.
const B: &[u8] =
    b"environ vocabularies V; begin\ndefinition let X be set; attr X is one means X = X; attr X is two means X = X; attr X is three means X = X; attr X is void means X <> X; end;\nregistration cluster one set; existence proof consider x being object such that x = x; take x; thus thesis; end; cluster one -> two for set; coherence; cluster two -> three for set; coherence; end;";

/// An article that rests on B.
const C: &[u8] = b"environ vocabularies V; notations B; constructors B; registrations B; begin";

/// Four attributes, of which each is registered to give the next one, and a functor whose values have the first.
const CHAIN: &str =
    "environ vocabularies V; begin\ndefinition let X be set; attr X is one means X = X; attr X is two means X = X; attr X is three means X = X; attr X is four means X = X; func Ff X -> set equals X; coherence; end;\nregistration cluster one -> two for set; coherence; cluster two -> three for set; coherence; cluster three -> four for set; coherence; end;\nregistration let X be set; cluster Ff X -> one; coherence; end;";

/// The same, but that nothing is registered of the second attribute.
const BROKEN: &[u8] =
    b"environ vocabularies V; begin\ndefinition let X be set; attr X is one means X = X; attr X is two means X = X; attr X is three means X = X; attr X is four means X = X; func Ff X -> set equals X; coherence; end;\nregistration cluster one -> two for set; coherence; cluster three -> four for set; coherence; end;\nregistration let X be set; cluster Ff X -> one; coherence; end;";

/// The export of an accepted article.
fn accepted(rt: &impl Abort, outcome: Outcome) -> Export {
    match outcome {
        Outcome::Accepted(export) => export,
        Outcome::Rejected(faults) => {
            forget(faults);
            rt.abort()
        }
    }
}

/// Adds the export of the article, which is accepted.
fn add_article(
    rt: &(impl Abort + Threads + Sync),
    alloc: Global,
    exports: &mut Exports,
    vocabularies: &Vocabularies,
    name: &[u8],
    text: &[u8],
) {
    let outcome = outcome_named(rt, alloc, name, exports, vocabularies, text);
    let shared = Arc::new(alloc, accepted(rt, outcome)).expect(rt, "memory");
    assert!(rt; exports.len() < 515);
    exports.insert(shared);
}

/// Articles over these.
const REGISTERED: [Row; 15] = [
    // registrations of another article
    (
        "environ vocabularies V; notations B; constructors B; registrations B; begin theorem for X being one set holds X is three;",
        "accepted 1",
    ),
    // only `registrations` lets them in
    (
        "environ vocabularies V; notations B; constructors B; begin theorem for X being one set holds X is three;",
        "1:80 34",
    ),
    // what has the first adjective has the others
    (
        "environ vocabularies V; notations B; constructors B; registrations B; begin theorem for X being set st X is one holds X is three;",
        "accepted 1",
    ),
    // not without them
    (
        "environ vocabularies V; notations B; constructors B; begin theorem for X being set st X is one holds X is three;",
        "1:112 61 1",
    ),
    // but by what the attributes mean
    (
        "environ vocabularies V; notations B; constructors B; definitions B; begin theorem for X being set st X is one holds X is three;",
        "accepted 1",
    ),
    // nor in the other direction
    (
        "environ vocabularies V; notations B; constructors B; registrations B; begin theorem for X being set st X is three holds X is one;",
        "1:129 61 1",
    ),
    // their constructors have to be let in
    (
        "environ vocabularies V; notations B; registrations B; begin",
        "1:35 27 1",
    ),
    // else they stay out
    (
        "environ vocabularies V; registrations B; begin theorem for X being set holds X = X;",
        "accepted 1",
    ),
    // those of an article on which another one rests
    (
        "environ vocabularies V; notations B; constructors C; registrations B; begin theorem for X being one set holds X = X;",
        "accepted 1",
    ),
    // are let in by its own name
    (
        "environ vocabularies V; notations B; constructors C; registrations C; begin theorem for X being one set holds X = X;",
        "1:97 34",
    ),
    // the latest attribute of the name is read, of which nothing is registered
    (
        "environ vocabularies V; notations B; constructors B; registrations B; begin definition let X be set; attr X is one means X in X; end;\ntheorem for X being one set holds X = X;",
        "2:21 34",
    ),
    // a cluster of attributes of another article
    (
        "environ vocabularies V; notations B; constructors B; registrations B; begin registration cluster void -> one for set; coherence; end;",
        "1:128 61 1",
    ),
    // each registration goes on from those before it
    (
        "environ vocabularies V; notations D; constructors D; registrations D; begin theorem for X being set holds Ff X is four;",
        "accepted 1",
    ),
    // where none of them is let in nothing is known
    (
        "environ vocabularies V; notations D; constructors D; begin theorem for X being set holds Ff X is four;",
        "1:102 61 1",
    ),
    // nor where one between is missing
    (
        "environ vocabularies V; notations E; constructors E; registrations E; begin theorem for X being set holds Ff X is four;",
        "1:119 61 1",
    ),
];

#[test]
fn registrations_of_another_article(rt: HostRuntime) {
    let all = vocabulary(
        &rt,
        rt.alloc(),
        b"V",
        b"Vone\nVtwo\nVthree\nVfour\nVvoid\nOFf",
    );
    let mut exports = exports(&rt, rt.alloc());
    add_article(&rt, rt.alloc(), &mut exports, &all, b"B", B);
    add_article(&rt, rt.alloc(), &mut exports, &all, b"C", C);
    check(
        &rt,
        rt.alloc(),
        &exports,
        &all,
        CHAIN.as_bytes(),
        "accepted 9",
    );
    add_article(&rt, rt.alloc(), &mut exports, &all, b"D", CHAIN.as_bytes());
    add_article(&rt, rt.alloc(), &mut exports, &all, b"E", BROKEN);
    check_rows(&rt, rt.alloc(), &exports, &all, &REGISTERED);
    forget(all);
    forget(exports);
}
