//! Articles that use what other articles define.
use crate::articles::checking::{Row, check_rows, exports, outcome_named, vocabulary};
use mz_axioms::exports::Exports;
use mz_base::vocabularies::Vocabularies;
use mz_core::outcome::{Export, Outcome};
use std::alloc::Global;
use std::mem::forget;
use std::process::Abort;
use std::sync::Arc;
use std::thread::Threads;

/// A functor, a mode, and a notation for the functor.
const B: &[u8] =
    b"environ vocabularies V; begin definition let x be object; func Ff x -> object equals x; coherence; mode Elm of x -> object means it = x; existence; end; notation let x be object; synonym { x } for Ff x; end;";

/// The same functor by a formula.
const C: &[u8] =
    b"environ vocabularies V; begin definition let x be object; func Ff x -> object means it = x; existence; uniqueness; end;";

/// A notation for the functor of B.
const D: &[u8] =
    b"environ vocabularies V; notations B; constructors B; begin notation let x be object; synonym [ x ] for Ff x; end;";

/// A predicate and a functor with properties.
const E: &[u8] =
    b"environ vocabularies V; begin definition let x,y be object; pred x ## y means x = y; symmetry; end; definition let x be object; func Ff x -> object equals x; coherence; involutiveness; end;";

/// The predicate without.
const G: &[u8] =
    b"environ vocabularies V; begin definition let x,y be object; pred x ## y means x = y; end;";

/// The export of an accepted article.
fn accepted(rt: &impl Abort, outcome: Outcome) -> Export {
    match outcome {
        Outcome::Accepted(export) => export,
        Outcome::Rejected(faults) => {
            forget(faults);
            rt.abort()
        }
    }
}

/// Adds the export of the article, which is accepted.
fn add_article(
    rt: &(impl Abort + Threads + Sync),
    alloc: Global,
    exports: &mut Exports,
    all: &Vocabularies,
    name: &[u8],
    text: &[u8],
) {
    let export = accepted(rt, outcome_named(rt, alloc, name, exports, all, text));
    let shared = Arc::new(alloc, export).expect(rt, "memory");
    assert!(rt; exports.len() < 515);
    exports.insert(shared);
}

const ELSEWHERE: [Row; 24] = [
    // a functor of another article
    (
        "environ vocabularies V; notations B; constructors B; begin theorem for x being object holds Ff x = Ff x;",
        "accepted 1",
    ),
    // a notation without its constructor
    ("environ vocabularies V; notations B; begin ", "1:35 27 1"),
    // a constructor without its notation
    (
        "environ vocabularies V; constructors B; begin theorem for x being object holds Ff x = x;",
        "1:80 31",
    ),
    // its equation isn't let in
    (
        "environ vocabularies V; notations B; constructors B; begin theorem for x being object holds Ff x = x;",
        "1:101 61 1",
    ),
    // but by `definitions`
    (
        "environ vocabularies V; notations B; constructors B; definitions B; begin theorem for x being object holds Ff x = x;",
        "accepted 1",
    ),
    // its definitional theorem, by `theorems`
    (
        "environ vocabularies V; notations B; constructors B; theorems B; begin theorem for x being object holds Ff x = x by B:def 1;",
        "accepted 1",
    ),
    // without it
    (
        "environ vocabularies V; notations B; constructors B; begin theorem for x being object holds Ff x = x by B:def 1;",
        "1:105 43",
    ),
    // that of a mode
    (
        "environ vocabularies V; notations B; constructors B; theorems B; begin theorem for x being object holds x is Elm of x by B:def 2;",
        "accepted 1",
    ),
    // the unfolding of a mode
    (
        "environ vocabularies V; notations B; constructors B; definitions B; begin theorem for x being object holds x is Elm of x;",
        "accepted 1",
    ),
    // which isn't let in
    (
        "environ vocabularies V; notations B; constructors B; begin theorem for x being object holds x is Elm of x;",
        "1:106 61 1",
    ),
    // a notation of it has no definitional theorem
    (
        "environ vocabularies V; notations B; constructors B; theorems B; begin theorem for x being object holds Ff x = x by B:def 3;",
        "1:117 43",
    ),
    // a notation of another article
    (
        "environ vocabularies V; notations B; constructors B; begin theorem for x being object holds { x } = Ff x;",
        "accepted 1",
    ),
    // the latest of two articles
    (
        "environ vocabularies V; notations B, C; constructors B, C; definitions B; begin theorem for x being object holds Ff x = x;",
        "1:122 61 1",
    ),
    // the other way round
    (
        "environ vocabularies V; notations C, B; constructors B, C; definitions B; begin theorem for x being object holds Ff x = x;",
        "accepted 1",
    ),
    // a synonym of another article's functor
    (
        "environ vocabularies V; notations B; constructors B; definitions B; begin notation let x be object; synonym [ x ] for Ff x; end; theorem for x being object holds [ x ] = x;",
        "accepted 2",
    ),
    // of the latest of two
    (
        "environ vocabularies V; notations C, B; constructors B, C; definitions B; begin notation let x be object; synonym [ x ] for Ff x; end; theorem for x being object holds [ x ] = x;",
        "accepted 2",
    ),
    // of which no equation is known
    (
        "environ vocabularies V; notations B, C; constructors B, C; definitions B; begin notation let x be object; synonym [ x ] for Ff x; end; theorem for x being object holds [ x ] = x;",
        "1:178 61 1",
    ),
    // a notation for what a third article defines
    (
        "environ vocabularies V; notations D; constructors D; begin theorem for x being object holds [ x ] = [ x ];",
        "accepted 1",
    ),
    // whose constructor isn't let in
    ("environ vocabularies V; notations D; begin ", "1:35 27 1"),
    // which is that of the third article
    (
        "environ vocabularies V; notations D, B; constructors D; begin theorem for x being object holds [ x ] = Ff x;",
        "accepted 1",
    ),
    // a property of another article's predicate
    (
        "environ vocabularies V; notations E; constructors E; begin theorem for x,y being object st x ## y holds y ## x;",
        "accepted 1",
    ),
    // one that it doesn't have
    (
        "environ vocabularies V; notations G; constructors G; begin theorem for x,y being object st x ## y holds y ## x;",
        "1:111 61 1",
    ),
    // a property of its functor
    (
        "environ vocabularies V; notations E; constructors E; begin theorem for x being object holds Ff Ff x = x;",
        "accepted 1",
    ),
    // whose equation isn't let in
    (
        "environ vocabularies V; notations E; constructors E; begin theorem for x being object holds Ff x = x;",
        "1:101 61 1",
    ),
];

#[test]
fn definitions_of_other_articles(rt: HostRuntime) {
    let all = vocabulary(&rt, rt.alloc(), b"V", b"OFf\nMElm\nR##\nK<.\nL.>");
    let mut exports = exports(&rt, rt.alloc());
    add_article(&rt, rt.alloc(), &mut exports, &all, b"B", B);
    add_article(&rt, rt.alloc(), &mut exports, &all, b"C", C);
    add_article(&rt, rt.alloc(), &mut exports, &all, b"D", D);
    add_article(&rt, rt.alloc(), &mut exports, &all, b"E", E);
    add_article(&rt, rt.alloc(), &mut exports, &all, b"G", G);
    check_rows(&rt, rt.alloc(), &exports, &all, &ELSEWHERE);
    forget(exports);
    forget(all);
}
