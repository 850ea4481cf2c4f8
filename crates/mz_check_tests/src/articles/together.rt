//! Articles whose items are of several kinds: what one kind makes is used by another.
use crate::articles::checking::{Row, check, check_rows, exports, vocabulary};
use std::alloc::Global;
use std::mem::forget;
use std::process::Abort;
use std::thread::Threads;

const TOGETHER: [Row; 4] = [
    // a type with an adjective of which nothing is registered
    (
        "environ vocabularies V; theorems TARSKI_0; begin\ndefinition let X be set;\nattr X is empty means :Def1: for x being object holds not x in X; end;\ntheorem for X being non empty set holds X = X;",
        "4:21 34",
    ),
    // of which an object is registered to have it
    (
        "environ vocabularies V; theorems TARSKI_0; begin\ndefinition let X be set;\nattr X is empty means :Def1: for x being object holds not x in X; end;\nregistration cluster non empty set; existence\nproof consider x being object such that A1: x = x;\nconsider Z being set such that A2: for a being object holds a in Z iff a = x or a = x by TARSKI_0:3;\ntake Z; x in Z by A2; hence thesis by Def1; end; end;\ntheorem for X being non empty set holds X = X;",
        "accepted 3",
    ),
    // arguments that have one structure in their types
    (
        "environ vocabularies V; begin\ndefinition struct Mag (# car -> set #); end;\ndefinition let S be Mag; mode Elm of S -> object means it = S; existence; end;\ndefinition let S be Mag; let x,y be Elm of S; func x ** y -> object equals x; coherence; end;\ntheorem for S being Mag for x,y being Elm of S holds x ** y = x ** y;",
        "accepted 4",
    ),
    // that have two
    (
        "environ vocabularies V; begin\ndefinition struct Mag (# car -> set #); end;\ndefinition let S be Mag; mode Elm of S -> object means it = S; existence; end;\ndefinition let S be Mag; let x,y be Elm of S; func x ** y -> object equals x; coherence; end;\ntheorem for S,T being Mag for x being Elm of S for y being Elm of T holds x ** y = x ** y;",
        "5:77 35",
    ),
];

#[test]
fn items_of_several_kinds(rt: HostRuntime) {
    let all = vocabulary(&rt, rt.alloc(), b"V", b"Vempty\nGMag\nUcar\nMElm\nO**");
    let exports = exports(&rt, rt.alloc());
    check_rows(&rt, rt.alloc(), &exports, &all, &TOGETHER);
    forget(exports);
    forget(all);
}

/// `X \/ Y /\ Z = Z` holds where `X \/ Y` stands together: the values are those of the left and of the right argument.
const GROUPED: &str =
    "environ vocabularies V; begin definition let X,Y be set; func X \\/ Y -> set equals X; coherence; func X /\\ Y -> set equals Y; coherence; end; theorem for X,Y,Z being set holds X \\/ Y /\\ Z = Z;";

/// Checks the text under a vocabulary.
fn check_grouped(rt: &(impl Abort + Threads + Sync), alloc: Global, symbols: &[u8], wanted: &str) {
    let all = vocabulary(rt, alloc, b"V", symbols);
    let exports = exports(rt, alloc);
    check(rt, alloc, &exports, &all, GROUPED.as_bytes(), wanted);
    forget(exports);
    forget(all);
}

#[test]
fn priorities_of_symbols(rt: HostRuntime) {
    // of one priority: the last symbol is the head
    check_grouped(&rt, rt.alloc(), b"O\\/\nO/\\", "accepted 3");
    // the symbol of the lower priority is the head
    check_grouped(&rt, rt.alloc(), b"O\\/\nO/\\ 66", "1:192 61 1");
}
