//! Articles with registrations.
use crate::articles::checking::{Row, check, exports, vocabulary};
use std::alloc::Global;
use std::mem::forget;
use std::process::Abort;
use std::thread::Threads;

/// What stands before each row, which begins in line 3: six attributes, of which `one`, `two` and `three` are had by each set and `void` by
/// none; `odd` is had by the sets that have themselves, and `Y like` by Y alone.
const OPENING: &str =
    "environ vocabularies V; begin\ndefinition let X be set; attr X is one means X = X; attr X is two means X = X; attr X is three means X = X; attr X is void means X <> X; attr X is odd means X in X; let Y be set; attr X is Y like means X = Y; end;\n";

const SYMBOLS: &[u8] = b"Vone\nVtwo\nVthree\nVvoid\nVodd\nVlike\nVblue";

/// Checks rows behind the opening.
fn check_behind(rt: &(impl Abort + Threads + Sync), alloc: Global, rows: &[Row]) {
    let all = vocabulary(rt, alloc, b"V", SYMBOLS);
    let exports = exports(rt, alloc);
    for (row, wanted) in rows {
        let text = format!(in alloc; "{OPENING}{row}").expect(rt, "memory");
        check(rt, alloc, &exports, &all, text.as_bytes(), wanted);
        forget(text);
    }
    forget(exports);
    forget(all);
}

/// Blocks and what stands in them.
const BLOCKS: [Row; 9] = [
    // a block without parts
    ("registration end;", "accepted 6"),
    // loci alone
    ("registration let X be set; end;", "accepted 6"),
    // a locus of a reserved type
    (
        "reserve X for set; registration let X; cluster X -> one; coherence; end;",
        "accepted 7",
    ),
    // a locus without a type whose name isn't reserved
    ("registration let X; end;", "3:18 33"),
    // loci are out of force behind the block
    ("registration let X be set; end;\ntheorem X = X;", "4:9 33"),
    // a block ends the statement just before
    (
        "for x being object holds x = x; registration end;\nthen for x being object holds x = x;",
        "4:1 41",
    ),
    // a constant of the article's own level
    (
        "consider a being set such that a = a; registration cluster a like set; existence; end;",
        "3:60 33",
    ),
    // a proof of a condition may use it
    (
        "consider a being set such that a = a; registration cluster one set; existence proof take a; thus thesis; end; end;",
        "accepted 7",
    ),
    // a reduction has no grammar yet
    (
        "registration let X be set; reduce X to X; reducibility; end;",
        "3:28 14",
    ),
];

/// That some object has adjectives.
const EXISTENTIAL: [Row; 26] = [
    // some object has the adjective
    (
        "registration cluster one set; existence proof consider x being object such that x = x; take x; thus thesis; end; end;",
        "accepted 7",
    ),
    // the same with `for`
    (
        "registration cluster one for set; existence proof consider x being object such that x = x; take x; thus thesis; end; end;",
        "accepted 7",
    ),
    // of an object
    (
        "registration cluster one object; existence proof consider x being object such that x = x; take x; thus thesis; end; end;",
        "accepted 7",
    ),
    // that there is one isn't seen without a term
    ("registration cluster one set; existence; end;", "3:40 61 1"),
    // nothing is justified
    ("registration cluster one set; end;", "3:31 51 1"),
    // uniqueness isn't owed
    (
        "registration cluster one set; uniqueness; end;",
        "3:31 52 2",
    ),
    // nor coherence
    ("registration cluster one set; coherence; end;", "3:31 52 3"),
    // nor compatibility
    (
        "registration cluster one set; compatibility; end;",
        "3:31 52 4",
    ),
    // nor consistency
    (
        "registration cluster one set; consistency; end;",
        "3:31 52 5",
    ),
    // `correctness` is all that is owed
    (
        "registration cluster one set; correctness proof consider x being object such that x = x; take x; thus thesis; end; end;",
        "accepted 7",
    ),
    // nothing is left for it
    (
        "registration cluster one set; existence proof consider x being object such that x = x; take x; thus thesis; end;\ncorrectness; end;",
        "4:1 52 6",
    ),
    // it is written once
    (
        "registration cluster one set; correctness proof consider x being object such that x = x; take x; thus thesis; end;\ncorrectness; end;",
        "4:1 52 6",
    ),
    // what it covers may be written, too
    (
        "registration cluster one set; correctness proof consider x being object such that x = x; take x; thus thesis; end; existence proof consider x being object such that x = x; take x; thus thesis; end; end;",
        "accepted 7",
    ),
    // once
    (
        "registration cluster one set; correctness proof consider x being object such that x = x; take x; thus thesis; end; existence proof consider x being object such that x = x; take x; thus thesis; end;\nexistence; end;",
        "4:1 52 1",
    ),
    // a condition twice
    (
        "registration cluster one set; existence proof consider x being object such that x = x; take x; thus thesis; end;\nexistence; end;",
        "4:1 52 1",
    ),
    // two adjectives, in their order
    (
        "registration cluster one two set; existence proof consider x being object such that x = x; take x; thus x is one; thus x is two; end; end;",
        "accepted 7",
    ),
    // in the other order the thesis has the other one first
    (
        "registration cluster two one set; existence proof consider x being object such that x = x; take x;\nthus x is one; thus x is two; end; end;",
        "4:1 41",
    ),
    // a conjunction isn't unfolded
    (
        "registration cluster one two set; existence proof consider x being object such that x = x; take x;\nthus thesis; end; end;",
        "4:12 61 1",
    ),
    // an adjective that is denied
    (
        "registration cluster non void set; existence proof consider x being object such that x = x; take x; thus thesis; end; end;",
        "accepted 7",
    ),
    // which nothing has
    (
        "registration cluster non one set; existence proof consider x being object such that x = x; take x;\nthus thesis; end; end;",
        "4:12 61 1",
    ),
    // an adjective and its denial
    (
        "registration cluster one non one set; existence; end;",
        "3:48 61 1",
    ),
    // an adjective with an argument
    (
        "registration let Y be set; cluster Y like set; existence proof take Y; thus thesis; end; end;",
        "accepted 7",
    ),
    // in parentheses
    (
        "registration let Y be set; cluster (Y) like set; existence proof take Y; thus thesis; end; end;",
        "accepted 7",
    ),
    // the type's adjectives need no cover
    (
        "registration let Y be set; cluster one for Y like set; existence proof A: Y is Y like; Y is one; hence thesis by A; end; end;",
        "accepted 7",
    ),
    // a symbol without a notation
    ("registration cluster blue set; existence; end;", "3:22 31"),
    // with too many arguments
    (
        "registration let Y be set; cluster Y one set; existence; end;",
        "3:38 32",
    ),
];

/// Loci of that.
const LOCI: [Row; 6] = [
    // a locus that doesn't occur
    (
        "registration let Y be set; cluster one set; existence; end;",
        "3:28 53",
    ),
    // which is told before its conditions are looked at
    (
        "registration let Y be set; cluster one set; coherence; end;",
        "3:28 53",
    ),
    // and behind the reading
    (
        "registration let Y be set; cluster P like set; existence; end;",
        "3:36 33",
    ),
    // the loci are all that are declared so far
    (
        "registration cluster one set; existence proof consider x being object such that x = x; take x; thus thesis; end;\nlet Y be set;\ncluster two set; existence; end;",
        "5:1 53",
    ),
    // and no more
    (
        "registration cluster one set; existence proof consider x being object such that x = x; take x; thus thesis; end; let Y be set; cluster Y like set; existence proof take Y; thus thesis; end; end;",
        "accepted 8",
    ),
    // two loci, one of which doesn't occur
    (
        "registration let X, Y be set; cluster X like set; existence; end;",
        "3:31 53",
    ),
];

/// What is covered by it.
const COVERED: [Row; 16] = [
    // a type with an adjective that nothing registers
    ("theorem for X being one set holds X = X;", "3:21 34"),
    // that is registered
    (
        "registration cluster one set; existence proof consider x being object such that x = x; take x; thus thesis; end; end; theorem for X being one set holds X = X;",
        "accepted 8",
    ),
    // that is denied, and registered without
    (
        "registration cluster one set; existence proof consider x being object such that x = x; take x; thus thesis; end; end;\ntheorem for X being non one set holds X = X;",
        "4:21 34",
    ),
    // of two that are registered together, both in the other order and one
    (
        "registration cluster one two set; existence proof consider x being object such that x = x; take x; thus x is one; thus x is two; end; end; theorem for X being two one set, Y being two set holds X = X;",
        "accepted 8",
    ),
    // two of which one is registered
    (
        "registration cluster one set; existence proof consider x being object such that x = x; take x; thus thesis; end; end;\ntheorem for X being one two set holds X = X;",
        "4:21 34",
    ),
    // registered of objects, a set is covered
    (
        "registration cluster one object; existence proof consider x being object such that x = x; take x; thus thesis; end; end; theorem for X being one set holds X = X;",
        "accepted 8",
    ),
    // and an object by what is registered of sets
    (
        "registration cluster one set; existence proof consider x being object such that x = x; take x; thus thesis; end; end; theorem for X being one object holds X = X;",
        "accepted 8",
    ),
    // a locus that stands in adjectives alone is fixed by no type
    (
        "registration let Y be set; cluster Y like set; existence proof take Y; thus thesis; end; end;\ntheorem for Y being set for X being Y like set holds X = X;",
        "4:37 34",
    ),
    // a registration is of no use to its own condition
    (
        "registration cluster one set; existence\nproof consider X being one set such that X = X; end; end;",
        "4:24 34",
    ),
    // but to the next heading
    (
        "registration cluster one set; existence proof consider x being object such that x = x; take x; thus thesis; end; cluster -> two for one set; coherence; end;",
        "accepted 8",
    ),
    // and not to the one before it
    (
        "registration cluster -> two for one set; coherence; cluster one set; existence proof consider x being object such that x = x; take x; thus thesis; end; end;",
        "3:33 34",
    ),
    // a justification knows nothing of it
    (
        "registration cluster one set; existence proof consider x being object such that x = x; take x; thus thesis; end; end;\nconsider X being one set such that X = X;",
        "4:41 61 1",
    ),
    // a locus of a covered type
    (
        "registration cluster one set; existence proof consider x being object such that x = x; take x; thus thesis; end; end; definition let X be one set; attr X is blue means X = X; end; theorem for X being one set holds X is blue;",
        "accepted 9",
    ),
    // which an argument has to be of
    (
        "registration cluster one set; existence proof consider x being object such that x = x; take x; thus thesis; end; end; definition let X be one set; attr X is blue means X = X; end;\ntheorem for X being set holds X is blue;",
        "4:36 35",
    ),
    // by registrations and types, and not by what was assumed
    (
        "registration cluster one set; existence proof consider x being object such that x = x; take x; thus thesis; end; end; definition let X be one set; attr X is blue means X = X; end;\ntheorem for X being set st X is one holds X is blue;",
        "4:48 35",
    ),
    // an adjective of a type is one of its radix
    (
        "registration cluster one set; existence proof consider x being object such that x = x; take x; thus thesis; end; end; definition let X be one set; attr X is blue means X = X; end;\ntheorem for X being blue one set holds X = X;",
        "4:21 35",
    ),
];

/// That objects with adjectives have others.
const CONDITIONAL: [Row; 32] = [
    // what has an adjective has another one
    (
        "registration cluster one -> two for set; coherence; end;",
        "accepted 7",
    ),
    // each set has it
    (
        "registration cluster -> two for set; coherence; end;",
        "accepted 7",
    ),
    // which isn't so
    (
        "registration cluster one -> odd for set; coherence; end;",
        "3:51 61 1",
    ),
    // nothing is justified
    ("registration cluster one -> two for set; end;", "3:42 51 3"),
    // existence isn't owed
    (
        "registration cluster one -> two for set; existence; end;",
        "3:42 52 1",
    ),
    // `correctness` is all that is owed
    (
        "registration cluster one -> two for set; correctness; end;",
        "accepted 7",
    ),
    // nothing is left for it
    (
        "registration cluster one -> two for set; coherence; correctness; end;",
        "3:53 52 6",
    ),
    // coherence twice
    (
        "registration cluster one -> two for set; coherence; coherence; end;",
        "3:53 52 3",
    ),
    // two on the right are no atom
    (
        "registration cluster one -> two three for set; coherence; end;",
        "3:57 61 1",
    ),
    // and are shown one after the other
    (
        "registration cluster one -> two three for set; coherence proof let X be set; assume X is one; thus X is two; thus X is three; end; end;",
        "accepted 7",
    ),
    // two on the left
    (
        "registration cluster one two -> three for set; coherence; end;",
        "accepted 7",
    ),
    // assumed one after the other
    (
        "registration cluster one two -> three for set; coherence proof let X be set; assume X is one; assume X is two; thus X is three; end; end;",
        "accepted 7",
    ),
    // or both at once
    (
        "registration cluster one two -> three for set; coherence proof let X be set; assume X is one & X is two; thus X is three; end; end;",
        "accepted 7",
    ),
    // in their order
    (
        "registration cluster two one -> three for set; coherence proof let X be set;\nassume X is one; thus X is three; end; end;",
        "4:1 41",
    ),
    // denied on the left
    (
        "registration cluster non void -> one for set; coherence; end;",
        "accepted 7",
    ),
    // denied on the right
    (
        "registration cluster one -> non void for set; coherence; end;",
        "accepted 7",
    ),
    // what nothing has
    (
        "registration cluster void -> odd for set; coherence; end;",
        "accepted 7",
    ),
    // a locus that doesn't occur
    (
        "registration let Y be set; cluster one -> two for set; coherence; end;",
        "3:28 53",
    ),
    // one that occurs on the left
    (
        "registration let Y be set; cluster Y like -> one for set; coherence; end;",
        "accepted 7",
    ),
    // one that occurs on the right
    (
        "registration let Y be set; cluster odd -> Y like for set; coherence; end;",
        "3:68 61 1",
    ),
    // the type is covered
    (
        "registration cluster one -> two for three set; coherence; end;",
        "3:37 34",
    ),
    // by what stands above
    (
        "registration cluster one set; existence proof consider x being object such that x = x; take x; thus thesis; end; cluster two -> three for one set; coherence; end;",
        "accepted 8",
    ),
    // what has the first adjective fits the second
    (
        "registration cluster one two set; existence proof consider x being object such that x = x; take x; thus x is one; thus x is two; end; end; registration cluster one -> two for set; coherence; end; theorem for X being one set holds X = X proof\nlet X be two set; thus X = X; end;",
        "accepted 9",
    ),
    // not without it
    (
        "registration cluster one two set; existence proof consider x being object such that x = x; take x; thus x is one; thus x is two; end; end; theorem for X being one set holds X = X proof\nlet X be two set; thus X = X; end;",
        "4:1 41",
    ),
    // nor in the other direction
    (
        "registration cluster one two set; existence proof consider x being object such that x = x; take x; thus x is one; thus x is two; end; end; registration cluster two -> one for set; coherence; end; theorem for X being one set holds X = X proof\nlet X be two set; thus X = X; end;",
        "4:1 41",
    ),
    // a denial on the left has no use where it isn't known
    (
        "registration cluster one two set; existence proof consider x being object such that x = x; take x; thus x is one; thus x is two; end; end; registration cluster non void -> two for set; coherence; end; theorem for X being one set holds X = X proof\nlet X be two set; thus X = X; end;",
        "4:1 41",
    ),
    // where nothing stands on the left it holds of each set
    (
        "registration cluster one two set; existence proof consider x being object such that x = x; take x; thus x is one; thus x is two; end; end; registration cluster -> two for set; coherence; end; theorem for X being one set holds X = X proof\nlet X be two set; thus X = X; end;",
        "accepted 9",
    ),
    // one leads to the next
    (
        "registration cluster one set; existence proof consider x being object such that x = x; take x; thus thesis; end; cluster one -> two for set; coherence; cluster two -> three for set; coherence; end; theorem for X being one set holds X = X proof let X be three set; thus X = X; end;",
        "accepted 10",
    ),
    // and not where one is missing
    (
        "registration cluster one set; existence proof consider x being object such that x = x; take x; thus thesis; end; cluster two -> three for set; coherence; end;\ntheorem for X being three set holds X = X;",
        "4:21 34",
    ),
    // no other cover is needed where each set has it
    (
        "registration cluster -> one for set; coherence; end; theorem for X being one set holds X = X;",
        "accepted 8",
    ),
    // so of objects
    (
        "registration cluster -> one for object; coherence; end; theorem for X being one set holds X = X;",
        "accepted 8",
    ),
    // it is of no use to its own condition
    (
        "registration cluster -> one for set; coherence\nproof let X be one set; thus X is one; end; end;",
        "4:16 34",
    ),
];

/// That a term has adjectives.
const FUNCTORIAL: [Row; 19] = [
    // a term has the adjective
    (
        "registration let X be set; cluster X -> one; coherence; end;",
        "accepted 7",
    ),
    // as one of the type
    (
        "registration let X be set; cluster X -> one for set; coherence; end;",
        "accepted 7",
    ),
    // which isn't so
    (
        "registration let X be set; cluster X -> odd; coherence; end;",
        "3:55 61 1",
    ),
    // nor as one of the type
    (
        "registration let X be set; cluster X -> odd for set; coherence; end;",
        "3:63 61 1",
    ),
    // nothing is justified
    (
        "registration let X be set; cluster X -> one; end;",
        "3:46 51 3",
    ),
    // existence isn't owed
    (
        "registration let X be set; cluster X -> one; existence; end;",
        "3:46 52 1",
    ),
    // `correctness` is all that is owed
    (
        "registration let X be set; cluster X -> one; correctness; end;",
        "accepted 7",
    ),
    // two adjectives are no atom
    (
        "registration let X be set; cluster X -> one two; coherence; end;",
        "3:59 61 1",
    ),
    // and are shown one after the other
    (
        "registration let X be set; cluster X -> one two; coherence proof thus X is one; thus X is two; end; end;",
        "accepted 7",
    ),
    // denied
    (
        "registration let X be set; cluster X -> non void; coherence; end;",
        "accepted 7",
    ),
    // with the term as its argument
    (
        "registration let X be set; cluster X -> X like; coherence; end;",
        "accepted 7",
    ),
    // a locus that doesn't occur
    (
        "registration let X,Y be set; cluster X -> one; coherence; end;",
        "3:30 53",
    ),
    // one that occurs in the adjectives alone
    (
        "registration let X,Y be set; cluster X -> Y like; coherence; end;",
        "3:60 61 1",
    ),
    // the type is covered
    (
        "registration let X be set; cluster X -> one for two set; coherence; end;",
        "3:49 34",
    ),
    // a proof with the type as an antecedent
    (
        "registration cluster two set; existence proof consider x being object such that x = x; take x; thus thesis; end; let X be set; cluster X -> one for two set; coherence proof assume X is two; thus X is one; end; end;",
        "accepted 8",
    ),
    // each set has it: a term that is a variable
    (
        "registration let X be set; cluster X -> one; coherence; end; theorem for X being set holds X = X proof let X be one set; thus X = X; end;",
        "accepted 8",
    ),
    // so with a type that says nothing
    (
        "registration let X be set; cluster X -> one for set; coherence; end; theorem for X being set holds X = X proof let X be one set; thus X = X; end;",
        "accepted 8",
    ),
    // with one that does, only what has that
    (
        "registration cluster two set; existence proof consider x being object such that x = x; take x; thus thesis; end; let X be set; cluster X -> one for two set; coherence proof assume X is two; thus X is one; end; end;\ntheorem for X being set holds X = X proof\nlet X be one set; thus X = X; end;",
        "5:1 41",
    ),
    // which fits
    (
        "registration cluster two set; existence proof consider x being object such that x = x; take x; thus thesis; end; let X be set; cluster X -> one for two set; coherence proof assume X is two; thus X is one; end; end; theorem for X being two set holds X = X proof let X be one set; thus X = X; end;",
        "accepted 9",
    ),
];

/// What is read first.
const ORDER: [Row; 8] = [
    // the term is read first
    (
        "registration cluster Z -> P like for Q like set; coherence; end;",
        "3:22 33",
    ),
    // then the type
    (
        "registration let X be set; cluster X -> P like for Q like set; coherence; end;",
        "3:52 33",
    ),
    // then the adjectives
    (
        "registration let X be set; cluster X -> P like for set; coherence; end;",
        "3:41 33",
    ),
    // of the others the type
    (
        "registration cluster P like for Q like set; existence; end;",
        "3:33 33",
    ),
    // then the adjectives
    (
        "registration cluster P like set; existence; end;",
        "3:22 33",
    ),
    // on both sides of an arrow
    (
        "registration cluster P like -> R like for Q like set; coherence; end;",
        "3:43 33",
    ),
    // those on the left first
    (
        "registration cluster P like -> R like for set; coherence; end;",
        "3:22 33",
    ),
    // then those on the right
    (
        "registration cluster one -> R like for set; coherence; end;",
        "3:29 33",
    ),
];

#[test]
fn blocks(rt: HostRuntime) {
    check_behind(&rt, rt.alloc(), &BLOCKS);
}

#[test]
fn existential_clusters(rt: HostRuntime) {
    check_behind(&rt, rt.alloc(), &EXISTENTIAL);
}

#[test]
fn loci_of_registrations(rt: HostRuntime) {
    check_behind(&rt, rt.alloc(), &LOCI);
}

#[test]
fn covered_types(rt: HostRuntime) {
    check_behind(&rt, rt.alloc(), &COVERED);
}

#[test]
fn conditional_clusters(rt: HostRuntime) {
    check_behind(&rt, rt.alloc(), &CONDITIONAL);
}

#[test]
fn functorial_clusters(rt: HostRuntime) {
    check_behind(&rt, rt.alloc(), &FUNCTORIAL);
}

#[test]
fn order_of_reading(rt: HostRuntime) {
    check_behind(&rt, rt.alloc(), &ORDER);
}
