//! Articles with structures.
use crate::articles::checking::{Row, check, exports, vocabulary};
use std::alloc::Global;
use std::mem::forget;
use std::process::Abort;
use std::thread::Threads;

/// What stands before each row, which begins in line 3: an attribute with an argument, which each set has.
const OPENING: &str =
    "environ vocabularies V; begin\ndefinition let X,Y be set; attr X is Y all means X = X; end; registration let Y be set; cluster -> Y all for set; coherence; end;\n";

const SYMBOLS: &[u8] =
    b"GMag\nGGrp\nGTop\nGMul\nGRng\nGFld\nGBox\nUcar\nUmul\nUadd\nUone\nUins\nVall\nVfull";

/// Checks rows behind the opening.
fn check_behind(rt: &(impl Abort + Threads + Sync), alloc: Global, rows: &[Row]) {
    let all = vocabulary(rt, alloc, b"V", SYMBOLS);
    let exports = exports(rt, alloc);
    for (row, wanted) in rows {
        let text = format!(in alloc; "{OPENING}{row}").expect(rt, "memory");
        check(rt, alloc, &exports, &all, text.as_bytes(), wanted);
        forget(text);
    }
    forget(exports);
    forget(all);
}

/// Fields and their types.
const FIELDS: [Row; 22] = [
    // a structure
    ("definition struct Mag (# car -> set #); end;", "accepted 3"),
    // fields with one type
    (
        "definition struct Mag (# car, mul -> set #); end;",
        "accepted 3",
    ),
    // with two
    (
        "definition struct Mag (# car -> set, mul -> object #); end;",
        "accepted 3",
    ),
    // two structures
    (
        "definition struct Mag (# car -> set #); struct Grp (# mul -> set #); end;",
        "accepted 4",
    ),
    // none without a field
    ("definition struct Mag (# #); end;", "3:26 14"),
    // none with a field that has no type
    ("definition struct Mag (# car #); end;", "3:30 14"),
    // a type that speaks of a field above
    (
        "definition struct Mag (# car -> set, mul -> (the car) all set #); end;",
        "accepted 3",
    ),
    // of the field above that
    (
        "definition struct Mag (# car -> set, mul -> (the car) all set, add -> (the mul) all set #); end;",
        "accepted 3",
    ),
    // of one that stands below
    (
        "definition struct Mag (# mul -> (the car) all set, car -> set #); end;",
        "3:38 31",
    ),
    // of one of its own group
    (
        "definition struct Mag (# car, mul -> (the car) all set #); end;",
        "3:43 31",
    ),
    // of itself
    (
        "definition struct Mag (# car -> (the car) all set #); end;",
        "3:38 31",
    ),
    // of the structure itself
    ("definition struct Mag (# car -> Mag #); end;", "3:33 31"),
    // of its attribute
    (
        "definition struct Mag (# car -> set, mul -> strict set #); end;",
        "3:45 31",
    ),
    // a field outside of a structure
    (
        "definition struct Mag (# car -> set #); end; theorem for X being (the car) all set holds X = X;",
        "3:74 14",
    ),
    // a selector twice in a group
    (
        "definition struct Mag (# car, car -> set #); end;",
        "3:31 54",
    ),
    // in two groups
    (
        "definition struct Mag (# car -> set, mul, car -> set #); end;",
        "3:43 54",
    ),
    // before its type is read
    (
        "definition struct Mag (# car -> set, car -> P all set #); end;",
        "3:38 54",
    ),
    // a type that can't be read
    (
        "definition struct Mag (# car -> P all set #); end;",
        "3:33 33",
    ),
    // before a selector twice behind it
    (
        "definition struct Mag (# car -> P all set, car -> set #); end;",
        "3:33 33",
    ),
    // another structure as the type
    (
        "definition struct Mag (# car -> set #); struct Grp (# add -> Mag #); end; ",
        "accepted 4",
    ),
    // which is no part of it
    (
        "definition struct Mag (# car -> set #); struct Grp (# add -> Mag #); end; theorem for S being Grp holds the car of S = the car of S;",
        "3:109 35",
    ),
    // but of that part
    (
        "definition struct Mag (# car -> set #); struct Grp (# add -> Mag #); end; theorem for S being Grp holds the car of the add of S = the car of the add of S;",
        "accepted 5",
    ),
];

/// Loci of structures.
const LOCI: [Row; 19] = [
    // a locus
    (
        "definition let X be set; struct Mag over X (# car -> X all set #); end;",
        "accepted 3",
    ),
    // one that isn't written
    (
        "definition let X be set; struct Mag (# car -> set #); end;",
        "3:26 53",
    ),
    // one that stands in a field's type alone
    (
        "definition let X be set; struct Mag (# car -> X all set #); end;",
        "3:26 53",
    ),
    // one that stands in an ancestor alone
    (
        "definition let X be set; struct Box over X (# ins -> set #); end; definition let X be set; struct (Box over X) Mag (# ins -> set #); end;",
        "3:92 53",
    ),
    // one that isn't declared
    (
        "definition struct Mag over Y (# car -> set #); end;",
        "3:12 53",
    ),
    // one twice
    (
        "definition let X be set; struct Mag over X,X (# car -> set #); end;",
        "3:26 53",
    ),
    // before its ancestors are read
    (
        "definition let X be set; struct (P all set) Mag (# car -> set #); end;",
        "3:26 53",
    ),
    // and before a selector that is repeated
    (
        "definition let X be set; struct Mag (# car, car -> set #); end;",
        "3:26 53",
    ),
    // a type with a constant of the article's own level
    (
        "consider a being set such that a = a; definition struct Mag (# car -> a all set #); end;",
        "3:71 33",
    ),
    // at an argument
    (
        "definition let X be set; struct Mag over X (# car -> set #); end; theorem for X being set for S being Mag over X holds S is Mag over X;",
        "accepted 4",
    ),
    // and not at another one
    (
        "definition let X be set; struct Mag over X (# car -> set #); end; theorem for X,Y being set for S being Mag over X holds S is Mag over Y;",
        "3:137 61 1",
    ),
    // it wants one
    (
        "definition let X be set; struct Mag over X (# car -> set #); end; theorem for S being Mag holds S = S;",
        "3:87 32",
    ),
    // two in the other order
    (
        "definition let X be set; struct Box over X (# ins -> set #); end; definition let X,Y be set; struct Mag over Y,X (# car -> Box over X #); end; theorem for A,B being set for S being Mag over A,B holds the car of S is Box over B;",
        "accepted 5",
    ),
    // and not the first of them
    (
        "definition let X be set; struct Box over X (# ins -> set #); end; definition let X,Y be set; struct Mag over Y,X (# car -> Box over X #); end; theorem for A,B being set for S being Mag over A,B holds the car of S is Box over A;",
        "3:227 61 1",
    ),
    // one in the type of another one
    (
        "definition let X be set; let Y be X all set; struct Mag over Y (# car -> set #); end;",
        "accepted 3",
    ),
    // which no argument fixes there
    (
        "definition let X be set; let Y be X all set; struct Mag over Y (# car -> set #); end; theorem for X being set for Y being X all set for S being Mag over Y holds S = S;",
        "3:145 35",
    ),
    // but where a radix has it
    (
        "definition let X be set; struct Box over X (# ins -> set #); end; definition let X be set; let S be Box over X; struct Mag over S (# car -> Box over X #); end; theorem for X being set for B being Box over X for S being Mag over B holds the car of S is Box over X;",
        "accepted 5",
    ),
    // the loci are all that are declared so far
    (
        "definition struct Mag (# car -> set #); let X be set; struct Grp over X (# add -> set #); end;",
        "accepted 4",
    ),
    // out of force behind the block
    (
        "definition let X be set; struct Mag over X (# car -> set #); end; theorem for S being Mag over X holds S = S;",
        "3:96 33",
    ),
];

/// Conditions behind structures.
const CONDITIONS: [Row; 9] = [
    // a structure owes nothing
    (
        "definition struct Mag (# car -> set #); existence; end;",
        "3:41 52 1",
    ),
    // no uniqueness
    (
        "definition struct Mag (# car -> set #); uniqueness; end;",
        "3:41 52 2",
    ),
    // no coherence
    (
        "definition struct Mag (# car -> set #); coherence; end;",
        "3:41 52 3",
    ),
    // no compatibility
    (
        "definition struct Mag (# car -> set #); compatibility; end;",
        "3:41 52 4",
    ),
    // no consistency
    (
        "definition struct Mag (# car -> set #); consistency; end;",
        "3:41 52 5",
    ),
    // and nothing that `correctness` would stand for
    (
        "definition struct Mag (# car -> set #); correctness; end;",
        "3:41 52 6",
    ),
    // it has no properties
    (
        "definition struct Mag (# car -> set #); reflexivity; end;",
        "3:41 52 7",
    ),
    // the first is told
    (
        "definition struct Mag (# car -> set #); commutativity; existence; end;",
        "3:41 52 7",
    ),
    // behind the reading
    (
        "definition struct Mag (# car -> P all set #); existence; end;",
        "3:33 33",
    ),
];

/// What structures grant.
const GRANTED: [Row; 18] = [
    // a field of an object
    (
        "definition struct Mag (# car -> set #); end; theorem for S being Mag holds the car of S = the car of S;",
        "accepted 4",
    ),
    // of a set there is none
    (
        "definition struct Mag (# car -> set #); end; theorem for S being set holds the car of S = the car of S;",
        "3:80 35",
    ),
    // also where it was assumed to have it
    (
        "definition struct Mag (# car -> set #); end; theorem for S being set st S is Mag holds the car of S = the car of S;",
        "3:92 35",
    ),
    // what was put into an aggregate
    (
        "definition struct Mag (# car -> set #); end; theorem for X being set holds the car of Mag(# X #) = X;",
        "accepted 4",
    ),
    // and nothing else
    (
        "definition struct Mag (# car -> set #); end; theorem for X,Y being set holds the car of Mag(# X #) = Y;",
        "3:103 61 1",
    ),
    // each field has its own
    (
        "definition struct Mag (# car, mul -> set #); end; theorem for X,Y being set holds the car of Mag(# X, Y #) = X & the mul of Mag(# X, Y #) = Y;",
        "accepted 4",
    ),
    // and not that of another one
    (
        "definition struct Mag (# car, mul -> set #); end; theorem for X,Y being set holds the mul of Mag(# X, Y #) = X;",
        "3:111 61 1",
    ),
    // one value for each field
    (
        "definition struct Mag (# car, mul -> set #); end; theorem for X being set holds Mag(# X #) = Mag(# X #);",
        "3:81 32",
    ),
    // of its type
    (
        "definition struct Mag (# car -> set #); struct Grp (# add -> Mag #); end; theorem for X being set holds Grp(# X #) = Grp(# X #);",
        "3:105 35",
    ),
    // which it then has
    (
        "definition struct Mag (# car -> set #); struct Grp (# add -> Mag #); end; theorem for S being Mag holds Grp(# S #) is Grp & the add of Grp(# S #) = S;",
        "accepted 5",
    ),
    // an aggregate is strict
    (
        "definition struct Mag (# car -> set #); end; theorem for X being set holds Mag(# X #) is strict;",
        "accepted 4",
    ),
    // and of the structure
    (
        "definition struct Mag (# car -> set #); end; theorem for X being set holds Mag(# X #) is Mag;",
        "accepted 4",
    ),
    // a strict object needs a registration
    (
        "definition struct Mag (# car -> set #); end; theorem for S being strict Mag holds S = S;",
        "3:66 34",
    ),
    // is the aggregate of its fields
    (
        "definition struct Mag (# car -> set #); end; registration cluster strict Mag; existence proof consider x being object such that x = x; reconsider X = x as set; take Mag(# X #); thus thesis; end; end; theorem for S being strict Mag holds S = Mag(# the car of S #);",
        "accepted 5",
    ),
    // so two of them are equal by their fields
    (
        "definition struct Mag (# car -> set #); end; registration cluster strict Mag; existence proof consider x being object such that x = x; reconsider X = x as set; take Mag(# X #); thus thesis; end; end; theorem for S,T being strict Mag st the car of S = the car of T holds S = T;",
        "accepted 5",
    ),
    // and no other one is
    (
        "definition struct Mag (# car -> set #); end; theorem for S being Mag holds S = Mag(# the car of S #);",
        "3:101 61 1",
    ),
    // a locus that no value fixes
    (
        "definition let X be set; struct Box over X (# ins -> set #); end; theorem for Y being set holds Box(# Y #) = Box(# Y #);",
        "3:97 35",
    ),
    // one that a value's type fixes
    (
        "definition let X be set; struct Box over X (# ins -> set #); end; definition let X be set; struct Mag over X (# car -> Box over X #); end; theorem for A being set for b being Box over A holds Mag(# b #) is Mag over A & the car of Mag(# b #) = b;",
        "accepted 5",
    ),
];

/// Ancestors of structures.
const ANCESTORS: [Row; 23] = [
    // an ancestor
    (
        "definition struct Mag (# car -> set #); struct Top (# mul -> set #); struct Mul (# car -> set #); end; definition struct (Mag) Grp (# car -> set, add -> set #); end; theorem for S being Grp holds S is Mag;",
        "accepted 7",
    ),
    // an heir, not each object of the ancestor
    (
        "definition struct Mag (# car -> set #); struct (Mag) Grp (# car, add -> set #); end; theorem for S being Mag holds S is Grp;",
        "3:124 61 1",
    ),
    // one of whose selectors one is no field
    (
        "definition struct Mag (# car -> set #); struct Top (# mul -> set #); struct Mul (# car -> set #); end; definition struct (Mag) Grp (# add -> set #); end;",
        "3:123 55",
    ),
    // an ancestor that can't be read
    (
        "definition struct Mag (# car -> set #); struct Top (# mul -> set #); struct Mul (# car -> set #); end; definition struct (P all set) Grp (# add -> set #); end;",
        "3:123 33",
    ),
    // behind one that is unfit
    (
        "definition struct Mag (# car -> set #); struct Top (# mul -> set #); struct Mul (# car -> set #); end; definition struct (Mag, P all set) Grp (# add -> set #); end;",
        "3:123 55",
    ),
    // before a field twice
    (
        "definition struct Mag (# car -> set #); struct Top (# mul -> set #); struct Mul (# car -> set #); end; definition struct (Mag) Grp (# add, add -> set #); end;",
        "3:123 55",
    ),
    // two ancestors
    (
        "definition struct Mag (# car -> set #); struct Top (# mul -> set #); struct Mul (# car -> set #); end; definition struct (Mag, Top) Grp (# car, mul -> set #); end;",
        "accepted 6",
    ),
    // one twice
    (
        "definition struct Mag (# car -> set #); end; definition struct (Mag, Mag) Grp (# car -> set #); end;",
        "accepted 4",
    ),
    // with one spelling for two selectors
    (
        "definition struct Mag (# car -> set #); struct Top (# mul -> set #); struct Mul (# car -> set #); end; definition struct (Mag, Mul) Grp (# car -> set #); end;",
        "3:128 55",
    ),
    // with one selector of a common ancestor
    (
        "definition struct Mag (# car -> set #); struct Top (# mul -> set #); struct Mul (# car -> set #); end; definition struct (Mag) Grp (# car, add -> set #); struct (Mag) Rng (# car, one -> set #); struct (Grp, Rng) Fld (# car, add, one -> set #); end;",
        "accepted 8",
    ),
    // of other types in both
    (
        "definition struct Mag (# car -> set #); struct Grp (# add -> Mag #); struct (Grp) Rng (# add -> Mag #); struct (Grp) Fld (# add -> set #); struct (Rng, Fld) Top (# add -> set #); end; theorem for S being Top holds the add of S is Mag;",
        "accepted 8",
    ),
    // an heir of an heir
    (
        "definition struct Mag (# car -> set #); struct (Mag) Grp (# car, add -> set #); end; definition struct (Grp) Rng (# one, add, car -> set #); end; theorem for S being Rng holds S is Mag;",
        "accepted 6",
    ),
    // which has all of its fields
    (
        "definition struct Mag (# car -> set #); struct (Mag) Grp (# car, add -> set #); end; definition struct (Grp) Rng (# add, one -> set #); end;",
        "3:105 55",
    ),
    // which is a set
    (
        "definition struct Mag (# car -> set #); struct Top (# mul -> set #); struct Mul (# car -> set #); end; definition struct (set) Grp (# add -> set #); end;",
        "accepted 6",
    ),
    // a locus of an ancestor
    (
        "definition let X be set; struct Box over X (# ins -> set #); end; definition let X be set; struct (Box over X) Mag over X (# ins, car -> set #); end; theorem for A being set for S being Mag over A holds S is Box over A;",
        "accepted 5",
    ),
    // with an adjective that nothing covers
    (
        "definition struct Mag (# car -> set #); struct Top (# mul -> set #); struct Mul (# car -> set #); end; definition struct (strict Mag) Grp (# car -> set #); end;",
        "3:123 34",
    ),
    // that is covered
    (
        "definition struct Mag (# car -> set #); end; registration cluster strict Mag; existence proof consider x being object such that x = x; reconsider X = x as set; take Mag(# X #); thus thesis; end; end; definition struct (strict Mag) Grp (# car -> set #); end; theorem for S being Grp holds S is strict Mag;",
        "accepted 6",
    ),
    // whose strict objects without further fields are strict as the heir, too
    (
        "definition struct Mag (# car -> set #); end; registration cluster strict Mag; existence proof consider x being object such that x = x; reconsider X = x as set; take Mag(# X #); thus thesis; end; end; definition struct (strict Mag) Grp (# car -> set #); end; theorem for S being Grp holds S is strict;",
        "accepted 6",
    ),
    // so an heir's aggregate isn't strict as the ancestor's
    (
        "definition struct Mag (# car -> set #); struct (Mag) Grp (# car, add -> set #); end; theorem for X,Y being set for S being Mag st S = Grp(# X, Y #) holds S is strict;",
        "3:166 61 1",
    ),
    // an inherited selector is the ancestor's
    (
        "definition struct Mag (# car -> set #); struct Top (# mul -> set #); struct Mul (# car -> set #); end; definition struct (Mag) Grp (# car -> set, add -> set #); end; theorem for S being Grp for T being Mag st S = T holds the car of S = the car of T;",
        "accepted 7",
    ),
    // what is defined of the ancestor's objects is of the heir's
    (
        "definition struct Mag (# car -> set #); struct (Mag) Grp (# car, add -> set #); let S be Mag; attr S is full means S = S; end; theorem for S being Grp holds S is full;",
        "accepted 6",
    ),
    // an inherited field has the type that the heir gives it
    (
        "definition struct Mag (# car -> set #); struct Grp (# add -> Mag #); end; definition struct (Grp) Rng (# add -> set #); end; theorem for S being Rng holds the car of the add of S = the car of the add of S;",
        "3:160 35",
    ),
    // though it is known to be of the ancestor's
    (
        "definition struct Mag (# car -> set #); struct Grp (# add -> Mag #); end; definition struct (Grp) Rng (# add -> set #); end; theorem for S being Rng holds the add of S is Mag;",
        "accepted 6",
    ),
];

/// The order of the fields in an aggregate.
const ORDERS: [Row; 8] = [
    // a type that speaks of an inherited field below it
    (
        "definition struct Mag (# car -> set #); struct Top (# mul -> set #); struct Mul (# car -> set #); end; definition struct (Mag) Grp (# add -> (the car) all set, car -> set #); end;",
        "accepted 6",
    ),
    // the values of an aggregate stand in the order of the text
    (
        "definition struct Mag (# car -> set #); struct Top (# mul -> set #); struct Mul (# car -> set #); end; definition struct (Mag) Grp (# add -> (the car) all set, car -> set #); end; theorem for X being set for Y being X all set holds the car of Grp(# Y, X #) = X;",
        "accepted 7",
    ),
    // each in its own field
    (
        "definition struct Mag (# car -> set #); struct Top (# mul -> set #); struct Mul (# car -> set #); end; definition struct (Mag) Grp (# add -> (the car) all set, car -> set #); end; theorem for X being set for Y being X all set holds the add of Grp(# Y, X #) = Y;",
        "accepted 7",
    ),
    // and in no other one
    (
        "definition struct Mag (# car -> set #); struct Top (# mul -> set #); struct Mul (# car -> set #); end; definition struct (Mag) Grp (# add -> (the car) all set, car -> set #); end; theorem for X being set for Y being X all set holds the car of Grp(# Y, X #) = Y;",
        "3:261 61 1",
    ),
    // types that speak of one another
    (
        "definition struct Mag (# car -> set #); struct Top (# mul -> set #); struct Mul (# car -> set #); end; definition struct (Mag, Top) Grp (# car -> (the mul) all set, mul -> (the car) all set #); end;",
        "accepted 6",
    ),
    // have no aggregate
    (
        "definition struct Mag (# car -> set #); struct Top (# mul -> set #); struct Mul (# car -> set #); end; definition struct (Mag, Top) Grp (# car -> (the mul) all set, mul -> (the car) all set #); end; theorem for X,Y being set holds Grp(# X, Y #) = Grp(# X, Y #);",
        "3:232 31",
    ),
    // nor has one that speaks of itself
    (
        "definition struct Mag (# car -> set #); struct Top (# mul -> set #); struct Mul (# car -> set #); end; definition struct (Mag) Grp (# car -> (the car) all set #); end; theorem for X being set holds Grp(# X #) = Grp(# X #);",
        "3:199 31",
    ),
    // but the fields
    (
        "definition struct Mag (# car -> set #); struct Top (# mul -> set #); struct Mul (# car -> set #); end; definition struct (Mag) Grp (# car -> (the car) all set #); end; theorem for S being Grp holds the car of S is (the car of S) all;",
        "accepted 7",
    ),
];

/// Registrations of structures.
const CLUSTERS: [Row; 8] = [
    // that there is a strict one is to be shown
    (
        "definition struct Mag (# car -> set #); end; registration cluster strict Mag; existence; end;",
        "3:88 61 1",
    ),
    // by nothing less than a condition
    (
        "definition struct Mag (# car -> set #); end; registration cluster strict Mag; end;",
        "3:79 51 1",
    ),
    // an aggregate has an adjective
    (
        "definition struct Mag (# car -> set #); end; registration let X be set; cluster Mag(# X #) -> strict; coherence; end;",
        "accepted 4",
    ),
    // a field has one
    (
        "definition struct Mag (# car -> set #); end; registration let S be Mag; cluster the car of S -> S all; coherence; end;",
        "accepted 4",
    ),
    // strict objects have another one
    (
        "definition struct Mag (# car -> set #); struct (Mag) Grp (# car, add -> set #); let S be Mag; attr S is full means S = S; end; registration cluster strict -> full for Mag; coherence; end;",
        "accepted 6",
    ),
    // with an adjective
    (
        "definition struct Mag (# car -> set #); struct (Mag) Grp (# car, add -> set #); let S be Mag; attr S is full means S = S; end; registration cluster full Mag; existence proof consider x being object such that x = x; reconsider X = x as set; take Mag(# X #); thus thesis; end; end; theorem for S being full Mag holds S is full;",
        "accepted 7",
    ),
    // an heir isn't covered by what is registered of its ancestor
    (
        "definition struct Mag (# car -> set #); struct (Mag) Grp (# car, add -> set #); let S be Mag; attr S is full means S = S; end; registration cluster full Mag; existence proof consider x being object such that x = x; reconsider X = x as set; take Mag(# X #); thus thesis; end; end; theorem for S being full Grp holds S = S;",
        "3:301 34",
    ),
    // but the ancestor by what is registered of its heir
    (
        "definition struct Mag (# car -> set #); struct (Mag) Grp (# car, add -> set #); let S be Mag; attr S is full means S = S; end; registration cluster full Grp; existence proof consider x being object such that x = x; reconsider X = x as set; take Grp(# X, X #); thus thesis; end; end; theorem for S being full Mag holds S = S;",
        "accepted 7",
    ),
];

#[test]
fn fields(rt: HostRuntime) {
    check_behind(&rt, rt.alloc(), &FIELDS);
}

#[test]
fn loci(rt: HostRuntime) {
    check_behind(&rt, rt.alloc(), &LOCI);
}

#[test]
fn conditions_of_structures(rt: HostRuntime) {
    check_behind(&rt, rt.alloc(), &CONDITIONS);
}

#[test]
fn what_structures_grant(rt: HostRuntime) {
    check_behind(&rt, rt.alloc(), &GRANTED);
}

#[test]
fn ancestors(rt: HostRuntime) {
    check_behind(&rt, rt.alloc(), &ANCESTORS);
}

#[test]
fn orders(rt: HostRuntime) {
    check_behind(&rt, rt.alloc(), &ORDERS);
}

#[test]
fn clusters_of_structures(rt: HostRuntime) {
    check_behind(&rt, rt.alloc(), &CLUSTERS);
}
