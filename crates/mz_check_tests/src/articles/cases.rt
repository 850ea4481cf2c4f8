//! Articles with definitions by cases.
use crate::articles::checking::{Row, check_rows, exports, vocabulary};
use std::mem::forget;

const ATOMS: [Row; 37] = [
    // a predicate by one case owes nothing
    (
        "environ vocabularies V; begin definition let x,y be object; pred x ## y means x = y if (x = x); end;",
        "accepted 1",
    ),
    // nor does one case beside `otherwise`
    (
        "environ vocabularies V; begin definition let x,y be object; pred x ## y means x = y if (x = x) otherwise y = x; end;",
        "accepted 1",
    ),
    // one case has nothing to agree with
    (
        "environ vocabularies V; begin definition let x,y be object; pred x ## y means x = y if (x = x); consistency; end;",
        "1:97 52 5",
    ),
    // nor has it where `otherwise` stands behind it
    (
        "environ vocabularies V; begin definition let x,y be object; pred x ## y means x = y if (x = x) otherwise y = x; consistency; end;",
        "1:113 52 5",
    ),
    // two cases have to agree
    (
        "environ vocabularies V; begin definition let x,y be object; pred x ## y means x = y if (x = x), y = x if (y = y); end;",
        "1:115 51 5",
    ),
    // also before `otherwise`
    (
        "environ vocabularies V; begin definition let x,y be object; pred x ## y means x = y if (x = x), y = x if (y = y) otherwise x = x; end;",
        "1:131 51 5",
    ),
    // and do
    (
        "environ vocabularies V; begin definition let x,y be object; pred x ## y means x = y if (x = x), y = x if (y = y); consistency; end;",
        "accepted 1",
    ),
    // `correctness` says so, too
    (
        "environ vocabularies V; begin definition let x,y be object; pred x ## y means x = y if (x = x), y = x if (y = y); correctness; end;",
        "accepted 1",
    ),
    // 32 cases can be asked to agree
    (
        "environ vocabularies V; begin definition let x,y be object; pred x ## y means x = x if (x = x), x = x if (x = x), x = x if (x = x), x = x if (x = x), x = x if (x = x), x = x if (x = x), x = x if (x = x), x = x if (x = x), x = x if (x = x), x = x if (x = x), x = x if (x = x), x = x if (x = x), x = x if (x = x), x = x if (x = x), x = x if (x = x), x = x if (x = x), x = x if (x = x), x = x if (x = x), x = x if (x = x), x = x if (x = x), x = x if (x = x), x = x if (x = x), x = x if (x = x), x = x if (x = x), x = x if (x = x), x = x if (x = x), x = x if (x = x), x = x if (x = x), x = x if (x = x), x = x if (x = x), x = x if (x = x), x = x if (x = x); end;",
        "1:655 51 5",
    ),
    // 33 can't: what is owed is too deep
    (
        "environ vocabularies V; begin definition let x,y be object; pred x ## y means x = x if (x = x), x = x if (x = x), x = x if (x = x), x = x if (x = x), x = x if (x = x), x = x if (x = x), x = x if (x = x), x = x if (x = x), x = x if (x = x), x = x if (x = x), x = x if (x = x), x = x if (x = x), x = x if (x = x), x = x if (x = x), x = x if (x = x), x = x if (x = x), x = x if (x = x), x = x if (x = x), x = x if (x = x), x = x if (x = x), x = x if (x = x), x = x if (x = x), x = x if (x = x), x = x if (x = x), x = x if (x = x), x = x if (x = x), x = x if (x = x), x = x if (x = x), x = x if (x = x), x = x if (x = x), x = x if (x = x), x = x if (x = x), x = x if (x = x); end;",
        "1:61 36",
    ),
    // twice it is stray
    (
        "environ vocabularies V; begin definition let x,y be object; pred x ## y means x = y if (x = x), y = x if (y = y); consistency; consistency; end;",
        "1:128 52 5",
    ),
    // two cases that don't agree
    (
        "environ vocabularies V; begin definition let x,y be object; pred x ## y means x = y if (x = x), not x = y if (x = x); consistency; end;",
        "1:130 61 1",
    ),
    // they agree where their conditions can't both hold
    (
        "environ vocabularies V; begin definition let x,y be object; pred x ## y means x = y if (x = y), not x = y if (not x = y); consistency; end;",
        "accepted 1",
    ),
    // each pair has to agree: the third case doesn't with the first
    (
        "environ vocabularies V; begin definition let x,y be object; pred x ## y means x = y if (x = x), y = x if (y = y), not x = y if (x = x); consistency; end;",
        "1:148 61 3",
    ),
    // three that do
    (
        "environ vocabularies V; begin definition let x,y be object; pred x ## y means x = y if (x = x), y = x if (y = y), x = y if (x = y); consistency; end;",
        "accepted 1",
    ),
    // nothing is owed for `otherwise`
    (
        "environ vocabularies V; begin definition let x,y be object; pred x ## y means x = y if (x = x) otherwise not x = y; end;",
        "accepted 1",
    ),
    // existence isn't owed
    (
        "environ vocabularies V; begin definition let x,y be object; pred x ## y means x = y if (x = x); existence; end;",
        "1:97 52 1",
    ),
    // a definiens that isn't read
    (
        "environ vocabularies V; begin definition let x,y be object; pred x ## y means x = v if (x = w); end;",
        "1:83 33",
    ),
    // a condition that isn't read
    (
        "environ vocabularies V; begin definition let x,y be object; pred x ## y means x = y if (x = w); end;",
        "1:93 33",
    ),
    // so behind a comma
    (
        "environ vocabularies V; begin definition let x,y be object; pred x ## y means x = y if (x = x), x = w if (x = x); end;",
        "1:101 33",
    ),
    // so behind `otherwise`
    (
        "environ vocabularies V; begin definition let x,y be object; pred x ## y means x = y if (x = x) otherwise x = w; end;",
        "1:110 33",
    ),
    // the loci are looked at first
    (
        "environ vocabularies V; begin definition let x be object; pred x ## y means x = w if (x = x); end;",
        "1:59 53",
    ),
    // no case is unfolded
    (
        "environ vocabularies V; begin definition let x,y be object; pred x ## y means x = y if (x = x); end; theorem for x being object holds x ## x;",
        "1:141 61 1",
    ),
    // but it can be cited
    (
        "environ vocabularies V; begin definition let x,y be object; pred x ## y means x = y if (x = x); end; theorem for x being object holds x ## x by A:def 1;",
        "accepted 2",
    ),
    // by its label, too
    (
        "environ vocabularies V; begin definition let x,y be object; pred x ## y means :D: x = y if (x = x); end; theorem for x being object holds x ## x by D;",
        "accepted 2",
    ),
    // what `otherwise` says holds where no condition does
    (
        "environ vocabularies V; begin definition let x,y be object; pred x ## y means not x = x if (not x = x) otherwise x = y; end; theorem for x being object holds x ## x by A:def 1;",
        "accepted 2",
    ),
    // the label isn't known in the condition behind it
    (
        "environ vocabularies V; begin definition let x,y be object; pred x ## y means :D: x = y if (x = x), y = x if (x = x); consistency by D; end;",
        "1:134 43",
    ),
    // an attribute by cases
    (
        "environ vocabularies V; begin definition let x be object; attr x is empty means x = x if (x = x) otherwise not x = x; end; theorem for x being object holds x is empty by A:def 1;",
        "accepted 2",
    ),
    // two cases of it have to agree
    (
        "environ vocabularies V; begin definition let x be object; attr x is empty means x = x if (x = x), x = x if (x = x); end;",
        "1:117 51 5",
    ),
    // a name that is only reserved isn't known in a definiens
    (
        "environ vocabularies V; begin reserve w for object; definition let x,y be object; pred x ## y means x = w if (x = x); end;",
        "1:105 33",
    ),
    // nor in a condition
    (
        "environ vocabularies V; begin reserve w for object; definition let x,y be object; pred x ## y means x = y if (x = w); end;",
        "1:115 33",
    ),
    // nor behind `otherwise`
    (
        "environ vocabularies V; begin reserve w for object; definition let x,y be object; pred x ## y means x = y if (x = x) otherwise x = w; end;",
        "1:132 33",
    ),
    // a constant of the article's own level isn't known in a condition
    (
        "environ vocabularies V; begin consider a being object such that a = a; definition let x,y be object; pred x ## y means x = y if (x = a); end;",
        "1:134 33",
    ),
    // a definition by cases counts as one
    (
        "environ vocabularies V; begin definition let x,y be object; pred x ## y means x = y if (x = x), y = x if (y = y); consistency; end; definition let x be object; attr x is empty means x = x if (x = x); end; theorem for x being object holds x is empty by A:def 2;",
        "accepted 3",
    ),
    // a property behind cases, shown by the definition
    (
        "environ vocabularies V; begin definition let x,y be object; pred x ## y means :D: x = y if (x = x); reflexivity by D; end;",
        "accepted 2",
    ),
    // it isn't shown by itself, since no case is unfolded
    (
        "environ vocabularies V; begin definition let x,y be object; pred x ## y means :D: x = y if (x = x); reflexivity; end;",
        "1:112 61 1",
    ),
    // a condition of the cases behind a property
    (
        "environ vocabularies V; begin definition let x,y be object; pred x ## y means x = y if (x = x), y = x if (y = y); consistency; reflexivity by A:def 1; existence; end;",
        "1:152 52 1",
    ),
];

const FUNCTORS_AND_MODES: [Row; 29] = [
    // a functor by a term by cases
    (
        "environ vocabularies V; begin definition let x be object; func Ff x -> object equals x if (x = x); coherence; end;",
        "accepted 1",
    ),
    // its equation isn't known by itself
    (
        "environ vocabularies V; begin definition let x be object; func Ff x -> object equals x if (x = x); coherence; end; theorem for x being object holds Ff x = x;",
        "1:157 61 1",
    ),
    // but can be cited
    (
        "environ vocabularies V; begin definition let x be object; func Ff x -> object equals x if (x = x); coherence; end; theorem for x being object holds Ff x = x by A:def 1;",
        "accepted 2",
    ),
    // two cases of it have to agree
    (
        "environ vocabularies V; begin definition let x,y be object; func Ff(x,y) -> object equals x if (x = x), y if (y = y); coherence; consistency; end;",
        "1:141 61 1",
    ),
    // the condition is missing where the terms are the same, too
    (
        "environ vocabularies V; begin definition let x be object; func Ff x -> object equals x if (x = x), x if (x = x); coherence; end;",
        "1:125 51 5",
    ),
    // and met there
    (
        "environ vocabularies V; begin definition let x be object; func Ff x -> object equals x if (x = x), x if (x = x); coherence; consistency; end;",
        "accepted 1",
    ),
    // and do where the terms are equal
    (
        "environ vocabularies V; begin definition let x,y be object; func Ff(x,y) -> object equals x if (x = y), y if (y = x); coherence; consistency; end;",
        "accepted 1",
    ),
    // a term has the type where its condition holds
    (
        "environ vocabularies V; begin definition let x be object; mode Elm of x -> object means it = x; existence; let y be object; let z be Elm of x; func Ff(x,y,z) -> Elm of x equals y if (y is Elm of x) otherwise z; coherence; end;",
        "accepted 2",
    ),
    // not where it says nothing of the type
    (
        "environ vocabularies V; begin definition let x be object; mode Elm of x -> object means it = x; existence; let y be object; let z be Elm of x; func Ff(x,y,z) -> Elm of x equals y if (y = y) otherwise z; coherence; end;",
        "1:213 61 1",
    ),
    // a functor by a formula by cases
    (
        "environ vocabularies V; begin definition let x be object; func Ff x -> object means it = x if (x = x); existence; uniqueness; end;",
        "accepted 1",
    ),
    // there has to be one where a case's condition holds, and there needn't be where it doesn't
    (
        "environ vocabularies V; begin definition let x be object; func Ff x -> object means not it = it if (not x = x); existence; uniqueness; end;",
        "accepted 1",
    ),
    // `it` isn't known in a condition
    (
        "environ vocabularies V; begin definition let x be object; func Ff x -> object means it = x if (it = x); existence; uniqueness; end;",
        "1:96 33",
    ),
    // but is known behind it
    (
        "environ vocabularies V; begin definition let x be object; func Ff x -> object means it = x if (x = x), x = it if (x = x); existence; uniqueness; consistency; end;",
        "accepted 1",
    ),
    // and behind `otherwise`
    (
        "environ vocabularies V; begin definition let x be object; func Ff x -> object means it = x if (x = x) otherwise x = it; existence; uniqueness; end;",
        "accepted 1",
    ),
    // the conditions may stand in another order
    (
        "environ vocabularies V; begin definition let x be object; func Ff x -> object means it = x if (x = x), x = it if (x = x); consistency; uniqueness; existence; end;",
        "accepted 1",
    ),
    // consistency is missing
    (
        "environ vocabularies V; begin definition let x be object; func Ff x -> object means it = x if (x = x), x = it if (x = x); existence; uniqueness; end;",
        "1:146 51 5",
    ),
    // the least that is missing
    (
        "environ vocabularies V; begin definition let x be object; func Ff x -> object means it = x if (x = x), x = it if (x = x); consistency; end;",
        "1:136 51 1",
    ),
    // `correctness` has all three
    (
        "environ vocabularies V; begin definition let x be object; func Ff x -> object means it = x if (x = x), x = it if (x = x); correctness; end;",
        "accepted 1",
    ),
    // a mode by cases
    (
        "environ vocabularies V; begin definition let x be object; mode Elm of x -> object means it = x if (x = x); existence; end; theorem for x being object holds x is Elm of x by A:def 1;",
        "accepted 2",
    ),
    // two cases of it have to agree
    (
        "environ vocabularies V; begin definition let x be object; mode Elm of x -> object means it = x if (x = x), x = it if (x = x); existence; end;",
        "1:138 51 5",
    ),
    // and do
    (
        "environ vocabularies V; begin definition let x be object; mode Elm of x -> object means it = x if (x = x), x = it if (x = x); existence; consistency; end;",
        "accepted 1",
    ),
    // no case of it is unfolded
    (
        "environ vocabularies V; begin definition let x be object; mode Elm of x -> object means it = x if (x = x); existence; end; theorem for x being object holds x is Elm of x;",
        "1:170 61 1",
    ),
    // the condition is missing at the token behind, on its line
    (
        "environ vocabularies V; begin \ndefinition let x be object; func Ff x -> object equals x if (x = x), x if (x = x); coherence;\nend;",
        "3:1 51 5",
    ),
    // and met there
    (
        "environ vocabularies V; begin \ndefinition let x be object; func Ff x -> object equals x if (x = x), x if (x = x); coherence; consistency;\nend;",
        "accepted 1",
    ),
    // each pair of three terms has to agree: the third doesn't with the first
    (
        "environ vocabularies V; begin definition let x,y be object; func Ff(x,y) -> object equals x if (x = x), x if (x = x), y if (y = y); coherence; consistency; end;",
        "1:155 61 2",
    ),
    // three that do
    (
        "environ vocabularies V; begin definition let x,y be object; func Ff(x,y) -> object equals x if (x = y), y if (x = y), y if (y = y); coherence; consistency; end;",
        "accepted 1",
    ),
    // three formulas that do
    (
        "environ vocabularies V; begin definition let x be object; func Ff x -> object means it = x if (x = x), x = it if (x = x), it = x if (x = x); correctness; end;",
        "accepted 1",
    ),
    // a property behind the conditions of cases, shown by the definition
    (
        "environ vocabularies V; begin definition let x be object; func Ff x -> object equals x if (x = x); coherence; projectivity by A:def 1; end;",
        "accepted 2",
    ),
    // `it` isn't known in the condition of a mode's case
    (
        "environ vocabularies V; begin definition let x be object; mode Elm of x -> object means it = x if (it = x); existence; end;",
        "1:100 33",
    ),
];

#[test]
fn predicates_by_cases(rt: HostRuntime) {
    let all = vocabulary(&rt, rt.alloc(), b"V", b"R##\nVempty\nMElm\nOFf");
    let exports = exports(&rt, rt.alloc());
    check_rows(&rt, rt.alloc(), &exports, &all, &ATOMS);
    forget(exports);
    forget(all);
}

#[test]
fn functors_by_cases(rt: HostRuntime) {
    let all = vocabulary(&rt, rt.alloc(), b"V", b"R##\nVempty\nMElm\nOFf");
    let exports = exports(&rt, rt.alloc());
    check_rows(&rt, rt.alloc(), &exports, &all, &FUNCTORS_AND_MODES);
    forget(exports);
    forget(all);
}
