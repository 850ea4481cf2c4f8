//! Articles with functors.
use crate::articles::checking::{Row, check_rows, exports, vocabulary};
use std::mem::forget;

const FUNCTORS: [Row; 38] = [
    // a functor by a term: its value has the type
    (
        "environ vocabularies V; begin definition let x be object; func Ff x -> object equals x; coherence; end;",
        "accepted 1",
    ),
    // its equation is known
    (
        "environ vocabularies V; begin definition let x be object; func Ff x -> object equals x; coherence; end; theorem for x being object holds Ff x = x;",
        "accepted 2",
    ),
    // without a type it is a set
    (
        "environ vocabularies V; begin definition let x be object; func Ff x equals x; coherence; end; theorem for x being object holds Ff x is set;",
        "accepted 2",
    ),
    // two arguments, on both sides
    (
        "environ vocabularies V; begin definition let x,y be object; func x ++ y -> object equals y; coherence; end; theorem for x,y being object holds x ++ y = y;",
        "accepted 2",
    ),
    // a list of them
    (
        "environ vocabularies V; begin definition let x,y be object; func Ff(x,y) -> object equals y; coherence; end; theorem for x,y being object holds Ff(x,y) = y;",
        "accepted 2",
    ),
    // brackets
    (
        "environ vocabularies V; begin definition let x,y be object; func <. x,y .> -> object equals x; coherence; end; theorem for x,y being object holds <. x,y .> = x;",
        "accepted 2",
    ),
    // braces
    (
        "environ vocabularies V; begin definition let x be object; func { x } -> object equals x; coherence; end; theorem for x being object holds { x } = x;",
        "accepted 2",
    ),
    // square brackets
    (
        "environ vocabularies V; begin definition let x,y be object; func [ x,y ] -> object equals y; coherence; end; theorem for x,y being object holds [ x,y ] = y;",
        "accepted 2",
    ),
    // the latest notation counts
    (
        "environ vocabularies V; begin definition let x,y be object; func x ++ y -> object equals x; coherence; func x ++ y -> object equals y; coherence; end; theorem for x,y being object holds x ++ y = y;",
        "accepted 3",
    ),
    // a heading sees those above it
    (
        "environ vocabularies V; begin definition let x be object; func Ff x -> object equals x; coherence; func { x } -> object equals Ff x; coherence; end; theorem for x being object holds { x } = x;",
        "accepted 3",
    ),
    // a functor by a formula: there is one value
    (
        "environ vocabularies V; begin definition let x be object; func Ff x -> object means it = x; existence; uniqueness; end;",
        "accepted 1",
    ),
    // its definition can be cited by its label
    (
        "environ vocabularies V; begin definition let x be object; func Ff x -> object means :D: it = x; existence; uniqueness; end; theorem for x being object holds Ff x = x by D;",
        "accepted 2",
    ),
    // and by its number
    (
        "environ vocabularies V; begin definition let x be object; func Ff x -> object means it = x; existence; uniqueness; end; theorem for x being object holds Ff x = x by A:def 1;",
        "accepted 2",
    ),
    // no equation is known of it
    (
        "environ vocabularies V; begin definition let x be object; func Ff x -> object means it = x; existence; uniqueness; end; theorem for x being object holds Ff x = x;",
        "1:162 61 1",
    ),
    // there are too many values
    (
        "environ vocabularies V; begin definition let x be object; func Ff x -> object means it = it; existence; uniqueness; end;",
        "1:115 61 1",
    ),
    // there is none
    (
        "environ vocabularies V; begin definition let x be object; func Ff x -> object means not it = it; existence; uniqueness; end;",
        "1:107 61 1",
    ),
    // `it` isn't known behind `equals`
    (
        "environ vocabularies V; begin definition let x be object; func Ff x -> object equals it; coherence; end;",
        "1:86 33",
    ),
    // a name that isn't known
    (
        "environ vocabularies V; begin definition let x be object; func Ff x -> object means it = z; existence; uniqueness; end;",
        "1:90 33",
    ),
    // the loci are looked at first
    (
        "environ vocabularies V; begin definition let x be object; func x ++ y -> Elm equals z; coherence; end;",
        "1:59 53",
    ),
    // then the type is read
    (
        "environ vocabularies V; begin definition let x be object; func Ff x -> Elm equals z; coherence; end;",
        "1:72 31",
    ),
    // a hidden locus that nothing fixes
    (
        "environ vocabularies V; begin definition let x,y be object; func Ff y -> object equals x; coherence; end;",
        "1:61 53",
    ),
    // a constant of the article's own level
    (
        "environ vocabularies V; begin consider a being object such that a = a; definition let x be object; func Ff x -> object equals a; coherence; end;",
        "1:127 33",
    ),
    // which a proof of a condition may use
    (
        "environ vocabularies V; begin consider a being object such that A: a = a; definition let x be object; func Ff x -> object means it = x; existence; uniqueness proof a = a by A; thus thesis; end; end;",
        "accepted 1",
    ),
    // the label isn't known in the conditions
    (
        "environ vocabularies V; begin definition let x be object; func Ff x -> object means :D: it = x; existence by D; uniqueness; end;",
        "1:110 43",
    ),
    // nor is the notation
    (
        "environ vocabularies V; begin definition let x be object; func Ff x -> object means it = x; existence; uniqueness proof Ff x = Ff x; thus thesis; end; end;",
        "1:121 31",
    ),
    // a property that doesn't hold
    (
        "environ vocabularies V; begin definition let x,y be object; func x ++ y -> object equals x; coherence; commutativity; end;",
        "1:117 61 1",
    ),
    // a name that is only reserved
    (
        "environ vocabularies V; begin reserve z for object; definition let x be object; func Ff x -> object equals z; coherence; end;",
        "1:108 33",
    ),
    // a label that two definitions have is that of the latter
    (
        "environ vocabularies V; begin definition let x be object; func Ff x -> object means :D: it = x; existence; uniqueness; func { x } -> object means :D: it = x; existence; uniqueness; end; theorem for x being object holds { x } = x by D;",
        "accepted 3",
    ),
    // and not of the former
    (
        "environ vocabularies V; begin definition let x be object; func Ff x -> object means :D: it = x; existence; uniqueness; func { x } -> object means :D: it = x; existence; uniqueness; end; theorem for x being object holds Ff x = x by D;",
        "1:229 61 1",
    ),
    // an abbreviation has no definitional theorem
    (
        "environ vocabularies V; begin definition let x be object; func Ff x -> object means it = x; existence; uniqueness; mode Vv of x is set; func { x } -> object means it = x; existence; uniqueness; end; theorem for x being object holds { x } = x by A:def 2;",
        "accepted 4",
    ),
    // nor has a notation
    (
        "environ vocabularies V; begin definition let x be object; func Ff x -> object means it = x; existence; uniqueness; end; notation let x be object; synonym <. x .> for Ff x; end; definition let x be object; func { x } -> object means it = x; existence; uniqueness; end; theorem for x being object holds { x } = x by A:def 2;",
        "accepted 4",
    ),
    // so there is no second one
    (
        "environ vocabularies V; begin definition let x be object; func Ff x -> object means it = x; existence; uniqueness; end; notation let x be object; synonym <. x .> for Ff x; end; theorem for x being object holds Ff x = x by A:def 2;",
        "1:223 43",
    ),
    // a functor without loci is an operand
    (
        "environ vocabularies V; begin definition func Ff -> object means it = it; existence; uniqueness; end; definition let x,y be object; func x ++ y -> object equals y; coherence; end; theorem for x being object holds x ++ Ff = Ff;",
        "1:96 61 1",
    ),
    // behind its argument
    (
        "environ vocabularies V; begin definition let x be object; func x Ff -> object equals x; coherence; end; theorem for x being object holds x Ff = x;",
        "accepted 2",
    ),
    // twice: the first one is the head, and the second one its right argument
    (
        "environ vocabularies V; begin definition let x be object; func x Ff -> object equals x; coherence; end; theorem for x being object holds x Ff Ff = x;",
        "1:143 32",
    ),
    // in parentheses
    (
        "environ vocabularies V; begin definition let x be object; func x Ff -> object equals x; coherence; end; theorem for x being object holds (x Ff) Ff = x;",
        "accepted 2",
    ),
    // a list on the left
    (
        "environ vocabularies V; begin definition let x,y,z be object; func (x,y) ++ z -> object equals y; coherence; end; theorem for x,y,z being object holds (x,y) ++ z = y;",
        "accepted 2",
    ),
    // of another number
    (
        "environ vocabularies V; begin definition let x,y,z be object; func (x,y) ++ z -> object equals y; coherence; end; theorem for x,y,z being object holds x ++ z = y;",
        "1:154 32",
    ),
];

const CONDITIONS: [Row; 25] = [
    // conditions in any order
    (
        "environ vocabularies V; begin definition let x be object; func Ff x -> object means it = x; uniqueness; existence; end;",
        "accepted 1",
    ),
    // all at once
    (
        "environ vocabularies V; begin definition let x be object; func Ff x -> object means it = x; correctness; end;",
        "accepted 1",
    ),
    // one, and then the others
    (
        "environ vocabularies V; begin definition let x be object; func Ff x -> object means it = x; uniqueness; correctness; end;",
        "accepted 1",
    ),
    // behind all at once one may still be written
    (
        "environ vocabularies V; begin definition let x be object; func Ff x -> object means it = x; correctness; existence; end;",
        "accepted 1",
    ),
    // but not twice
    (
        "environ vocabularies V; begin definition let x be object; func Ff x -> object means it = x; correctness; existence; existence; end;",
        "1:117 52 1",
    ),
    // none is missing, so there is nothing left
    (
        "environ vocabularies V; begin definition let x be object; func Ff x -> object means it = x; existence; uniqueness; correctness; end;",
        "1:116 52 6",
    ),
    // nor twice all at once
    (
        "environ vocabularies V; begin definition let x be object; func Ff x -> object means it = x; correctness; correctness; end;",
        "1:106 52 6",
    ),
    // existence twice
    (
        "environ vocabularies V; begin definition let x be object; func Ff x -> object means it = x; existence; existence; uniqueness; end;",
        "1:104 52 1",
    ),
    // a condition that isn't owed
    (
        "environ vocabularies V; begin definition let x be object; func Ff x -> object means it = x; existence; uniqueness; coherence; end;",
        "1:116 52 3",
    ),
    // it is told before what is missing
    (
        "environ vocabularies V; begin definition let x be object; func Ff x -> object means it = x; coherence; end;",
        "1:93 52 3",
    ),
    // uniqueness is missing, at the token behind
    (
        "environ vocabularies V; begin definition let x be object; func Ff x -> object means it = x; existence; end;",
        "1:104 51 2",
    ),
    // existence is the first one that is
    (
        "environ vocabularies V; begin definition let x be object; func Ff x -> object means it = x; uniqueness; end;",
        "1:105 51 1",
    ),
    // so where none is written
    (
        "environ vocabularies V; begin definition let x be object; func Ff x -> object means it = x; end;",
        "1:93 51 1",
    ),
    // before a further heading
    (
        "environ vocabularies V; begin definition let x be object; func Ff x -> object means it = x; existence; func { x } -> object equals x; coherence; end;",
        "1:104 51 2",
    ),
    // before further loci
    (
        "environ vocabularies V; begin definition let x be object; func Ff x -> object means it = x; existence; let y be object; end;",
        "1:104 51 2",
    ),
    // coherence is missing
    (
        "environ vocabularies V; begin definition let x be object; func Ff x -> object equals x; end;",
        "1:89 51 3",
    ),
    // consistency isn't owed
    (
        "environ vocabularies V; begin definition let x be object; func Ff x -> object equals x; coherence; consistency; end;",
        "1:100 52 5",
    ),
    // nothing is left behind coherence
    (
        "environ vocabularies V; begin definition let x be object; func Ff x -> object equals x; coherence; correctness; end;",
        "1:100 52 6",
    ),
    // a proof at the loci
    (
        "environ vocabularies V; begin definition let x be object; func Ff x -> object means it = x; existence proof take x; thus x = x; end; uniqueness proof let y,z be object; assume y = x & z = x; hence y = z; end; end;",
        "accepted 1",
    ),
    // of all together
    (
        "environ vocabularies V; begin definition let x be object; func Ff x -> object means it = x; correctness proof thus ex y being object st y = x; thus thesis; end; end;",
        "accepted 1",
    ),
    // `correctness` of another definition
    (
        "environ vocabularies V; begin definition let x be object; func Ff x -> object means it = x; correctness; func { x } -> object means it = x; end;",
        "1:141 51 1",
    ),
    // a name that is only reserved
    (
        "environ vocabularies V; begin reserve z for object; definition let x be object; func Ff x -> object means it = x; existence proof take z; thus thesis; end; uniqueness; end;",
        "1:136 33",
    ),
    // what is open is told in the order of the text
    (
        "environ vocabularies V; begin theorem for x being object holds not x = x; definition let x be object; func Ff x -> object means not it = it; existence; uniqueness; end; theorem for x being object holds not x = x;",
        "1:73 61 1; 1:151 61 1; 1:212 61 1",
    ),
    // a refusal alone
    (
        "environ vocabularies V; begin theorem for x being object holds not x = x; definition let x be object; func Ff x -> object means it = x; existence; existence; uniqueness; end;",
        "1:148 52 1",
    ),
    // a condition behind what is open
    (
        "environ vocabularies V; begin definition let x be object; func Ff x -> object means it = it; uniqueness; existence; end;",
        "1:104 61 1",
    ),
];

#[test]
fn functors(rt: HostRuntime) {
    let all = vocabulary(&rt, rt.alloc(), b"V", b"OFf\nOGg\nO++\nMElm\nMVv\nK<.\nL.>");
    let exports = exports(&rt, rt.alloc());
    check_rows(&rt, rt.alloc(), &exports, &all, &FUNCTORS);
    forget(exports);
    forget(all);
}

#[test]
fn conditions_of_functors(rt: HostRuntime) {
    let all = vocabulary(&rt, rt.alloc(), b"V", b"OFf\nOGg\nO++\nMElm\nMVv\nK<.\nL.>");
    let exports = exports(&rt, rt.alloc());
    check_rows(&rt, rt.alloc(), &exports, &all, &CONDITIONS);
    forget(exports);
    forget(all);
}
