//! Articles with modes and abbreviations.
use crate::articles::checking::{Row, check_rows, exports, vocabulary};
use std::mem::forget;

const MODES: [Row; 26] = [
    // a mode
    (
        "environ vocabularies V; begin definition let x be object; mode Elm of x -> object means it = x; existence; end;",
        "accepted 1",
    ),
    // what has it is what its definiens says
    (
        "environ vocabularies V; begin definition let x be object; mode Elm of x -> object means it = x; existence; end; theorem for x being object for y being Elm of x holds y = x proof let x be object; let y be Elm of x; thus y = x; end;",
        "accepted 2",
    ),
    // and the other way round
    (
        "environ vocabularies V; begin definition let x be object; mode Elm of x -> object means it = x; existence; end; theorem for x being object holds x is Elm of x;",
        "accepted 2",
    ),
    // without loci
    (
        "environ vocabularies V; begin definition mode Elm means it = it; existence; end; theorem for x being set holds x is Elm;",
        "accepted 2",
    ),
    // existence is missing
    (
        "environ vocabularies V; begin definition let x be object; mode Elm of x -> object means it = x; end;",
        "1:97 51 1",
    ),
    // uniqueness isn't owed
    (
        "environ vocabularies V; begin definition let x be object; mode Elm of x -> object means it = x; existence; uniqueness; end;",
        "1:108 52 2",
    ),
    // nothing has it
    (
        "environ vocabularies V; begin definition let x be object; mode Elm of x -> object means contradiction; existence; end;",
        "1:113 61 1",
    ),
    // a locus of the mode, which a visible one fixes
    (
        "environ vocabularies V; begin definition let x be object; mode Elm of x -> object means it = x; existence; end; definition let x be object; let y be Elm of x; func Ff y -> object equals x; coherence; end; theorem for x being object for y being Elm of x holds Ff y = x;",
        "accepted 3",
    ),
    // a value of the mode
    (
        "environ vocabularies V; begin definition let x be object; mode Elm of x -> object means it = x; existence; end; definition let x be object; func Ff x -> Elm of x equals x; coherence; end; theorem for x being object holds Ff x is Elm of x;",
        "accepted 3",
    ),
    // one that hasn't it
    (
        "environ vocabularies V; begin definition let x be object; mode Elm of x -> object means it = x; existence; end; definition let x,y be object; func Ff(x,y) -> Elm of x equals y; coherence; end;",
        "1:187 61 1",
    ),
    // an argument that hasn't it
    (
        "environ vocabularies V; begin definition let x be object; mode Elm of x -> object means it = x; existence; end; definition let x be object; let y be Elm of x; func Ff y -> object equals x; coherence; end; theorem for x being object holds Ff x = x;",
        "1:239 35",
    ),
    // a mode of the mode
    (
        "environ vocabularies V; begin definition let x be object; mode Elm of x -> object means it = x; existence; end; definition let x be object; mode Vv of x -> Elm of x means it = it; existence proof x is Elm of x; hence thesis; end; end; theorem for x being object for y being Vv of x holds y is Elm of x;",
        "accepted 3",
    ),
    // an abbreviation
    (
        "environ vocabularies V; begin definition let x be object; mode Elm of x is set; end; theorem for x being object for y being Elm of x holds y is set;",
        "accepted 2",
    ),
    // it may be used in types
    (
        "environ vocabularies V; begin definition let x be object; mode Elm of x is set; end; definition let x be object; let y be Elm of x; func Ff(x,y) -> Elm of x equals y; coherence; end; theorem for x being object for y being set holds Ff(x,y) = y;",
        "accepted 3",
    ),
    // of a mode
    (
        "environ vocabularies V; begin definition let x be object; mode Elm of x -> object means it = x; existence; end; definition let x be object; mode Vv of x is Elm of x; end; theorem for x being object holds x is Vv of x;",
        "accepted 3",
    ),
    // an abbreviation owes nothing
    (
        "environ vocabularies V; begin definition let x be object; mode Elm of x is set; existence; end;",
        "1:81 52 1",
    ),
    // its loci are looked at first
    (
        "environ vocabularies V; begin definition let x,y be object; mode Elm of x is Vv; end;",
        "1:61 53",
    ),
    // its type isn't known
    (
        "environ vocabularies V; begin definition let x be object; mode Elm of x is Vv of x; end;",
        "1:76 31",
    ),
    // without loci
    (
        "environ vocabularies V; begin definition mode Elm is set; end; theorem for x being Elm holds x is set;",
        "accepted 2",
    ),
    // nor in a type
    (
        "environ vocabularies V; begin reserve z for object; definition let x be object; mode Elm of x is set; end; definition let x be object; func Ff x -> Elm of z equals x; coherence; end;",
        "1:156 33",
    ),
    // `it` isn't known in the type
    (
        "environ vocabularies V; begin definition let x be object; mode Elm of x is set; end; definition let x be object; func Ff x -> Elm of it means it = x; correctness; end;",
        "1:134 33",
    ),
    // `it` is of the written type
    (
        "environ vocabularies V; begin definition let x be object; mode Elm of x -> object means it = x; existence; end; definition let x be object; let y be Elm of x; func Gg y -> object equals x; coherence; end; definition let x be object; func Ff x -> Elm of x means Gg it = Gg it; existence proof x is Elm of x; then reconsider z = x as Elm of x; take z; thus Gg z = Gg z; end; uniqueness proof let y,z be Elm of x; assume Gg y = Gg y & Gg z = Gg z; y = x; hence y = z; end; end;",
        "accepted 3",
    ),
    // and a set where none is written
    (
        "environ vocabularies V; begin definition let x be object; mode Elm of x -> object means it = x; existence; end; definition let x be object; let y be Elm of x; func Gg y -> object equals x; coherence; end; definition let x be object; func Ff x means Gg it = Gg it; correctness; end;",
        "1:250 35",
    ),
    // a mode of the word `set`
    (
        "environ vocabularies V; begin definition mode set means it = it; existence; end; theorem for x being set holds x is set;",
        "accepted 2",
    ),
    // the type that isn't written isn't that
    (
        "environ vocabularies V; begin definition mode set means it in it; existence; end; definition let x be object; func Ff x equals x; coherence; end;",
        "1:76 61 1",
    ),
    // as it is where that is written
    (
        "environ vocabularies V; begin definition mode set means it in it; existence; end; definition let x be object; func Ff x -> set equals x; coherence; end;",
        "1:76 61 1; 1:147 61 1",
    ),
];

#[test]
fn modes(rt: HostRuntime) {
    let all = vocabulary(&rt, rt.alloc(), b"V", b"OFf\nOGg\nO++\nMElm\nMVv\nK<.\nL.>");
    let exports = exports(&rt, rt.alloc());
    check_rows(&rt, rt.alloc(), &exports, &all, &MODES);
    forget(exports);
    forget(all);
}
