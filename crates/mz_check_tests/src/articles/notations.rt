//! Articles with notations.
use crate::articles::checking::{Row, check_rows, exports, vocabulary};
use std::mem::forget;

const NOTATIONS: [Row; 30] = [
    // a block without parts
    ("environ vocabularies V; begin notation end;", "accepted 0"),
    // a synonym
    (
        "environ vocabularies V; begin definition let x,y be object; pred x ## y means x = y; end; notation let x,y be object; synonym x %% y for x ## y; end; theorem for x,y being object st x %% y holds x = y;",
        "accepted 3",
    ),
    // with its loci exchanged
    (
        "environ vocabularies V; begin definition let x,y be object; pred x ## y means x = y; end; notation let x,y be object; synonym y %% x for x ## y; end; theorem for x,y being object st x %% y holds y = x;",
        "accepted 3",
    ),
    // an antonym
    (
        "environ vocabularies V; begin definition let x,y be object; pred x ## y means x = y; end; notation let x,y be object; antonym x %% y for x ## y; end; theorem for x being object holds not x %% x;",
        "accepted 3",
    ),
    // an antonym of an antonym
    (
        "environ vocabularies V; begin definition let x,y be object; pred x ## y means x = y; end; notation let x,y be object; antonym x %% y for x ## y; antonym x ^^ y for x %% y; end; theorem for x being object holds x ^^ x;",
        "accepted 4",
    ),
    // of equality
    (
        "environ vocabularies V; begin notation let x,y be object; synonym x %% y for x = y; end; theorem for x being object holds x %% x;",
        "accepted 2",
    ),
    // an antonym of inequality
    (
        "environ vocabularies V; begin notation let x,y be object; antonym x %% y for x <> y; end; theorem for x being object holds x %% x;",
        "accepted 2",
    ),
    // of membership
    (
        "environ vocabularies V; begin notation let x be object; let X be set; antonym x %% X for x in X; end; theorem for x being object for X being set st x in X holds not x %% X;",
        "accepted 2",
    ),
    // a name of the old pattern twice
    (
        "environ vocabularies V; begin notation let x be object; synonym %% x for x = x; end; theorem for x being object holds %% x;",
        "accepted 2",
    ),
    // functors
    (
        "environ vocabularies V; begin definition let x,y be object; func x ++ y -> object equals x; coherence; end; notation let x,y be object; synonym Ff(x,y) for x ++ y; end; theorem for x,y being object holds Ff(x,y) = x;",
        "accepted 3",
    ),
    // brackets
    (
        "environ vocabularies V; begin definition let x,y be object; func x ++ y -> object equals x; coherence; end; notation let x,y be object; synonym [ y,x ] for x ++ y; end; theorem for x,y being object holds [ y,x ] = x;",
        "accepted 3",
    ),
    // modes
    (
        "environ vocabularies V; begin definition let x be object; mode Elm of x -> object means it = x; existence; end; notation let x be object; synonym Mm of x for Elm of x; end; theorem for x being object holds x is Mm of x;",
        "accepted 3",
    ),
    // attributes
    (
        "environ vocabularies V; begin definition let x be object; attr x is empty means x = x; end; notation let x be object; synonym x is new for x is empty; antonym x is old for x is empty; end; theorem for x being object holds x is new; theorem for x being object holds x is non old;",
        "accepted 5",
    ),
    // a hidden locus
    (
        "environ vocabularies V; begin definition let x be object; mode Elm of x -> object means it = x; existence; end; definition let x be object; let y be Elm of x; func Ff y -> object equals x; coherence; end; notation let x be object; let y be Elm of x; synonym { y } for Ff y; end; theorem for x being object for y being Elm of x holds { y } = x;",
        "accepted 4",
    ),
    // kinds that differ
    (
        "environ vocabularies V; begin notation let x,y be object; synonym x %% y for x ++ y; end;",
        "1:80 31",
    ),
    // functors have no opposite
    (
        "environ vocabularies V; begin notation let x be object; antonym Ff x for { x }; end;",
        "1:74 31",
    ),
    // nor have modes
    (
        "environ vocabularies V; begin definition let x be object; mode Elm of x -> object means it = x; existence; end; notation let x be object; antonym Mm of x for Elm of x; end;",
        "1:159 31",
    ),
    // a symbol without a meaning
    (
        "environ vocabularies V; begin notation let x,y be object; synonym x %% y for x ## y; end;",
        "1:80 31",
    ),
    // one without these numbers of arguments
    (
        "environ vocabularies V; begin notation let x be object; synonym %% x for x = ; end;",
        "1:76 32",
    ),
    // arguments that don't fit
    (
        "environ vocabularies V; begin definition let x be object; mode Elm of x -> object means it = x; existence; end; definition let x be object; let y be Elm of x; func Ff y -> object equals x; coherence; end; notation let x be object; synonym { x } for Ff x; end;",
        "1:250 35",
    ),
    // a name of the old pattern that is no locus
    (
        "environ vocabularies V; begin notation let x,y be object; synonym x %% y for x = z; end;",
        "1:59 53",
    ),
    // one of the new pattern
    (
        "environ vocabularies V; begin notation let x,y be object; synonym x %% z for x = y; end;",
        "1:59 53",
    ),
    // a locus twice
    (
        "environ vocabularies V; begin notation let x be object; synonym x %% x for x = x; end;",
        "1:57 53",
    ),
    // a hidden locus that nothing fixes
    (
        "environ vocabularies V; begin notation let x,y be object; antonym %% x for x = y; end;",
        "1:59 53",
    ),
    // the loci are looked at first
    (
        "environ vocabularies V; begin notation let x,y be object; synonym x %% z for x ++ y; end;",
        "1:59 53",
    ),
    // a constant of the article's own level is no locus
    (
        "environ vocabularies V; begin consider a being object such that a = a; notation let x be object; synonym %% x for x = a; end;",
        "1:98 53",
    ),
    // loci are out of force behind the block
    (
        "environ vocabularies V; begin notation let x be object; end; theorem x = x;",
        "1:70 33",
    ),
    // a type of a locus that isn't known
    (
        "environ vocabularies V; begin notation let x be Elm; end;",
        "1:49 31",
    ),
    // its argument is read first
    (
        "environ vocabularies V; begin notation let x be Elm of y; end;",
        "1:56 33",
    ),
    // a block ends the statement just before
    (
        "environ vocabularies V; begin for x being object holds x = x; notation end; then for x being object holds x = x;",
        "1:77 41",
    ),
];

#[test]
fn notations(rt: HostRuntime) {
    let all = vocabulary(
        &rt,
        rt.alloc(),
        b"V",
        b"R##\nR%%\nR^^\nOFf\nO++\nMElm\nMMm\nVempty\nVnew\nVold",
    );
    let exports = exports(&rt, rt.alloc());
    check_rows(&rt, rt.alloc(), &exports, &all, &NOTATIONS);
    forget(exports);
    forget(all);
}
