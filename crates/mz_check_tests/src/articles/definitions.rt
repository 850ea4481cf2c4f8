//! Articles with definitions.
use crate::articles::checking::{Row, check_rows, exports, vocabulary};
use std::mem::forget;

const DEFINITIONS: [Row; 44] = [
    // a block without parts
    (
        "environ vocabularies V; begin definition end;",
        "accepted 0",
    ),
    // loci alone
    (
        "environ vocabularies V; begin definition let x,y be object; end;",
        "accepted 0",
    ),
    // a predicate
    (
        "environ vocabularies V; begin definition let x,y be object; pred x ## y means x = y; end;",
        "accepted 1",
    ),
    // it is unfolded
    (
        "environ vocabularies V; begin definition let x,y be object; pred x ## y means x = y; end; theorem for x being object holds x ## x;",
        "accepted 2",
    ),
    // in what is assumed, too
    (
        "environ vocabularies V; begin definition let x,y be object; pred x ## y means x = y; end; theorem for x,y being object st x ## y holds x = y;",
        "accepted 2",
    ),
    // and can be cited by the label of its definiens, which outlives the block
    (
        "environ vocabularies V; begin definition let x,y be object; pred x ## y means :D: x = y; end; theorem for x being object holds x ## x by D;",
        "accepted 2",
    ),
    // and by its number
    (
        "environ vocabularies V; begin definition let x,y be object; pred x ## y means x = y; end; theorem for x being object holds x ## x by A:def 1;",
        "accepted 2",
    ),
    // the latest notation counts
    (
        "environ vocabularies V; begin definition let x,y be object; pred x ## y means x = y; pred x ## y means not x = y; end; theorem for x being object holds not x ## x;",
        "accepted 3",
    ),
    // an attribute
    (
        "environ vocabularies V; begin definition let x be object; attr x is empty means x = x; end; theorem for x being object holds x is empty;",
        "accepted 2",
    ),
    // a heading sees those above it, and loci that are declared behind them
    (
        "environ vocabularies V; begin definition let x be object; attr x is empty means x = x; let y be object; pred x ## y means y is empty; end;",
        "accepted 2",
    ),
    // attributes in the definiens of a later block
    (
        "environ vocabularies V; begin definition let x be object; attr x is empty means x = x; end; definition let x,y be object; pred x ## y means x is empty & y is empty; end;",
        "accepted 2",
    ),
    // a built-in symbol
    (
        "environ vocabularies V; begin definition let X,Y be set; pred X = Y means X in Y; end; theorem for X,Y being set st X = Y holds X in Y;",
        "accepted 2",
    ),
    // a name that is no locus
    (
        "environ vocabularies V; begin definition let x be object; pred x ## y means x = x; end;",
        "1:59 53",
    ),
    // a locus twice
    (
        "environ vocabularies V; begin definition let x be object; pred x ## x means x = x; end;",
        "1:59 53",
    ),
    // a hidden locus that nothing fixes
    (
        "environ vocabularies V; begin definition let x,y,z be object; pred x ## y means x = y; end;",
        "1:63 53",
    ),
    // a name that is declared again hides the earlier locus
    (
        "environ vocabularies V; begin definition let x be object; let x be object; attr x is empty means x = x; end;",
        "1:76 53",
    ),
    // a subject that is no locus
    (
        "environ vocabularies V; begin definition let x be object; attr y is empty means x = x; end;",
        "1:59 53",
    ),
    // the loci are looked at before the definiens
    (
        "environ vocabularies V; begin definition let x be object; pred x ## y means z = z; end;",
        "1:59 53",
    ),
    // a name in the definiens that isn't known
    (
        "environ vocabularies V; begin definition let x,y be object; pred x ## y means x = z; end;",
        "1:83 33",
    ),
    // a constant of the article's own level
    (
        "environ vocabularies V; begin consider a being object such that a = a; definition let x,y be object; pred x ## y means x = a; end;",
        "1:124 33",
    ),
    // nor in that of an attribute
    (
        "environ vocabularies V; begin consider a being object such that a = a; definition let x be object; attr x is empty means a = a; end;",
        "1:122 33",
    ),
    // loci are out of force behind the block
    (
        "environ vocabularies V; begin definition let x be object; attr x is empty means x = x; end; theorem x = x;",
        "1:101 33",
    ),
    // a locus without a type whose name isn't reserved
    (
        "environ vocabularies V; begin definition let x; attr x is empty means x = x; end;",
        "1:46 33",
    ),
    // a locus of a reserved type
    (
        "environ vocabularies V; begin reserve x for set; definition let x; attr x is empty means x = x; end;",
        "accepted 1",
    ),
    // conditions that aren't owed: existence
    (
        "environ vocabularies V; begin definition let x,y be object; pred x ## y means x = y; existence; end;",
        "1:86 52 1",
    ),
    // uniqueness
    (
        "environ vocabularies V; begin definition let x,y be object; pred x ## y means x = y; uniqueness; end;",
        "1:86 52 2",
    ),
    // coherence
    (
        "environ vocabularies V; begin definition let x,y be object; pred x ## y means x = y; coherence; end;",
        "1:86 52 3",
    ),
    // compatibility
    (
        "environ vocabularies V; begin definition let x,y be object; pred x ## y means x = y; compatibility; end;",
        "1:86 52 4",
    ),
    // consistency
    (
        "environ vocabularies V; begin definition let x,y be object; pred x ## y means x = y; consistency; end;",
        "1:86 52 5",
    ),
    // correctness
    (
        "environ vocabularies V; begin definition let x,y be object; pred x ## y means x = y; correctness; end;",
        "1:86 52 6",
    ),
    // the first one is told
    (
        "environ vocabularies V; begin definition let x,y be object; pred x ## y means x = y; coherence; existence; end;",
        "1:86 52 3",
    ),
    // so behind an attribute
    (
        "environ vocabularies V; begin definition let x be object; attr x is empty means x = x; coherence; end;",
        "1:88 52 3",
    ),
    // an abbreviation
    (
        "environ vocabularies V; begin definition let x be object; mode Elm of x is set; end; theorem for x being object for y being Elm of x holds y is set;",
        "accepted 2",
    ),
    // redefinitions aren't built
    (
        "environ vocabularies V; begin definition let x,y be object; pred x ## y means x = y; redefine pred x ## y means x = y; end;",
        "1:86 10",
    ),
    // a hidden locus that the type of a visible one fixes
    (
        "environ vocabularies V; begin definition let x be object; mode Elm of x -> object means it = x; existence; end; definition let x be object; let y be Elm of x; attr y is empty means y = x; end; theorem for x being object for y being Elm of x holds y is empty;",
        "accepted 3",
    ),
    // a locus that is in the type of a hidden one alone, which a visible one fixes
    (
        "environ vocabularies V; begin definition let x be object; mode Elm of x -> object means it = x; existence; end; definition let x be object; let y be Elm of x; let z be Elm of y; attr z is empty means z = x; end;",
        "accepted 2",
    ),
    // a pattern without loci
    (
        "environ vocabularies V; begin definition pred ## means not contradiction; end; theorem ##;",
        "accepted 2",
    ),
    // more than one locus before the symbol
    (
        "environ vocabularies V; begin definition let x,y,z be object; pred x,y ## z means x = z; end; theorem for x,y being object holds x,y ## x;",
        "accepted 2",
    ),
    // a locus before an attribute
    (
        "environ vocabularies V; begin definition let x,y be object; attr y is x empty means y = x; end; theorem for x being object holds x is x empty;",
        "accepted 2",
    ),
    // loci in parentheses
    (
        "environ vocabularies V; begin definition let x,y,z be object; attr z is (x,y) empty means z = x; end; theorem for x,y being object holds x is (x,y) empty;",
        "accepted 2",
    ),
    // the subject is the locus before `is`, wherever it was declared
    (
        "environ vocabularies V; begin definition let x,y be object; attr x is y empty means x = y; end; theorem for x being object holds x is x empty;",
        "accepted 2",
    ),
    // labels of two blocks
    (
        "environ vocabularies V; begin definition let x be object; attr x is empty means :D: x = x; end; definition let x,y be object; pred x ## y means :E: x is empty; end; theorem for x being object holds x ## x by D,E;",
        "accepted 3",
    ),
    // a reserved type that has a constant of the article's own level
    (
        "environ vocabularies V; begin definition let x be object; mode Elm of x -> object means it = x; existence; end; consider a being object such that a = a; reserve z for Elm of a; definition let z; attr z is empty means z = z; end;",
        "1:193 33",
    ),
    // a block ends the statement just before
    (
        "environ vocabularies V; begin for x being object holds x = x; definition end; then for x being object holds x = x;",
        "1:79 41",
    ),
];

#[test]
fn definitions(rt: HostRuntime) {
    let all = vocabulary(&rt, rt.alloc(), b"V", b"R##\nVempty\nMElm");
    let exports = exports(&rt, rt.alloc());
    check_rows(&rt, rt.alloc(), &exports, &all, &DEFINITIONS);
    forget(exports);
    forget(all);
}
