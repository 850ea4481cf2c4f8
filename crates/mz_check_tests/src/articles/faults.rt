//! Which fault of an article is told.
use crate::articles::checking::{Row, check_all};

const FAULTS: [Row; 18] = [
    // the environment part comes first
    ("environ vocabularies V begin .", "1:24 14"),
    // then the vocabularies
    ("environ vocabularies V; begin .", "1:22 21"),
    // then the tokens
    ("environ requirements ARITHM; begin theorem ; .", "1:46 11"),
    // then the grammar
    ("environ requirements ARITHM; begin theorem ;", "1:44 14"),
    // then what is let in
    (
        "environ requirements ARITHM; begin theorem x = x;",
        "1:22 28",
    ),
    // then the items, in the order of the text
    (
        "environ begin theorem for x being object holds x = y; definition end;",
        "1:52 33",
    ),
    // an item of a form that isn't built
    (
        "environ begin definition let x,y be object; redefine pred x = y means x = y; end; theorem for x being object holds x = y;",
        "1:45 10",
    ),
    // is told alone, where a statement before it is open
    (
        "environ begin theorem for x,y being object holds x = y; definition let x,y be object; redefine pred x = y means x = y; end;",
        "1:87 10",
    ),
    // the forms of items that aren't built
    (
        "environ begin definition let x,y be object; redefine pred x = y means x = y; end;",
        "1:45 10",
    ),
    // a scheme that isn't there
    (
        "environ begin theorem for x being object holds x = x from S;",
        "1:59 43",
    ),
    // the scheme of TARSKI_0 where it isn't let in
    (
        "environ begin theorem for x being object holds x = x from TARSKI_0:sch 1;",
        "1:59 43",
    ),
    // and where it is, with no premise, beside another statement, and with another premise
    (
        "environ schemes TARSKI_0; begin\ntheorem for x being object holds x = x from TARSKI_0:sch 1;",
        "2:40 67 1",
    ),
    (
        "environ schemes TARSKI_0; begin\nB: for x being object holds x = x;\ntheorem for x being object holds x = x from TARSKI_0:sch 1(B);",
        "3:40 66",
    ),
    (
        "environ schemes TARSKI_0; begin\nB: for x being object holds x = x;\ntheorem for A being set ex X being set st for x being object holds x in X iff ex y being object st y in A & y = x\nproof let A be set;\nthus thesis from TARSKI_0:sch 1(B);\nend;",
        "5:13 68 1",
    ),
    // a private functor without its number of arguments
    (
        "environ begin deffunc F(object) = $1; F(F()) = F();",
        "1:41 32",
    ),
    // a formula of 131,059 nodes, and its quantifier
    (
        "environ begin theorem for x being object holds x = x iff (x = x iff (x = x iff (x = x iff (x = x iff (x = x iff (x = x iff (x = x iff (x = x iff (x = x iff (x = x iff (x = x iff (x = x iff x = x))))))))))));",
        "1:48 36",
    ),
    // an article of this length has 66,900 nodes or so, and each of the sentences 65,525
    (
        "environ begin reserve x for object;\nx = x iff (x = x iff (x = x iff (x = x iff (x = x iff (x = x iff (x = x iff (x = x iff (x = x iff (x = x iff (x = x iff (x = x iff x = x)))))))))));\nx = x iff (x = x iff (x = x iff (x = x iff (x = x iff (x = x iff (x = x iff (x = x iff (x = x iff (x = x iff (x = x iff (x = x iff x = x)))))))))));",
        "3:1 36",
    ),
    // four variables, each among 64 known atoms: 16,777,216 ways to refute the cited universal
    (
        "environ begin\nB: for x,y,z,u,v being object st x in v & y in v & z in v & u in v holds x = x;\ntheorem for a,b,c,d,e,f,g,h being object\nst a in a & a in b & a in c & a in d & a in e & a in f & a in g & a in h & b in a & b in b & b in c & b in d & b in e & b in f & b in g & b in h & c in a & c in b & c in c & c in d & c in e & c in f & c in g & c in h & d in a & d in b & d in c & d in d & d in e & d in f & d in g & d in h & e in a & e in b & e in c & e in d & e in e & e in f & e in g & e in h & f in a & f in b & f in c & f in d & f in e & f in f & f in g & f in h & g in a & g in b & g in c & g in d & g in e & g in f & g in g & g in h & h in a & h in b & h in c & h in d & h in e & h in f & h in g & h in h\nholds a = b by B;",
        "5:13 65 16777216",
    ),
];

#[test]
fn the_first_fault_of_several(rt: HostRuntime) {
    check_all(&rt, rt.alloc(), &FAULTS);
}
