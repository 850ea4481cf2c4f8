//! Justifications by `from`.
use crate::proofs::outcomes::{Row, check_all};

/// The only scheme is `{ A() -> set, P[object,object] }`: that there is a set X with x in X iff there is y in A() with P[y,x], provided that
/// P[x,y] and P[x,z] give y = z.
const BY_SCHEMES: [Row; 14] = [
    // a scheme that isn't there is told at its reference
    ("p from S;", "8 43"),
    ("p from TARSKI_0:sch 2;", "8 43"),
    ("p from NOWHERE:sch 1;", "8 43"),
    // before the references for its premises
    ("p from S(B);", "8 43"),
    ("p from TARSKI_0:sch 1(B);", "23 43"),
    // behind the reading of the statement
    ("v = v from S;", "1 33"),
    // and behind its fit
    ("p proof thus q from S; end;", "9 41"),
    // a linked statement needs one before it, and nothing more comes of that
    ("then p from TARSKI_0:sch 1;", "1 41"),
    (
        "c = c; then p from TARSKI_0:sch 1;",
        "6 |- (= c1 c1); 15 from count 1",
    ),
    // the number of the premises comes before all else
    ("p from TARSKI_0:sch 1;", "3 from count 1"),
    (
        "B: c = c; p from TARSKI_0:sch 1(B,B);",
        "9 |- (= c1 c1); 13 from count 1",
    ),
    // then the conclusion
    (
        "B: c = c; p from TARSKI_0:sch 1(B);",
        "9 |- (= c1 c1); 13 from no fit",
    ),
    // then the premises
    (
        "B: c = c; ex X being set st for x being object holds x in X iff ex y being object st y in d & y = x from TARSKI_0:sch 1(B);",
        "9 |- (= c1 c1); 101 from premise 1",
    ),
    // A() is d, and P[x,y] is x = y
    (
        "B: for x,y,z being object st x = y & x = z holds y = z; ex X being set st for x being object holds x in X iff ex y being object st y in d & y = x from TARSKI_0:sch 1(B);",
        "55 |- (not (and (and (= c4 c5) (= c4 c6)) (not (= c5 c6)))); 147 from fits",
    ),
];

/// Instances that are too large.
const LARGE: [Row; 11] = [
    // the instance of the premise has `p iff ..`, of 40,951 nodes, twice. At a further side it comes before what is told at a justification
    (
        "B: for x,y,z being object st (p iff (p iff (p iff (p iff (p iff (p iff (p iff (p iff (p iff (p iff (p iff (p iff p)))))))))))) & x = x holds y = z; c = c by A .= c from TARSKI_0:sch 1(B);",
        "149 36",
    ),
    // where another number is cited, none is made
    (
        "B: for x,y,z being object st (p iff (p iff (p iff (p iff (p iff (p iff (p iff (p iff (p iff (p iff (p iff (p iff p)))))))))))) & x = x holds y = z; c = c by A .= c from TARSKI_0:sch 1;",
        "158 43",
    ),
    // behind `then`, too
    (
        "B: for x,y,z being object st (p iff (p iff (p iff (p iff (p iff (p iff (p iff (p iff (p iff (p iff (p iff (p iff p)))))))))))) & x = x holds y = z; then c = c by A .= c from TARSKI_0:sch 1(B);",
        "149 36",
    ),
    // in front of a side that isn't read
    (
        "B: for x,y,z being object st (p iff (p iff (p iff (p iff (p iff (p iff (p iff (p iff (p iff (p iff (p iff (p iff p)))))))))))) & x = x holds y = z; c = c from TARSKI_0:sch 1(B) .= v;",
        "149 36",
    ),
    // where none is made that side is told
    (
        "B: for x,y,z being object st (p iff (p iff (p iff (p iff (p iff (p iff (p iff (p iff (p iff (p iff (p iff (p iff p)))))))))))) & x = x holds y = z; c = c from TARSKI_0:sch 1 .= v;",
        "178 33",
    ),
    // of a further side in front of it
    (
        "B: for x,y,z being object st (p iff (p iff (p iff (p iff (p iff (p iff (p iff (p iff (p iff (p iff (p iff (p iff p)))))))))))) & x = x holds y = z; c = c by A .= c from TARSKI_0:sch 1(B) .= v;",
        "149 36",
    ),
    // of the equation of that side none is made
    (
        "B: for x,y,z being object st (p iff (p iff (p iff (p iff (p iff (p iff (p iff (p iff (p iff (p iff (p iff (p iff p)))))))))))) & x = x holds y = z; c = c .= v from TARSKI_0:sch 1(B) .= c;",
        "158 33",
    ),
    // a step that doesn't fit is told before
    (
        "B: for x,y,z being object st (p iff (p iff (p iff (p iff (p iff (p iff (p iff (p iff (p iff (p iff (p iff (p iff p)))))))))))) & x = x holds y = z; p proof thus c = c .= c from TARSKI_0:sch 1(B); end;",
        "157 41",
    ),
    // one that fits isn't
    (
        "B: for x,y,z being object st (p iff (p iff (p iff (p iff (p iff (p iff (p iff (p iff (p iff (p iff (p iff (p iff p)))))))))))) & x = x holds y = z; c = c proof thus c = c by A .= c from TARSKI_0:sch 1(B); end;",
        "161 36",
    ),
    // at `consider`
    (
        "B: for x,y,z being object st (p iff (p iff (p iff (p iff (p iff (p iff (p iff (p iff (p iff (p iff (p iff (p iff p)))))))))))) & x = x holds y = z; consider a being object such that p from TARSKI_0:sch 1(B);",
        "149 36",
    ),
    // at `reconsider`
    (
        "B: for x,y,z being object st (p iff (p iff (p iff (p iff (p iff (p iff (p iff (p iff (p iff (p iff (p iff (p iff p)))))))))))) & x = x holds y = z; reconsider z = c as set from TARSKI_0:sch 1(B);",
        "149 36",
    ),
];

#[test]
fn schemes_are_used(rt: HostRuntime) {
    check_all(&rt, rt.alloc(), &BY_SCHEMES);
}

#[test]
fn instances_that_are_too_large(rt: HostRuntime) {
    check_all(&rt, rt.alloc(), &LARGE);
}
