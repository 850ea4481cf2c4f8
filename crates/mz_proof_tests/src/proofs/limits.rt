//! What an article has left.
use crate::proofs::environment::environment;
use crate::proofs::outcomes::{Row, check};
use std::mem::forget;

/// The nodes and the obligations that are left, and a row.
type Limited = (u64, u32, Row);

const LIMITS: [Limited; 30] = [
    // one obligation left, and two that are asked
    (1000000, 1, ("p; q;", "5 44")),
    // none left: before the references are looked at
    (1000000, 0, ("p by B;", "3 44")),
    // a proof asks nothing besides its steps
    (1000000, 1, ("p proof thus p; end;", "15 |- A.R1")),
    // within a proof
    (1000000, 1, ("p & q proof thus p; thus q; end;", "27 44")),
    // two of `reconsider` at one place
    (1000000, 1, ("reconsider z = c, w = d as set;", "31 44")),
    // before the references, which are looked at behind the count of all of them
    (
        1000000,
        1,
        ("reconsider z = c, w = d as set by B;", "32 44"),
    ),
    // both
    (
        1000000,
        2,
        ("reconsider z = c, w = d as set;", "31 |- true; 31 |- true"),
    ),
    // a link
    (1000000, 1, ("c = d .= e;", "11 44")),
    // of the first equation, where nothing is too large
    (
        1000000,
        1,
        (
            "B: for x,y,z being object st (p iff (p iff (p iff (p iff (p iff (p iff (p iff (p iff (p iff (p iff (p iff (p iff p)))))))))))) & x = x holds y = z; c = c .= c from TARSKI_0:sch 1;",
            "155 44",
        ),
    ),
    // an instance that is too large at a further side comes before
    (
        1000000,
        1,
        (
            "B: for x,y,z being object st (p iff (p iff (p iff (p iff (p iff (p iff (p iff (p iff (p iff (p iff (p iff (p iff p)))))))))))) & x = x holds y = z; c = c .= c from TARSKI_0:sch 1(B);",
            "149 36",
        ),
    ),
    // that of the cases before what is supposed is read
    (
        1000000,
        0,
        ("p proof per cases; suppose v = v; end; end;", "18 44"),
    ),
    // `consider`
    (
        1000000,
        0,
        ("consider a being object such that p by B;", "37 44"),
    ),
    // within a `now`
    (1000000, 1, ("now p; thus q by B; end;", "15 44")),
    // a step that doesn't fit comes before
    (1000000, 0, ("p proof thus q; end;", "9 41")),
    // a statement counts one node for an atom without arguments
    (1, 20000, ("p;", "2 |- A.R1")),
    // the second has none left
    (1, 20000, ("p; q;", "4 36")),
    // a closed sentence counts its quantifier, its type and its body
    (5, 20000, ("X = c;", "6 |- (= c4 c1)")),
    // with one node less
    (4, 20000, ("X = c;", "1 36")),
    // a type counts its radix and its arguments, and then the condition
    (
        3,
        20000,
        (
            "consider a being Elm of d such that p;",
            "38 |- (not (all (not (and (A.M1 c2 b0) A.R1))))",
        ),
    ),
    // the condition is beyond
    (
        2,
        20000,
        ("consider a being Elm of d such that p;", "37 36"),
    ),
    // the type is beyond
    (
        1,
        20000,
        ("consider a being Elm of d such that p;", "18 36"),
    ),
    // once for variables that share it
    (
        3,
        20000,
        (
            "consider a,b being Elm of d such that p;",
            "40 |- (not (all (not (and (A.M1 c2 b0) (not (all (not (and (A.M1 c2 b0) A.R1))))))))",
        ),
    ),
    // each term of `set`
    (1, 20000, ("set z = c, w = c;", "16 36")),
    // each term of `reconsider`, and then its type
    (
        3,
        20000,
        (
            "reconsider z = c as Elm of d;",
            "29 (not (HIDDEN.R1 c1 c2)) |- (A.M1 c2 c1)",
        ),
    ),
    // the type is beyond
    (2, 20000, ("reconsider z = c as Elm of d;", "21 36")),
    // an equation has three nodes, and a further term one
    (4, 20000, ("c = d .= c;", "7 |- (= c1 c2); 11 |- (= c2 c1)")),
    // the further term is beyond
    (3, 20000, ("c = d .= c;", "10 36")),
    // it is told behind the obligation of the first link
    (3, 0, ("c = d .= c;", "7 44")),
    // a term of `take`
    (
        7,
        20000,
        ("ex a being object st a = c proof take c; end;", "39 36"),
    ),
    // what `thesis` is read to
    (
        8,
        20000,
        (
            "ex a being object st a = c proof take c; thus thesis; end;",
            "47 36",
        ),
    ),
];

#[test]
fn what_an_article_has_left(rt: HostRuntime) {
    let env = environment(&rt, rt.alloc());
    for (nodes, obligations, (text, wanted)) in &LIMITS {
        check(&rt, rt.alloc(), &env, (*nodes, *obligations), text, wanted);
    }
    forget(env);
}
