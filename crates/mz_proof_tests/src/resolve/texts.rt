//! Texts, what they are read to, and the nodes that this takes.
use crate::resolve::answers::{Call, Row, answer, check, is_answer};
use crate::resolve::environments::environment;
use crate::resolve::small::{ITEMS, SYMBOLS, context};
use std::alloc::Global;
use std::mem::forget;
use std::process::Abort;

/// The rows are read so at the place of the small article.
fn check_here(rt: &impl Abort, alloc: Global, call: Call, rows: &[Row]) {
    let env = environment(rt, alloc, &ITEMS);
    let mut ctx = context(rt, alloc);
    for row in rows {
        check(rt, alloc, SYMBOLS, &env, &mut ctx, call, *row);
    }
    forget(env);
    forget(ctx);
}

const TERMS: [Row; 22] = [
    (0, "c", "c1", 1),
    (2, "d", "c2", 1),
    (0, "it", "c1", 1),
    (0, "$1", "c2", 1),
    (0, "c + d", "(A.O1 c1 c2)", 3),
    (0, "c + d * d", "(A.O1 c1 (A.O2 c2 c2))", 5),
    (0, "d * d + c", "(A.O1 (A.O2 c2 c2) c1)", 5),
    (0, "c !", "(A.O3 c1)", 2),
    (0, "(c !) !", "(A.O3 (A.O3 c1))", 3),
    (0, "d ^ e", "(A.O4 c2 c3)", 3),
    // a functor that is redefined keeps its symbol, and has the new type as well
    (0, "d + e", "(A.O1 c2 c3)", 3),
    (0, "d ^ (d + e)", "(A.O4 c2 (A.O1 c2 c3))", 5),
    // the latest private functor with the name
    (0, "F(d)", "(A.O1 c2 c2)", 3),
    (0, "F(F(c))", "(A.O1 (A.O1 c1 c1) (A.O1 c1 c1))", 7),
    (0, "G(d, e)", "(A.O1 c3 c1)", 3),
    (0, "G(c, d + e)", "(A.O1 (A.O1 c2 c3) c1)", 5),
    (2, "J(e)", "c3", 1),
    // the types of its places don't count
    (3, "J(e)", "c3", 1),
    // letters
    (0, "H(c, d)", "(A.F1 c1 c2)", 3),
    (0, "H(H(d, d), c)", "(A.F1 (A.F1 c2 c2) c1)", 5),
    (2, "H(d, e)", "(A.F1 c2 c3)", 3),
    (3, "F(e)", "(A.O1 c3 c3)", 3),
];

const REFUSED_TERMS: [Row; 46] = [
    (0, "z", "V31", 0),
    (2, "c", "V31", 0),
    (0, "x", "V31", 0),
    (0, "$2", "V31", 0),
    // a symbol without a notation is an operand beside a functor, and else the head of its run
    (0, "@", "S31", 0),
    (0, "c @", "S33", 0),
    (0, "c + @", "S35", 0),
    (0, "@ + z", "S31", 0),
    (0, "z + @", "V31", 0),
    (0, "z @", "V31", 0),
    (0, "c @ z", "V35", 0),
    (0, "lb c rb", "S31", 0),
    (0, "lb z rb", "V34", 0),
    // of two postfix symbols only the first stands directly after an operand
    (0, "c ! !", "N35", 0),
    (0, "z ! !", "V31", 0),
    (0, "+ c", "N31", 0),
    (0, "c +", "N33", 0),
    (0, "(c, d) + c", "N38", 0),
    (0, "c + (d, z)", "V39", 0),
    (0, "(c, d) !", "N38", 0),
    (0, "(c, @) !", "S35", 0),
    // arguments that don't fit, from left to right
    (0, "d ^ c", "A33", 0),
    (0, "c ^ e", "A33", 0),
    (0, "d ^ (d + d)", "A33", 0),
    (0, "(d ^ c) + z", "A34", 0),
    (0, "z + (d ^ c)", "V31", 0),
    (0, "F(d ^ c)", "A35", 0),
    // private functors and letters: the arguments, the constants of the body, the number, and then the types
    (0, "K(c)", "V31", 0),
    (0, "K(z)", "V33", 0),
    (0, "P(e)", "V31", 0),
    (0, "R(c)", "V31", 0),
    (0, "F(c, d)", "N31", 0),
    (0, "F()", "N31", 0),
    (0, "F(z, d)", "V33", 0),
    (0, "F(@, z)", "S33", 0),
    (0, "G(d, c)", "A31", 0),
    (0, "G(e, d)", "A31", 0),
    (0, "G(d)", "N31", 0),
    // the number of arguments, then their fit, then the constants of its body
    (2, "G(d)", "N31", 0),
    (2, "G(e, d)", "A31", 0),
    (2, "G(d, e)", "V31", 0),
    (3, "J(c)", "V33", 0),
    (0, "J(d)", "A31", 0),
    (0, "H(c)", "N31", 0),
    (0, "H()", "N31", 0),
    (0, "H(z)", "V33", 0),
];

#[test]
fn terms(rt: HostRuntime) {
    check_here(&rt, rt.alloc(), Call::Term, &TERMS);
    check_here(&rt, rt.alloc(), Call::Term, &REFUSED_TERMS);
}

const TYPES: [Row; 30] = [
    (0, "set", "HIDDEN.M2", 1),
    (0, "object", "HIDDEN.M1", 1),
    (0, "Elm of d", "(A.M1 c2)", 2),
    (0, "Elm of c + d", "(A.M1 (A.O1 c1 c2))", 4),
    (0, "non empty set", "HIDDEN.M2 (not A.V1)", 2),
    // an attribute that stands for a negation
    (0, "full set", "HIDDEN.M2 (not A.V1)", 2),
    (
        0,
        "full non empty set",
        "HIDDEN.M2 (not A.V1) (not A.V1)",
        3,
    ),
    (0, "non full set", "U31", 0),
    (0, "empty set", "U31", 0),
    (0, "full empty set", "U31", 0),
    (0, "d big set", "U31", 0),
    (0, "non empty Elm of d", "U31", 0),
    (0, "full Elm of d", "U31", 0),
    // the radix, and then the adjectives from left to right
    (0, "Elm", "N31", 0),
    (0, "Elm of c, d", "N31", 0),
    (0, "Elm of z", "V38", 0),
    (3, "Elm of d", "V38", 0),
    (0, "empty Elm of z", "V44", 0),
    (0, "far Elm of z", "V42", 0),
    (0, "far set", "S31", 0),
    (0, "non far set", "S35", 0),
    (0, "far z big set", "S31", 0),
    (0, "z big far set", "V31", 0),
    (0, "c full set", "N33", 0),
    (0, "z full set", "V31", 0),
    (0, "big set", "N31", 0),
    // an attribute of another type
    (0, "near set", "A31", 0),
    (0, "empty near set", "A37", 0),
    (0, "near Elm of d", "U31", 0),
    (0, "Elm of d ^ c", "A40", 0),
];

#[test]
fn types(rt: HostRuntime) {
    check_here(&rt, rt.alloc(), Call::Type, &TYPES);
}

const FORMULAS: [Row; 39] = [
    (0, "c = d", "(= c1 c2)", 3),
    (0, "c <> d", "(not (= c1 c2))", 4),
    (0, "not c <> d", "(= c1 c2)", 3),
    (0, "c in d", "(HIDDEN.R1 c1 c2)", 3),
    (0, "d ## e", "(A.R1 c2 c3)", 3),
    (0, "d ## d + e", "(A.R1 c2 (A.O1 c2 c3))", 5),
    (0, "thesis", "(= c1 c2)", 3),
    (0, "contradiction", "(not true)", 2),
    (0, "not contradiction", "true", 1),
    (0, "P[e]", "(A.V1 c3)", 2),
    (3, "P[e]", "(A.V1 c3)", 2),
    (0, "Q[]", "(not (A.V1 c2))", 3),
    (0, "not Q[]", "(A.V1 c2)", 2),
    (0, "R[d]", "(A.P1 c2)", 2),
    (0, "d is empty", "(A.V1 c2)", 2),
    (0, "d is full", "(not (A.V1 c2))", 3),
    (0, "d is non full", "(A.V1 c2)", 2),
    (0, "d is empty d big", "(and (A.V1 c2) (A.V2 c2 c2))", 6),
    (0, "e is near", "(A.V3 c2 c3)", 3),
    (0, "c is set", "true", 1),
    (0, "c is Elm of d", "(A.M1 c2 c1)", 3),
    (0, "c is full set", "(not (A.V1 c1))", 3),
    (
        0,
        "c = c & d = d & c = d",
        "(and (and (= c1 c1) (= c2 c2)) (= c1 c2))",
        11,
    ),
    (
        0,
        "c = c or d = d",
        "(not (and (not (= c1 c1)) (not (= c2 c2))))",
        10,
    ),
    (0, "c <> c or d <> d", "(not (and (= c1 c1) (= c2 c2)))", 8),
    (
        0,
        "c = c implies d = d",
        "(not (and (= c1 c1) (not (= c2 c2))))",
        9,
    ),
    (
        0,
        "c = c implies d <> d",
        "(not (and (= c1 c1) (= c2 c2)))",
        8,
    ),
    (
        0,
        "c = c iff d = d",
        "(and (not (and (= c1 c1) (not (= c2 c2)))) (not (and (= c2 c2) (not (= c1 c1)))))",
        19,
    ),
    (0, "for a being set holds a = c", "(all (= b0 c1))", 5),
    (
        0,
        "ex a being set st a = c",
        "(not (all (not (= b0 c1))))",
        7,
    ),
    (0, "ex a being set st a <> c", "(not (all (= b0 c1)))", 6),
    (
        0,
        "for a being set st a = c holds a = d",
        "(all (not (and (= b0 c1) (not (= b0 c2)))))",
        11,
    ),
    (
        0,
        "for a being set st a = c ex c being set st c = a",
        "(all (not (and (= b0 c1) (all (not (= b0 b1))))))",
        13,
    ),
    // an inner variable hides an outer one, and that a constant
    (
        0,
        "for c being set for c being object holds c = d",
        "(all (all (= b0 c2)))",
        7,
    ),
    // a type is read before the variables that have it are known
    (
        0,
        "for d,a being Elm of d holds d = a",
        "(all (not (and (A.M1 c2 b0) (not (all (not (and (A.M1 c2 b0) (not (= b1 b0)))))))))",
        9,
    ),
    (
        0,
        "for d being set,a being Elm of d holds d = a",
        "(all (all (not (and (A.M1 b1 b0) (not (= b1 b0))))))",
        8,
    ),
    (
        0,
        "for d being set,a being Elm of d holds d ## a",
        "(all (all (not (and (A.M1 b1 b0) (not (A.R1 b1 b0))))))",
        8,
    ),
    (0, "for x holds x = c", "(all (= b0 c1))", 5),
    (
        0,
        "for w holds w = c",
        "(all (not (and (A.M1 c2 b0) (not (= b0 c1)))))",
        6,
    ),
];

const REFUSED_FORMULAS: [Row; 43] = [
    (0, "x = c", "V31", 0),
    (0, "d ^ c = z", "A33", 0),
    (0, "z = d ^ c", "V31", 0),
    (0, "c = z & d ^ c = d", "V35", 0),
    (0, "(c = c & z = z) & @ = c", "V40", 0),
    (0, "c = c or @ = z", "S40", 0),
    (0, "@ = c implies z = c", "S31", 0),
    (0, "c sep d", "S33", 0),
    (0, "z sep d", "V31", 0),
    (0, "c sep z", "V37", 0),
    (0, "d ##", "N33", 0),
    (0, "## d", "N31", 0),
    (0, "## z", "V34", 0),
    (0, "c, d ## e", "N36", 0),
    (0, "d ## c", "A33", 0),
    (0, "c ## e", "A33", 0),
    (0, "d ## d + d", "A33", 0),
    // private predicates and letters
    (0, "K[e]", "V31", 0),
    (0, "K[z]", "V33", 0),
    (0, "F[c]", "V31", 0),
    (0, "H[c, d]", "V31", 0),
    (0, "P[c]", "A31", 0),
    (0, "P[d + d]", "A31", 0),
    (0, "P[c, e]", "N31", 0),
    (0, "P[]", "N31", 0),
    (0, "P[z, e]", "V33", 0),
    (0, "Q[c]", "N31", 0),
    (3, "Q[]", "V31", 0),
    (3, "Q[e]", "N31", 0),
    (2, "P[c]", "V33", 0),
    (0, "R[]", "N31", 0),
    (0, "R[c, d]", "N31", 0),
    (0, "R[z]", "V33", 0),
    // what is said of a term
    (0, "c is near", "A36", 0),
    (0, "d is far", "S36", 0),
    (0, "z is far", "V31", 0),
    (0, "d is empty z big", "V42", 0),
    (0, "d is c empty", "N38", 0),
    (0, "c is empty set", "U36", 0),
    (0, "z is empty set", "V31", 0),
    // under quantifiers
    (3, "for w holds e = e", "V35", 0),
    (0, "ex a being empty set st a = z", "U42", 0),
    (0, "for a being set holds a ^ d = z", "A55", 0),
];

#[test]
fn formulas(rt: HostRuntime) {
    check_here(&rt, rt.alloc(), Call::Formula, &FORMULAS);
    check_here(&rt, rt.alloc(), Call::Formula, &REFUSED_FORMULAS);
}

const SENTENCES: [Row; 14] = [
    (0, "c = d", "(= c1 c2)", 3),
    (0, "x = c", "(all (= b0 c1))", 5),
    // in the order of the text, whatever the names
    (0, "y = x", "(all (all (= b1 b0)))", 7),
    (0, "x = y", "(all (all (= b1 b0)))", 7),
    (
        0,
        "y = x & X = y",
        "(all (all (all (and (= b2 b1) (= b0 b2)))))",
        13,
    ),
    (
        0,
        "x = y & (for x holds x = y)",
        "(all (all (and (= b1 b0) (all (= b0 b1)))))",
        13,
    ),
    (0, "for y holds y = x", "(all (all (= b0 b1)))", 7),
    (
        0,
        "w = c",
        "(all (not (and (A.M1 c2 b0) (not (= b0 c1)))))",
        6,
    ),
    (
        0,
        "P[w]",
        "(all (not (and (A.M1 c2 b0) (not (A.V1 b0)))))",
        5,
    ),
    (3, "x = e", "(all (= b0 c3))", 5),
    (3, "w = e", "V31", 0),
    (0, "w ^ x = c", "A33", 0),
    (0, "d ^ w = z", "V39", 0),
    (0, "z = x", "V31", 0),
];

#[test]
fn sentences(rt: HostRuntime) {
    check_here(&rt, rt.alloc(), Call::Sentence, &SENTENCES);
}

/// An article may have more nodes left than 32 bits count.
#[test]
fn many_nodes_left(rt: HostRuntime) {
    let env = environment(&rt, rt.alloc(), &ITEMS);
    let mut ctx = context(&rt, rt.alloc());
    let many = 8589934592;
    let found = answer(
        &rt,
        rt.alloc(),
        SYMBOLS,
        &env,
        &mut ctx,
        Call::Term,
        0,
        many,
        "c + d",
    );
    let same = is_answer(found, "(A.O1 c1 c2)", Some(many - 3));
    forget(env);
    forget(ctx);
    assert!(rt; same);
}
