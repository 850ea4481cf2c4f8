//! Forty problems with their facts, worked out by hand from the rules.
use crate::facts::problems::Problem;

/// Equations, and what they carry.
pub const FIRST: [Problem; 5] = [
    // the constant 0 is ground; nothing is said of what isn't
    (
        "",
        &[],
        "(= c0 c0)",
        "(not (= c0 c0)) (A.R2 c0) (= c1 c1) (not (= c1 c1))",
        false,
    ),
    // equality is an equivalence, also beyond the ground equations
    (
        "(= c1 c3) (= c2 c3)",
        &[],
        "(= c1 c2) (= c2 c1) (= c3 c3)",
        "(= c3 c0) (not (= c1 c2)) (= c4 c4)",
        false,
    ),
    // congruence through two layers; nothing is carried to what isn't ground
    (
        "(= c1 c2) (A.R2 (A.O1 (A.O1 c1))) (all (A.R2 (A.O1 (A.O1 c2))))",
        &[],
        "(= (A.O1 c1) (A.O1 c2)) (= (A.O1 (A.O1 c1)) (A.O1 (A.O1 c2))) (A.R2 (A.O1 (A.O1 c2)))",
        "(= c1 (A.O1 c1)) (= (A.O1 c1) (A.O1 (A.O1 c1))) (not (A.R2 (A.O1 (A.O1 c2)))) (A.R2 (A.O1 c1))",
        false,
    ),
    (
        "(= c1 c2) (not (A.R2 c1)) (all (A.R2 c2))",
        &[],
        "(not (A.R2 c2))",
        "(A.R2 c1) (A.R2 c2)",
        false,
    ),
    (
        "(= c1 c3) (= c2 c4) (A.R1 c1 c2) (all (A.R1 c3 c4)) (all (A.R1 c4 c3))",
        &[],
        "(A.R1 c3 c4)",
        "(A.R1 c4 c3) (A.R1 c1 c4)",
        false,
    ),
];

/// A disequation, and clauses with two premises or one behind another.
pub const SECOND: [Problem; 5] = [
    // a disequation has its sides exchanged, and isn't carried to equal terms
    (
        "(not (= c1 c2)) (= c2 c3) (all (= c1 c3))",
        &[],
        "(not (= c1 c2)) (not (= c2 c1))",
        "(not (= c1 c3)) (not (= c3 c1)) (= c1 c3) (= c1 c2)",
        false,
    ),
    // a clause with two premises, one of them a fact by congruence
    (
        "(A.R2 c1) (A.R3 c2) (= c1 c2)",
        &[(1, "(A.R2 b0)", "(A.R2 b0) (A.R3 b0)", "(A.R5 b0)")],
        "(A.R3 c1) (A.R5 c1)",
        "(A.R2 c2) (A.R5 c2) (not (A.R5 c1))",
        false,
    ),
    // either premise is missing
    (
        "(A.R2 c1) (A.R3 c2)",
        &[(1, "(A.R2 b0)", "(A.R2 b0) (A.R3 b0)", "(A.R5 b0)")],
        "(A.R2 c1) (A.R3 c2)",
        "(A.R3 c1) (A.R5 c1) (not (A.R5 c1))",
        false,
    ),
    (
        "(A.R2 c1) (A.R4 c1)",
        &[(1, "(A.R2 b0)", "(A.R3 b0) (A.R4 b0)", "(A.R5 b0)")],
        "(A.R2 c1) (A.R4 c1)",
        "(A.R3 c1) (A.R5 c1)",
        false,
    ),
    // clauses in the reverse order; an equation that a clause adds lets another one fire
    (
        "(A.R2 c1)",
        &[
            (1, "(A.R3 b0)", "(A.R3 b0)", "(A.R5 b0)"),
            (1, "(A.R2 b0)", "(A.R2 b0)", "(A.R3 b0)"),
        ],
        "(A.R3 c1) (A.R5 c1)",
        "(not (A.R2 c1)) (not (A.R5 c1))",
        false,
    ),
];

/// Clauses that let others fire, layer by layer, and a trigger as it is written.
pub const THIRD: [Problem; 5] = [
    (
        "(A.R1 c1 c2) (A.R2 c1) (A.R3 (A.O1 c1)) (all (A.R3 (A.O1 c2)))",
        &[
            (1, "(A.R3 (A.O1 b0))", "(A.R3 (A.O1 b0))", "(A.R5 b0)"),
            (2, "(A.R1 b1 b0)", "(A.R2 b1)", "(= b1 b0)"),
        ],
        "(= c1 c2) (= (A.O1 c1) (A.O1 c2)) (A.R3 (A.O1 c2)) (A.R5 c1) (A.R5 c2)",
        "(A.R2 c2) (A.R1 c2 c1) (= c1 c0)",
        false,
    ),
    // four further layers
    (
        "(A.R2 c1)",
        &[(1, "(A.R2 b0)", "(A.R2 b0)", "(A.R2 (A.O1 b0))")],
        "(A.R2 (A.O1 c1)) (A.R2 (A.O1 (A.O1 c1))) (A.R2 (A.O1 (A.O1 (A.O1 c1)))) (A.R2 (A.O1 (A.O1 (A.O1 (A.O1 c1)))))",
        "(A.R2 (A.O1 (A.O1 (A.O1 (A.O1 (A.O1 c1)))))) (not (A.R2 (A.O1 (A.O1 (A.O1 (A.O1 c1))))))",
        false,
    ),
    (
        "(A.R2 c1) (all (A.R3 (A.O1 (A.O1 c1))))",
        &[(1, "(A.R2 b0)", "(A.R2 b0)", "(= (A.O1 b0) b0)")],
        "(= (A.O1 c1) c1) (= (A.O1 (A.O1 c1)) c1)",
        "(A.R2 (A.O1 c1)) (A.R3 (A.O1 (A.O1 c1))) (= c1 c0)",
        false,
    ),
    // two variables, and a disequation by a clause
    (
        "(A.R1 c1 c2)",
        &[
            (2, "(A.R1 b1 b0)", "(A.R1 b1 b0)", "(A.R1 b0 b1)"),
            (2, "(A.R1 b1 b0)", "(A.R1 b1 b0)", "(not (= b1 b0))"),
        ],
        "(A.R1 c2 c1) (not (= c1 c2)) (not (= c2 c1))",
        "(A.R1 c1 c1) (= c1 c2) (not (= c1 c0))",
        false,
    ),
    // a trigger stands as it is written, and not only up to equality
    (
        "(A.R2 c1) (= c1 (A.O1 c2))",
        &[(1, "(A.R2 (A.O1 b0))", "(A.R2 (A.O1 b0))", "(A.R3 b0)")],
        "(A.R2 c1)",
        "(A.R2 (A.O1 c2)) (A.R3 c2)",
        false,
    ),
];

/// Triggers that equal terms make, and triggers that are terms.
pub const FOURTH: [Problem; 5] = [
    (
        "(A.R2 c1) (= c1 (A.O1 c2)) (all (A.R2 (A.O1 c2)))",
        &[(1, "(A.R2 (A.O1 b0))", "(A.R2 (A.O1 b0))", "(A.R3 b0)")],
        "(A.R2 (A.O1 c2)) (A.R3 c2)",
        "(A.R3 c1)",
        false,
    ),
    (
        "(A.R1 c1 c2) (= c1 c2)",
        &[(1, "(A.R1 b0 b0)", "(A.R1 b0 b0)", "(A.R3 b0)")],
        "(A.R1 c1 c2)",
        "(A.R1 c1 c1) (A.R3 c1) (A.R3 c2)",
        false,
    ),
    (
        "(A.R1 c1 c2) (= c1 c2) (all (A.R1 c2 c2))",
        &[(1, "(A.R1 b0 b0)", "(A.R1 b0 b0)", "(A.R3 b0)")],
        "(A.R1 c2 c2) (A.R3 c2)",
        "(A.R3 c1)",
        false,
    ),
    // a term as trigger, also a variable alone
    (
        "(A.R3 (A.O1 c1))",
        &[(1, "(A.O1 b0)", "", "(A.R2 (A.O1 b0))")],
        "(A.R2 (A.O1 c1))",
        "(A.R2 c1) (A.R3 c1)",
        false,
    ),
    (
        "(A.R3 c1)",
        &[(1, "b0", "", "(A.R4 b0)")],
        "(A.R4 c0) (A.R4 c1)",
        "(A.R4 c2) (A.R3 c0)",
        false,
    ),
];

/// Disjuncts that are contradictory.
pub const FIFTH: [Problem; 5] = [
    (
        "(A.R2 c1) (not (A.R2 c1))",
        &[],
        "(A.R2 c1) (not (A.R2 c1))",
        "(A.R2 c0) (not (A.R2 c0)) (not (= c1 c1))",
        true,
    ),
    (
        "(A.R2 c1) (not (A.R2 c2)) (= c1 c2)",
        &[],
        "(A.R2 c1) (not (A.R2 c1)) (A.R2 c2) (not (A.R2 c2))",
        "(not (= c1 c2))",
        true,
    ),
    (
        "(not (= c1 c2)) (= c1 c3) (= c3 c2)",
        &[],
        "(= c1 c2) (not (= c1 c2)) (not (= c2 c1))",
        "(not (= c1 c3)) (not (= c3 c2))",
        true,
    ),
    (
        "(not (= c1 c1))",
        &[],
        "(= c1 c1) (not (= c1 c1))",
        "(not (= c0 c0))",
        true,
    ),
    (
        "(A.R2 c1) (A.R3 c1)",
        &[(1, "(A.R2 b0)", "(A.R2 b0)", "(not (A.R3 b0))")],
        "(A.R2 c1) (A.R3 c1) (not (A.R3 c1))",
        "(not (A.R2 c1))",
        true,
    ),
];

/// Disjuncts that are contradictory with clauses, and chains of equal terms.
pub const SIXTH: [Problem; 5] = [
    (
        "(A.R2 c1) (not (= (A.O1 c1) c1))",
        &[(1, "(A.R2 b0)", "(A.R2 b0)", "(= (A.O1 b0) b0)")],
        "(= (A.O1 c1) c1) (not (= (A.O1 c1) c1)) (not (= c1 (A.O1 c1)))",
        "(= c1 c0) (not (= c1 c0))",
        true,
    ),
    // the facts are taken whole, and not everything is one
    (
        "(A.R2 c1) (not (A.R2 c1)) (= c2 c3) (A.R3 c2) (all (A.R3 c3))",
        &[(1, "(A.R2 b0)", "(not (A.R2 b0))", "(A.R5 b0)")],
        "(A.R5 c1) (A.R3 c3)",
        "(not (A.R5 c1)) (not (A.R3 c3)) (A.R2 c2) (= c1 c2)",
        true,
    ),
    // congruence through a chain: equal terms of equal terms
    (
        "(= c1 c2) (= c2 c3) (A.R2 (A.O1 (A.O1 c1))) (all (A.R2 (A.O1 (A.O1 c3)))) (all (A.R3 (A.O1 c2)))",
        &[],
        "(= (A.O1 c1) (A.O1 c3)) (= (A.O1 (A.O1 c1)) (A.O1 (A.O1 c3))) (A.R2 (A.O1 (A.O1 c3)))",
        "(A.R3 (A.O1 c2)) (= (A.O1 c1) c3) (not (A.R2 (A.O1 (A.O1 c3))))",
        false,
    ),
    // two chains that a clause joins
    (
        "(= c1 c2) (= c3 c4) (A.R2 c1)",
        &[(1, "(A.R2 b0)", "(A.R2 b0)", "(= (A.O1 b0) c3)")],
        "(= (A.O1 c1) c3) (= (A.O1 c1) c4)",
        "(= c1 c3) (= c2 c4) (not (A.R2 c1))",
        false,
    ),
    // a disequation of equal terms, by a clause
    (
        "(= c1 c2) (A.R2 c1)",
        &[(1, "(A.R2 b0)", "(A.R2 b0)", "(not (= b0 c2))")],
        "(not (= c1 c2)) (not (= c2 c1))",
        "(= c1 c3) (not (= c2 c2))",
        true,
    ),
];

/// Negative facts, and premises and conclusions of each form.
pub const SEVENTH: [Problem; 5] = [
    // a negative atom carried to two equal terms
    (
        "(not (A.R2 c1)) (= c1 c2) (= c2 c3) (all (A.R2 c2)) (all (A.R2 c3))",
        &[],
        "(not (A.R2 c2)) (not (A.R2 c3))",
        "(A.R2 c1) (A.R2 c2) (not (A.R2 c0))",
        false,
    ),
    // premises that are equations
    (
        "(= c1 c2) (A.R2 c1)",
        &[(1, "(A.R2 b0)", "(A.R2 b0) (= b0 c2)", "(A.R3 b0)")],
        "(A.R3 c1)",
        "(A.R3 c2) (not (A.R3 c1))",
        false,
    ),
    // a premise that is a disequation; its conclusion is carried to an equal term, and it is not
    (
        "(not (= c1 c2)) (= c1 c3) (A.R2 c1) (A.R2 c3)",
        &[(1, "(A.R2 b0)", "(A.R2 b0) (not (= b0 c2))", "(A.R3 b0)")],
        "(A.R3 c1) (A.R3 c3)",
        "(not (= c3 c2)) (not (A.R3 c1))",
        false,
    ),
    // a clause without premises
    (
        "(A.R2 c1)",
        &[(1, "(A.R2 b0)", "", "(A.R4 b0)")],
        "(A.R4 c1)",
        "(not (A.R4 c1)) (A.R4 c0)",
        false,
    ),
    // a clause whose conclusion is negative, and another one that needs it
    (
        "(A.R2 c1)",
        &[
            (1, "(A.R3 b0)", "(not (A.R3 b0))", "(A.R5 b0)"),
            (1, "(A.R2 b0)", "(A.R2 b0)", "(not (A.R3 b0))"),
        ],
        "(not (A.R3 c1)) (A.R5 c1)",
        "(A.R3 c1) (not (A.R5 c1))",
        false,
    ),
];

/// Arguments in two places, a clause that its own conclusion starts, and disjuncts that are contradictory.
pub const EIGHTH: [Problem; 5] = [
    // a clause of two variables, at two terms that are equal
    (
        "(A.R1 c1 c2) (A.R1 c1 c3) (= c2 c3)",
        &[(2, "(A.R1 b1 b0)", "(A.R1 b1 b0)", "(A.R2 b0)")],
        "(A.R2 c2) (A.R2 c3)",
        "(A.R2 c1)",
        false,
    ),
    // equal arguments in one place alone
    (
        "(A.R1 c1 c2) (= c3 c4) (all (A.R1 c3 c2)) (all (A.R1 c1 c4))",
        &[],
        "(A.R1 c1 c2)",
        "(A.R1 c3 c2) (A.R1 c1 c4) (= c1 c2)",
        false,
    ),
    // a rule that its own conclusion would start
    (
        "(A.R2 c1) (= (A.O1 c1) c1)",
        &[(1, "(A.R2 b0)", "(A.R2 b0)", "(A.R2 (A.O1 b0))")],
        "(A.R2 (A.O1 c1))",
        "(not (A.R2 c1)) (A.R2 c0)",
        false,
    ),
    // contradictory by two clauses
    (
        "(A.R2 c1)",
        &[
            (1, "(A.R2 b0)", "(A.R2 b0)", "(A.R3 b0)"),
            (1, "(A.R3 b0)", "(A.R3 b0)", "(not (A.R2 b0))"),
        ],
        "(A.R3 c1) (A.R2 c1) (not (A.R2 c1))",
        "(not (A.R3 c1))",
        true,
    ),
    // contradictory under functors
    (
        "(not (= (A.O1 c1) (A.O1 c2))) (= c1 c2)",
        &[],
        "(= (A.O1 c1) (A.O1 c2)) (not (= (A.O1 c1) (A.O1 c2)))",
        "(not (= c1 c2))",
        true,
    ),
];
