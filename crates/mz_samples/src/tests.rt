//! Texts that are read, and texts that aren't.
use crate::fault::SampleFault;
use crate::forms::{formula, term};
use crate::parts::{disjunct, letters, sequent};
use mz_logic::texts::{formula_text, term_text};

/// What is read is printed as it was written.
#[test]
fn texts_are_those_that_are_printed(rt: HostRuntime) {
    let alloc = rt.alloc();
    let texts = [
        "true",
        "A.R1",
        "(= c10 (A.O12 b0 c1))",
        "(all (and (not (HIDDEN.M2 b0)) (TARSKI_0.R1 b0 (AB.U3 b1))))",
        "(A.P1 A.F1)",
    ];
    for text in texts {
        let f = formula(alloc, text).expect(&rt, text);
        let printed = formula_text(alloc, &f).expect(&rt, "memory");
        assert!(rt; printed.as_slice() == text.as_bytes(), "{text}");
    }
    let t = term(alloc, "(A.A1 c1 (A.O2 b3))").expect(&rt, "a term");
    let printed = term_text(alloc, &t).expect(&rt, "memory");
    assert!(rt; printed.as_slice() == b"(A.A1 c1 (A.O2 b3))".as_slice());
}

#[test]
fn abbreviations_are_written_out(rt: HostRuntime) {
    let alloc = rt.alloc();
    let rows = [
        ("(or A.R1 A.R2)", "(not (and (not A.R1) (not A.R2)))"),
        ("(implies A.R1 A.R2)", "(not (and A.R1 (not A.R2)))"),
    ];
    for (text, wanted) in rows {
        let f = formula(alloc, text).expect(&rt, text);
        let printed = formula_text(alloc, &f).expect(&rt, "memory");
        assert!(rt; printed.as_slice() == wanted.as_bytes(), "{text}");
    }
}

#[test]
fn other_texts_are_refused(rt: HostRuntime) {
    let texts = [
        "",
        "c1",
        "(A.R1 c1",
        "A.R1)",
        "((A.R1 c1))",
        "(= c1)",
        "(not c1)",
        "(and A.R1)",
        "(A.O1 c1)",
        "A.X1",
        "A.R",
        "A.R1 A.R2",
        "(ABCDEFGHI.R1)",
    ];
    for text in texts {
        let refused = matches!(formula(rt.alloc(), text), Err(SampleFault::Text));
        assert!(rt; refused, "{text}");
    }
}

#[test]
fn parts_of_a_text(rt: HostRuntime) {
    let alloc = rt.alloc();
    let d = disjunct(alloc, "A.R1 (not (= c1 c2)) (all (A.R1 b0)) (A.R2 c1)").expect(&rt, "");
    assert!(rt; (d.literals.len(), d.universals.len()) == (3, 1));
    let s = sequent(alloc, "A.R1, (A.R2 c1) |- (= c1 c1)").expect(&rt, "a sequent");
    assert!(rt; s.premises.len() == 2);
    let ls = letters(alloc, "A.P1 (all (A.R1 b0 b1))\nA.F1 c2").expect(&rt, "letters");
    assert!(rt; ls.items.len() == 2);
}
