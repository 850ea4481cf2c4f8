//! Statements with terms for their indices, their conjuncts, and what is in force.
use crate::answers::put_formula;
use crate::reading::parts::{soft_type, statement};
use mz_core::abstraction::statement_over;
use mz_core::erasure::erase;
use mz_core::guard::guard;
use mz_core::in_force::{statement_in_force, type_in_force};
use mz_core::parts::{conjunction, parts};
use mz_core::statement::Statement;
use mz_core::statements::Statements;
use mz_core::type_substitution::statement_at;
use mz_logic::formula::Formula;
use mz_logic::term::Term;
use std::alloc::Global;
use std::mem::forget;
use std::process::Abort;

fn is_formula(rt: &impl Abort, alloc: Global, f: &Formula, wanted: &str) -> bool {
    let mut text = Vec::new(alloc);
    put_formula(rt, alloc, &mut text, f);
    text.as_slice() == wanted.as_bytes()
}

/// Whether the statement is the formula of this text.
fn is_text(rt: &impl Abort, alloc: Global, s: &Statement, wanted: &str) -> bool {
    let f = erase(alloc, s).expect(rt, "memory");
    let same = is_formula(rt, alloc, &f, wanted);
    forget(f);
    same
}

/// `for x being M1 of b0 holds R1[x, b1, b2]`, under two more binders.
#[test]
fn the_body_of_a_quantifier_at_a_term(rt: HostRuntime) {
    let s = statement(&rt, rt.alloc(), "(all (A.R1 b0 b1 b2)) over (A.M1 b0)");
    let s = statement_at(rt.alloc(), &s, &Term::constant(7)).expect(&rt, "memory");
    let text = "(all (not (and (A.M1 c7 b0) (not (A.R1 b0 c7 b1)))))";
    assert!(rt; is_text(&rt, rt.alloc(), &s, text));
    forget(s);
}

#[test]
fn a_constant_made_an_index(rt: HostRuntime) {
    let before = statement(&rt, rt.alloc(), "(A.R1 c5 c2)");
    let s = statement_over(rt.alloc(), &before, 5, 0).expect(&rt, "memory");
    assert!(rt; is_text(&rt, rt.alloc(), &s, "(A.R1 b0 c2)"));
    let behind = statement_at(rt.alloc(), &s, &Term::constant(5)).expect(&rt, "memory");
    assert!(rt; behind.equals(&before));
    forget(before);
    forget(s);
    forget(behind);
}

#[test]
fn conjuncts_from_left_to_right(rt: HostRuntime) {
    let mut ss = Statements::new(rt.alloc());
    for text in ["A.R1", "A.R2", "A.R3"] {
        let s = statement(&rt, rt.alloc(), text);
        ss.push(s).expect(&rt, "memory");
    }
    let s = conjunction(rt.alloc(), &ss).expect(&rt, "memory");
    assert!(rt; is_text(&rt, rt.alloc(), &s, "(and (and A.R1 A.R2) A.R3)"));
    let found = parts(rt.alloc(), &s).expect(&rt, "memory");
    assert!(rt; found.equals(&ss));
    forget(ss);
    forget(s);
    forget(found);
}

#[test]
fn constants_in_force(rt: HostRuntime) {
    let s = statement(&rt, rt.alloc(), "(A.R1 c5 c2)");
    assert!(rt; statement_in_force(&s, 6));
    assert!(rt; !statement_in_force(&s, 5));
    forget(s);
}

/// `non V1 M1`: the radix first, then the adjective with its sign.
#[test]
fn the_guard_of_a_type(rt: HostRuntime) {
    let ty = soft_type(&rt, rt.alloc(), "A.M1 with (not A.V1)");
    assert!(rt; type_in_force(&ty, 0));
    let fs = guard(rt.alloc(), &ty, &Term::constant(3)).expect(&rt, "memory");
    let texts = ["(A.M1 c3)", "(not (A.V1 c3))"];
    assert!(rt; fs.items.len() == 2);
    for (f, text) in fs.items.iter().zip(texts) {
        assert!(rt; is_formula(&rt, rt.alloc(), f, text));
    }
    forget(ty);
    forget(fs);
}
