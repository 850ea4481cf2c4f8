//! Numberings worked out by hand.
use crate::numbering::numbering_of;
use mz_ground::clause::Clause;
use mz_ground::clauses::Clauses;
use mz_ground::ground::ground;
use mz_ground::trigger::Trigger;
use mz_logic::disjunct::Disjunct;
use mz_logic::formulas::Formulas;
use mz_logic::kind::Kind;
use mz_logic::literal::Literal;
use mz_logic::literals::Literals;
use mz_logic::sym::Sym;
use mz_logic::term::{Term, Terms};
use std::alloc::Global;
use std::process::Abort;

fn sym(kind: Kind, number: u32) -> Sym {
    Sym {
        article: 0,
        kind,
        number,
    }
}

fn applied(rt: &impl Abort, alloc: Global, t: Term) -> Term {
    let mut args = Terms::new(alloc);
    args.push(t).expect(rt, "memory");
    Term::apply(sym(Kind::Functor, 0), args)
}

fn atom(rt: &impl Abort, alloc: Global, number: u32, t: Term) -> Literal {
    let mut args = Terms::new(alloc);
    args.push(t).expect(rt, "memory");
    Literal::Atom {
        positive: true,
        sym: sym(Kind::Predicate, number),
        args,
    }
}

/// The atoms P1[f(3)], P1[1] and P0[2], and a clause by which P1[x] gives P0[x]: the terms c0, c3, f(3), c1 and c2
/// stand at the places 0 to 4, the atoms in this order, and then P0[f(3)] and P0[1].
#[test]
fn places_by_numbers(rt: HostRuntime) {
    let alloc = rt.alloc();
    let mut literals = Literals::new(alloc);
    let deep = applied(&rt, alloc, Term::constant(3));
    literals
        .push(atom(&rt, alloc, 1, deep))
        .expect(&rt, "memory");
    literals
        .push(atom(&rt, alloc, 1, Term::constant(1)))
        .expect(&rt, "memory");
    literals
        .push(atom(&rt, alloc, 0, Term::constant(2)))
        .expect(&rt, "memory");
    let d = Disjunct {
        literals,
        universals: Formulas::new(alloc),
    };
    let mut args = Terms::new(alloc);
    args.push(Term::bound(0)).expect(&rt, "memory");
    let trigger = Trigger::Atom(sym(Kind::Predicate, 1), args);
    let conclusion = atom(&rt, alloc, 0, Term::bound(0));
    let clause = Clause::new(1, trigger, Literals::new(alloc), conclusion);
    let mut clauses = Clauses::new(alloc);
    let clause = clause.expect(&rt, "its variable is in the trigger");
    clauses.push(clause).expect(&rt, "memory");
    let g = ground(alloc, &d, clauses.as_slice()).expect(&rt, "a ground part");
    let numbers = numbering_of(alloc, &g).expect(&rt, "memory");
    assert!(&rt; numbers.terms.as_slice() == [0usize, 3, 4, 1, 2].as_slice());
    assert!(&rt; numbers.atoms.as_slice() == [2usize, 1, 0, 4, 3].as_slice());
}
