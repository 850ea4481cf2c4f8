//! Ground parts worked out by hand.
use mz_ground::clause::Clause;
use mz_ground::clauses::Clauses;
use mz_ground::ground::ground;
use mz_ground::ground_atom::GroundAtom;
use mz_ground::ground_fault::GroundFault;
use mz_ground::ground_part::Ground;
use mz_ground::ground_term::GroundTerm;
use mz_ground::places::Places;
use mz_item_samples::types::{ClauseRow, clauses, trigger};
use mz_logic::disjunct::Disjunct;
use mz_logic::formulas::Formulas;
use mz_logic::literal::Literal;
use mz_logic::literals::Literals;
use mz_logic::sym::Sym;
use mz_logic::term::{Term, Terms};
use mz_samples::parts::{disjunct, literal};
use mz_samples::symbols::symbol;
use std::alloc::Global;
use std::mem::forget;
use std::process::Abort;

fn sym(rt: &impl Abort, word: &str) -> Sym {
    symbol(word).expect(rt, "a symbol")
}

fn disjunct_of(rt: &impl Abort, alloc: Global, text: &str) -> Disjunct {
    disjunct(alloc, text).expect(rt, "a disjunct")
}

/// The ground part of the disjunct under the clauses.
fn ground_of(rt: &impl Abort, alloc: Global, text: &str, cs: &[ClauseRow]) -> Ground {
    let d = disjunct_of(rt, alloc, text);
    let cs = clauses(alloc, cs).expect(rt, "clauses");
    let g = ground(alloc, &d, cs.as_slice()).expect(rt, "a ground part");
    forget(d);
    forget(cs);
    g
}

/// Whether the layers end at these numbers of terms, atoms and equations.
fn ends_are(g: &Ground, wanted: &[(usize, usize, usize)]) -> bool {
    if g.ends.len() != wanted.len() {
        return false;
    }
    for i in 0..wanted.len() {
        let end = g.ends.items[i];
        if (end.terms, end.atoms, end.equations) != wanted[i] {
            return false;
        }
    }
    true
}

/// The place of the constant 7, or of the functor's value there.
fn place(rt: &impl Abort, alloc: Global, g: &Ground, of_value: bool) -> Option<usize> {
    let Some(constant) = g.terms.find(&GroundTerm::Const(7)) else {
        return None;
    };
    if !of_value {
        return Some(constant);
    }
    let mut args = Places::new(alloc);
    args.push(constant).expect(rt, "memory");
    let applied = GroundTerm::App {
        sym: sym(rt, "A.O1"),
        args,
    };
    g.terms.find(&applied)
}

/// The first layer that has the mode or attribute of the constant 7, or of the functor's value there.
fn layer(rt: &impl Abort, alloc: Global, g: &Ground, word: &str, of_value: bool) -> Option<usize> {
    let Some(term) = place(rt, alloc, g, of_value) else {
        return None;
    };
    let mut args = Places::new(alloc);
    args.push(term).expect(rt, "memory");
    let atom = GroundAtom {
        sym: sym(rt, word),
        args,
    };
    let Some(found) = g.atoms.find(&atom) else {
        return None;
    };
    for i in 0..g.ends.items.len() {
        if found < g.ends.items[i].atoms {
            return Some(i);
        }
    }
    None
}

/// `four` is denied of the functor's value at a constant of the mode.
const DENIED: &str = "(A.M1 c7) (not (A.V4 (A.O1 c7)))";

/// The values have the mode and are `one`, and of the mode each `one` is `two`, each `two` is `three`, each `three` is
/// `four`.
const REGISTRATIONS: [ClauseRow; 5] = [
    (1, "(A.O1 b0)", "(A.M1 b0)", "(A.M1 (A.O1 b0))"),
    (1, "(A.M1 b0)", "(A.M1 b0) (A.V1 b0)", "(A.V2 b0)"),
    (1, "(A.M1 b0)", "(A.M1 b0) (A.V2 b0)", "(A.V3 b0)"),
    (1, "(A.M1 b0)", "(A.M1 b0) (A.V3 b0)", "(A.V4 b0)"),
    (1, "(A.O1 b0)", "(A.M1 b0)", "(A.V1 (A.O1 b0))"),
];

/// The attribute or the mode, whether of the functor's value, and the first layer that has it.
const ATOMS: [(&str, bool, usize); 10] = [
    ("A.M1", false, 0),
    ("A.V4", true, 0),
    ("A.M1", true, 1),
    ("A.V1", false, 1),
    ("A.V2", false, 1),
    ("A.V3", false, 1),
    ("A.V4", false, 1),
    ("A.V1", true, 1),
    ("A.V2", true, 2),
    ("A.V3", true, 2),
];

const ENDS: [(usize, usize, usize); 5] = [(3, 2, 0), (3, 8, 0), (3, 10, 0), (3, 10, 0), (3, 10, 0)];

/// The functor's value has the mode in the second layer, and thus its clusters are in the third.
#[test]
fn registrations_layer_by_layer(rt: HostRuntime) {
    let alloc = rt.alloc();
    let cs = clauses(alloc, &REGISTRATIONS).expect(&rt, "clauses");
    assert!(rt; cs.copy(alloc).expect(&rt, "memory").len() == 5);
    forget(cs);
    let g = ground_of(&rt, alloc, DENIED, &REGISTRATIONS);
    assert!(rt; ends_are(&g, &ENDS));
    assert!(rt; ends_are(&g.copy(alloc).expect(&rt, "memory"), &ENDS));
    for (word, of_value, first) in ATOMS {
        assert!(rt;
            layer(&rt, alloc, &g, word, of_value) == Some(first),
            "{word} {of_value}"
        );
    }
    forget(g);
}

/// A disjunct, clauses, and the numbers of terms, atoms and equations where each layer ends.
type Row = (
    &'static str,
    &'static [ClauseRow],
    [(usize, usize, usize); 5],
);

const ROWS: [Row; 2] = [
    // what has no index in a universal and in an equation stands in the first layer
    (
        "(not (= c3 c4)) (all (and (= b0 (A.O1 c3)) (not (A.V1 c2))))",
        &[],
        [(5, 1, 1), (5, 1, 1), (5, 1, 1), (5, 1, 1), (5, 1, 1)],
    ),
    // a variable that stands twice in a trigger stands for one term
    (
        "(A.M1 c2) (A.R2 c1 c2) (A.R2 c2 c2)",
        &[(1, "(A.R2 b0 b0)", "", "(A.V1 b0)")],
        [(3, 3, 0), (3, 4, 0), (3, 4, 0), (3, 4, 0), (3, 4, 0)],
    ),
];

#[test]
fn ends_of_layers(rt: HostRuntime) {
    for (text, cs, wanted) in &ROWS {
        let g = ground_of(&rt, rt.alloc(), text, cs);
        let same = ends_are(&g, wanted);
        forget(g);
        assert!(rt; same, "at {text}");
    }
}

/// An atom of the symbol, with the arguments.
fn atom(rt: &impl Abort, word: &str, args: Terms) -> Literal {
    Literal::Atom {
        positive: true,
        sym: sym(rt, word),
        args,
    }
}

/// An atom of so many different constants, from 1 on.
fn constants(rt: &impl Abort, alloc: Global, count: u32) -> Disjunct {
    let mut args = Terms::new(alloc);
    for number in 0..count {
        args.push(Term::constant(number + 1)).expect(rt, "memory");
    }
    let mut d = disjunct_of(rt, alloc, "");
    d.literals.push(atom(rt, "A.R1", args)).expect(rt, "memory");
    d
}

/// With the constant 0 there are 4,096 terms.
#[test]
fn as_many_terms_as_the_limit(rt: HostRuntime) {
    let alloc = rt.alloc();
    let d = constants(&rt, alloc, 4095);
    let g = ground(alloc, &d, &[]).expect(&rt, "memory");
    forget(d);
    assert!(rt; g.terms.len() == 4096 && g.atoms.len() == 1);
    forget(g);
}

/// With the constant 0 there are 4,097 terms.
#[test]
fn one_term_more_than_the_limit(rt: HostRuntime) {
    let alloc = rt.alloc();
    let d = constants(&rt, alloc, 4096);
    let refused = ground(alloc, &d, &[]);
    forget(d);
    assert!(rt; matches!(refused, Err(GroundFault::TooManyTerms)));
}

/// An atom of two constants.
fn pair(rt: &impl Abort, alloc: Global, left: u32, right: u32) -> Literal {
    let mut args = Terms::new(alloc);
    args.push(Term::constant(left)).expect(rt, "memory");
    args.push(Term::constant(right)).expect(rt, "memory");
    atom(rt, "A.R2", args)
}

/// An atom for each pair of so many constants.
fn pairs(rt: &impl Abort, alloc: Global, count: u32) -> Disjunct {
    let mut literals = Literals::new(alloc);
    for left in 0..count {
        for right in 0..count {
            literals
                .push(pair(rt, alloc, left, right))
                .expect(rt, "memory");
        }
    }
    Disjunct {
        literals,
        universals: Formulas::new(alloc),
    }
}

/// There are 16,384 atoms, and one more where the last one isn't among them.
#[test]
fn atoms_at_the_limit(rt: HostRuntime) {
    let alloc = rt.alloc();
    let mut d = pairs(&rt, alloc, 128);
    let g = ground(alloc, &d, &[]).expect(&rt, "memory");
    assert!(rt; g.terms.len() == 128 && g.atoms.len() == 16384);
    forget(g);
    let another = literal(alloc, "(A.V1 c0)").expect(&rt, "a literal");
    d.literals.push(another).expect(&rt, "memory");
    let refused = ground(alloc, &d, &[]);
    forget(d);
    assert!(rt; matches!(refused, Err(GroundFault::TooManyAtoms)));
}

/// A clause whose conclusion has so many arguments, each the variable.
fn wide(rt: &impl Abort, alloc: Global, count: u32) -> Clause {
    let mut args = Terms::new(alloc);
    for _number in 0..count {
        args.push(Term::bound(0)).expect(rt, "memory");
    }
    let head = trigger(alloc, "(A.M1 b0)").expect(rt, "a trigger");
    let conclusion = atom(rt, "A.R1", args);
    Clause::new(1, head, Literals::new(alloc), conclusion).expect(
        rt,
        "the trigger has the variable",
    )
}

/// An instance of 4,097 nodes is left out, one of 4,096 is added.
#[test]
fn nodes_of_an_instance_at_the_limit(rt: HostRuntime) {
    let alloc = rt.alloc();
    let d = disjunct_of(&rt, alloc, "(A.M1 c1)");
    let mut cs = Clauses::new(alloc);
    cs.push(wide(&rt, alloc, 4096)).expect(&rt, "memory");
    let g = ground(alloc, &d, cs.as_slice()).expect(&rt, "memory");
    assert!(rt; ends_are(&g, &[(2, 1, 0), (2, 1, 0), (2, 1, 0), (2, 1, 0), (2, 1, 0)]));
    cs.push(wide(&rt, alloc, 4095)).expect(&rt, "memory");
    let g = ground(alloc, &d, cs.as_slice()).expect(&rt, "memory");
    assert!(rt; ends_are(&g, &[(2, 1, 0), (2, 2, 0), (2, 2, 0), (2, 2, 0), (2, 2, 0)]));
}

/// A trigger without a variable makes no clause.
#[test]
fn a_missing_variable(rt: HostRuntime) {
    let alloc = rt.alloc();
    let head = trigger(alloc, "(A.M1 b1)").expect(&rt, "a trigger");
    let conclusion = literal(alloc, "(A.V1 b0)").expect(&rt, "a literal");
    let c = Clause::new(2, head, Literals::new(alloc), conclusion);
    assert!(rt; c.is_none());
}
