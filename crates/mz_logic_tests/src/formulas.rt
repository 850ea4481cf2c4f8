//! Tables of texts, bodies, substitutions, instances and comparisons.
use mz_logic::beyond::Beyond;
use mz_logic::bodies::is_body_at;
use mz_logic::capped::{capped_product, capped_sum};
use mz_logic::conjunction::{implies, join};
use mz_logic::disjuncts::Disjuncts;
use mz_logic::formula::Formula;
use mz_logic::instance_check::is_instance;
use mz_logic::instances::instance;
use mz_logic::kind::Kind;
use mz_logic::letters::Letters;
use mz_logic::negation::negated;
use mz_logic::order::{compare_literals, compare_terms};
use mz_logic::rule::Rule;
use mz_logic::sameness::same;
use mz_logic::set_laws::{FormulaProperty, connective_law, quantifier_law, set_law};
use mz_logic::shift::shift_formula;
use mz_logic::substitution::{body_at, substitute_formula};
use mz_logic::sym::Sym;
use mz_logic::term::{Term, Terms};
use mz_logic::texts::{formula_text, term_text};
use mz_samples::forms::{formula, formulas, term, terms};
use mz_samples::parts::{disjunct, letters, literals, sequent};
use std::alloc::Global;
use std::process::Abort;

/// A symbol of the article `A`.
fn sym(kind: Kind, number: u32) -> Sym {
    Sym {
        article: 0x4100_0000_0000_0000,
        kind,
        number,
    }
}

/// The formula of a text.
fn read(rt: &impl Abort, alloc: Global, text: &str) -> Formula {
    formula(alloc, text).expect(rt, "a formula")
}

fn reads(rt: &impl Abort, alloc: Global, f: &Formula, text: &str) -> bool {
    formula_text(alloc, f).expect(rt, "memory").as_slice() == text.as_bytes()
}

/// `(A.R1 bI bJ)`.
fn related(rt: &impl Abort, alloc: Global, i: u32, j: u32) -> Formula {
    let mut args = Terms::new(alloc);
    args.push(Term::bound(i)).expect(rt, "memory");
    args.push(Term::bound(j)).expect(rt, "memory");
    Formula::atom(sym(Kind::Predicate, 1), args)
}

/// `(= c10 (A.O12 b0))`.
fn equation(rt: &impl Abort, alloc: Global) -> Formula {
    let mut args = Terms::new(alloc);
    args.push(Term::bound(0)).expect(rt, "memory");
    let inner = Term::apply(sym(Kind::Functor, 12), args);
    Formula::equation(Term::constant(10), inner)
}

#[test]
fn texts_of_formulas(rt: HostRuntime) {
    let alloc = rt.alloc();
    let f = Formula::not(alloc, related(&rt, alloc, 0, 1)).expect(&rt, "memory");
    let f = Formula::and(alloc, equation(&rt, alloc), f).expect(&rt, "memory");
    let f = Formula::and(alloc, f, Formula::truth()).expect(&rt, "memory");
    let f = Formula::all(alloc, f).expect(&rt, "memory");
    let text = "(all (and (and (= c10 (A.O12 b0)) (not (A.R1 b0 b1))) true))";
    assert!(rt; reads(&rt, alloc, &f, text));
}

#[test]
fn texts_of_symbols(rt: HostRuntime) {
    let alloc = rt.alloc();
    let rows = [
        (Kind::Structure, "A.G1"),
        (Kind::Attribute, "A.V1"),
        (Kind::Selector, "A.U1"),
        (Kind::Aggregate, "A.A1"),
        (Kind::LetterFunctor, "A.F1"),
        (Kind::LetterPredicate, "A.P1"),
    ];
    for (kind, text) in rows {
        let t = Term::apply(sym(kind, 1), Terms::new(alloc));
        assert!(rt; term_text(alloc, &t).expect(&rt, "memory").as_slice() == text.as_bytes());
    }
    let hidden = Sym {
        article: 0x4849_4444_454e_0000,
        kind: Kind::Mode,
        number: 4_294_967_295,
    };
    let f = Formula::atom(hidden, Terms::new(alloc));
    assert!(rt; reads(&rt, alloc, &f, "HIDDEN.M4294967295"));
}

/// Whether the body at the term is the formula of this text, by both calls.
fn is_body(rt: &impl Abort, alloc: Global, body: &Formula, t: &Term, text: &str) -> bool {
    let f = body_at(alloc, body, t).expect(rt, "memory");
    reads(rt, alloc, &f, text) && is_body_at(&f, body, t)
}

/// At each depth the body's own index is replaced, that of a binder outside is lowered, that of a binder
/// inside stays; an open term is shifted by the binders that it comes under.
#[test]
fn bodies_at_terms(rt: HostRuntime) {
    let alloc = rt.alloc();
    let body = read(&rt, alloc, "(and (all (A.R1 b0 b1)) (A.R1 b0 b3))");
    let rows = [
        ("c7", "(and (all (A.R1 b0 c7)) (A.R1 c7 b2))"),
        ("b4", "(and (all (A.R1 b0 b5)) (A.R1 b4 b2))"),
    ];
    for (t, text) in rows {
        let t = term(alloc, t).expect(&rt, "a term");
        assert!(rt; is_body(&rt, alloc, &body, &t, text));
    }
    let f = body_at(alloc, &body, &Term::bound(4)).expect(&rt, "memory");
    assert!(rt; !is_body_at(&f, &body, &Term::constant(7)));
}

/// Two values, for the indices 2 and 3 under two binders, and an index beyond them.
#[test]
fn substitutions_under_binders(rt: HostRuntime) {
    let alloc = rt.alloc();
    let values = terms(alloc, "c5 b0").expect(&rt, "terms");
    let f = read(&rt, alloc, "(all (all (and (A.R1 b1 b2) (A.R1 b3 b4))))");
    let rows = [
        (
            Beyond::Lowered,
            "(all (all (and (A.R1 b1 c5) (A.R1 b2 b2))))",
        ),
        (Beyond::Kept, "(all (all (and (A.R1 b1 c5) (A.R1 b2 b4))))"),
        (Beyond::Zero, "(all (all (and (A.R1 b1 c5) (A.R1 b2 c0))))"),
    ];
    for (beyond, text) in rows {
        let g = substitute_formula(alloc, &f, 0, &values, beyond).expect(&rt, "memory");
        assert!(rt; reads(&rt, alloc, &g, text));
    }
}

#[test]
fn shift_from_a_cutoff(rt: HostRuntime) {
    let alloc = rt.alloc();
    let f = read(&rt, alloc, "(all (all (and (A.R1 b1 b2) (A.R1 b3 b4))))");
    let g = shift_formula(alloc, &f, 1, 3).expect(&rt, "memory");
    let text = "(all (all (and (A.R1 b1 b2) (A.R1 b6 b7))))";
    assert!(rt; reads(&rt, alloc, &g, text));
}

/// The letter `A.P1` stands for `for x holds x is related to the first argument`, the letter `A.F1` for
/// the constant 2, and `A.R2`, which is no letter, has an entry that counts for nothing.
fn three_letters(rt: &impl Abort, alloc: Global) -> Letters {
    let text = "A.P1 (all (A.R1 b0 b1))\nA.F1 c2\nA.R2 true";
    letters(alloc, text).expect(rt, "letters")
}

/// Whether the formula's instance is the formula of this text, by both calls.
fn has_instance(
    rt: &impl Abort,
    alloc: Global,
    f: &Formula,
    letters: &Letters,
    text: &str,
) -> bool {
    let g = instance(alloc, f, letters).expect(rt, "memory");
    reads(rt, alloc, &g, text) && is_instance(f, letters, &g)
}

#[test]
fn instances_of_letters(rt: HostRuntime) {
    let alloc = rt.alloc();
    let letters = three_letters(&rt, alloc);
    let rows = [
        ("(all (A.P1 b0))", "(all (all (A.R1 b0 b1)))"),
        ("(A.P1 A.F1)", "(all (A.R1 b0 c2))"),
        ("A.P1", "(all (A.R1 b0 c0))"),
        ("A.R2", "A.R2"),
    ];
    for (f, text) in rows {
        let f = read(&rt, alloc, f);
        assert!(rt; has_instance(&rt, alloc, &f, &letters, text), "{text}");
    }
}

/// Regrouped conjunctions and dropped double negations are the same, other formulas are not.
#[test]
fn formulas_that_are_the_same(rt: HostRuntime) {
    let alloc = rt.alloc();
    let rows = [
        (
            "(and (and A.R1 A.R2) A.R3)",
            "(and A.R1 (not (not (and A.R2 A.R3))))",
            true,
        ),
        (
            "(not (and (and A.R1 A.R2) A.R3))",
            "(not (and A.R1 (not (not (and A.R2 A.R3)))))",
            true,
        ),
        ("(and A.R1 A.R2)", "(and A.R2 A.R1)", false),
    ];
    for (f, g, wanted) in rows {
        let f = read(&rt, alloc, f);
        let g = read(&rt, alloc, g);
        assert!(rt; same(&f, &g) == wanted && !f.equals(&g));
    }
}

/// Negations without double ones, a conjunction of three, and an implication.
#[test]
fn connectives(rt: HostRuntime) {
    let alloc = rt.alloc();
    let rows = [
        ("A.R1", "(not A.R1)"),
        ("(not A.R1)", "A.R1"),
        ("(and A.R1 A.R2)", "(not (and A.R1 A.R2))"),
    ];
    for (f, text) in rows {
        let f = negated(alloc, &read(&rt, alloc, f)).expect(&rt, "memory");
        assert!(rt; reads(&rt, alloc, &f, text), "{text}");
    }
    let parts = formulas(alloc, "A.R1 A.R2 A.R3").expect(&rt, "formulas");
    let f = join(alloc, &parts).expect(&rt, "memory");
    assert!(rt; reads(&rt, alloc, &f, "(and (and A.R1 A.R2) A.R3)"));
}

#[test]
fn an_implication(rt: HostRuntime) {
    let alloc = rt.alloc();
    let f = read(&rt, alloc, "(not A.R1)");
    let f = implies(alloc, f, read(&rt, alloc, "A.R2")).expect(&rt, "memory");
    assert!(rt; reads(&rt, alloc, &f, "(not (and (not A.R1) (not A.R2)))"));
}

/// In ascending order: indices, constants, and then applications by their symbols and arguments, from the left.
fn ascending_terms(rt: &impl Abort, alloc: Global) -> Terms {
    let mut ts = terms(alloc, "b3 b4 c0").expect(rt, "terms");
    ts.push(Term::apply(sym(Kind::Structure, 9), Terms::new(alloc)))
        .expect(rt, "memory");
    let text = "(A.O1 c9) A.O2 (A.O2 c1) (A.O2 c1 b0) (A.O2 c2)";
    for t in terms(alloc, text).expect(rt, "terms").into_items() {
        ts.push(t).expect(rt, "memory");
    }
    ts
}

#[test]
fn terms_in_order(rt: HostRuntime) {
    let ascending = ascending_terms(&rt, rt.alloc());
    assert!(rt; ascending.len() == 9);
    for (i, t) in ascending.items.iter().enumerate() {
        for (j, u) in ascending.items.iter().enumerate() {
            assert!(rt; compare_terms(t, u) == i.cmp(&j));
        }
    }
}

/// The list stands in ascending order.
#[test]
fn literals_in_order(rt: HostRuntime) {
    let text = "(not (A.R1 c1)) A.R1 (= c1 c2) (= c1 c3)";
    let ascending = literals(rt.alloc(), text).expect(&rt, "literals");
    assert!(rt; ascending.len() == 4);
    for (i, l) in ascending.items.iter().enumerate() {
        for (j, m) in ascending.items.iter().enumerate() {
            assert!(rt; compare_literals(l, m) == i.cmp(&j));
        }
    }
}

#[test]
fn capped_counts(rt: HostRuntime) {
    let most = 1_000_000_000;
    let rows = [
        (2, 3, 5, 6),
        (most, 0, most, 0),
        (40_000, 40_000, 80_000, most),
        (u64::MAX, u64::MAX, most, most),
    ];
    for (m, n, sum, product) in rows {
        assert!(rt; (capped_sum(m, n), capped_product(m, n)) == (sum, product));
    }
}

#[test]
fn copies_of_sequents_and_rules(rt: HostRuntime) {
    let alloc = rt.alloc();
    let s = sequent(alloc, "(not (= c1 c2)) |- true").expect(&rt, "a sequent");
    assert!(rt; s.copy(alloc).expect(&rt, "memory").equals(&s));
    let rule = Rule::Instance(three_letters(&rt, alloc));
    let copied = rule.copy(alloc).expect(&rt, "memory");
    assert!(rt; matches!(copied, Rule::Instance(_)));
}

#[test]
fn copies_of_disjuncts(rt: HostRuntime) {
    let alloc = rt.alloc();
    let mut disjuncts = Disjuncts::new(alloc);
    let d = disjunct(alloc, "(not (= c1 c2)) (all (= b0 b0))").expect(&rt, "a disjunct");
    disjuncts.push(d).expect(&rt, "memory");
    let copied = disjuncts.copy(alloc).expect(&rt, "memory");
    assert!(rt; copied.items.len() == 1);
    let (before, after) = (&disjuncts.items[0], &copied.items[0]);
    assert!(rt; after.literals.len() == 1 && after.universals.len() == 1);
    assert!(rt; after.literals.get(0).equals(before.literals.get(0)));
}

/// Every formula.
struct Every;

impl FormulaProperty for Every {
    ghost holds = { λ f. Unit {0} };
}

#[test]
fn laws_of_properties(rt: HostRuntime) {
    set_law::<Every, Every, Every, Every>();
    connective_law::<Every, Every>();
    quantifier_law::<Every, Every>();
    assert!(rt; true);
}
