//! Questions with their answers, worked out by hand from the rules. What a question is done with is forgotten, not
//! dropped.
use mz_answers::answers::Answers;
use mz_answers::kept::type_fits_kept;
use mz_context::constants::Constants;
use mz_context::gather::gathered;
use mz_core::soft_type::SoftType;
use mz_core::soft_types::SoftTypes;
use mz_fits::fits::{are_equal, literal_fits, loci_fit, type_fits};
use mz_fits::fixed::Fixed;
use mz_fits::matches::{accepted, all_match};
use mz_ground::clauses::Clauses;
use mz_item_samples::types::{ClauseRow, ConstantRow, SET, TypeRow, clauses, constants, ty, types};
use mz_logic::literal::Literal;
use mz_logic::term::{Term, Terms};
use mz_samples::forms::{term, terms};
use mz_samples::parts::{literal, literals};
use std::alloc::Global;
use std::mem::forget;
use std::process::Abort;

const OF_MODE: ConstantRow = (("A.M1", ""), "");

fn in_force(rt: &impl Abort, alloc: Global, ks: &[ConstantRow]) -> Constants {
    constants(alloc, ks).expect(rt, "constants")
}

fn clauses_of(rt: &impl Abort, alloc: Global, cs: &[ClauseRow]) -> Clauses {
    clauses(alloc, cs).expect(rt, "clauses")
}

fn literal_of(rt: &impl Abort, alloc: Global, text: &str) -> Literal {
    literal(alloc, text).expect(rt, "a literal")
}

fn term_of(rt: &impl Abort, alloc: Global, text: &str) -> Term {
    term(alloc, text).expect(rt, "a term")
}

fn terms_of(rt: &impl Abort, alloc: Global, text: &str) -> Terms {
    terms(alloc, text).expect(rt, "terms")
}

fn type_of(rt: &impl Abort, alloc: Global, t: TypeRow) -> SoftType {
    ty(alloc, t).expect(rt, "a type")
}

fn loci_of(rt: &impl Abort, alloc: Global, ts: &[TypeRow]) -> SoftTypes {
    types(alloc, ts).expect(rt, "types")
}

fn are_same(ls: &[Literal], ms: &[Literal]) -> bool {
    let mut same = ls.len() == ms.len();
    for k in 0..ls.len().min(ms.len()) {
        same = same && ls[k].equals(&ms[k]);
    }
    same
}

const IN_ROUNDS: [ConstantRow; 5] = [
    OF_MODE,
    (SET, "(A.O1 c1)"),
    (("(A.M2 c2)", "(A.V1 c4), (not A.V2)"), ""),
    (("(A.M2 c4)", ""), ""),
    OF_MODE,
];

/// Just these literals are gathered of the literal's constants.
fn check_gathered(rt: &impl Abort, alloc: Global, text: &str, wanted: &str) {
    let ks = in_force(rt, alloc, &IN_ROUNDS);
    let l = literal_of(rt, alloc, text);
    let ls = gathered(alloc, &ks, &l).expect(rt, "memory");
    let wanted = literals(alloc, wanted).expect(rt, "literals");
    let same = are_same(ls.items.as_slice(), wanted.items.as_slice());
    forget(ks);
    forget(l);
    forget(ls);
    forget(wanted);
    assert!(rt; same, "{text}");
}

const GATHERED: [(&str, &str); 5] = [
    ("(A.V1 c1)", "(A.M1 c1)"),
    ("(A.V1 c2)", "(= c2 (A.O1 c1)) (A.M1 c1)"),
    (
        "(= c3 c5)",
        "(A.M2 c2 c3) (A.V1 c4 c3) (not (A.V2 c3)) (A.M1 c5) (= c2 (A.O1 c1)) (A.M2 c4 c4) (A.M1 c1)",
    ),
    ("(A.V1 c0)", ""),
    ("(A.V1 c6)", ""),
];

#[test]
fn what_is_known_is_gathered_in_rounds(rt: HostRuntime) {
    for (text, wanted) in &GATHERED {
        check_gathered(&rt, rt.alloc(), text, wanted);
    }
}

/// Whether the literal fits where the constants are in force, under the clauses.
fn fits_under(
    rt: &impl Abort,
    alloc: Global,
    ks: &[ConstantRow],
    cs: &[ClauseRow],
    text: &str,
) -> bool {
    let ks = in_force(rt, alloc, ks);
    let cs = clauses_of(rt, alloc, cs);
    let l = literal_of(rt, alloc, text);
    let fits = literal_fits(alloc, cs.as_slice(), &ks, &l).expect(rt, "memory");
    forget(ks);
    forget(cs);
    forget(l);
    fits
}

const FACTS_OF: [ConstantRow; 4] = [
    OF_MODE,
    (SET, "(A.O1 c1)"),
    (("A.M1", "A.V4, (not A.V5)"), ""),
    (SET, "c3"),
];

/// What is `one` is `two`, what is `two` is `three`, what is `three` is `four`; each value of the functor is `one`.
const ONE: ClauseRow = (1, "(A.V1 b0)", "(A.V1 b0)", "(A.V2 b0)");

const TWO: ClauseRow = (1, "(A.V2 b0)", "(A.V2 b0)", "(A.V3 b0)");

const THREE: ClauseRow = (1, "(A.V3 b0)", "(A.V3 b0)", "(A.V4 b0)");

const VALUE: ClauseRow = (1, "(A.O1 b0)", "", "(A.V1 (A.O1 b0))");

const FACTS: [(&[ClauseRow], &str, bool); 12] = [
    (&[], "(A.M1 c1)", true),
    (&[], "(A.V1 c1)", false),
    (&[], "(not (A.V1 c1))", false),
    (&[ONE, TWO, THREE, VALUE], "(A.V4 (A.O1 c1))", true),
    (&[VALUE, THREE, TWO, ONE], "(A.V4 (A.O1 c1))", true),
    (&[ONE, THREE, VALUE], "(A.V4 (A.O1 c1))", false),
    (&[ONE, TWO, THREE, VALUE], "(A.V4 c2)", true),
    (&[ONE, TWO, THREE], "(A.V4 c2)", false),
    (&[], "(A.V4 c4)", true),
    (&[], "(not (A.V5 c4))", true),
    (&[], "(= (A.O1 c4) (A.O1 c3))", true),
    (&[], "(A.V4 b0)", false),
];

fn check_fact(rt: &impl Abort, alloc: Global, cs: &[ClauseRow], text: &str, wanted: bool) {
    let fits = fits_under(rt, alloc, &FACTS_OF, cs, text);
    assert!(rt; fits == wanted, "{text}");
}

#[test]
fn a_literal_fits_where_it_is_among_the_facts(rt: HostRuntime) {
    for (cs, text, wanted) in &FACTS {
        check_fact(&rt, rt.alloc(), cs, text, *wanted);
    }
}

/// Each ground term is equal to its values at the functors.
const EQUAL_TO_VALUES: [ClauseRow; 7] = [
    (1, "b0", "", "(= (A.O1 b0) b0)"),
    (1, "b0", "", "(= (A.O2 b0) b0)"),
    (1, "b0", "", "(= (A.O3 b0) b0)"),
    (1, "b0", "", "(= (A.O4 b0) b0)"),
    (1, "b0", "", "(= (A.O5 b0) b0)"),
    (1, "b0", "", "(= (A.O6 b0) b0)"),
    (1, "b0", "", "(= (A.O7 b0) b0)"),
];

/// Whether what is known of a constant fits beside the values at so many functors.
fn check_beside(rt: &impl Abort, alloc: Global, functors: usize, wanted: bool) {
    let cs = &EQUAL_TO_VALUES[..functors.min(7)];
    let fits = fits_under(rt, alloc, &[OF_MODE], cs, "(A.M1 c1)");
    assert!(rt; fits == wanted, "{functors}");
}

/// The constants 0 and 1 have so many values each in the next layer, and each of these again, four times: with seven
/// functors 5,602 terms, with six 3,110, and 4,096 are the most.
#[test]
fn beyond_the_limit_nothing_fits(rt: HostRuntime) {
    check_beside(&rt, rt.alloc(), 0, true);
    check_beside(&rt, rt.alloc(), 2, true);
    check_beside(&rt, rt.alloc(), 6, true);
    check_beside(&rt, rt.alloc(), 7, false);
}

/// A constant, one of a mode of it, one that is equal to the first, and one of which nothing is known.
const FOUR: [ConstantRow; 4] = [OF_MODE, (("(A.M2 c1)", "A.V1"), ""), (SET, "c1"), (SET, "")];

fn check_type(rt: &impl Abort, alloc: Global, t: &str, at: TypeRow, wanted: bool) {
    let ks = in_force(rt, alloc, &FOUR);
    let u = term_of(rt, alloc, t);
    let at = type_of(rt, alloc, at);
    let fits = type_fits(alloc, &[], &ks, &u, &at).expect(rt, "memory");
    forget(ks);
    forget(u);
    forget(at);
    assert!(rt; fits == wanted, "{t}");
}

const TYPES: [(&str, TypeRow, bool); 7] = [
    ("b0", SET, true),
    ("c1", SET, true),
    ("c2", ("(A.M2 c1)", "A.V1"), true),
    ("c2", ("(A.M2 c3)", "A.V1"), true),
    ("c2", ("(A.M2 c4)", "A.V1"), false),
    ("c2", ("(A.M2 c1)", "(not A.V1)"), false),
    ("c2", SET, true),
];

#[test]
fn types_fit(rt: HostRuntime) {
    for (t, at, wanted) in &TYPES {
        check_type(&rt, rt.alloc(), t, *at, *wanted);
    }
}

/// The same answer with answers kept, before it stands there and after.
fn check_kept(rt: &impl Abort, alloc: Global, t: &str, at: TypeRow, wanted: bool) {
    let ks = in_force(rt, alloc, &FOUR);
    let u = term_of(rt, alloc, t);
    let at = type_of(rt, alloc, at);
    let mut answers = Answers::new(alloc);
    let once = type_fits_kept(alloc, &[], &ks, &mut answers, &u, &at).expect(rt, "memory");
    let again = type_fits_kept(alloc, &[], &ks, &mut answers, &u, &at).expect(rt, "memory");
    forget(ks);
    forget(u);
    forget(at);
    forget(answers);
    assert!(rt; once == wanted && again == wanted, "{t}");
}

#[test]
fn kept_answers_are_the_same(rt: HostRuntime) {
    for (t, at, wanted) in &TYPES {
        check_kept(&rt, rt.alloc(), t, *at, *wanted);
    }
}

fn check_equal(rt: &impl Abort, alloc: Global, t: &str, u: &str, wanted: bool) {
    let ks = in_force(rt, alloc, &FOUR);
    let left = term_of(rt, alloc, t);
    let right = term_of(rt, alloc, u);
    let same = are_equal(alloc, &[], &ks, &left, &right).expect(rt, "memory");
    forget(ks);
    forget(left);
    forget(right);
    assert!(rt; same == wanted, "{t}");
}

#[test]
fn terms_are_equal_by_the_facts(rt: HostRuntime) {
    check_equal(&rt, rt.alloc(), "b0", "b0", true);
    check_equal(&rt, rt.alloc(), "c3", "c1", true);
    check_equal(&rt, rt.alloc(), "c2", "c1", false);
}

const LOCI: [TypeRow; 3] = [("A.M1", ""), ("(A.M2 b0)", "A.V1"), ("(A.M2 b1)", "")];

fn check_values(rt: &impl Abort, alloc: Global, values: &str, wanted: bool) {
    let ks = in_force(rt, alloc, &FOUR);
    let loci = loci_of(rt, alloc, &LOCI);
    let ts = terms_of(rt, alloc, values);
    let (tys, vs) = (loci.items.as_slice(), ts.items.as_slice());
    let fit = loci_fit(alloc, &[], &ks, tys, vs).expect(rt, "memory");
    forget(ks);
    forget(loci);
    forget(ts);
    assert!(rt; fit == wanted, "{values}");
}

const VALUES: [(&str, bool); 6] = [
    ("c1 c2 c2", true),
    ("c3 c2 c2", true),
    ("c4 c2 c2", false),
    ("c1 c1 c2", false),
    ("c1 c2", false),
    ("c1 c2 c2 c2", false),
];

#[test]
fn values_of_loci_fit(rt: HostRuntime) {
    for (values, wanted) in &VALUES {
        check_values(&rt, rt.alloc(), values, *wanted);
    }
}

/// What so many loci are fixed to by formal terms, if these match.
fn fixed_by(
    rt: &impl Abort,
    alloc: Global,
    ks: &Constants,
    count: usize,
    us: &str,
    ts: &str,
) -> Option<Fixed> {
    let us = terms_of(rt, alloc, us);
    let ts = terms_of(rt, alloc, ts);
    let none = Fixed::none(alloc, count).expect(rt, "memory");
    let (formals, values) = (us.items.as_slice(), ts.items.as_slice());
    let fixed = all_match(alloc, &[], ks, count, none, formals, values).expect(rt, "memory");
    forget(us);
    forget(ts);
    fixed
}

/// Whether a locus is fixed to the term, or to none for `-`.
fn is_fixed_to(rt: &impl Abort, alloc: Global, slot: &Option<Term>, wanted: &str) -> bool {
    match slot {
        Some(t) => wanted != "-" && is_term(rt, alloc, t, wanted),
        None => wanted == "-",
    }
}

fn is_term(rt: &impl Abort, alloc: Global, t: &Term, wanted: &str) -> bool {
    let u = term_of(rt, alloc, wanted);
    let same = t.equals(&u);
    forget(u);
    same
}

fn are_fixed_to(rt: &impl Abort, alloc: Global, slots: &[Option<Term>], wanted: &[&str]) -> bool {
    let mut same = slots.len() == wanted.len();
    for k in 0..slots.len().min(wanted.len()) {
        same = same && is_fixed_to(rt, alloc, &slots[k], wanted[k]);
    }
    same
}

const MATCHED: [ConstantRow; 3] = [OF_MODE, (SET, "c1"), OF_MODE];

fn check_match(rt: &impl Abort, alloc: Global, us: &str, ts: &str, wanted: &[&str]) {
    let ks = in_force(rt, alloc, &MATCHED);
    let fixed = fixed_by(rt, alloc, &ks, 3, us, ts);
    let found = match &fixed {
        Some(fixed) => are_fixed_to(rt, alloc, fixed.items.as_slice(), wanted),
        None => wanted.is_empty(),
    };
    forget(ks);
    forget(fixed);
    assert!(rt; found, "{us} with {ts}");
}

/// Formal terms over three loci with terms, and the values of the loci behind them, with `-` for one that isn't fixed;
/// none where they don't match.
const MATCHES: [(&str, &str, &[&str]); 10] = [
    ("b2 b1 b0", "c1 c2 c3", &["c1", "c2", "c3"]),
    ("b0", "(A.O1 c1)", &["-", "-", "(A.O1 c1)"]),
    ("b1 b1", "c2 c1", &["-", "c2", "-"]),
    ("b1 b1", "c1 c3", &[]),
    ("b3", "c1", &[]),
    ("(A.O1 b0) b0", "(A.O1 c1) c2", &["-", "-", "c1"]),
    ("(A.O1 b0)", "(A.O2 c1)", &[]),
    ("(A.O1 b0)", "c1", &[]),
    ("b0", "c1 c2", &[]),
    ("b0 b1", "c1", &[]),
];

#[test]
fn formal_terms_match(rt: HostRuntime) {
    for (us, ts, wanted) in &MATCHES {
        check_match(&rt, rt.alloc(), us, ts, wanted);
    }
}

/// The values that are accepted of two loci, if any.
fn accepted_of(rt: &impl Abort, alloc: Global, ks: &Constants, fixed: Fixed) -> Option<Terms> {
    let loci = loci_of(rt, alloc, &[("A.M1", ""), ("(A.M2 b0)", "")]);
    let values = accepted(alloc, &[], ks, &loci, &fixed).expect(rt, "memory");
    forget(loci);
    forget(fixed);
    values
}

/// Whether these are the values, or none for no text.
fn are_values(rt: &impl Abort, alloc: Global, values: Option<Terms>, wanted: &str) -> bool {
    match values {
        Some(ts) => {
            let us = terms_of(rt, alloc, wanted);
            let same = ts.equals(&us);
            forget(us);
            forget(ts);
            same
        }
        None => wanted.is_empty(),
    }
}

const TWO_LOCI: [ConstantRow; 2] = [OF_MODE, (("(A.M2 c1)", ""), "")];

/// The values that are accepted of two loci behind a match.
fn check_accepted(rt: &impl Abort, alloc: Global, us: &str, ts: &str, wanted: &str) {
    let ks = in_force(rt, alloc, &TWO_LOCI);
    let fixed = fixed_by(rt, alloc, &ks, 2, us, ts).expect(rt, "a match");
    let values = accepted_of(rt, alloc, &ks, fixed);
    forget(ks);
    let found = are_values(rt, alloc, values, wanted);
    assert!(rt; found, "{us} with {ts}");
}

#[test]
fn all_loci_have_to_be_fixed_and_fit(rt: HostRuntime) {
    check_accepted(&rt, rt.alloc(), "b1 b0", "c1 c2", "c1 c2");
    check_accepted(&rt, rt.alloc(), "b0 b1", "c2 c1", "c1 c2");
    check_accepted(&rt, rt.alloc(), "b0", "c2", "");
    check_accepted(&rt, rt.alloc(), "b1 b0", "c2 c2", "");
}
