//! What is asked of items, as lines of text behind the line of the item.
use mz_clauses::clauses_of::{equality_clauses, further_clauses, typing_clauses};
use mz_compare::items::item_equal;
use mz_copies::items::item_copy;
use mz_core::erasure::erase;
use mz_core::guard::guard;
use mz_core::item::Item;
use mz_core::notation::Meaning;
use mz_core::statement::Statement;
use mz_ground::clause::Clause;
use mz_ground::clauses::Clauses;
use mz_ground::trigger::Trigger;
use mz_items::condition::Condition;
use mz_items::granted::grants;
use mz_items::notations_of::notations_of;
use mz_items::owed::owes;
use mz_items::theses::{definitional_theorem, property_thesis, thesis_of};
use mz_logic::formula::Formula;
use mz_logic::sequent::Sequent;
use mz_logic::term::Term;
use mz_logic::texts::{formula_text, push_formula, term_text};
use mz_samples::texts::literal_text;
use std::alloc::Global;
use std::mem::forget;
use std::process::Abort;

/// Puts the bytes behind the text.
pub fn put(rt: &impl Abort, out: &mut Vec<u8>, bytes: &[u8]) {
    out.extend_from_slice(bytes).expect(rt, "memory");
}

/// Puts the formula's text behind the text.
pub fn put_formula(rt: &impl Abort, alloc: Global, out: &mut Vec<u8>, f: &Formula) {
    push_formula(alloc, out, f).expect(rt, "memory");
}

/// The digit of a number below ten, and `+` for each other one.
pub fn digit(number: u64) -> u8 {
    if number < 10 {
        b'0' + number as u8
    } else {
        b'+'
    }
}

/// `owes |- F`, with the premises in front of `|-`.
fn put_sequent(rt: &impl Abort, alloc: Global, out: &mut Vec<u8>, s: &Sequent) {
    put(rt, out, b"\nowes ");
    for f in &s.premises.items {
        put_formula(rt, alloc, out, f);
        put(rt, out, b" ");
    }
    put(rt, out, b"|- ");
    put_formula(rt, alloc, out, &s.conclusion);
}

/// A line for each sequent that the item owes.
fn put_owed(rt: &impl Abort, alloc: Global, out: &mut Vec<u8>, item: &Item) {
    let ss = owes(alloc, item).expect(rt, "memory");
    for s in &ss.items {
        put_sequent(rt, alloc, out, s);
    }
    forget(ss);
}

/// A line for each formula that the item grants.
pub fn put_granted(rt: &impl Abort, alloc: Global, out: &mut Vec<u8>, item: &Item) {
    let fs = grants(alloc, item).expect(rt, "memory");
    for f in &fs.items {
        put(rt, out, b"\ngrants ");
        put_formula(rt, alloc, out, f);
    }
    forget(fs);
}

/// A line with the word and the statement's formula, where there is one.
fn put_stated(
    rt: &impl Abort,
    alloc: Global,
    out: &mut Vec<u8>,
    word: &[u8],
    s: Option<Statement>,
) {
    if let Some(s) = s {
        let f = erase(alloc, &s).expect(rt, "memory");
        put(rt, out, word);
        put_formula(rt, alloc, out, &f);
        forget(f);
        forget(s);
    }
}

const CONDITIONS: [(Condition, &[u8]); 6] = [
    (Condition::Existence, b"\nexistence "),
    (Condition::Uniqueness, b"\nuniqueness "),
    (Condition::Coherence, b"\ncoherence "),
    (Condition::Compatibility, b"\ncompatibility "),
    (Condition::Consistency, b"\nconsistency "),
    (Condition::Reducibility, b"\nreducibility "),
];

/// A line for each condition that states something, for the property, and for the definitional theorem.
fn put_theses(rt: &impl Abort, alloc: Global, out: &mut Vec<u8>, item: &Item) {
    for (c, word) in CONDITIONS {
        let s = thesis_of(alloc, item, c).expect(rt, "memory");
        put_stated(rt, alloc, out, word, s);
    }
    let s = property_thesis(alloc, item).expect(rt, "memory");
    put_stated(rt, alloc, out, b"\nproperty ", s);
    let s = definitional_theorem(alloc, item).expect(rt, "memory");
    put_stated(rt, alloc, out, b"\ndefines ", s);
}

/// A term, a literal, or each formula that a type says of `b9`, with a blank before it.
fn put_meaning(rt: &impl Abort, alloc: Global, out: &mut Vec<u8>, m: &Meaning) {
    match m {
        Meaning::OfTerm(t) => {
            let text = term_text(alloc, t).expect(rt, "memory");
            put(rt, out, b" ");
            put(rt, out, text.as_slice());
        }
        Meaning::OfLiteral(l) => {
            let text = literal_text(alloc, l).expect(rt, "memory");
            put(rt, out, b" ");
            put(rt, out, text.as_slice());
        }
        Meaning::OfType(ty) => {
            let fs = guard(alloc, ty, &Term::bound(9)).expect(rt, "memory");
            for f in &fs.items {
                put(rt, out, b" ");
                put_formula(rt, alloc, out, f);
            }
            forget(fs);
        }
    }
}

/// A line for each notation of the item.
fn put_read(rt: &impl Abort, alloc: Global, out: &mut Vec<u8>, item: &Item) {
    let ns = notations_of(alloc, item).expect(rt, "memory");
    for n in &ns.items {
        put(rt, out, b"\nreads");
        put_meaning(rt, alloc, out, &n.meaning);
    }
    forget(ns);
}

/// A line where a copy of the item isn't equal to it.
fn put_copied(rt: &impl Abort, alloc: Global, out: &mut Vec<u8>, item: &Item) {
    let copy = item_copy(alloc, item).expect(rt, "memory");
    if !item_equal(item, &copy) {
        put(rt, out, b"\nits copy differs");
    }
    forget(copy);
}

/// What the item owes and grants, what its conditions and its property state under the loci, its definitional theorem, and
/// what its notations read to. What states nothing has no line.
pub fn put_answers(rt: &impl Abort, alloc: Global, out: &mut Vec<u8>, item: &Item) {
    put_owed(rt, alloc, out, item);
    put_granted(rt, alloc, out, item);
    put_theses(rt, alloc, out, item);
    put_read(rt, alloc, out, item);
    put_copied(rt, alloc, out, item);
}

fn put_trigger(rt: &impl Abort, alloc: Global, out: &mut Vec<u8>, r: &Trigger) {
    let text = match r {
        Trigger::Term(t) => term_text(alloc, t),
        Trigger::Atom(s, ts) => {
            let args = ts.copy(alloc).expect(rt, "memory");
            formula_text(alloc, &Formula::atom(*s, args))
        }
    };
    let text = text.expect(rt, "memory");
    put(rt, out, text.as_slice());
}

/// The number of a clause's variables, its trigger, `:`, its premises, `=>` and its conclusion.
fn put_clause(rt: &impl Abort, alloc: Global, out: &mut Vec<u8>, c: &Clause) {
    put(rt, out, &[digit(u64::from(c.variables))]);
    put(rt, out, b" ");
    put_trigger(rt, alloc, out, &c.trigger);
    put(rt, out, b" :");
    for l in &c.premises.items {
        let text = literal_text(alloc, l).expect(rt, "memory");
        put(rt, out, b" ");
        put(rt, out, text.as_slice());
    }
    let text = literal_text(alloc, &c.conclusion).expect(rt, "memory");
    put(rt, out, b" => ");
    put(rt, out, text.as_slice());
}

/// A line for each clause.
pub fn put_clauses(rt: &impl Abort, alloc: Global, out: &mut Vec<u8>, word: &[u8], cs: &Clauses) {
    for c in &cs.items {
        put(rt, out, word);
        put_clause(rt, alloc, out, c);
    }
}

/// The clauses of each sort that the item gives.
pub fn put_clauses_of(rt: &impl Abort, alloc: Global, out: &mut Vec<u8>, item: &Item) {
    let cs = typing_clauses(alloc, item).expect(rt, "memory");
    let ds = further_clauses(alloc, item).expect(rt, "memory");
    let es = equality_clauses(alloc, item).expect(rt, "memory");
    put_clauses(rt, alloc, out, b"\ntyping ", &cs);
    put_clauses(rt, alloc, out, b"\nfurther ", &ds);
    put_clauses(rt, alloc, out, b"\nequality ", &es);
    forget(cs);
    forget(ds);
    forget(es);
}
