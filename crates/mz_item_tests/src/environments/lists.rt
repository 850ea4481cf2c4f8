//! The lists of an environment as a text: for each list that isn't empty its word and its entries, by their symbols.
//! Those of HIDDEN are left out.
use crate::answers::{digit, put};
use mz_environment::cited::{CitedSchemes, CitedStatements};
use mz_environment::environment::Environment;
use mz_environment::existentials::Existentials;
use mz_environment::notation_table::NotationTable;
use mz_environment::rows::Rows;
use mz_environment::unfoldings::Unfoldings;
use mz_ground::clauses::Clauses;
use mz_ground::trigger::Trigger;
use mz_logic::kind::Kind;
use mz_logic::sym::Sym;
use mz_logic::term::TermNode;
use mz_logic::texts::push_sym;
use std::alloc::Global;
use std::process::Abort;

fn put_sym(rt: &impl Abort, alloc: Global, out: &mut Vec<u8>, s: Sym) {
    put(rt, out, b" ");
    push_sym(alloc, out, s).expect(rt, "memory");
}

fn head_of(r: &Trigger) -> Sym {
    match r {
        Trigger::Atom(s, _) => *s,
        Trigger::Term(t) => match &t.node {
            TermNode::App(s, _) => *s,
            _ => Sym {
                article: 0,
                kind: Kind::Mode,
                number: 0,
            },
        },
    }
}

fn put_rows(rt: &impl Abort, alloc: Global, out: &mut Vec<u8>, word: &[u8], rows: &Rows) {
    if rows.as_slice().is_empty() {
        return;
    }
    put(rt, out, word);
    for row in rows.as_slice() {
        put_sym(rt, alloc, out, row.sym);
    }
    put(rt, out, b"; ");
}

fn put_clauses(rt: &impl Abort, alloc: Global, out: &mut Vec<u8>, word: &[u8], cs: &Clauses) {
    if cs.items.is_empty() {
        return;
    }
    put(rt, out, word);
    for c in &cs.items {
        put_sym(rt, alloc, out, head_of(&c.trigger));
    }
    put(rt, out, b"; ");
}

fn put_unfoldings(rt: &impl Abort, alloc: Global, out: &mut Vec<u8>, word: &[u8], us: &Unfoldings) {
    if us.as_slice().is_empty() {
        return;
    }
    put(rt, out, word);
    for u in us.as_slice() {
        put_sym(rt, alloc, out, head_of(&u.head));
    }
    put(rt, out, b"; ");
}

/// The notations behind HIDDEN's five.
fn put_notations(rt: &impl Abort, out: &mut Vec<u8>, xs: &NotationTable) {
    let all = xs.as_slice();
    if all.len() <= 5 {
        return;
    }
    put(rt, out, b"notations");
    for x in &all[5..] {
        put(rt, out, b" ");
        put(rt, out, x.pattern.symbol.as_slice());
    }
    put(rt, out, b"; ");
}

fn put_registrations(rt: &impl Abort, alloc: Global, out: &mut Vec<u8>, rs: &Existentials) {
    if rs.as_slice().is_empty() {
        return;
    }
    put(rt, out, b"registrations");
    for r in rs.as_slice() {
        for a in &r.adjectives.items {
            put_sym(rt, alloc, out, a.sym);
        }
    }
    put(rt, out, b"; ");
}

/// The first byte of the article's name, and a number below ten.
fn put_number(rt: &impl Abort, out: &mut Vec<u8>, article: u64, word: &[u8], number: u64) {
    let digit = digit(number);
    put(rt, out, b" ");
    put(rt, out, &[(article >> 56) as u8]);
    put(rt, out, word);
    put(rt, out, &[digit]);
}

fn put_cited(
    rt: &impl Abort,
    out: &mut Vec<u8>,
    theorems: &CitedStatements,
    schemes: &CitedSchemes,
) {
    for x in theorems.as_slice() {
        let word: &[u8] = if x.is_definition { b":def " } else { b":" };
        put_number(rt, out, x.article, word, x.number);
    }
    for x in schemes.as_slice() {
        put_number(rt, out, x.article, b":sch ", x.number);
    }
}

/// The lists of the environment.
pub fn lists_of(rt: &impl Abort, alloc: Global, e: &Environment) -> Vec<u8> {
    let mut out = Vec::new(alloc);
    put_rows(rt, alloc, &mut out, b"functors", &e.functors);
    put_rows(rt, alloc, &mut out, b"modes", &e.modes);
    put_notations(rt, &mut out, &e.notations);
    put_clauses(rt, alloc, &mut out, b"typing", &e.typing);
    put_clauses(rt, alloc, &mut out, b"further", &e.further);
    put_clauses(rt, alloc, &mut out, b"equalities", &e.equalities);
    put_unfoldings(rt, alloc, &mut out, b"steps", &e.steps);
    put_unfoldings(rt, alloc, &mut out, b"expansions", &e.expansions);
    put_registrations(rt, alloc, &mut out, &e.registrations);
    put_cited(rt, &mut out, &e.theorems, &e.schemes);
    out
}
