//! Hashes of literals, by which answers are found. Different literals may have the same.
use mz_ground::hash_places::{hash_with, hash_with_symbol};
use mz_logic::literal::Literal;
use mz_logic::term::{Term, TermNode, Terms};

fn head_hash(hash: u64, t: &Term) -> u64 {
    match &t.node {
        TermNode::Bound(index) => hash_with(hash_with(hash, 1), u64::from(*index)),
        TermNode::Const(number) => hash_with(hash_with(hash, 2), u64::from(*number)),
        TermNode::App(s, _) => hash_with_symbol(hash_with(hash, 3), *s),
    }
}

fn heads_hash(hash: u64, ts: &Terms) -> u64 {
    let mut all = hash;
    for t in &ts.items {
        all = head_hash(all, t);
    }
    all
}

fn term_hash(hash: u64, t: &Term) -> u64 {
    let head = head_hash(hash, t);
    match &t.node {
        TermNode::App(_, ts) => heads_hash(head, ts),
        _ => head,
    }
}

fn terms_hash(hash: u64, ts: &Terms) -> u64 {
    let mut all = hash;
    for t in &ts.items {
        all = term_hash(all, t);
    }
    all
}

/// A hash of the literal, from its sign, its symbol, and the heads of its arguments and of theirs.
pub fn literal_hash(l: &Literal) -> u64 {
    match l {
        Literal::Atom {
            positive,
            sym,
            args,
        } => terms_hash(hash_with_symbol(u64::from(*positive), *sym), args),
        Literal::Eq {
            positive,
            left,
            right,
        } => term_hash(term_hash(u64::from(*positive), left), right),
    }
}
