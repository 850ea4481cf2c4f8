//! Comparisons of symbols, terms and literals, in the orders derived from their declarations. None takes
//! memory.
ghost use Rattle.std.specs.Prelude.{◌≡◌};
ghost use Rattle.mz_logic.specs.Order.{sym_cmp, term_cmp, terms_cmp, literal_cmp};

use crate::literal::Literal;
use crate::sym::Sym;
use crate::term::{Term, TermNode, Terms};
use std::cmp::Ordering;

/// Compares symbols: by the article, then the kind, then the number.
pub fn compare_syms(r: Sym, s: Sym) -> Ordering
    ensures { result ≡ sym_cmp r s }
{
    let by_kind = r.kind.code().cmp(&s.kind.code());
    let by_number = r.number.cmp(&s.number);
    r.article.cmp(&s.article).then(by_kind.then(by_number))
}

/// Compares terms: indices come first, then constants, then applications by their symbols and then their
/// arguments.
#[cycle(compare)]
#[tactic(auto, using(crate::proofs::OrderLemmas::compare_rules), unfolding(crate::specs::Order::term_cmp))]
pub fn compare_terms(t: &Term, u: &Term) -> Ordering
    ensures { result ≡ term_cmp t.now u.now }
{
    match (&t.node, &u.node) {
        (TermNode::Bound(m), TermNode::Bound(n)) => m.cmp(n),
        (TermNode::Bound(_), _) => Ordering::Less,
        (TermNode::Const(_), TermNode::Bound(_)) => Ordering::Greater,
        (TermNode::Const(m), TermNode::Const(n)) => m.cmp(n),
        (TermNode::Const(_), _) => Ordering::Less,
        (TermNode::App(r, ts), TermNode::App(s, us)) => {
            compare_syms(*r, *s).then(compare_args(ts, us))
        }
        (TermNode::App(_, _), _) => Ordering::Greater,
    }
}

/// Compares lists of terms: the first terms that differ decide, and a list comes before those that go on
/// after it.
#[cycle(compare)]
#[tactic(auto, using(crate::proofs::OrderLemmas::turn_rules))]
pub fn compare_args(ts: &Terms, us: &Terms) -> Ordering
    ensures { result ≡ terms_cmp ts.now us.now }
{
    for i in 0..ts.items.len() {
        if i >= us.items.len() {
            return Ordering::Greater;
        }
        match compare_terms(&ts.items[i], &us.items[i]) {
            Ordering::Equal => {}
            other => return other,
        }
    }
    if ts.items.len() < us.items.len() {
        Ordering::Less
    } else {
        Ordering::Equal
    }
}

/// Compares literals: atoms come before equations, negative literals before positive ones; then by the
/// symbol and the arguments, or by the sides.
#[tactic(auto, unfolding(crate::specs::Order::literal_cmp))]
pub fn compare_literals(l: &Literal, m: &Literal) -> Ordering
    ensures { result ≡ literal_cmp l.now m.now }
{
    match (l, m) {
        (
            Literal::Atom {
                positive: p,
                sym: r,
                args: ts,
            },
            Literal::Atom {
                positive: q,
                sym: s,
                args: us,
            },
        ) => p
            .cmp(q)
            .then(compare_syms(*r, *s).then(compare_args(ts, us))),
        (Literal::Atom { .. }, Literal::Eq { .. }) => Ordering::Less,
        (Literal::Eq { .. }, Literal::Atom { .. }) => Ordering::Greater,
        (
            Literal::Eq {
                positive: p,
                left: t,
                right: u,
            },
            Literal::Eq {
                positive: q,
                left: v,
                right: w,
            },
        ) => p.cmp(q).then(compare_terms(t, v).then(compare_terms(u, w))),
    }
}
