//! Types that are equal.
ghost use Rattle.std.specs.Prelude.{◌≡◌};
ghost use Rattle.mz_logic.specs.Order.{terms_cmp};
ghost use Rattle.mz_clauses.specs.SameTypes.{is_equal, same_sign, same_adjective, same_adjectives, same_type};

use mz_core::adjective::Adjective;
use mz_core::adjectives::Adjectives;
use mz_core::soft_type::SoftType;
use mz_logic::order::compare_args;
use mz_logic::term::Terms;
use std::cmp::Ordering;

fn same_arguments(ts: &Terms, us: &Terms) -> bool
    ensures { result ≡ is_equal (terms_cmp ts.now us.now) }
{
    match compare_args(ts, us) {
        Ordering::Less => false,
        Ordering::Equal => true,
        Ordering::Greater => false,
    }
}

fn same_sign(p: bool, q: bool) -> bool
    ensures { result ≡ same_sign p q }
{
    if p { q } else { !q }
}

fn same_adjective(a: &Adjective, b: &Adjective) -> bool
    ensures { result ≡ same_adjective a.now b.now }
{
    same_sign(a.positive, b.positive) && a.sym.is(b.sym) && same_arguments(&a.args, &b.args)
}

#[tactic(auto, using(crate::proofs::SameLemmas::adjective_rules))]
fn same_adjectives(xs: &Adjectives, ys: &Adjectives) -> bool
    ensures { result ≡ same_adjectives xs.now ys.now }
{
    for i in 0..xs.items.len() {
        if i >= ys.items.len() {
            return false;
        }
        if !same_adjective(&xs.items[i], &ys.items[i]) {
            return false;
        }
    }
    if xs.items.len() < ys.items.len() {
        return false;
    }
    true
}

/// Whether the types are equal, the order of their adjectives included.
pub fn same_type(t: &SoftType, u: &SoftType) -> bool
    ensures { result ≡ same_type t.now u.now }
{
    t.radix.sym.is(u.radix.sym)
        && same_arguments(&t.radix.args, &u.radix.args)
        && same_adjectives(&t.adjectives, &u.adjectives)
}
