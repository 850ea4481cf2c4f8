//! Comparisons of ground terms and atoms by their places.
ghost use Rattle.std.specs.Prelude.{◌≡◌, ◌<◌, ℕ, length, map, slice_get, Some, None, MatchOption, Contains};
ghost use Rattle.mz_logic.specs.Order.{term_cmp, terms_cmp};
ghost use Rattle.mz_ground.specs.Ground.{term_at};
ghost use Rattle.mz_ground.specs.Growth.{IsNumbered};
ghost use Rattle.mz_ground.specs.Table.{IsTable, entry_terms};
ghost use Rattle.mz_numbering.specs.Numbering.{option_atom_cmp};

use crate::entry::{args_at, constant_at, symbol_at};
use mz_ground::ground_atom::GroundAtom;
use mz_ground::ground_part::Ground;
use mz_ground::ground_terms::GroundTerms;
use mz_logic::order::compare_syms;
use std::cmp::Ordering;

/// Compares the ground terms at two places in the order of terms; a place without a term counts as that of the
/// constant 0.
#[cycle(compare)]
#[tactic(auto, using(crate::proofs::CompareLemmas::term_rules))]
pub fn compare_terms_at(terms: &GroundTerms, p: usize, q: usize) -> Ordering
    requires { IsTable terms.now }
    ensures { result ≡ term_cmp (term_at (entry_terms terms.now) p) (term_at (entry_terms terms.now) q) }
{
    match (symbol_at(terms, p), symbol_at(terms, q)) {
        (Some(r), Some(s)) => {
            let by_args = compare_places(terms, args_at(terms, p), args_at(terms, q), p);
            compare_syms(r, s).then(by_args)
        }
        (Some(_), None) => Ordering::Greater,
        (None, Some(_)) => Ordering::Less,
        (None, None) => constant_at(terms, p).cmp(&constant_at(terms, q)),
    }
}

/// Compares the lists of ground terms at places, the first of which are below a bound.
#[cycle(compare)]
#[tactic(auto, using(mz_logic::proofs::OrderLemmas::turn_rules))]
pub fn compare_places(terms: &GroundTerms, ps: &[usize], qs: &[usize], bound: usize) -> Ordering
    requires table { IsTable terms.now }
    requires below { (k : ℕ) → Contains ps.now k → k < bound }
    ensures { result ≡ terms_cmp (map (term_at (entry_terms terms.now)) ps.now) (map (term_at (entry_terms terms.now)) qs.now) }
{
    for i in 0..ps.len() {
        if i >= qs.len() {
            return Ordering::Greater;
        }
        match compare_terms_at(terms, ps[i], qs[i]) {
            Ordering::Equal => {}
            other => return other,
        }
    }
    if ps.len() < qs.len() {
        Ordering::Less
    } else {
        Ordering::Equal
    }
}

#[tactic(auto, using(std::proofs::lemmas::Option::slice_get_past))]
fn atom_at(g: &Ground, place: usize) -> Option<&GroundAtom>
    ensures { MatchOption result (slice_get g.now.atoms place ≡ None) (λ a. slice_get g.now.atoms place ≡ Some a.now) }
{
    if place < g.atoms.len() {
        Some(g.atoms.get(place))
    } else {
        None
    }
}

/// Compares the ground atoms at two places, by their symbols and then by their arguments; a place without an atom
/// comes first.
#[tactic(auto, using(crate::proofs::CompareLemmas::atom_rules))]
pub fn compare_atoms_at(g: &Ground, p: usize, q: usize) -> Ordering
    requires { IsNumbered g.now }
    ensures { result ≡ option_atom_cmp g.now (slice_get g.now.atoms p) (slice_get g.now.atoms q) }
{
    match atom_at(g, p) {
        Some(a) => match atom_at(g, q) {
            Some(b) => {
                let (ps, qs) = (a.args.as_slice(), b.args.as_slice());
                let by_args = compare_places(&g.terms, ps, qs, g.terms.len());
                compare_syms(a.sym, b.sym).then(by_args)
            }
            None => Ordering::Greater,
        },
        None => match atom_at(g, q) {
            Some(_) => Ordering::Less,
            None => Ordering::Equal,
        },
    }
}
