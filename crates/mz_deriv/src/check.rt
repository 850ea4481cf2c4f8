//! The check of a whole derivation.
ghost use Rattle.std.specs.Prelude.{◌≡◌, ◌↔◌, IsTrue, All};
ghost use Rattle.mz_logic.specs.Derivation.{root, roots};
ghost use Rattle.mz_logic.specs.DerivationStorage.{derivations_of};
ghost use Rattle.mz_logic.specs.Derives.{Derives, FollowsBy, IsValid};

use crate::derivation::{Derivation, Derivations};
use crate::node::{follows_alone, follows_from_one, follows_from_two};
use mz_logic::formulas::Formulas;
use mz_logic::rule::Rule;
use mz_logic::sequent::Sequent;

/// Whether each node of the derivation follows by its rule from the roots of its parents, where the
/// axioms are numbered from 1. Where it is true, the root's conclusion is derivable from the root's
/// premises. Nothing is built. It recurs by the derivation's depth, as do copying and dropping one.
#[tactic(auto, using(crate::proofs::CheckLemmas::sound_rules))]
pub fn check_derivation(axioms: &Formulas, d: &Derivation) -> bool
    ensures valid { IsTrue result ↔ IsValid axioms.now d.now }
    ensures derives { IsTrue result → Derives axioms.now (root d.now).premises (root d.now).conclusion }
{
    is_valid(axioms, d)
}

#[cycle(check)]
#[tactic(auto, using(crate::proofs::CheckLemmas::check_rules), unfolding(mz_logic::specs::Derives::IsValid))]
fn is_valid(axioms: &Formulas, d: &Derivation) -> bool
    ensures { IsTrue result ↔ IsValid axioms.now d.now }
{
    follows(axioms, &d.rule, &d.conclusion, &d.parents) && are_valid(axioms, &d.parents)
}

#[cycle(check)]
fn are_valid(axioms: &Formulas, ds: &Derivations) -> bool
    ensures { IsTrue result ↔ All (IsValid axioms.now) ds.now }
{
    for d in &ds.items {
        if !is_valid(axioms, d) {
            return false;
        }
    }
    true
}

#[tactic(auto, using(crate::proofs::CheckLemmas::parents_rules))]
fn follows(axioms: &Formulas, rule: &Rule, s: &Sequent, parents: &Derivations) -> bool
    ensures { IsTrue result ↔ FollowsBy axioms.now rule.now s.now (roots (derivations_of parents.now)) }
{
    match parents.items.as_slice() {
        [] => follows_alone(axioms, rule, s),
        [d] => follows_from_one(axioms, rule, s, &d.conclusion),
        [d, e] => follows_from_two(axioms, rule, s, &d.conclusion, &e.conclusion),
        _ => false,
    }
}
