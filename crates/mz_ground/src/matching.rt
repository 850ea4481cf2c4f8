//! The terms at which a trigger has a ground instance.
ghost use Rattle.std.specs.Prelude.{◌≡◌, ◌↔◌, ◌<◌, ℕ, map, length, Contains, IsTrue};
ghost use Rattle.mz_ground.specs.Ground.{term_at};
ghost use Rattle.mz_logic.specs.Substitution.{substitute, value_at};
ghost use Rattle.mz_ground.specs.Table.{IsTable, entry_terms};
ghost use Rattle.mz_ground.specs.Matches.{IsTermValue, AreTermsValue};

use crate::add_terms::place_for;
use crate::ground_term::GroundTerm;
use crate::ground_terms::GroundTerms;
use mz_logic::term::{Term, TermNode, Terms};

impl GroundTerms {
    /// The place of the term that stands for the index wherever the term at the place is an instance of `t`.
    #[cycle(value)]
    #[tactic(auto, using(crate::proofs::MatchLemmas::value_rules))]
    pub(crate) fn value_in(&self, index: u32, t: &Term, place: usize) -> Option<usize>
        requires table { IsTable self.now }
        requires within { place < length self.now }
        ensures { IsTermValue self.now index t.now place result }
    {
        match &t.node {
            TermNode::Bound(n) => { if *n == index { Some(place) } else { None } }
            TermNode::Const(_) => None,
            TermNode::App(r, us) => match self.get(place) {
                GroundTerm::App { sym, args } => {
                    if r.is(*sym) {
                        self.value_among(index, us, args.as_slice())
                    } else {
                        None
                    }
                }
                GroundTerm::Const(_) => None,
            },
        }
    }

    /// The place of the term that stands for the index wherever the terms at the places are instances of `us`.
    #[cycle(value)]
    #[tactic(auto, using(crate::proofs::MatchLemmas::value_rules))]
    pub(crate) fn value_among(&self, index: u32, us: &Terms, places: &[usize]) -> Option<usize>
        requires table { IsTable self.now }
        requires within { (k : ℕ) → Contains places.now k → k < length self.now }
        ensures { AreTermsValue self.now index us.now places.now result }
    {
        if us.items.len() != places.len() {
            return None;
        }
        for i in 0..places.len() {
            if let Some(place) = self.value_in(index, &us.items[i], places[i]) {
                return Some(place);
            }
        }
        None
    }

    /// Whether `t`, with the terms at the places `args` for its indices, is the term at the place.
    #[cycle(instance)]
    #[tactic(auto, using(crate::proofs::MatchLemmas::instance_rules))]
    pub(crate) fn is_instance_at(&self, args: &[usize], t: &Term, place: usize) -> bool
        requires table { IsTable self.now }
        requires args { (k : ℕ) → Contains args.now k → k < length self.now }
        requires within { place < length self.now }
        ensures { IsTrue result ↔ (substitute 0 (value_at (map (term_at (entry_terms self.now)) args.now)) t.now ≡ term_at (entry_terms self.now) place) }
    {
        match &t.node {
            TermNode::Bound(n) => match place_for(args, *n) {
                Some(arg) => arg == place,
                None => false,
            },
            TermNode::Const(m) => match self.get(place) {
                GroundTerm::Const(n) => *m == *n,
                GroundTerm::App { sym: _, args: _ } => false,
            },
            TermNode::App(r, us) => match self.get(place) {
                GroundTerm::App { sym, args: places } => {
                    r.is(*sym) && self.are_instances_at(args, us, places.as_slice())
                }
                GroundTerm::Const(_) => false,
            },
        }
    }

    /// Whether `us`, with the terms at the places `args` for their indices, are the terms at the places.
    #[cycle(instance)]
    #[tactic(auto, using(crate::proofs::MatchLemmas::instance_rules))]
    pub(crate) fn are_instances_at(&self, args: &[usize], us: &Terms, places: &[usize]) -> bool
        requires table { IsTable self.now }
        requires args { (k : ℕ) → Contains args.now k → k < length self.now }
        requires within { (k : ℕ) → Contains places.now k → k < length self.now }
        ensures { IsTrue result ↔ (map (substitute 0 (value_at (map (term_at (entry_terms self.now)) args.now))) us.now ≡ map (term_at (entry_terms self.now)) places.now) }
    {
        if us.items.len() != places.len() {
            return false;
        }
        for i in 0..places.len() {
            if !self.is_instance_at(args, &us.items[i], places[i]) {
                return false;
            }
        }
        true
    }
}
