//! Whether instances have no more nodes than may be added.
ghost use Rattle.std.specs.Prelude.{◌↔◌, ◌<◌, ◌≤◌, ℕ, length, map, Contains, IsTrue};
ghost use Rattle.mz_logic.specs.Term.{terms_of};
ghost use Rattle.mz_ground.specs.Ground.{term_at};
ghost use Rattle.mz_logic.specs.Substitution.{substitute, value_at};
ghost use Rattle.mz_ground.specs.Instance.{literal_at, term_nodes, args_nodes, literal_nodes, literals_nodes, instance_nodes};
ghost use Rattle.mz_ground.specs.Layers.{most_nodes};
ghost use Rattle.mz_ground.specs.Nodes.{IsSpent};
ghost use Rattle.mz_ground.specs.Table.{IsTable, entry_terms};

use crate::add_terms::place_for;
use crate::clause::Clause;
use crate::ground_term::GroundTerm;
use crate::ground_terms::GroundTerms;
use mz_logic::literal::Literal;
use mz_logic::literals::Literals;
use mz_logic::term::{Term, TermNode, Terms};

const MOST_NODES: usize = 4096;

impl GroundTerms {
    /// Whether the instance of the clause at the terms at the places has at most 4,096 nodes.
    #[tactic(auto, using(crate::proofs::NodeLemmas::clause_rules))]
    pub(crate) fn fits(&self, args: &[usize], c: &Clause) -> bool
        requires table { IsTable self.now }
        requires args { (k : ℕ) → Contains args.now k → k < length self.now }
        ensures { IsTrue result ↔ (instance_nodes c.now (map (term_at (entry_terms self.now)) args.now) ≤ most_nodes) }
    {
        match self.after_literals(args, &c.premises, MOST_NODES) {
            Some(left) => match self.after_literal(args, &c.conclusion, left) {
                Some(_) => true,
                None => false,
            },
            None => false,
        }
    }

    // What is left of a number of nodes after those of the literals at the terms at the places.
    #[tactic(auto, using(crate::proofs::NodeLemmas::literals_rules))]
    fn after_literals(&self, args: &[usize], ls: &Literals, left: usize) -> Option<usize>
        requires table { IsTable self.now }
        requires args { (k : ℕ) → Contains args.now k → k < length self.now }
        ensures { IsSpent left (literals_nodes (map (literal_at (map (term_at (entry_terms self.now)) args.now)) ls.now)) result }
    {
        let mut rest = left;
        for item in &ls.items {
            match self.after_literal(args, item, rest) {
                Some(less) => rest = less,
                None => return None,
            }
        }
        Some(rest)
    }

    #[tactic(auto, using(crate::proofs::NodeLemmas::literal_rules))]
    fn after_literal(&self, args: &[usize], l: &Literal, left: usize) -> Option<usize>
        requires table { IsTable self.now }
        requires args { (k : ℕ) → Contains args.now k → k < length self.now }
        ensures { IsSpent left (literal_nodes (literal_at (map (term_at (entry_terms self.now)) args.now) l.now)) result }
    {
        if left == 0 {
            return None;
        }
        match l {
            Literal::Atom {
                positive: _,
                sym: _,
                args: us,
            } => self.after_terms(args, us, left - 1),
            Literal::Eq {
                positive: _,
                left: t,
                right: u,
            } => match self.after_term(args, t, left - 1) {
                Some(rest) => self.after_term(args, u, rest),
                None => None,
            },
        }
    }

    #[cycle(nodes)]
    #[tactic(auto, using(crate::proofs::NodeLemmas::term_rules))]
    fn after_term(&self, args: &[usize], t: &Term, left: usize) -> Option<usize>
        requires table { IsTable self.now }
        requires args { (k : ℕ) → Contains args.now k → k < length self.now }
        ensures { IsSpent left (term_nodes (substitute 0 (value_at (map (term_at (entry_terms self.now)) args.now)) t.now)) result }
    {
        if left == 0 {
            return None;
        }
        match &t.node {
            TermNode::Bound(index) => match place_for(args, *index) {
                Some(place) => self.after_place(place, left),
                None => Some(left - 1),
            },
            TermNode::Const(_) => Some(left - 1),
            TermNode::App(_, us) => self.after_terms(args, us, left - 1),
        }
    }

    #[cycle(nodes)]
    #[tactic(auto, using(crate::proofs::NodeLemmas::terms_rules))]
    fn after_terms(&self, args: &[usize], us: &Terms, left: usize) -> Option<usize>
        requires table { IsTable self.now }
        requires args { (k : ℕ) → Contains args.now k → k < length self.now }
        ensures { IsSpent left (args_nodes (terms_of (map (substitute 0 (value_at (map (term_at (entry_terms self.now)) args.now))) us.now))) result }
    {
        let mut rest = left;
        for u in &us.items {
            match self.after_term(args, u, rest) {
                Some(less) => rest = less,
                None => return None,
            }
        }
        Some(rest)
    }

    // What is left of a number of nodes after those of the term at the place.
    #[cycle(place_nodes)]
    #[tactic(auto, using(crate::proofs::NodeLemmas::place_rules))]
    fn after_place(&self, place: usize, left: usize) -> Option<usize>
        requires table { IsTable self.now }
        requires within { place < length self.now }
        ensures { IsSpent left (term_nodes (term_at (entry_terms self.now) place)) result }
    {
        if left == 0 {
            return None;
        }
        match self.get(place) {
            GroundTerm::Const(_) => Some(left - 1),
            GroundTerm::App { sym: _, args } => self.after_places(args.as_slice(), place, left - 1),
        }
    }

    // The same for several places below a bound.
    #[cycle(place_nodes)]
    #[tactic(auto, using(crate::proofs::NodeLemmas::places_rules))]
    fn after_places(&self, places: &[usize], bound: usize, left: usize) -> Option<usize>
        requires table { IsTable self.now }
        requires bound { bound ≤ length self.now }
        requires below { (k : ℕ) → Contains places.now k → k < bound }
        ensures { IsSpent left (args_nodes (terms_of (map (term_at (entry_terms self.now)) places.now))) result }
    {
        let mut rest = left;
        for place in places {
            match self.after_place(*place, rest) {
                Some(less) => rest = less,
                None => return None,
            }
        }
        Some(rest)
    }
}
