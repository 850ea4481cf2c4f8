//! The instances of a clause with a given trigger.
ghost use Rattle.std.specs.Prelude.{◌≡◌, ◌↔◌, ◌<◌, ℕ, length, map, Contains, IfOk, IsTrue};
ghost use Rattle.mz_ground.specs.Ground.{term_at, ground_terms};
ghost use Rattle.mz_ground.specs.Instance.{trigger_at};
ghost use Rattle.mz_ground.specs.Growth.{IsNumbered};
ghost use Rattle.mz_ground.specs.Instances.{expression_at, IsExpressionPlace, IsTriggerValue, IsMatch};

use crate::clause::Clause;
use crate::expression_place::ExpressionPlace;
use crate::ground_part::Ground;
use crate::places::Places;
use crate::trigger::Trigger;
use std::alloc::{AllocError, Global};

impl Ground {
    /// The places of the terms at which the trigger of the clause is the ground term or atom at the place. There
    /// is at most one such list, since the trigger has each variable.
    #[tactic(auto, using(crate::proofs::TriggerLemmas::match_rules))]
    pub fn matching(
        &self,
        alloc: Global,
        c: &Clause,
        at: ExpressionPlace,
    ) -> Result<Option<Places>, AllocError>
        requires numbered { IsNumbered self.now }
        requires within { IsExpressionPlace self.now at }
        ensures { IfOk result (λ r. IsMatch self.now c.now (expression_at self.now at) r) }
    {
        let mut places = Places::new(alloc);
        for index in 0..c.variables {
            match self.value(index, &c.trigger, at) {
                Some(place) => places.push(place)?,
                None => return Ok(None),
            }
        }
        if self.is_instance(places.as_slice(), &c.trigger, at) {
            Ok(Some(places))
        } else {
            Ok(None)
        }
    }

    #[tactic(auto, using(crate::proofs::TriggerLemmas::trigger_value_rules))]
    fn value(&self, index: u32, r: &Trigger, at: ExpressionPlace) -> Option<usize>
        requires numbered { IsNumbered self.now }
        requires within { IsExpressionPlace self.now at }
        ensures { IsTriggerValue self.now index r.now (expression_at self.now at) result }
    {
        match (r, at) {
            (Trigger::Term(t), ExpressionPlace::Term(place)) => self
                .terms
                .value_in(index, t, place),
            (Trigger::Atom(s, us), ExpressionPlace::Atom(place)) => {
                let atom = self.atoms.get(place);
                if s.is(atom.sym) {
                    self.terms.value_among(index, us, atom.args.as_slice())
                } else {
                    None
                }
            }
            _ => None,
        }
    }

    #[tactic(auto, using(crate::proofs::TriggerLemmas::instance_rules))]
    fn is_instance(&self, args: &[usize], r: &Trigger, at: ExpressionPlace) -> bool
        requires numbered { IsNumbered self.now }
        requires args { (k : ℕ) → Contains args.now k → k < length self.now.terms }
        requires within { IsExpressionPlace self.now at }
        ensures { IsTrue result ↔ (trigger_at (map (term_at (ground_terms self.now)) args.now) r.now ≡ expression_at self.now at) }
    {
        match (r, at) {
            (Trigger::Term(t), ExpressionPlace::Term(place)) => self
                .terms
                .is_instance_at(args, t, place),
            (Trigger::Atom(s, us), ExpressionPlace::Atom(place)) => {
                let atom = self.atoms.get(place);
                s.is(atom.sym) && self.terms.are_instances_at(args, us, atom.args.as_slice())
            }
            _ => false,
        }
    }
}
