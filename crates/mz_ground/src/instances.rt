//! The expressions of instances of clauses put into a ground part.
ghost use Rattle.std.specs.Prelude.{◌≡◌, ◌∷◌, ◌++◌, [], ℕ, List, Contains, OnOk};
ghost use Rattle.mz_logic.specs.Term.{Term};
ghost use Rattle.mz_ground.specs.Heads.{AreTriggerPlaces};
ghost use Rattle.mz_ground.specs.Instance.{premises_at, conclusion_at};
ghost use Rattle.mz_ground.specs.Growth.{IsNumbered, ReadsIn, Grows, IsExpressionOfLiterals};
ghost use Rattle.mz_ground.specs.Instances.{place_like, IsExpressionPlace, IsExpressionAt, IsAmong, IsNew, IsInstanceExpression, IsAddedBy, IsEndIn};

use crate::clause::Clause;
use crate::expression_place::{ExpressionPlace, place_like};
use crate::ground_part::Ground;
use crate::trigger_places::TriggerPlaces;
use std::alloc::{AllocError, Global};

const MOST_TERMS: usize = 4096;

impl Ground {
    /// Puts the expressions of the instances whose triggers stand at the places into the ground part; no more where there
    /// are more than 4,096 terms.
    #[tactic(auto, using(crate::proofs::InstanceLemmas::clauses_rules))]
    pub(crate) fn add_clauses(
        &mut self,
        alloc: Global,
        cs: &[Clause],
        places: &TriggerPlaces,
    ) -> Result<(), AllocError>
        requires numbered { IsNumbered self.old }
        requires end { IsEndIn self.old places.now.end }
        requires places { AreTriggerPlaces self.old places.now }
        ensures { OnOk result (Grows self.old (IsAddedBy cs.now (IsNew self.old places.now.start places.now.end)) self.new) }
    {
        for c in cs {
            self.add_clause(alloc, c, places)?;
        }
        Ok(())
    }

    #[tactic(auto, using(crate::proofs::InstanceLemmas::clause_rules))]
    fn add_clause(
        &mut self,
        alloc: Global,
        c: &Clause,
        places: &TriggerPlaces,
    ) -> Result<(), AllocError>
        requires numbered { IsNumbered self.old }
        requires end { IsEndIn self.old places.now.end }
        requires places { AreTriggerPlaces self.old places.now }
        ensures { OnOk result (Grows self.old (IsInstanceExpression c.now (IsNew self.old places.now.start places.now.end)) self.new) }
    {
        self.add_at(alloc, c, places.candidates(&c.trigger))?;
        Ok(())
    }

    // The same for the instances whose trigger is one of the terms or atoms at the places. Above the limit of atoms the
    // instances are still made, since the terms that they add are compared with their limit first.
    #[tactic(auto, using(crate::proofs::InstanceLemmas::places_rules))]
    fn add_at(&mut self, alloc: Global, c: &Clause, places: &[usize]) -> Result<(), AllocError>
        requires numbered { IsNumbered self.old }
        requires within { (k : ℕ) → Contains places.now k → IsExpressionPlace self.old (place_like c.now.trigger k) }
        ensures { OnOk result (Grows self.old (IsInstanceExpression c.now (IsAmong self.old c.now.trigger places.now)) self.new) }
    {
        for place in places {
            if self.terms.len() > MOST_TERMS {
                return Ok(());
            }
            self.add_match(alloc, c, place_like(&c.trigger, *place))?;
        }
        Ok(())
    }

    // Puts the expressions of the instance whose trigger is the term or atom at the place into the ground part.
    #[tactic(auto, using(crate::proofs::InstanceLemmas::match_rules))]
    fn add_match(
        &mut self,
        alloc: Global,
        c: &Clause,
        at: ExpressionPlace,
    ) -> Result<(), AllocError>
        requires numbered { IsNumbered self.old }
        requires within { IsExpressionPlace self.old at }
        ensures { OnOk result (Grows self.old (IsInstanceExpression c.now (IsExpressionAt self.old at)) self.new) }
    {
        match self.matching(alloc, c, at)? {
            Some(places) => {
                if self.terms.fits(places.as_slice(), c) {
                    self.add_instance(alloc, places.as_slice(), c)?;
                    Ok(())
                } else {
                    Ok(())
                }
            }
            None => Ok(()),
        }
    }

    #[tactic(auto, using(crate::proofs::InstanceLemmas::instance_rules))]
    fn add_instance(&mut self, alloc: Global, args: &[usize], c: &Clause) -> Result<(), AllocError>
        ensures { OnOk result ((ts : List Term) → ReadsIn self.old args.now ts → Grows self.old (IsExpressionOfLiterals (premises_at c.now ts ++ conclusion_at c.now ts ∷ [])) self.new) }
    {
        self.add_literals(alloc, args, &c.premises)?;
        self.add_literal(alloc, args, &c.conclusion)?;
        Ok(())
    }
}
