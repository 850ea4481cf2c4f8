//! The ground part of a disjunct under clauses, layer by layer.
ghost use Rattle.std.specs.Prelude.{◌≡◌, List, MatchResult, IfOk, OnOk, IfErr};
ghost use Rattle.mz_ground.specs.Ground.{GroundFails, IsGroundWithinLimits};
ghost use Rattle.mz_ground.specs.Growth.{IsNumbered, Grows};
ghost use Rattle.mz_ground.specs.Instances.{IsAddedBy, IsNew, IsSpan};
ghost use Rattle.mz_ground.specs.Making.{whole_end, IsFirst, IsFilling, IsClosed, ClosingFails};
ghost use Rattle.mz_ground.specs.declared.clause.Clause.{Clause};

use crate::clause::Clause;
use crate::ground_atoms::GroundAtoms;
use crate::ground_equations::GroundEquations;
use crate::ground_fault::GroundFault;
use crate::ground_part::Ground;
use crate::ground_term::GroundTerm;
use crate::ground_terms::GroundTerms;
use crate::layer_ends::{LayerEnd, LayerEnds};
use crate::trigger_places::TriggerPlaces;
use mz_logic::disjunct::Disjunct;
use std::alloc::{AllocError, Global};

const MOST_TERMS: usize = 4096;

const MOST_ATOMS: usize = 16384;

const FURTHER_LAYERS: usize = 4;

/// The ground part of a disjunct under clauses. Its first layer has the constant 0 and what has no index in the
/// literals and universals; each of four further layers has what the one before it has, and what has no index in
/// the premises and conclusions of the instances whose trigger stands in the layer before and which have at most
/// 4,096 nodes. After each layer the terms are counted, and then the atoms: more than 4,096 terms are
/// `TooManyTerms`, more than 16,384 atoms `TooManyAtoms`.
#[tactic(auto, using(crate::proofs::LayerLemmas::ground_rules))]
pub fn ground(alloc: Global, d: &Disjunct, clauses: &[Clause]) -> Result<Ground, GroundFault>
    ensures { MatchResult result (IsGroundWithinLimits d.now clauses.now) (GroundFails d.now clauses.now) }
{
    let mut g = base(alloc, d)?;
    g.close_layer()?;
    let mut start = LayerEnd {
        terms: 0,
        atoms: 0,
        equations: 0,
    };
    for _layer in 0..FURTHER_LAYERS {
        let end = g.add_layer(alloc, clauses, start)?;
        g.close_layer()?;
        start = end;
    }
    Ok(g)
}

// The first layer, without its end.
#[tactic(auto, using(crate::proofs::LayerLemmas::base_rules))]
fn base(alloc: Global, d: &Disjunct) -> Result<Ground, AllocError>
    ensures { IfOk result (λ g. (cs : List Clause) → IsFilling d.now cs g 0) }
{
    let mut g = first(alloc)?;
    g.add_literals(alloc, &[], &d.literals)?;
    g.add_formulas(alloc, &d.universals)?;
    Ok(g)
}

// The constant 0 alone.
#[tactic(auto, using(crate::proofs::LayerLemmas::first_rules))]
fn first(alloc: Global) -> Result<Ground, AllocError>
    ensures { IfOk result IsFirst }
{
    let mut terms = GroundTerms::new(alloc);
    terms.push(GroundTerm::Const(0))?;
    Ok(Ground {
        terms,
        atoms: GroundAtoms::new(alloc),
        equations: GroundEquations::new(alloc),
        ends: LayerEnds::new(alloc),
    })
}

impl Ground {
    /// How many terms, atoms and equations there are.
    pub fn end(&self) -> LayerEnd
        ensures { result ≡ whole_end self.now }
    {
        LayerEnd {
            terms: self.terms.len(),
            atoms: self.atoms.len(),
            equations: self.equations.len(),
        }
    }

    // Puts what the instances have whose triggers stand behind the start. The end of what was there before.
    #[tactic(auto, using(crate::proofs::LayerLemmas::add_layer_rules))]
    fn add_layer(
        &mut self,
        alloc: Global,
        clauses: &[Clause],
        start: LayerEnd,
    ) -> Result<LayerEnd, AllocError>
        requires numbered { IsNumbered self.old }
        requires span { IsSpan self.old start (whole_end self.old) }
        ensures { IfOk result (λ end. (end ≡ whole_end self.old) × Grows self.old (IsAddedBy clauses.now (IsNew self.old start (whole_end self.old))) self.new) }
    {
        let end = self.end();
        if start.terms == end.terms && start.atoms == end.atoms {
            return Ok(end);
        }
        let places = TriggerPlaces::of(alloc, self, start, end)?;
        self.add_clauses(alloc, clauses, &places)?;
        Ok(end)
    }

    // Notes the end of the layer, if it keeps the limits.
    fn close_layer(&mut self) -> Result<(), GroundFault>
        ensures ok { OnOk result (IsClosed self.old self.new) }
        ensures err { IfErr result (ClosingFails self.old) }
    {
        let end = self.end();
        if end.terms > MOST_TERMS {
            return Err(GroundFault::TooManyTerms);
        }
        if end.atoms > MOST_ATOMS {
            return Err(GroundFault::TooManyAtoms);
        }
        self.ends.push(end)?;
        Ok(())
    }
}
