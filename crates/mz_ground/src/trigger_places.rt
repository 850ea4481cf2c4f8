//! The places of the terms and atoms that a layer added, by their heads.
ghost use Rattle.std.specs.Prelude.{◌≡◌, ◌<◌, ◌≤◌, length, IfOk};
ghost use Rattle.mz_ground.specs.Heads.{head_hash, symbol_hash, AreByHash, AreFrom, AreTriggerPlaces, candidates};
ghost use Rattle.mz_ground.specs.Instances.{IsSpan};

use crate::ground_atoms::GroundAtoms;
use crate::ground_part::Ground;
use crate::ground_term::GroundTerm;
use crate::ground_terms::GroundTerms;
use crate::hash_places::{hash_with, hash_with_symbol};
use crate::head_places::HeadPlaces;
use crate::layer_ends::LayerEnd;
use crate::places::Places;
use crate::trigger::Trigger;
use mz_logic::term::TermNode;
use std::alloc::{AllocError, Global};

/// The places of the terms and atoms behind one end of layers and before another, by their heads, and those of all of
/// these terms.
pub struct TriggerPlaces {
    pub start: LayerEnd,
    pub end: LayerEnd,
    pub all: Places,
    pub terms: HeadPlaces,
    pub atoms: HeadPlaces,
}

impl Drop for TriggerPlaces {
    fn drop(self) {
        let TriggerPlaces {
            start: _start,
            end: _end,
            all: _all,
            terms: _terms,
            atoms: _atoms,
        } = self;
    }
}

impl TriggerPlaces {
    /// The places of the terms and atoms of a ground part behind the one end of layers and before the other.
    pub fn of(
        alloc: Global,
        g: &Ground,
        start: LayerEnd,
        end: LayerEnd,
    ) -> Result<TriggerPlaces, AllocError>
        requires { IsSpan g.now start end }
        ensures ends { IfOk result (λ x. (x.start ≡ start) × (x.end ≡ end)) }
        ensures places { IfOk result (λ x. AreTriggerPlaces g.now x) }
    {
        let all = places_from(alloc, start.terms, end.terms)?;
        let terms = term_places(alloc, &g.terms, start.terms, end.terms)?;
        let atoms = atom_places(alloc, &g.atoms, start.atoms, end.atoms)?;
        Ok(TriggerPlaces {
            start,
            end,
            all,
            terms,
            atoms,
        })
    }

    /// The places where a trigger may stand.
    pub fn candidates(&self, r: &Trigger) -> &[usize]
        requires terms { 0 < length self.now.terms }
        requires atoms { 0 < length self.now.atoms }
        ensures { result.now ≡ candidates self.now r.now }
    {
        match r {
            Trigger::Term(t) => match &t.node {
                TermNode::Bound(_) => self.all.as_slice(),
                TermNode::Const(number) => self.terms.get(hash_with(0, u64::from(*number))),
                TermNode::App(s, _) => self.terms.get(hash_with_symbol(1, *s)),
            },
            Trigger::Atom(s, _) => self.atoms.get(hash_with_symbol(0, *s)),
        }
    }
}

#[tactic(auto, using(crate::proofs::HeadLemmas::from_rules))]
fn places_from(alloc: Global, start: usize, end: usize) -> Result<Places, AllocError>
    requires { start ≤ end }
    ensures { IfOk result (λ ks. AreFrom start end ks) }
{
    let mut places = Places::new(alloc);
    for k in start..end {
        places.push(k)?;
    }
    Ok(places)
}

fn head_hash(t: &GroundTerm) -> u64
    ensures { result ≡ head_hash t.now }
{
    match t {
        GroundTerm::Const(number) => hash_with(0, u64::from(*number)),
        GroundTerm::App { sym, args: _ } => hash_with_symbol(1, *sym),
    }
}

#[tactic(auto, using(crate::proofs::HeadLemmas::hash_rules))]
fn term_places(
    alloc: Global,
    terms: &GroundTerms,
    start: usize,
    end: usize,
) -> Result<HeadPlaces, AllocError>
    requires span { start ≤ end }
    requires end { end ≤ length terms.now }
    ensures { IfOk result (λ x. AreByHash head_hash terms.now start end x) }
{
    let mut places = HeadPlaces::new(alloc, end.saturating_sub(start).saturating_mul(4))?;
    for k in start..end {
        places.push(head_hash(terms.get(k)), k)?;
    }
    Ok(places)
}

#[tactic(auto, using(crate::proofs::HeadLemmas::hash_rules))]
fn atom_places(
    alloc: Global,
    atoms: &GroundAtoms,
    start: usize,
    end: usize,
) -> Result<HeadPlaces, AllocError>
    requires span { start ≤ end }
    requires end { end ≤ length atoms.now }
    ensures { IfOk result (λ x. AreByHash symbol_hash atoms.now start end x) }
{
    let mut places = HeadPlaces::new(alloc, end.saturating_sub(start).saturating_mul(4))?;
    for k in start..end {
        places.push(hash_with_symbol(0, atoms.get(k).sym), k)?;
    }
    Ok(places)
}
