//! Closed terms put among the ground terms.
ghost use Rattle.std.specs.Prelude.{◌≡◌, List, None, Some, Contains, map, slice_get, IfOk, MatchOption};
ghost use Rattle.mz_logic.specs.Term.{Term};
ghost use Rattle.mz_ground.specs.Table.{Reads, AddsTerm, AddsTerms};

use crate::ground_term::GroundTerm;
use crate::ground_terms::GroundTerms;
use crate::places::Places;
use mz_logic::term::{Term, TermNode, Terms};
use std::alloc::{AllocError, Global};

impl GroundTerms {
    /// Puts each term without an index within `t` among the entries, where the terms at the places `args` stand
    /// for the indices from 0 on. The place of `t`, if it has no index then.
    #[cycle(add)]
    #[tactic(auto, using(crate::proofs::AddLemmas::add_rules))]
    pub(crate) fn add(
        &mut self,
        alloc: Global,
        args: &[usize],
        t: &Term,
    ) -> Result<Option<usize>, AllocError>
        ensures { IfOk result (λ r. (ts : List Term) → Reads self.old args.now ts → AddsTerm self.old ts t.now r self.new) }
    {
        match &t.node {
            TermNode::Bound(index) => Ok(place_for(args, *index)),
            TermNode::Const(number) => {
                let place = self.place(GroundTerm::Const(*number))?;
                Ok(Some(place))
            }
            TermNode::App(sym, us) => match self.add_all(alloc, args, us)? {
                Some(places) => {
                    let place = self.place(GroundTerm::App {
                        sym: *sym,
                        args: places,
                    })?;
                    Ok(Some(place))
                }
                None => Ok(None),
            },
        }
    }

    /// Puts each term without an index within `us` among the entries, where the terms at the places `args` stand
    /// for the indices from 0 on. The places of `us`, if none of them has an index then.
    #[cycle(add)]
    #[tactic(auto, using(crate::proofs::AddLemmas::all_rules))]
    pub(crate) fn add_all(
        &mut self,
        alloc: Global,
        args: &[usize],
        us: &Terms,
    ) -> Result<Option<Places>, AllocError>
        ensures { IfOk result (λ r. (ts : List Term) → Reads self.old args.now ts → AddsTerms self.old ts us.now r self.new) }
    {
        let mut found = Vec::new(alloc);
        for u in &us.items {
            found.push(self.add(alloc, args, u)?)?;
        }
        let places = all_found(alloc, found.as_slice())?;
        Ok(places)
    }
}

/// The place at an index, if there is one.
pub fn place_for(args: &[usize], index: u32) -> Option<usize>
    ensures { result ≡ slice_get args.now index }
{
    args.get(index as usize).copied()
}

// The places, if each is there.
fn all_found(alloc: Global, found: &[Option<usize>]) -> Result<Option<Places>, AllocError>
    ensures { IfOk result (λ r. MatchOption r (Contains found.now None) (λ ks. found.now ≡ map Some ks)) }
{
    let mut places = Places::new(alloc);
    for item in found {
        match item {
            Some(place) => places.push(*place)?,
            None => return Ok(None),
        }
    }
    Ok(Some(places))
}
