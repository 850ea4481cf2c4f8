//! Matching of formal terms over loci.
ghost use Rattle.std.specs.Prelude.{◌≡◌, ◌<◌, ◌≤◌, ◌-◌, suc, IfOk, IsTrue};
ghost use Rattle.mz_fits.specs.Matching.{Placed, Matched, AllMatched, Accepted};

use crate::fits::{are_equal, loci_fit};
use crate::fixed::Fixed;
use mz_context::constants::Constants;
use mz_core::soft_types::SoftTypes;
use mz_ground::clause::Clause;
use mz_logic::term::{Term, TermNode, Terms};
use std::alloc::{AllocError, Global};

/// Takes a term for the locus at a place: fixes it, or compares the term with what it is fixed to, by the facts where
/// they differ. None where they aren't equal.
#[tactic(auto, using(crate::proofs::MatchLemmas::placed_rules))]
pub fn place(
    alloc: Global,
    clauses: &[Clause],
    constants: &Constants,
    fixed: Fixed,
    place: usize,
    t: &Term,
) -> Result<Option<Fixed>, AllocError>
    ensures { IfOk result (λ o. Placed clauses.now constants.now fixed place t.now o) }
{
    let mut fs = fixed;
    if place >= fs.items.len() {
        return Ok(None);
    }
    match &fs.items[place] {
        Some(u) => {
            if are_equal(alloc, clauses, constants, u, t)? {
                Ok(Some(fs))
            } else {
                Ok(None)
            }
        }
        None => {
            let t = t.copy(alloc)?;
            fs.items[place] = Some(t);
            Ok(Some(fs))
        }
    }
}

/// Matches a formal term under `scope` loci with a term.
#[cycle(matching)]
#[tactic(auto, using(crate::proofs::MatchLemmas::matched_rules))]
pub fn matches(
    alloc: Global,
    clauses: &[Clause],
    constants: &Constants,
    scope: usize,
    fixed: Fixed,
    formal: &Term,
    t: &Term,
) -> Result<Option<Fixed>, AllocError>
    ensures { IfOk result (λ o. Matched clauses.now constants.now scope fixed formal.now t.now o) }
{
    match (&formal.node, &t.node) {
        (TermNode::Bound(index), _) => {
            let i = *index as usize;
            if i < scope {
                let placed = place(alloc, clauses, constants, fixed, scope - 1 - i, t)?;
                Ok(placed)
            } else {
                Ok(None)
            }
        }
        (TermNode::Const(m), TermNode::Const(n)) => {
            if *m == *n { Ok(Some(fixed)) } else { Ok(None) }
        }
        (TermNode::App(r, us), TermNode::App(s, ts)) => {
            if r.is(*s) {
                let matched = all_match(
                    alloc,
                    clauses,
                    constants,
                    scope,
                    fixed,
                    us.items.as_slice(),
                    ts.items.as_slice(),
                )?;
                Ok(matched)
            } else {
                Ok(None)
            }
        }
        _ => Ok(None),
    }
}

/// Matches formal terms with as many terms, in turn.
#[cycle(matching)]
pub fn all_match(
    alloc: Global,
    clauses: &[Clause],
    constants: &Constants,
    scope: usize,
    fixed: Fixed,
    formals: &[Term],
    terms: &[Term],
) -> Result<Option<Fixed>, AllocError>
    ensures { IfOk result (λ o. AllMatched clauses.now constants.now scope fixed formals.now terms.now o) }
{
    let mut between = fixed;
    let mut us = formals;
    let mut ts = terms;
    while let Some((u, other_us)) = us.split_first() {
        let Some((t, other_ts)) = ts.split_first() else {
            return Ok(None);
        };
        match matches(alloc, clauses, constants, scope, between, u, t)? {
            Some(behind) => between = behind,
            None => return Ok(None),
        }
        us = other_us;
        ts = other_ts;
    }
    if ts.len() == 0 {
        Ok(Some(between))
    } else {
        Ok(None)
    }
}

/// The values of the loci, where each is fixed and the guards of all of them fit.
#[tactic(auto, using(crate::proofs::MatchLemmas::accepted_rules))]
pub fn accepted(
    alloc: Global,
    clauses: &[Clause],
    constants: &Constants,
    loci: &SoftTypes,
    fixed: &Fixed,
) -> Result<Option<Terms>, AllocError>
    ensures { IfOk result (λ ts. Accepted clauses.now constants.now loci.now fixed.now ts) }
{
    match fixed.values(alloc)? {
        None => Ok(None),
        Some(values) => {
            let fit = loci_fit(
                alloc,
                clauses,
                constants,
                loci.items.as_slice(),
                values.items.as_slice(),
            )?;
            if fit { Ok(Some(values)) } else { Ok(None) }
        }
    }
}
