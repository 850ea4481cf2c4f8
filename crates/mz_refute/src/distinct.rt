//! Numbers of which equal ones stand once.
ghost use Rattle.std.specs.Prelude.{◌≡◌, ◌++◌, ◌∷◌, [], ℕ, List, true, not, IfOk, OnOk, nat_eq, if◌then◌else◌};
ghost use Rattle.std.specs.HashSet.{contains};
ghost use Rattle.mz_refute.specs.Distinct.{AreNoted};
ghost use Rattle.mz_refute.specs.Entries.{HaveSameMembers};

use std::alloc::{AllocError, Global};
use std::collections::HashSet;

/// The numbers, each once.
pub fn distinct(alloc: Global, numbers: &[usize]) -> Result<Vec<usize>, AllocError>
    ensures { IfOk result (λ out. HaveSameMembers out.items numbers.now) }
{
    let mut seen = HashSet::new(alloc);
    let mut out = Vec::new(alloc);
    for n in numbers {
        put_once(&mut out, &mut seen, *n)?;
    }
    Ok(out)
}

#[tactic(auto, using(crate::proofs::DistinctLemmas::put_rules))]
fn put_once(out: &mut Vec<usize>, seen: &mut HashSet<usize>, n: usize) -> Result<(), AllocError>
    ensures { OnOk result ((ns : List ℕ) → AreNoted ns out.old.items seen.old → AreNoted (ns ++ n ∷ []) out.new.items seen.new) }
{
    if note(seen, n)? {
        out.push(n)?;
        Ok(())
    } else {
        Ok(())
    }
}

/// Notes a number, and tells whether it is noted for the first time.
fn note(seen: &mut HashSet<usize>, n: usize) -> Result<bool, AllocError>
    ensures first { IfOk result (λ first. first ≡ not (contains nat_eq seen.old n)) }
    ensures noted { OnOk result ((v : ℕ) → contains nat_eq seen.new v ≡ (if nat_eq n v then true else contains nat_eq seen.old v)) }
{
    Ok(seen.insert(n)?)
}
