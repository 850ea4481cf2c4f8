//! What an article has left of its nodes.
ghost use Rattle.std.specs.Prelude.{◌≡◌, ◌<◌, ◌≤◌, ℕ, min, IfOk, MatchBool};
ghost use Rattle.mz_ground.specs.Nodes.{IsSpent};
ghost use Rattle.mz_resolve.specs.Spending.{spent};

use mz_core::outcome::Left;
use std::alloc::AllocError;

/// How many nodes an article has left; more than 4,294,967,295 count as so many.
pub fn budget(left: &Left) -> u32
    ensures { result ≡ min left.now.nodes 4294967295 }
{
    if left.nodes > 4294967295 {
        4294967295
    } else {
        left.nodes as u32
    }
}

/// Whether the article has so many nodes left: those after which so many of its budget are left. Then they are spent. More than
/// 4,294,967,295 nodes are as no memory.
#[tactic(auto, using(crate::proofs::SpendingLemmas::spend_rules))]
pub fn spend(left: &mut Left, rest: Option<u32>) -> Result<bool, AllocError>
    ensures { (n : ℕ) → IsSpent (min left.old.nodes 4294967295) n rest → IfOk result (λ b. MatchBool b ((n ≤ left.old.nodes) × (left.new ≡ spent left.old n)) (left.old.nodes < n)) }
{
    let most = budget(left);
    match rest {
        Some(less) => {
            let nodes = most.checked_sub(less).ok_or(AllocError)?;
            let after = left.nodes.checked_sub(nodes as u64).ok_or(AllocError)?;
            left.nodes = after;
            Ok(true)
        }
        None => {
            if left.nodes > 4294967295 {
                return Err(AllocError);
            }
            Ok(false)
        }
    }
}
