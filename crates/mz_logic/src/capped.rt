//! Sums and products of counts that stop at 1,000,000,000.
ghost use Rattle.std.specs.Prelude.{◌≡◌, ◌+◌, ◌*◌};
ghost use Rattle.mz_logic.specs.Capped.{capped};

/// The number at which a count stops.
const MOST: u64 = 1_000_000_000;

/// The sum of two counts, or 1,000,000,000 where it is greater.
#[tactic(auto, unfolding(crate::specs::Capped::capped))]
pub fn capped_sum(m: u64, n: u64) -> u64
    ensures { result ≡ capped (m + n) }
{
    m.saturating_add(n).min(MOST)
}

/// The product of two counts, or 1,000,000,000 where it is greater.
#[tactic(auto, unfolding(crate::specs::Capped::capped))]
pub fn capped_product(m: u64, n: u64) -> u64
    ensures { result ≡ capped (m * n) }
{
    m.saturating_mul(n).min(MOST)
}
