//! In which order an aggregate's pattern has the fields.
ghost use Rattle.std.specs.Prelude.{◌≡◌, ◌&&◌, not, IfOk};
ghost use Rattle.mz_fields.specs.Order.{is_taken, is_free_of, is_ready, first_ready, order_from, field_order};

use mz_base::numbers::Numbers;
use mz_context::gather::occurs_in_type;
use mz_core::soft_type::SoftType;
use std::alloc::{AllocError, Global};

fn is_taken(taken: &[u64], k: u64) -> bool
    ensures { result ≡ is_taken taken.now k }
{
    taken.iter().any(|n| k == *n)
}

fn is_free_of(y: u32, taken: &[u64], ty: &SoftType, k: u32) -> Result<bool, AllocError>
    ensures { IfOk result (λ b. b ≡ is_free_of y taken.now ty.now k) }
{
    let value = y
        .checked_add(1)
        .ok_or(AllocError)?
        .checked_add(k)
        .ok_or(AllocError)?;
    Ok(is_taken(taken, k as u64) || !occurs_in_type(ty, value))
}

/// Whether the type speaks neither of the object nor, of so many fields, of one that isn't taken.
#[tactic(auto, using(crate::proofs::OrderLemmas::ready_rules))]
fn is_ready(y: u32, count: u32, taken: &[u64], ty: &SoftType) -> Result<bool, AllocError>
    ensures { IfOk result (λ b. b ≡ is_ready y count taken.now ty.now) }
{
    let mut k = count;
    while k > 0 {
        k -= 1;
        if !is_free_of(y, taken, ty, k)? {
            return Ok(false);
        }
    }
    Ok(!occurs_in_type(ty, y))
}

fn is_next(y: u32, count: u32, taken: &[u64], place: u64, ty: &SoftType) -> Result<bool, AllocError>
    ensures { IfOk result (λ b. b ≡ (not (is_taken taken.now place) && is_ready y count taken.now ty.now)) }
{
    if is_taken(taken, place) {
        return Ok(false);
    }
    is_ready(y, count, taken, ty)
}

/// The first place of a type that isn't taken and is ready.
#[tactic(auto, using(crate::proofs::OrderLemmas::first_rules))]
fn first_ready(
    y: u32,
    count: u32,
    taken: &[u64],
    tys: &[SoftType],
) -> Result<Option<u64>, AllocError>
    ensures { IfOk result (λ o. o ≡ first_ready y count taken.now 0 tys.now) }
{
    let mut place = 0;
    let mut rest = tys;
    while let Some((ty, others)) = rest.split_first() {
        if is_next(y, count, taken, place, ty)? {
            return Ok(Some(place));
        }
        place = place.checked_add(1).ok_or(AllocError)?;
        rest = others;
    }
    Ok(None)
}

/// The places of the fields, from 0, whose types these are, in the order in which a pattern has them: again and again the first one that
/// isn't taken and whose type speaks neither of the object, the constant y, nor of a field that isn't taken. The fields' values are the
/// constants behind y. Where the types speak of one another in a circle, some places are missing.
#[tactic(auto, using(crate::proofs::OrderLemmas::order_rules))]
pub fn field_order(alloc: Global, y: u32, tys: &[SoftType]) -> Result<Numbers, AllocError>
    ensures { IfOk result (λ ns. ns ≡ field_order y tys.now) }
{
    let count = u32::try_from(tys.len()).map_err(|_| AllocError)?;
    let mut taken = Numbers::new(alloc);
    let mut left = count;
    while left > 0 {
        match first_ready(y, count, taken.as_slice(), tys)? {
            None => return Ok(taken),
            Some(place) => taken.push(place)?,
        }
        left -= 1;
    }
    Ok(taken)
}
