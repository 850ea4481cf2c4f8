//! How large the instances of types by letters are.
ghost use Rattle.std.specs.Prelude.{◌≡◌, map, IfOk};
ghost use Rattle.mz_sizes.specs.Sizes.{type_keeps};
ghost use Rattle.mz_following.specs.TypeInstance.{type_instance};
ghost use Rattle.mz_instance_sizes.specs.Sizes.{all_beside};
ghost use Rattle.mz_instance_sizes.specs.Instances.{terms_instance_size, adjective_instance_size, type_instance_size};

use crate::instances::{all_beside, instance_sizes};
use crate::size::{Size, nothing};
use mz_core::adjective::Adjective;
use mz_core::adjectives::Adjectives;
use mz_core::soft_type::SoftType;
use mz_logic::letters::Letters;
use mz_logic::term::Terms;
use std::alloc::{AllocError, Global};

#[tactic(auto, using(crate::proofs::InstanceLemmas::list_rules))]
fn terms_instance_size(alloc: Global, ts: &Terms, letters: &Letters) -> Result<Size, AllocError>
    ensures { IfOk result (λ x. x ≡ terms_instance_size letters.now ts.now) }
{
    let sizes = instance_sizes(alloc, ts, letters)?;
    Ok(all_beside(sizes.as_slice()).above())
}

fn adjective_instance_size(
    alloc: Global,
    a: &Adjective,
    letters: &Letters,
) -> Result<Size, AllocError>
    ensures { IfOk result (λ x. x ≡ adjective_instance_size letters.now a.now) }
{
    terms_instance_size(alloc, &a.args, letters)
}

#[tactic(auto, using(crate::proofs::BesideLemmas::more_rules))]
fn adjectives_instance_size(
    alloc: Global,
    xs: &Adjectives,
    letters: &Letters,
) -> Result<Size, AllocError>
    ensures { IfOk result (λ x. x ≡ all_beside (map (adjective_instance_size letters.now) xs.now)) }
{
    let mut out = nothing();
    for a in &xs.items {
        let x = adjective_instance_size(alloc, a, letters)?;
        out = out.beside(x);
    }
    Ok(out)
}

fn type_instance_size(alloc: Global, ty: &SoftType, letters: &Letters) -> Result<Size, AllocError>
    ensures { IfOk result (λ x. x ≡ type_instance_size letters.now ty.now) }
{
    let radix = terms_instance_size(alloc, &ty.radix.args, letters)?;
    let adjectives = adjectives_instance_size(alloc, &ty.adjectives, letters)?;
    Ok(radix.beside(adjectives))
}

/// Whether the instance of the type by letters is within the limits of an expression. It isn't made.
#[tactic(auto, using(crate::proofs::TypeLemmas::keep_rules))]
pub fn is_type_kept(alloc: Global, ty: &SoftType, letters: &Letters) -> Result<bool, AllocError>
    ensures { IfOk result (λ b. b ≡ type_keeps (type_instance letters.now ty.now)) }
{
    let x = type_instance_size(alloc, ty, letters)?;
    Ok(x.is_kept())
}
