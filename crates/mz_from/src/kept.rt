//! Whether the instances that a `from` makes keep the limits of an expression. None of them is made here.
ghost use Rattle.std.specs.Prelude.{◌≡◌, IfOk};
ghost use Rattle.std.specs.List.{list_all};
ghost use Rattle.mz_from.specs.Verdict.{fixed_by_all};
ghost use Rattle.mz_from.specs.Kept.{statement_kept, type_kept, letter_kept, scheme_kept, from_keeps};

use crate::verdict::{follow_premises, follow_statement};
use mz_core::erasure::erase;
use mz_core::scheme::{Scheme, SchemeLetter, SchemeLetters};
use mz_core::soft_type::SoftType;
use mz_core::statement::Statement;
use mz_core::statements::Statements;
use mz_instance_sizes::instances::is_instance_kept;
use mz_instance_sizes::types::is_type_kept;
use mz_logic::letters::Letters;
use std::alloc::{AllocError, Global};

fn statement_kept(alloc: Global, letters: &Letters, p: &Statement) -> Result<bool, AllocError>
    ensures { IfOk result (λ b. b ≡ statement_kept letters.now p.now) }
{
    let f = erase(alloc, p)?;
    let kept = is_instance_kept(alloc, &f, letters)?;
    Ok(kept)
}

fn statements_kept(alloc: Global, letters: &Letters, ps: &[Statement]) -> Result<bool, AllocError>
    ensures { IfOk result (λ b. b ≡ list_all (statement_kept letters.now) ps.now) }
{
    for p in ps {
        let kept = statement_kept(alloc, letters, p)?;
        if !kept {
            return Ok(false);
        }
    }
    Ok(true)
}

fn type_kept(alloc: Global, letters: &Letters, ty: &SoftType) -> Result<bool, AllocError>
    ensures { IfOk result (λ b. b ≡ type_kept letters.now ty.now) }
{
    is_type_kept(alloc, ty, letters)
}

fn types_kept(alloc: Global, letters: &Letters, tys: &[SoftType]) -> Result<bool, AllocError>
    ensures { IfOk result (λ b. b ≡ list_all (type_kept letters.now) tys.now) }
{
    for ty in tys {
        let kept = type_kept(alloc, letters, ty)?;
        if !kept {
            return Ok(false);
        }
    }
    Ok(true)
}

#[tactic(auto, using(crate::proofs::KeptLemmas::letter_rules))]
fn letter_kept(alloc: Global, letters: &Letters, x: &SchemeLetter) -> Result<bool, AllocError>
    ensures { IfOk result (λ b. b ≡ letter_kept letters.now x.now) }
{
    match x {
        SchemeLetter::OfFunctor(_, places, ty) => {
            let places_kept = types_kept(alloc, letters, places.items.as_slice())?;
            let kept = type_kept(alloc, letters, ty)?;
            Ok(places_kept && kept)
        }
        SchemeLetter::OfPredicate(_, _) => Ok(true),
    }
}

fn letters_kept(alloc: Global, letters: &Letters, xs: &SchemeLetters) -> Result<bool, AllocError>
    ensures { IfOk result (λ b. b ≡ list_all (letter_kept letters.now) xs.now) }
{
    for x in &xs.items {
        let kept = letter_kept(alloc, letters, x)?;
        if !kept {
            return Ok(false);
        }
    }
    Ok(true)
}

fn scheme_kept(alloc: Global, letters: &Letters, scheme: &Scheme) -> Result<bool, AllocError>
    ensures { IfOk result (λ b. b ≡ scheme_kept letters.now scheme.now) }
{
    let conclusion = statement_kept(alloc, letters, &scheme.conclusion)?;
    let premises = statements_kept(alloc, letters, scheme.premises.items.as_slice())?;
    let types = letters_kept(alloc, letters, &scheme.letters)?;
    Ok(conclusion && (premises && types))
}

/// The letters as they are fixed by the conclusion and then by the premises.
fn fixed_by_all(
    alloc: Global,
    scheme: &Scheme,
    cited: &Statements,
    s: &Statement,
) -> Result<Letters, AllocError>
    ensures { IfOk result (λ ls. ls ≡ fixed_by_all scheme.now cited.now s.now) }
{
    let mut letters = Letters::new(alloc);
    follow_statement(alloc, &mut letters, &scheme.conclusion, s)?;
    follow_premises(
        alloc,
        &mut letters,
        scheme.premises.items.as_slice(),
        cited.items.as_slice(),
    )?;
    Ok(letters)
}

/// Whether the instances of the scheme that a `from` makes for the statement and what is cited have at most 65,536 nodes and a depth of
/// at most 512 each: that of the conclusion, those of the premises, and those of the types of functor letters and of their places. Where
/// another number of statements is cited than the scheme has premises, none is made.
#[tactic(auto, using(crate::proofs::KeptLemmas::from_rules))]
pub fn from_keeps(
    alloc: Global,
    scheme: &Scheme,
    cited: &Statements,
    s: &Statement,
) -> Result<bool, AllocError>
    ensures { IfOk result (λ b. b ≡ from_keeps scheme.now cited.now s.now) }
{
    if cited.items.len() != scheme.premises.items.len() {
        return Ok(true);
    }
    let letters = fixed_by_all(alloc, scheme, cited, s)?;
    let kept = scheme_kept(alloc, &letters, scheme)?;
    Ok(kept)
}
