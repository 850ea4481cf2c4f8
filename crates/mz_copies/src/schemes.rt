//! Copies of schemes.
ghost use Rattle.std.specs.Prelude.{◌≡◌, IfOk};

use mz_core::scheme::{Scheme, SchemeLetter, SchemeLetters};
use std::alloc::{AllocError, Global};

/// An equal letter.
pub fn scheme_letter_copy(alloc: Global, x: &SchemeLetter) -> Result<SchemeLetter, AllocError>
    ensures { IfOk result (λ y. y ≡ x.now) }
{
    match x {
        SchemeLetter::OfFunctor(s, places, ty) => {
            let places = places.copy(alloc)?;
            let ty = ty.copy(alloc)?;
            Ok(SchemeLetter::OfFunctor(*s, places, ty))
        }
        SchemeLetter::OfPredicate(s, places) => {
            let places = places.copy(alloc)?;
            Ok(SchemeLetter::OfPredicate(*s, places))
        }
    }
}

/// Equal letters.
pub fn scheme_letters_copy(alloc: Global, xs: &SchemeLetters) -> Result<SchemeLetters, AllocError>
    ensures { IfOk result (λ ys. ys ≡ xs.now) }
{
    let mut out = Vec::new(alloc);
    for x in &xs.items {
        out.push(scheme_letter_copy(alloc, x)?)?;
    }
    Ok(SchemeLetters { items: out })
}

/// An equal scheme.
pub fn scheme_copy(alloc: Global, x: &Scheme) -> Result<Scheme, AllocError>
    ensures { IfOk result (λ y. y ≡ x.now) }
{
    let letters = scheme_letters_copy(alloc, &x.letters)?;
    let premises = x.premises.copy(alloc)?;
    let conclusion = x.conclusion.copy(alloc)?;
    Ok(Scheme {
        letters,
        premises,
        conclusion,
    })
}
