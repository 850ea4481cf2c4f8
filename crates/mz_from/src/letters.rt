//! Whether what the letters of a scheme are fixed to fits their types.
ghost use Rattle.std.specs.Prelude.{◌≡◌, ◌↔◌, ◌∷◌, [], IfOk, OnOk, IsTrue, reverse};
ghost use Rattle.mz_logic.specs.Term.{App, terms_of};
ghost use Rattle.mz_logic.specs.Term.{Const};
ghost use Rattle.mz_logic.specs.Instance.{term_instance};
ghost use Rattle.mz_context.specs.Context.{numbers};
ghost use Rattle.mz_fits.specs.Fits.{TypeFits};
ghost use Rattle.mz_thesis.specs.Rows.{with_fresh};
ghost use Rattle.mz_from.specs.Letters.{type_there, FitsOver, LetterFits, LettersFit, is_fixed, fixed_among};

use mz_base::text::Text;
use mz_context::constants::{Constant, Constants};
use mz_core::scheme::{SchemeLetter, SchemeLetters};
use mz_core::soft_type::SoftType;
use mz_fits::fits::{type_at, type_fits};
use mz_following::instances::{are_letterless, is_letterless, term_instance, type_instance};
use mz_ground::clause::Clause;
use mz_logic::letters::Letters;
use mz_logic::sym::Sym;
use mz_logic::term::{Term, Terms};
use mz_thesis::fresh::{constants_copy, next};
use std::alloc::{AllocError, Global};

/// A type under the places of a letter, with the letters replaced, at constants for the places before it, the innermost first.
fn type_there(
    alloc: Global,
    letters: &Letters,
    before: &Terms,
    ty: &SoftType,
) -> Result<SoftType, AllocError>
    ensures { IfOk result (λ t. t ≡ type_there letters.now before.now ty.now) }
{
    let ty = type_instance(alloc, ty, letters)?;
    type_at(alloc, before, &ty)
}

/// What stands for the letter at the constants, given the innermost first.
fn value_at(alloc: Global, letters: &Letters, s: Sym, before: &Terms) -> Result<Term, AllocError>
    ensures { IfOk result (λ t. t ≡ term_instance letters.now (App s (terms_of (reverse before.now)))) }
{
    let mut args = before.copy(alloc)?;
    args.items.reverse();
    let application = Term::apply(s, args);
    term_instance(alloc, &application, letters)
}

fn fits_there(
    alloc: Global,
    clauses: &[Clause],
    letters: &Letters,
    s: Sym,
    ty: &SoftType,
    constants: &Constants,
    before: &Terms,
) -> Result<bool, AllocError>
    ensures { IfOk result (λ b. IsTrue b ↔ TypeFits clauses.now constants.now (term_instance letters.now (App s (terms_of (reverse before.now)))) (type_there letters.now before.now ty.now)) }
{
    let value = value_at(alloc, letters, s, before)?;
    let ty = type_there(alloc, letters, before, ty)?;
    let fits = type_fits(alloc, clauses, constants, &value, &ty)?;
    Ok(fits)
}

/// A fresh constant of the type at the end.
fn push_fresh(alloc: Global, constants: &mut Constants, ty: SoftType) -> Result<(), AllocError>
    ensures { OnOk result (constants.new ≡ with_fresh constants.old ty) }
{
    constants.push(Constant {
        name: Text::new(alloc),
        ty,
        equal: None,
    })?;
    Ok(())
}

fn push_first(before: &mut Terms, t: Term) -> Result<(), AllocError>
    ensures { OnOk result (before.new ≡ t ∷ before.old) }
{
    before.items.insert(0, t)?;
    Ok(())
}

/// A fresh constant for the next place of a letter.
fn push_place(
    alloc: Global,
    letters: &Letters,
    place: &SoftType,
    constants: &mut Constants,
    before: &mut Terms,
) -> Result<(), AllocError>
    ensures constants { OnOk result (constants.new ≡ with_fresh constants.old (type_there letters.now before.old place.now)) }
    ensures before { OnOk result (before.new ≡ Const (numbers constants.old) ∷ before.old) }
{
    let fresh = next(&*constants)?;
    let ty = type_there(alloc, letters, &*before, place)?;
    push_fresh(alloc, constants, ty)?;
    push_first(before, fresh)
}

/// Whether what stands for the letter fits its type for fresh arguments of the types of its places.
fn fits_over(
    alloc: Global,
    clauses: &[Clause],
    letters: &Letters,
    s: Sym,
    ty: &SoftType,
    constants: &mut Constants,
    before: &mut Terms,
    places: &[SoftType],
) -> Result<bool, AllocError>
    ensures { IfOk result (λ b. IsTrue b ↔ FitsOver clauses.now letters.now s ty.now constants.old before.old places.now) }
{
    match places.split_first() {
        None => fits_there(alloc, clauses, letters, s, ty, &*constants, &*before),
        Some((place, others)) => {
            push_place(alloc, letters, place, &mut *constants, &mut *before)?;
            fits_over(alloc, clauses, letters, s, ty, constants, before, others)
        }
    }
}

fn functor_fits(
    alloc: Global,
    clauses: &[Clause],
    constants: &Constants,
    letters: &Letters,
    s: Sym,
    ty: &SoftType,
    places: &[SoftType],
) -> Result<bool, AllocError>
    ensures { IfOk result (λ b. IsTrue b ↔ FitsOver clauses.now letters.now s ty.now constants.now [] places.now) }
{
    let mut constants = constants_copy(alloc, constants)?;
    let mut before = Terms::new(alloc);
    let fits = fits_over(
        alloc,
        clauses,
        letters,
        s,
        ty,
        &mut constants,
        &mut before,
        places,
    )?;
    Ok(fits)
}

/// Whether a functor letter is fixed, and what stands for it fits its type for fresh arguments; nothing is asked of a predicate letter.
#[tactic(auto, using(crate::proofs::LetterLemmas::letter_rules))]
fn letter_fits(
    alloc: Global,
    clauses: &[Clause],
    constants: &Constants,
    letters: &Letters,
    letter: &SchemeLetter,
) -> Result<bool, AllocError>
    ensures { IfOk result (λ b. IsTrue b ↔ LetterFits clauses.now constants.now letters.now letter.now) }
{
    match letter {
        SchemeLetter::OfFunctor(s, places, ty) => match letters.term(*s) {
            None => Ok(false),
            Some(_) => {
                if !(is_letterless(ty) && are_letterless(places.items.as_slice())) {
                    return Ok(false);
                }
                functor_fits(
                    alloc,
                    clauses,
                    constants,
                    letters,
                    *s,
                    ty,
                    places.items.as_slice(),
                )
            }
        },
        SchemeLetter::OfPredicate(_, _) => Ok(true),
    }
}

/// Whether each of the scheme's letters fits.
#[tactic(auto, using(crate::proofs::LetterLemmas::letters_rules))]
pub fn letters_fit(
    alloc: Global,
    clauses: &[Clause],
    constants: &Constants,
    letters: &Letters,
    scheme: &SchemeLetters,
) -> Result<bool, AllocError>
    ensures { IfOk result (λ b. IsTrue b ↔ LettersFit clauses.now constants.now letters.now scheme.now) }
{
    let mut rest = scheme.items.as_slice();
    while let Some((letter, others)) = rest.split_first() {
        if !letter_fits(alloc, clauses, constants, letters, letter)? {
            return Ok(false);
        }
        rest = others;
    }
    Ok(true)
}

fn is_fixed(letters: &Letters, letter: &SchemeLetter) -> bool
    ensures { result ≡ is_fixed letters.now letter.now }
{
    match letter {
        SchemeLetter::OfFunctor(s, _, _) => letters.term(*s).is_some(),
        SchemeLetter::OfPredicate(_, _) => false,
    }
}

/// Whether each of the scheme's letters fits that the first letters fix.
#[tactic(auto, using(crate::proofs::LetterLemmas::fixed_rules))]
pub fn fixed_fit(
    alloc: Global,
    clauses: &[Clause],
    constants: &Constants,
    first: &Letters,
    letters: &Letters,
    scheme: &SchemeLetters,
) -> Result<bool, AllocError>
    ensures { IfOk result (λ b. IsTrue b ↔ LettersFit clauses.now constants.now letters.now (fixed_among first.now scheme.now)) }
{
    let mut rest = scheme.items.as_slice();
    while let Some((letter, others)) = rest.split_first() {
        if is_fixed(first, letter) {
            if !letter_fits(alloc, clauses, constants, letters, letter)? {
                return Ok(false);
            }
        }
        rest = others;
    }
    Ok(true)
}
