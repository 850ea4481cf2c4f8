//! The scheme of TARSKI_0.
ghost use Rattle.std.specs.Prelude.{◌≡◌, IfOk};
ghost use Rattle.mz_axioms.specs.Axioms.{functor_letter, predicate_letter, belongs_to_letter, related, at_most_one, image, replacement};

use crate::axioms::{belongs, each_object, equal, is_member, some_object, some_set};
use mz_base::name::Name;
use mz_core::hidden::{object_type, set_type};
use mz_core::scheme::{Scheme, SchemeLetter, SchemeLetters};
use mz_core::soft_types::SoftTypes;
use mz_core::statement::Statement;
use mz_core::statement_forms::{equivalence, implication};
use mz_core::statements::Statements;
use mz_logic::kind::Kind;
use mz_logic::sym::Sym;
use mz_logic::term::{Term, Terms};
use std::alloc::{AllocError, Global};

fn functor_letter() -> Sym
    ensures { result ≡ functor_letter }
{
    Sym {
        article: Name::tarski_0().number(),
        kind: Kind::LetterFunctor,
        number: 1,
    }
}

fn predicate_letter() -> Sym
    ensures { result ≡ predicate_letter }
{
    Sym {
        article: Name::tarski_0().number(),
        kind: Kind::LetterPredicate,
        number: 1,
    }
}

fn belongs_to_letter(alloc: Global, y: u32) -> Result<Statement, AllocError>
    ensures { IfOk result (λ s. s ≡ belongs_to_letter y) }
{
    let letter = Term::apply(functor_letter(), Terms::new(alloc));
    is_member(alloc, Term::bound(y), letter)
}

fn related(alloc: Global, x: u32, y: u32) -> Result<Statement, AllocError>
    ensures { IfOk result (λ s. s ≡ related x y) }
{
    let mut args = Terms::new(alloc);
    args.push(Term::bound(x))?;
    args.push(Term::bound(y))?;
    Ok(Statement::atom(predicate_letter(), args))
}

/// The premise: an object is related to one other at most.
#[tactic(auto, unfolding(crate::specs::Axioms::at_most_one))]
pub fn at_most_one(alloc: Global) -> Result<Statement, AllocError>
    ensures { IfOk result (λ s. s ≡ at_most_one) }
{
    let first = Box::new(alloc, related(alloc, 2, 1)?)?;
    let second = related(alloc, 2, 0)?;
    let both = Statement::and(alloc, Box::into_inner(first), second)?;
    let s = implication(alloc, both, equal(1, 0))?;
    let s = each_object(alloc, s)?;
    let s = each_object(alloc, s)?;
    each_object(alloc, s)
}

/// The conclusion: there is the set of what the members of a set are related to.
#[tactic(auto, unfolding(crate::specs::Axioms::image))]
pub fn image(alloc: Global) -> Result<Statement, AllocError>
    ensures { IfOk result (λ s. s ≡ image) }
{
    let member = Box::new(alloc, belongs(alloc, 0, 1)?)?;
    let from = Box::new(alloc, belongs_to_letter(alloc, 0)?)?;
    let to = related(alloc, 0, 1)?;
    let s = Statement::and(alloc, Box::into_inner(from), to)?;
    let s = some_object(alloc, s)?;
    let s = equivalence(alloc, Box::into_inner(member), s)?;
    let s = each_object(alloc, s)?;
    some_set(alloc, s)
}

#[tactic(auto, unfolding(crate::specs::Axioms::replacement))]
fn letters(alloc: Global) -> Result<SchemeLetters, AllocError>
    ensures { IfOk result (λ ls. ls ≡ replacement.letters) }
{
    let mut places = SoftTypes::new(alloc);
    places.push(object_type(alloc))?;
    places.push(object_type(alloc))?;
    let mut letters = SchemeLetters::new(alloc);
    letters.push(SchemeLetter::OfFunctor(
        functor_letter(),
        SoftTypes::new(alloc),
        set_type(alloc),
    ))?;
    letters.push(SchemeLetter::OfPredicate(predicate_letter(), places))?;
    Ok(letters)
}

/// The scheme of replacement.
#[tactic(auto, unfolding(crate::specs::Axioms::replacement))]
pub fn replacement(alloc: Global) -> Result<Scheme, AllocError>
    ensures { IfOk result (λ s. s ≡ replacement) }
{
    let letters = letters(alloc)?;
    let mut premises = Statements::new(alloc);
    premises.push(at_most_one(alloc)?)?;
    let conclusion = image(alloc)?;
    Ok(Scheme {
        letters,
        premises,
        conclusion,
    })
}
