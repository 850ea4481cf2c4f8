//! What a scheme owes, and what a scheme that is an axiom grants.
ghost use Rattle.std.specs.Prelude.{◌≡◌, ◌++◌, ◌∷◌, [], IfOk, OnOk};
ghost use Rattle.mz_core.specs.TypeStatements.{is_of_type};
ghost use Rattle.mz_items.specs.Loci.{over, term_on};
ghost use Rattle.mz_items.specs.SchemeRows.{letter_types, scheme_sequent, axiom_scheme_grant};

use crate::loci::term_on;
use crate::quantified::over;
use mz_core::parts::conjunction;
use mz_core::scheme::{Scheme, SchemeLetter};
use mz_core::soft_type::SoftType;
use mz_core::soft_types::SoftTypes;
use mz_core::statement::Statement;
use mz_core::statement_forms::implication;
use mz_core::statements::Statements;
use mz_core::type_statements::is_of_type;
use mz_core::typed_sequent::TypedSequent;
use mz_logic::sym::Sym;
use std::alloc::{AllocError, Global};

fn letter_type(
    alloc: Global,
    s: Sym,
    places: &SoftTypes,
    ty: &SoftType,
) -> Result<Statement, AllocError>
    ensures { IfOk result (λ f. f ≡ over places.now (is_of_type ty.now (term_on places.now s))) }
{
    let t = Box::new(alloc, term_on(alloc, places, s)?)?;
    let f = is_of_type(alloc, ty, &t)?;
    over(alloc, places, f)
}

fn push_letter_types(
    alloc: Global,
    out: &mut Statements,
    letters: &[SchemeLetter],
) -> Result<(), AllocError>
    ensures { OnOk result (out.new ≡ out.old ++ letter_types letters.now) }
{
    match letters {
        [] => Ok(()),
        [SchemeLetter::OfFunctor(s, places, ty), others @ ..] => {
            out.push(letter_type(alloc, *s, places, ty)?)?;
            push_letter_types(alloc, out, others)
        }
        [SchemeLetter::OfPredicate(..), others @ ..] => push_letter_types(alloc, out, others),
    }
}

fn push_copies(alloc: Global, out: &mut Statements, xs: &[Statement]) -> Result<(), AllocError>
    ensures { OnOk result (out.new ≡ out.old ++ xs.now) }
{
    for x in xs {
        out.push(x.copy(alloc)?)?;
    }
    Ok(())
}

/// The conclusion from the types of the functor letters and the premises.
pub fn scheme_sequent(alloc: Global, s: &Scheme) -> Result<TypedSequent, AllocError>
    ensures { IfOk result (λ r. r ≡ scheme_sequent s.now) }
{
    let mut premises = Statements::new(alloc);
    push_letter_types(alloc, &mut premises, s.letters.items.as_slice())?;
    push_copies(alloc, &mut premises, s.premises.items.as_slice())?;
    let conclusion = s.conclusion.copy(alloc)?;
    Ok(TypedSequent {
        premises,
        conclusion,
    })
}

/// The premises imply the conclusion.
pub fn axiom_scheme_grant(alloc: Global, s: &Scheme) -> Result<Statement, AllocError>
    ensures { IfOk result (λ f. f ≡ axiom_scheme_grant s.now) }
{
    let premises = Box::new(alloc, conjunction(alloc, &s.premises)?)?;
    let conclusion = s.conclusion.copy(alloc)?;
    implication(alloc, Box::into_inner(premises), conclusion)
}
