//! What set terms, choices and the sethood of a mode owe and grant, under their loci.
ghost use Rattle.std.specs.Prelude.{◌≡◌, IfOk};
ghost use Rattle.mz_logic.specs.Term.{Bound};
ghost use Rattle.mz_logic.specs.Substitution.{shift};
ghost use Rattle.mz_core.specs.Statement.{Eq, And};
ghost use Rattle.mz_core.specs.StatementForms.{for_some};
ghost use Rattle.mz_core.specs.TypeShift.{shift_type, shift_statement};
ghost use Rattle.mz_items.specs.SetTermRows.{comprehension, set_term_existence, set_term_grant, choice_existence, choice_grant, sethood, set_term_thesis, choice_thesis};

use crate::condition::Condition;
use crate::loci::term_on;
use crate::quantified::exists;
use mz_core::hidden::{is_in, object_type, set_type};
use mz_core::set_term::{Choice, SetTerm};
use mz_core::soft_type::SoftType;
use mz_core::statement::Statement;
use mz_core::statement_forms::{equivalence, for_some};
use mz_core::type_shift::{shift_statement, shift_type};
use mz_core::type_statements::is_of_type;
use mz_logic::shift::shift;
use mz_logic::term::Term;
use std::alloc::{AllocError, Global};

fn some_value(alloc: Global, by: u32, s: &SetTerm) -> Result<Statement, AllocError>
    ensures { IfOk result (λ f. f ≡ for_some (shift_type 0 by s.now.ty) (And (Eq (Bound 1) (shift 1 by s.now.term)) (shift_statement 1 by s.now.formula))) }
{
    let formula = Box::new(alloc, shift_statement(alloc, &s.formula, 1, by)?)?;
    let ty = shift_type(alloc, &s.ty, 0, by)?;
    let term = shift(alloc, &s.term, 1, by)?;
    let equal = Statement::equation(Term::bound(1), term);
    let f = Statement::and(alloc, equal, Box::into_inner(formula))?;
    for_some(alloc, ty, f)
}

fn comprehension(alloc: Global, by: u32, set: Term, s: &SetTerm) -> Result<Statement, AllocError>
    ensures { IfOk result (λ f. f ≡ comprehension by set s.now) }
{
    let member = Box::new(alloc, is_in(alloc, Term::bound(0), set)?)?;
    let inner = by.checked_add(1).ok_or(AllocError)?;
    let f = some_value(alloc, inner, s)?;
    let f = equivalence(alloc, Box::into_inner(member), f)?;
    Statement::each(alloc, object_type(alloc), f)
}

/// There is a set of the objects that a set term stands for.
pub fn set_term_existence(alloc: Global, s: &SetTerm) -> Result<Statement, AllocError>
    ensures { IfOk result (λ f. f ≡ set_term_existence s.now) }
{
    let f = comprehension(alloc, 1, Term::bound(1), s)?;
    for_some(alloc, set_type(alloc), f)
}

/// What is in a set term.
pub fn set_term_grant(alloc: Global, s: &SetTerm) -> Result<Statement, AllocError>
    ensures { IfOk result (λ f. f ≡ set_term_grant s.now) }
{
    let term = term_on(alloc, &s.loci, s.sym)?;
    let term = shift(alloc, &term, 0, 1)?;
    comprehension(alloc, 0, term, s)
}

/// There is an object of the type of a choice.
pub fn choice_existence(alloc: Global, c: &Choice) -> Result<Statement, AllocError>
    ensures { IfOk result (λ f. f ≡ choice_existence c.now) }
{
    exists(alloc, &c.ty, Statement::truth())
}

/// A choice is of its type.
pub fn choice_grant(alloc: Global, c: &Choice) -> Result<Statement, AllocError>
    ensures { IfOk result (λ f. f ≡ choice_grant c.now) }
{
    let term = term_on(alloc, &c.loci, c.sym)?;
    is_of_type(alloc, &c.ty, &term)
}

/// There is a set of all objects of the mode.
pub fn sethood(alloc: Global, mode: &SoftType) -> Result<Statement, AllocError>
    ensures { IfOk result (λ f. f ≡ sethood mode.now) }
{
    let mode = shift_type(alloc, mode, 0, 1)?;
    let member = is_in(alloc, Term::bound(0), Term::bound(1))?;
    let f = Statement::each(alloc, mode, member)?;
    for_some(alloc, set_type(alloc), f)
}

/// Existence of a set term.
pub fn set_term_thesis(
    alloc: Global,
    s: &SetTerm,
    c: Condition,
) -> Result<Option<Statement>, AllocError>
    ensures { IfOk result (λ r. r ≡ set_term_thesis s.now c) }
{
    match c {
        Condition::Existence => Ok(Some(set_term_existence(alloc, s)?)),
        _ => Ok(None),
    }
}

/// Existence of what a choice is.
pub fn choice_thesis(
    alloc: Global,
    x: &Choice,
    c: Condition,
) -> Result<Option<Statement>, AllocError>
    ensures { IfOk result (λ r. r ≡ choice_thesis x.now c) }
{
    match c {
        Condition::Existence => Ok(Some(choice_existence(alloc, x)?)),
        _ => Ok(None),
    }
}
