//! What a type says of a term, within the limits on nodes and depth.
ghost use Rattle.std.specs.Prelude.{◌≡◌, IfOk};
ghost use Rattle.mz_core.specs.Guard.{adjective_literal};
ghost use Rattle.mz_core.specs.TypeStatements.{literal_statement};
ghost use Rattle.mz_sizes.specs.Sizes.{statement_keeps};
ghost use Rattle.mz_applied.specs.Within.{within};
ghost use Rattle.mz_joined.specs.Bound.{of_type_within, radix_said, and_said, stated};

use mz_applied::within::within_statement;
use mz_base::place::Place;
use mz_core::adjective::Adjective;
use mz_core::guard::{adjective_literal, with_last};
use mz_core::hidden::is_of_any_object;
use mz_core::radix::Radix;
use mz_core::soft_type::SoftType;
use mz_core::statement::Statement;
use mz_core::type_statements::literal_statement;
use mz_logic::term::Term;
use mz_names::refusal::Refusal;
use std::alloc::{AllocError, Global};

fn radix_said(alloc: Global, r: &Radix, t: &Term) -> Result<Option<Statement>, AllocError>
    ensures { IfOk result (λ o. o ≡ radix_said r.now t.now) }
{
    if is_of_any_object(r.sym) {
        return Ok(None);
    }
    let args = with_last(alloc, &r.args, t)?;
    Ok(Some(Statement::atom(r.sym, args)))
}

fn and_said(alloc: Global, said: Option<Statement>, s: Statement) -> Result<Statement, AllocError>
    ensures { IfOk result (λ u. u ≡ and_said said s) }
{
    match said {
        None => Ok(s),
        Some(r) => Statement::and(alloc, r, s),
    }
}

fn stated(said: Option<Statement>) -> Statement
    ensures { result ≡ stated said }
{
    match said {
        None => Statement::truth(),
        Some(s) => s,
    }
}

/// What was said before, and what the adjective says.
fn and_adjective(
    alloc: Global,
    first: Place,
    said: Option<Statement>,
    a: &Adjective,
    t: &Term,
) -> Result<Result<Statement, Refusal>, AllocError>
    ensures { IfOk result (λ o. o ≡ within statement_keeps first (and_said said (literal_statement (adjective_literal t.now a.now)))) }
{
    let l = adjective_literal(alloc, a, t)?;
    let s = literal_statement(alloc, &l)?;
    let u = and_said(alloc, said, s)?;
    let o = within_statement(first, u);
    Ok(o)
}

/// That the term is of the type: the conjunction of the literals of the type's guard, or truth. `TooLarge` at the first token.
#[tactic(auto, using(crate::proofs::SaidLemmas::said_rules))]
pub fn of_type_within(
    alloc: Global,
    first: Place,
    ty: &SoftType,
    t: &Term,
) -> Result<Result<Statement, Refusal>, AllocError>
    ensures { IfOk result (λ o. o ≡ of_type_within first ty.now t.now) }
{
    let mut said = radix_said(alloc, &ty.radix, t)?;
    let mut rest = ty.adjectives.items.as_slice();
    while let Some((a, others)) = rest.split_first() {
        match and_adjective(alloc, first, said, a, t)? {
            Err(r) => return Ok(Err(r)),
            Ok(s) => said = Some(s),
        }
        rest = others;
    }
    let s = stated(said);
    let o = within_statement(first, s);
    Ok(o)
}
