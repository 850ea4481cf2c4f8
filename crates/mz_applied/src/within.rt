//! Limits on nodes and depth of what is read.
ghost use Rattle.std.specs.Prelude.{◌≡◌};
ghost use Rattle.mz_sizes.specs.Sizes.{term_keeps, adjective_keeps, type_keeps, statement_keeps};
ghost use Rattle.mz_applied.specs.Within.{within};

use mz_base::place::Place;
use mz_core::adjective::Adjective;
use mz_core::soft_type::SoftType;
use mz_core::statement::Statement;
use mz_logic::term::Term;
use mz_names::refusal::Refusal;
use mz_sizes::keeps::{adjective_keeps, statement_keeps, term_keeps, type_keeps};

/// The term, unless it has more than 65,536 nodes or a depth above 512: then `TooLarge` at the expression's first token.
pub fn within_term(first: Place, t: Term) -> Result<Term, Refusal>
    ensures { result ≡ within term_keeps first t }
{
    if term_keeps(&t) {
        Ok(t)
    } else {
        Err(Refusal::TooLarge(first))
    }
}

/// The same of an adjective.
pub fn within_adjective(first: Place, a: Adjective) -> Result<Adjective, Refusal>
    ensures { result ≡ within adjective_keeps first a }
{
    if adjective_keeps(&a) {
        Ok(a)
    } else {
        Err(Refusal::TooLarge(first))
    }
}

/// The same of a type.
pub fn within_type(first: Place, ty: SoftType) -> Result<SoftType, Refusal>
    ensures { result ≡ within type_keeps first ty }
{
    if type_keeps(&ty) {
        Ok(ty)
    } else {
        Err(Refusal::TooLarge(first))
    }
}

/// The same of a statement.
pub fn within_statement(first: Place, s: Statement) -> Result<Statement, Refusal>
    ensures { result ≡ within statement_keeps first s }
{
    if statement_keeps(&s) {
        Ok(s)
    } else {
        Err(Refusal::TooLarge(first))
    }
}
