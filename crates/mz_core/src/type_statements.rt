//! What a type says of a term, as statements.
ghost use Rattle.std.specs.Prelude.{◌≡◌, IfOk, map};
ghost use Rattle.mz_core.specs.TypeStatements.{signed, literal_statement, is_of_type, is_of_type_inside};

use crate::guard::guard_literals;
use crate::parts::conjunction;
use crate::soft_type::SoftType;
use crate::statement::Statement;
use crate::statements::Statements;
use crate::type_shift::shift_type;
use mz_logic::literal::Literal;
use mz_logic::literals::Literals;
use mz_logic::term::Term;
use std::alloc::{AllocError, Global};

fn signed(alloc: Global, positive: bool, s: Statement) -> Result<Statement, AllocError>
    ensures { IfOk result (λ r. r ≡ signed positive s) }
{
    if positive {
        Ok(s)
    } else {
        Statement::not(alloc, s)
    }
}

/// The literal as a statement.
pub fn literal_statement(alloc: Global, l: &Literal) -> Result<Statement, AllocError>
    ensures { IfOk result (λ s. s ≡ literal_statement l.now) }
{
    match l {
        Literal::Atom {
            positive,
            sym,
            args,
        } => {
            let args = args.copy(alloc)?;
            signed(alloc, *positive, Statement::atom(*sym, args))
        }
        Literal::Eq {
            positive,
            left,
            right,
        } => {
            let left = left.copy(alloc)?;
            let right = right.copy(alloc)?;
            signed(alloc, *positive, Statement::equation(left, right))
        }
    }
}

/// The literals as statements.
pub fn literal_statements(alloc: Global, ls: &Literals) -> Result<Statements, AllocError>
    ensures { IfOk result (λ ss. ss ≡ map literal_statement ls.now) }
{
    let mut out = Vec::new(alloc);
    for l in &ls.items {
        out.push(literal_statement(alloc, l)?)?;
    }
    Ok(Statements { items: out })
}

/// The conjunction of the guard of the type at the term; truth where it is empty.
pub fn is_of_type(alloc: Global, ty: &SoftType, t: &Term) -> Result<Statement, AllocError>
    ensures { IfOk result (λ s. s ≡ is_of_type ty.now t.now) }
{
    let ls = guard_literals(alloc, ty, t)?;
    let ss = literal_statements(alloc, &ls)?;
    conjunction(alloc, &ss)
}

/// The same at the object of a quantifier outside which the type stands.
pub fn is_of_type_inside(alloc: Global, ty: &SoftType) -> Result<Statement, AllocError>
    ensures { IfOk result (λ s. s ≡ is_of_type_inside ty.now) }
{
    let ty = shift_type(alloc, ty, 0, 1)?;
    is_of_type(alloc, &ty, &Term::bound(0))
}
