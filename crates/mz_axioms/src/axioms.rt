//! The axioms of TARSKI_0 but for the scheme, as statements. Numbers are indices of variables: 0 is the
//! innermost. A statement is boxed while others are made: a box is let go in one way, a statement in as many as
//! it has forms.
ghost use Rattle.std.specs.Prelude.{◌≡◌, IfOk};
ghost use Rattle.mz_core.specs.Statement.{And};
ghost use Rattle.mz_axioms.specs.Axioms.{member, belongs, equal, each_object, each_set, some_object, some_set, objects_are_sets, extensionality, pairs, unions, regularity};

use mz_core::hidden::{in_predicate, object_type, set_type};
use mz_core::statement::Statement;
use mz_core::statement_forms::{disjunction, equivalence, for_some, implication, opposite};
use mz_logic::term::{Term, Terms};
use std::alloc::{AllocError, Global};

/// `t in u`.
pub fn is_member(alloc: Global, t: Term, u: Term) -> Result<Statement, AllocError>
    ensures { IfOk result (λ s. s ≡ member t u) }
{
    let mut args = Terms::new(alloc);
    args.push(t)?;
    args.push(u)?;
    Ok(Statement::atom(in_predicate(), args))
}

/// `x in y`.
pub fn belongs(alloc: Global, x: u32, y: u32) -> Result<Statement, AllocError>
    ensures { IfOk result (λ s. s ≡ belongs x y) }
{
    is_member(alloc, Term::bound(x), Term::bound(y))
}

/// `x = y`.
pub fn equal(x: u32, y: u32) -> Statement
    ensures { result ≡ equal x y }
{
    Statement::equation(Term::bound(x), Term::bound(y))
}

/// `for x being object holds s`.
pub fn each_object(alloc: Global, s: Statement) -> Result<Statement, AllocError>
    ensures { IfOk result (λ t. t ≡ each_object s) }
{
    Statement::each(alloc, object_type(alloc), s)
}

/// `for X being set holds s`.
pub fn each_set(alloc: Global, s: Statement) -> Result<Statement, AllocError>
    ensures { IfOk result (λ t. t ≡ each_set s) }
{
    Statement::each(alloc, set_type(alloc), s)
}

/// `ex x being object st s`.
pub fn some_object(alloc: Global, s: Statement) -> Result<Statement, AllocError>
    ensures { IfOk result (λ t. t ≡ some_object s) }
{
    for_some(alloc, object_type(alloc), s)
}

/// `ex X being set st s`.
pub fn some_set(alloc: Global, s: Statement) -> Result<Statement, AllocError>
    ensures { IfOk result (λ t. t ≡ some_set s) }
{
    for_some(alloc, set_type(alloc), s)
}

/// Every object is a set.
#[tactic(auto, unfolding(crate::specs::Axioms::objects_are_sets))]
pub fn objects_are_sets(alloc: Global) -> Result<Statement, AllocError>
    ensures { IfOk result (λ s. s ≡ objects_are_sets) }
{
    each_object(alloc, Statement::truth())
}

/// Sets with the same members are equal.
#[tactic(auto, unfolding(crate::specs::Axioms::extensionality))]
pub fn extensionality(alloc: Global) -> Result<Statement, AllocError>
    ensures { IfOk result (λ s. s ≡ extensionality) }
{
    let in_first = Box::new(alloc, belongs(alloc, 0, 2)?)?;
    let in_second = belongs(alloc, 0, 1)?;
    let s = equivalence(alloc, Box::into_inner(in_first), in_second)?;
    let s = each_object(alloc, s)?;
    let s = implication(alloc, s, equal(1, 0))?;
    let s = each_set(alloc, s)?;
    each_set(alloc, s)
}

/// Of two objects there is the set that has just these.
#[tactic(auto, unfolding(crate::specs::Axioms::pairs))]
pub fn pairs(alloc: Global) -> Result<Statement, AllocError>
    ensures { IfOk result (λ s. s ≡ pairs) }
{
    let member = Box::new(alloc, belongs(alloc, 0, 1)?)?;
    let either = disjunction(alloc, equal(0, 3), equal(0, 2))?;
    let s = equivalence(alloc, Box::into_inner(member), either)?;
    let s = each_object(alloc, s)?;
    let s = some_set(alloc, s)?;
    let s = each_object(alloc, s)?;
    each_object(alloc, s)
}

/// Of a set there is the set of its members' members.
#[tactic(auto, unfolding(crate::specs::Axioms::unions))]
pub fn unions(alloc: Global) -> Result<Statement, AllocError>
    ensures { IfOk result (λ s. s ≡ unions) }
{
    let member = Box::new(alloc, belongs(alloc, 0, 1)?)?;
    let inner = Box::new(alloc, belongs(alloc, 1, 0)?)?;
    let outer = belongs(alloc, 0, 3)?;
    let s = Statement::and(alloc, Box::into_inner(inner), outer)?;
    let s = some_set(alloc, s)?;
    let s = equivalence(alloc, Box::into_inner(member), s)?;
    let s = each_object(alloc, s)?;
    let s = some_set(alloc, s)?;
    each_set(alloc, s)
}

fn in_common(alloc: Global) -> Result<Statement, AllocError>
    ensures { IfOk result (λ s. s ≡ some_object (And (belongs 0 2) (belongs 0 1))) }
{
    let in_set = Box::new(alloc, belongs(alloc, 0, 2)?)?;
    let in_member = belongs(alloc, 0, 1)?;
    let common = Statement::and(alloc, Box::into_inner(in_set), in_member)?;
    some_object(alloc, common)
}

/// A set with a member has one that has no member in common with it.
#[tactic(auto, unfolding(crate::specs::Axioms::regularity))]
pub fn regularity(alloc: Global) -> Result<Statement, AllocError>
    ensures { IfOk result (λ s. s ≡ regularity) }
{
    let some = Box::new(alloc, belongs(alloc, 1, 0)?)?;
    let member = Box::new(alloc, belongs(alloc, 0, 1)?)?;
    let common = in_common(alloc)?;
    let none = opposite(alloc, common)?;
    let s = Statement::and(alloc, Box::into_inner(member), none)?;
    let s = some_set(alloc, s)?;
    let s = implication(alloc, Box::into_inner(some), s)?;
    let s = each_set(alloc, s)?;
    each_object(alloc, s)
}
