//! The axiom of TARSKI_A. Numbers are indices of variables: 0 is the innermost.
ghost use Rattle.std.specs.Prelude.{◌≡◌, ◌<◌, IfOk};
ghost use Rattle.mz_core.specs.StatementForms.{disjunction, equivalence, implication};
ghost use Rattle.mz_axioms.specs.Axioms.{belongs, each_object, each_set, is_part, is_pair, is_singleton, pair_in, covers_first, covers_second, one_to_one, equinumerous, has_parts, has_sets_of_parts, has_small_parts, universes};

use crate::axioms::{belongs, each_object, each_set, equal, some_object, some_set};
use mz_core::parts::conjunction;
use mz_core::statement::Statement;
use mz_core::statement_forms::{disjunction, equivalence, implication};
use mz_core::statements::Statements;
use std::alloc::{AllocError, Global};

#[tactic(auto, unfolding(crate::specs::Axioms::is_part))]
fn is_part(alloc: Global, x: u32, y: u32) -> Result<Statement, AllocError>
    requires x { x < 1000 }
    requires y { y < 1000 }
    ensures { IfOk result (λ s. s ≡ is_part x y) }
{
    let from = Box::new(alloc, belongs(alloc, 0, x + 1)?)?;
    let to = belongs(alloc, 0, y + 1)?;
    let s = implication(alloc, Box::into_inner(from), to)?;
    each_object(alloc, s)
}

#[tactic(auto, unfolding(crate::specs::Axioms::is_pair))]
fn is_pair(alloc: Global, a: u32, x: u32, y: u32) -> Result<Statement, AllocError>
    requires a { a < 1000 }
    requires x { x < 1000 }
    requires y { y < 1000 }
    ensures { IfOk result (λ s. s ≡ is_pair a x y) }
{
    let member = Box::new(alloc, belongs(alloc, 0, a + 1)?)?;
    let either = disjunction(alloc, equal(0, x + 1), equal(0, y + 1))?;
    let s = equivalence(alloc, Box::into_inner(member), either)?;
    each_object(alloc, s)
}

#[tactic(auto, unfolding(crate::specs::Axioms::is_singleton))]
fn is_singleton(alloc: Global, a: u32, x: u32) -> Result<Statement, AllocError>
    requires a { a < 1000 }
    requires x { x < 1000 }
    ensures { IfOk result (λ s. s ≡ is_singleton a x) }
{
    let member = belongs(alloc, 0, a + 1)?;
    let s = equivalence(alloc, member, equal(0, x + 1))?;
    each_object(alloc, s)
}

fn is_ordered_pair(alloc: Global, x: u32, y: u32) -> Result<Statement, AllocError>
    requires x { x < 1000 }
    requires y { y < 1000 }
    ensures { IfOk result (λ s. s ≡ each_object (equivalence (belongs 0 1) (disjunction (is_pair 0 x y) (is_singleton 0 x)))) }
{
    let member = Box::new(alloc, belongs(alloc, 0, 1)?)?;
    let pair = Box::new(alloc, is_pair(alloc, 0, x, y)?)?;
    let singleton = is_singleton(alloc, 0, x)?;
    let either = disjunction(alloc, Box::into_inner(pair), singleton)?;
    let s = equivalence(alloc, Box::into_inner(member), either)?;
    each_object(alloc, s)
}

#[tactic(auto, unfolding(crate::specs::Axioms::pair_in))]
fn pair_in(alloc: Global, x: u32, y: u32, z: u32) -> Result<Statement, AllocError>
    requires x { x < 100 }
    requires y { y < 100 }
    requires z { z < 100 }
    ensures { IfOk result (λ s. s ≡ pair_in x y z) }
{
    let there = Box::new(alloc, belongs(alloc, 0, z + 1)?)?;
    let s = is_ordered_pair(alloc, x + 2, y + 2)?;
    let s = Statement::and(alloc, Box::into_inner(there), s)?;
    some_set(alloc, s)
}

#[tactic(auto, unfolding(crate::specs::Axioms::covers_first))]
fn covers_first(alloc: Global, x: u32, m: u32) -> Result<Statement, AllocError>
    requires x { x < 100 }
    requires m { m < 100 }
    ensures { IfOk result (λ s. s ≡ covers_first x m) }
{
    let from = Box::new(alloc, belongs(alloc, 0, x + 2)?)?;
    let to = Box::new(alloc, belongs(alloc, 0, m + 3)?)?;
    let pair = pair_in(alloc, 1, 0, 2)?;
    let s = Statement::and(alloc, Box::into_inner(to), pair)?;
    let s = some_object(alloc, s)?;
    let s = implication(alloc, Box::into_inner(from), s)?;
    each_object(alloc, s)
}

#[tactic(auto, unfolding(crate::specs::Axioms::covers_second))]
fn covers_second(alloc: Global, x: u32, m: u32) -> Result<Statement, AllocError>
    requires x { x < 100 }
    requires m { m < 100 }
    ensures { IfOk result (λ s. s ≡ covers_second x m) }
{
    let to = Box::new(alloc, belongs(alloc, 0, m + 2)?)?;
    let from = Box::new(alloc, belongs(alloc, 0, x + 3)?)?;
    let pair = pair_in(alloc, 0, 1, 2)?;
    let s = Statement::and(alloc, Box::into_inner(from), pair)?;
    let s = some_object(alloc, s)?;
    let s = implication(alloc, Box::into_inner(to), s)?;
    each_object(alloc, s)
}

#[tactic(auto, unfolding(crate::specs::Axioms::one_to_one))]
fn one_to_one(alloc: Global) -> Result<Statement, AllocError>
    ensures { IfOk result (λ s. s ≡ one_to_one) }
{
    let first = Box::new(alloc, pair_in(alloc, 3, 2, 4)?)?;
    let second = pair_in(alloc, 1, 0, 4)?;
    let both = Statement::and(alloc, Box::into_inner(first), second)?;
    let both = Box::new(alloc, both)?;
    let same = equivalence(alloc, equal(3, 1), equal(2, 0))?;
    let s = implication(alloc, Box::into_inner(both), same)?;
    let s = each_object(alloc, s)?;
    let s = each_object(alloc, s)?;
    let s = each_object(alloc, s)?;
    each_object(alloc, s)
}

#[tactic(auto, unfolding(crate::specs::Axioms::equinumerous))]
fn equinumerous(alloc: Global, x: u32, m: u32) -> Result<Statement, AllocError>
    requires x { x < 100 }
    requires m { m < 100 }
    ensures { IfOk result (λ s. s ≡ equinumerous x m) }
{
    let first = Box::new(alloc, covers_first(alloc, x, m)?)?;
    let second = covers_second(alloc, x, m)?;
    let both = Statement::and(alloc, Box::into_inner(first), second)?;
    let both = Box::new(alloc, both)?;
    let apart = one_to_one(alloc)?;
    let s = Statement::and(alloc, Box::into_inner(both), apart)?;
    some_set(alloc, s)
}

#[tactic(auto, unfolding(crate::specs::Axioms::has_parts))]
fn has_parts(alloc: Global) -> Result<Statement, AllocError>
    ensures { IfOk result (λ s. s ≡ has_parts) }
{
    let member = Box::new(alloc, belongs(alloc, 1, 2)?)?;
    let part = is_part(alloc, 0, 1)?;
    let both = Statement::and(alloc, Box::into_inner(member), part)?;
    let both = Box::new(alloc, both)?;
    let there = belongs(alloc, 0, 2)?;
    let s = implication(alloc, Box::into_inner(both), there)?;
    let s = each_set(alloc, s)?;
    each_set(alloc, s)
}

fn parts_belong(alloc: Global) -> Result<Statement, AllocError>
    ensures { IfOk result (λ s. s ≡ each_set (implication (is_part 0 2) (belongs 0 1))) }
{
    let part = Box::new(alloc, is_part(alloc, 0, 2)?)?;
    let member = belongs(alloc, 0, 1)?;
    let s = implication(alloc, Box::into_inner(part), member)?;
    each_set(alloc, s)
}

#[tactic(auto, unfolding(crate::specs::Axioms::has_sets_of_parts))]
fn has_sets_of_parts(alloc: Global) -> Result<Statement, AllocError>
    ensures { IfOk result (λ s. s ≡ has_sets_of_parts) }
{
    let member = Box::new(alloc, belongs(alloc, 0, 1)?)?;
    let there = Box::new(alloc, belongs(alloc, 0, 2)?)?;
    let s = parts_belong(alloc)?;
    let s = Statement::and(alloc, Box::into_inner(there), s)?;
    let s = some_set(alloc, s)?;
    let s = implication(alloc, Box::into_inner(member), s)?;
    each_set(alloc, s)
}

#[tactic(auto, unfolding(crate::specs::Axioms::has_small_parts))]
fn has_small_parts(alloc: Global) -> Result<Statement, AllocError>
    ensures { IfOk result (λ s. s ≡ has_small_parts) }
{
    let part = Box::new(alloc, is_part(alloc, 0, 1)?)?;
    let member = Box::new(alloc, belongs(alloc, 0, 1)?)?;
    let as_many = equinumerous(alloc, 0, 1)?;
    let either = disjunction(alloc, Box::into_inner(member), as_many)?;
    let s = implication(alloc, Box::into_inner(part), either)?;
    each_set(alloc, s)
}

/// Each object is in a set that is closed under parts and sets of parts, and each part of which is a
/// member of it or equinumerous with it.
#[tactic(auto, unfolding(crate::specs::Axioms::universes))]
pub fn universes(alloc: Global) -> Result<Statement, AllocError>
    ensures { IfOk result (λ s. s ≡ universes) }
{
    let mut parts = Statements::new(alloc);
    parts.push(belongs(alloc, 1, 0)?)?;
    parts.push(has_parts(alloc)?)?;
    parts.push(has_sets_of_parts(alloc)?)?;
    parts.push(has_small_parts(alloc)?)?;
    let s = conjunction(alloc, &parts)?;
    let s = some_set(alloc, s)?;
    each_object(alloc, s)
}
