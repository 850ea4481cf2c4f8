//! The classes of terms whose variables have classes.
ghost use Rattle.std.specs.Prelude.{◌≡◌, [], IfOk, None, Some, Option, ℕ, nat_lt, if◌then◌else◌};
ghost use Rattle.mz_logic.specs.Term.{terms_of};
ghost use Rattle.mz_match.specs.Slots.{slot_at};
ghost use Rattle.mz_match.specs.Evaluate.{evaluate, evaluate_at, slot_value, variable_value};

use crate::assignment::Assignment;
use crate::row::Head;
use crate::table::Table;
use crate::value::Value;
use mz_logic::term::{Term, TermNode, Terms};
use std::alloc::{AllocError, Global};

fn variable_value(depth: usize, i: usize, e: &Assignment) -> Value
    ensures { result ≡ variable_value depth i e.now }
{
    if i < depth {
        return Value::Nothing;
    }
    match e.at(i - depth) {
        None => Value::Unknown,
        Some(class) => Value::Class(class),
    }
}

/// What is known of the class of a term, under `depth` further binders; unknown where a variable without a class is
/// met.
#[cycle(evaluating)]
pub fn evaluate(
    alloc: Global,
    table: &Table,
    depth: usize,
    t: &Term,
    e: &Assignment,
) -> Result<Value, AllocError>
    ensures { IfOk result (λ k. k ≡ evaluate table.now depth e.now t.now) }
{
    match &t.node {
        TermNode::Bound(i) => Ok(variable_value(depth, *i as usize, e)),
        TermNode::Const(n) => Ok(table.value(Head::Constant(*n), &[])),
        TermNode::App(s, ts) => evaluate_at(alloc, table, depth, Head::Functor(*s), ts, e),
    }
}

/// What is known of the class of rows with the head whose arguments are the classes of the terms.
#[cycle(evaluating)]
pub fn evaluate_at(
    alloc: Global,
    table: &Table,
    depth: usize,
    head: Head,
    ts: &Terms,
    e: &Assignment,
) -> Result<Value, AllocError>
    ensures { IfOk result (λ k. k ≡ evaluate_at table.now depth e.now head [] (terms_of ts.now)) }
{
    let mut classes = Vec::new(alloc);
    for t in &ts.items {
        match evaluate(alloc, table, depth, t, e)? {
            Value::Class(class) => classes.push(class)?,
            Value::Nothing => return Ok(Value::Nothing),
            Value::Unknown => return Ok(Value::Unknown),
        }
    }
    Ok(table.value(head, classes.as_slice()))
}
