//! The closing of a disjunct under clauses, by passes.
ghost use Rattle.std.specs.Prelude.{◌≡◌, IfOk};
ghost use Rattle.mz_ground.specs.Ground.{IsGround};
ghost use Rattle.mz_ground.specs.FactSet.{HasFacts};
ghost use Rattle.mz_facts.specs.Facts.{facts_view};

use crate::facts::Facts;
use mz_congruence::classes::numbers;
use mz_congruence::fact_table::facts_of;
use mz_congruence::ground_graph::graph_of;
use mz_congruence::settle::settle;
use mz_ground::clause::Clause;
use mz_ground::ground_part::Ground;
use mz_logic::disjunct::Disjunct;
use std::alloc::{AllocError, Global};

/// The facts of a disjunct under clauses, where `g` is the ground part of both.
pub fn close(
    alloc: Global,
    g: &Ground,
    d: &Disjunct,
    clauses: &[Clause],
) -> Result<Facts, AllocError>
    requires { IsGround d.now clauses.now g.now }
    ensures kept { IfOk result (λ f. (facts_view f).part ≡ g.now) }
    ensures facts { IfOk result (λ f. HasFacts d.now clauses.now (facts_view f)) }
{
    let graph = graph_of(alloc, g, d, clauses)?;
    let mut classes = numbers(alloc, graph.graph.nodes.len())?;
    settle(alloc, &graph.graph, classes.as_mut_slice())?;
    let table = facts_of(alloc, g, &graph, classes.as_slice())?;
    Ok(Facts { table })
}
