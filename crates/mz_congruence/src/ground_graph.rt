//! The graph of a ground part.
ghost use Rattle.std.specs.Prelude.{◌≡◌, IfOk};
ghost use Rattle.mz_ground.specs.Ground.{IsGround};
ghost use Rattle.mz_congruence.specs.GroundGraph.{IsGroundGraph};

use crate::graph::Graph;
use crate::numbering::{Layout, Numbering, numbered};
use crate::rules_of::rules_of;
use mz_ground::clause::Clause;
use mz_ground::ground_part::Ground;
use mz_logic::disjunct::Disjunct;
use std::alloc::{AllocError, Global};

/// The graph of a ground part, and where the nodes of each kind begin.
#[derive(Drop)]
pub struct GroundGraph {
    pub graph: Graph,
    pub layout: Layout,
}

/// The graph of the ground part `g` of a disjunct under clauses.
pub fn graph_of(
    alloc: Global,
    g: &Ground,
    d: &Disjunct,
    clauses: &[Clause],
) -> Result<GroundGraph, AllocError>
    requires { IsGround d.now clauses.now g.now }
    ensures { IfOk result (λ r. IsGroundGraph d.now clauses.now g.now r) }
{
    let Numbering { nodes, layout } = numbered(alloc, g)?;
    let rules = rules_of(alloc, g, layout, d, clauses)?;
    Ok(GroundGraph {
        graph: Graph { nodes, rules },
        layout,
    })
}
