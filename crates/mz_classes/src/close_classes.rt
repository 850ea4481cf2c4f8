//! The closing of a disjunct under clauses, by numbered classes.
ghost use Rattle.std.specs.Prelude.{◌≡◌, ◌≤◌, ℕ, length, slice_index, IfOk};
ghost use Rattle.mz_ground.specs.Ground.{IsGround};
ghost use Rattle.mz_ground.specs.FactSet.{HasFacts};
ghost use Rattle.mz_numbering.specs.Numbering.{IsNumbering};
ghost use Rattle.mz_classes.specs.ClassView.{class_view};
ghost use Rattle.mz_classes.specs.Indexed.{AreWithin};

use crate::classes::Classes;
use crate::member_lists::member_lists;
use crate::numbers::Numbers;
use crate::propagate::propagated_labels;
use crate::roots::roots_of;
use crate::signed_lists::signed_lists;
use mz_congruence::fact_table::{FactTable, facts_of};
use mz_congruence::ground_graph::graph_of;
use mz_congruence::settle::settle;
use mz_ground::clause::Clause;
use mz_ground::ground_part::Ground;
use mz_logic::disjunct::Disjunct;
use mz_numbering::numbering::{Numbering, numbering_of};
use std::alloc::{AllocError, Global};

/// The facts of a disjunct under clauses, where `g` is the ground part of both.
#[tactic(auto, using(crate::proofs::CloseLemmas::close_rules))]
pub fn close_classes(
    alloc: Global,
    g: &Ground,
    d: &Disjunct,
    clauses: &[Clause],
) -> Result<Classes, AllocError>
    requires { IsGround d.now clauses.now g.now }
    ensures kept { IfOk result (λ f. (class_view f).part ≡ g.now) }
    ensures facts { IfOk result (λ f. HasFacts d.now clauses.now (class_view f)) }
    ensures numbered { IfOk result (λ f. IsNumbering g.now f.numbering) }
{
    let graph = graph_of(alloc, g, d, clauses)?;
    let labels = propagated_labels(alloc, &graph.graph)?;
    let mut classes = roots_of(alloc, labels.as_slice())?;
    settle(alloc, &graph.graph, classes.as_mut_slice())?;
    let table = facts_of(alloc, g, &graph, classes.as_slice())?;
    let numbering = numbering_of(alloc, &table.ground)?;
    indexed(alloc, table, numbering)
}

// The table with its lists.
fn indexed(alloc: Global, table: FactTable, numbering: Numbering) -> Result<Classes, AllocError>
    requires classes { (k : ℕ) → slice_index table.classes.items k ≤ k }
    requires terms { AreWithin (length table.ground.terms) numbering.terms.items }
    requires atoms { AreWithin (length table.ground.atoms) numbering.atoms.items }
    ensures { IfOk result (λ f. (f.table ≡ table) × (f.numbering ≡ numbering)) }
{
    let (terms, atoms) = (numbering.terms.as_slice(), numbering.atoms.as_slice());
    let members = member_lists(alloc, &table, terms)?;
    let positive = signed_lists(alloc, &table, atoms, true)?;
    let negative = signed_lists(alloc, &table, atoms, false)?;
    Ok(Classes {
        table,
        numbering,
        members,
        positive,
        negative,
        none: Numbers::new(alloc),
    })
}
