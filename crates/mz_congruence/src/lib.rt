//! The facts of a disjunct as equations between nodes of a graph: the nodes and rules of a ground part, when two
//! nodes are equal, and the facts that the classes of equal nodes give.
#![tactic(auto)]

pub mod classes;
pub mod fact_table;
pub mod graph;
pub mod ground_graph;
mod lookup;
pub mod numbering;
mod pairs_of;
mod rules_of;
pub mod settle;
pub mod signature;
pub mod signatures;
