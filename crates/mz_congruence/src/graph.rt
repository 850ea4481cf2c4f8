//! Graphs.
ghost use Rattle.std.specs.Prelude.{◌≡◌, ◌<◌, [], ◌∷◌, ◌++◌, length, slice_get, Some, OnOk};

use mz_ground::ground_equation::GroundEquation;
use mz_ground::places::Places;
use mz_logic::sym::Sym;
use std::alloc::{AllocError, Global};
use std::marker::Model;

/// What stands at the head of a node: a constant, by its number; a function symbol; the symbol of an atom
/// with its sign; that a ground equation fails; or truth, to which each node that holds is
/// equal.
#[derive(Clone, Copy, Debug, PartialEq, Eq)]
pub enum Head {
    Constant(u32),
    Function(Sym),
    Positive(Sym),
    Negative(Sym),
    Disequal(GroundEquation),
    Yes,
}

/// A node: its head and the numbers of its arguments.
#[derive(Drop)]
pub struct Node {
    pub head: Head,
    pub args: Places,
}

/// A list of nodes.
#[derive(Drop)]
pub struct Nodes {
    pub items: Vec<Node>,
}

impl Model for Nodes {
    ghost use Rattle.std.specs.Prelude.{List};
    ghost use Rattle.std.specs.Coded.{coded_list};
    ghost use Rattle.mz_congruence.specs.declared.graph.Node.{Node};
    ghost use Rattle.mz_congruence.specs.contracts.graph.Node.{the_row};

    ghost Value = { List Node };

    ghost coded = { coded_list the_row.coded };

    ghost view = { λ a. a.items.items };
}

impl Nodes {
    /// An empty list.
    pub fn new(alloc: Global) -> Nodes
        ensures { result ≡ [] }
    {
        Nodes {
            items: Vec::new(alloc),
        }
    }

    /// How many there are.
    pub fn len(&self) -> usize
        ensures { result ≡ length self.now }
    {
        self.items.len()
    }

    /// The one at an index from 0.
    pub fn get(&self, index: usize) -> &Node
        requires { index < length self.now }
        ensures { slice_get self.now index ≡ Some result.now }
    {
        &self.items[index]
    }

    /// Puts one at the end.
    pub fn push(&mut self, item: Node) -> Result<(), AllocError>
        ensures { OnOk result (self.new ≡ self.old ++ item ∷ []) }
    {
        self.items.push(item)?;
        Ok(())
    }
}

/// Two nodes, by their numbers.
#[derive(Clone, Copy, Debug, PartialEq, Eq)]
pub struct Pair {
    pub left: usize,
    pub right: usize,
}

/// A list of pairs.
#[derive(Drop)]
pub struct Pairs {
    pub items: Vec<Pair>,
}

impl Model for Pairs {
    ghost use Rattle.std.specs.Prelude.{List};
    ghost use Rattle.std.specs.Coded.{coded_list};
    ghost use Rattle.mz_congruence.specs.declared.graph.Pair.{Pair};
    ghost use Rattle.mz_congruence.specs.contracts.graph.Pair.{the_row};

    ghost Value = { List Pair };

    ghost coded = { coded_list the_row.coded };

    ghost view = { λ a. a.items.items };
}

impl Pairs {
    /// An empty list.
    pub fn new(alloc: Global) -> Pairs
        ensures { result ≡ [] }
    {
        Pairs {
            items: Vec::new(alloc),
        }
    }

    /// The pairs.
    pub fn as_slice(&self) -> &[Pair]
        ensures { result.now ≡ self.now }
    {
        self.items.as_slice()
    }

    /// Puts one at the end.
    pub fn push(&mut self, item: Pair) -> Result<(), AllocError>
        ensures { OnOk result (self.new ≡ self.old ++ item ∷ []) }
    {
        self.items.push(item)?;
        Ok(())
    }
}

/// Where the nodes of each premise are equal, those of the conclusion are.
#[derive(Drop)]
pub struct Rule {
    pub premises: Pairs,
    pub conclusion: Pair,
}

/// A list of rules.
#[derive(Drop)]
pub struct Rules {
    pub items: Vec<Rule>,
}

impl Model for Rules {
    ghost use Rattle.std.specs.Prelude.{List};
    ghost use Rattle.std.specs.Coded.{coded_list};
    ghost use Rattle.mz_congruence.specs.declared.graph.Rule.{Rule};
    ghost use Rattle.mz_congruence.specs.contracts.graph.Rule.{the_row};

    ghost Value = { List Rule };

    ghost coded = { coded_list the_row.coded };

    ghost view = { λ a. a.items.items };
}

impl Rules {
    /// An empty list.
    pub fn new(alloc: Global) -> Rules
        ensures { result ≡ [] }
    {
        Rules {
            items: Vec::new(alloc),
        }
    }

    /// How many there are.
    pub fn len(&self) -> usize
        ensures { result ≡ length self.now }
    {
        self.items.len()
    }

    /// The one at an index from 0.
    pub fn get(&self, index: usize) -> &Rule
        requires { index < length self.now }
        ensures { slice_get self.now index ≡ Some result.now }
    {
        &self.items[index]
    }

    /// Puts one at the end.
    pub fn push(&mut self, item: Rule) -> Result<(), AllocError>
        ensures { OnOk result (self.new ≡ self.old ++ item ∷ []) }
    {
        self.items.push(item)?;
        Ok(())
    }
}

/// Nodes, numbered from 0, and rules over them.
#[derive(Drop)]
pub struct Graph {
    pub nodes: Nodes,
    pub rules: Rules,
}
