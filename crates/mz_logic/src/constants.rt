//! Constants of terms and formulas.
ghost use Rattle.std.specs.Prelude.{◌≡◌};
ghost use Rattle.std.specs.List.{list_any};
ghost use Rattle.mz_logic.specs.Constants.{occurs, occurs_in_formula};

use crate::formula::{Formula, FormulaNode};
use crate::term::{Term, TermNode, Terms};

impl Term {
    /// Whether the constant occurs in the term.
    #[cycle(occurs)]
    #[tactic(auto, using(crate::proofs::ConstantLemmas::occurs_rules))]
    pub fn has_constant(&self, number: u32) -> bool
        ensures { result ≡ occurs number self.now }
    {
        match &self.node {
            TermNode::Bound(_) => false,
            TermNode::Const(n) => *n == number,
            TermNode::App(_, ts) => ts.have_constant(number),
        }
    }
}

impl Terms {
    /// Whether the constant occurs in one of the terms.
    #[cycle(occurs)]
    pub fn have_constant(&self, number: u32) -> bool
        ensures { result ≡ list_any (occurs number) self.now }
    {
        for t in &self.items {
            if t.has_constant(number) {
                return true;
            }
        }
        false
    }
}

impl Formula {
    /// Whether the constant occurs in the formula.
    pub fn has_constant(&self, number: u32) -> bool
        ensures { result ≡ occurs_in_formula number self.now }
    {
        match &self.node {
            FormulaNode::Truth => false,
            FormulaNode::Eq(t, u) => t.has_constant(number) || u.has_constant(number),
            FormulaNode::Atom(_, ts) => ts.have_constant(number),
            FormulaNode::Not(f) => f.has_constant(number),
            FormulaNode::And(f, g) => f.has_constant(number) || g.has_constant(number),
            FormulaNode::All(f) => f.has_constant(number),
        }
    }
}
