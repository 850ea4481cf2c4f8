//! Free indices of terms and formulas.
ghost use Rattle.std.specs.Prelude.{◌≡◌, ◌+◌, ◌<◌, ◌^◌};
ghost use Rattle.std.specs.List.{list_all};
ghost use Rattle.mz_logic.specs.FormulaStorage.{binders_of};
ghost use Rattle.mz_logic.specs.Indices.{is_below, formula_below, closed, formula_closed};

use crate::formula::{Formula, FormulaNode};
use crate::term::{Term, TermNode, Terms};

impl Term {
    /// Whether each index of the term is below `bound`.
    #[cycle(below)]
    #[tactic(auto, using(crate::proofs::IndexLemmas::below_rules))]
    pub fn is_below(&self, bound: u32) -> bool
        ensures { result ≡ is_below bound self.now }
    {
        match &self.node {
            TermNode::Bound(index) => *index < bound,
            TermNode::Const(_) => true,
            TermNode::App(_, ts) => ts.are_below(bound),
        }
    }

    /// Whether the term has no index.
    pub fn is_closed(&self) -> bool
        ensures { result ≡ closed self.now }
    {
        self.is_below(0)
    }
}

impl Terms {
    /// Whether each index of the terms is below `bound`.
    #[cycle(below)]
    pub fn are_below(&self, bound: u32) -> bool
        ensures { result ≡ list_all (is_below bound) self.now }
    {
        for t in &self.items {
            if !t.is_below(bound) {
                return false;
            }
        }
        true
    }
}

impl Formula {
    /// Whether the formula has no free index.
    pub fn is_closed(&self) -> bool
        ensures { result ≡ formula_closed self.now }
    {
        let _binders = self.binders;
        formula_is_below(self, 0)
    }
}

fn formula_is_below(f: &Formula, bound: u32) -> bool
    requires { bound + binders_of f.now < 2 ^ 32 }
    ensures { result ≡ formula_below bound f.now }
{
    match &f.node {
        FormulaNode::Truth => true,
        FormulaNode::Eq(t, u) => t.is_below(bound) && u.is_below(bound),
        FormulaNode::Atom(_, ts) => ts.are_below(bound),
        FormulaNode::Not(f) => formula_is_below(f, bound),
        FormulaNode::And(f, g) => formula_is_below(f, bound) && formula_is_below(g, bound),
        FormulaNode::All(f) => formula_is_below(f, bound + 1),
    }
}
