//! Formulas.
ghost use Rattle.std.specs.Prelude.{◌≡◌, ◌↔◌, IfOk, IsTrue};
ghost use Rattle.mz_logic.specs.Formula.{Formula, Truth, Eq, Atom, Not, And, All};
ghost use Rattle.mz_logic.specs.FormulaStorage.{binders_of};
ghost use Rattle.mz_logic.specs.FormulaView.{formula_of};

use crate::sym::Sym;
use crate::term::{Term, Terms};
use std::alloc::{AllocError, Global};
use std::marker::Model;

/// A formula of first-order logic. `binders` is how deep its quantifiers nest, so that a call which
/// takes no memory may count those it goes through.
#[cycle(formula)]
pub struct Formula {
    pub node: FormulaNode,
    pub binders: u32,
}

impl Drop for Formula {
    fn drop(self) {
        let Formula {
            node: _node,
            binders: _binders,
        } = self;
    }
}

/// The forms of a formula: truth, an equation, a symbol with its arguments, a negation, a
/// conjunction, and a quantifier over its body, in which `Bound(0)` is the quantifier's own index.
#[cycle(formula)]
#[derive(Drop)]
pub enum FormulaNode {
    Truth,
    Eq(Term, Term),
    Atom(Sym, Terms),
    Not(Box<Formula>),
    And(Box<Formula>, Box<Formula>),
    All(Box<Formula>),
}

impl Model for Formula {
    ghost use Rattle.std.specs.Prelude.{◌≡◌};
    ghost use Rattle.mz_logic.specs.Formula.{Formula};
    ghost use Rattle.mz_logic.specs.FormulaStorage.{formula_code, formula_size, binders_of};

    ghost Value = { Formula };

    ghost coded = { formula_code };

    ghost use Rattle.mz_logic.specs.FormulaView.{formula_of};

    ghost view = { λ a. formula_of a.node };

    ghost invariant = { λ a. a.binders ≡ binders_of (formula_of a.node) };

    ghost size = { formula_size };

    ghost use Rattle.mz_logic.specs.FormulaDecreases.{formula_decreases};

    ghost size_decreases = { λ a h. formula_decreases a.node };
}

impl Formula {
    /// Truth.
    pub fn truth() -> Formula
        ensures { result ≡ Truth }
    {
        Formula {
            node: FormulaNode::Truth,
            binders: 0,
        }
    }

    /// An equation.
    pub fn equation(left: Term, right: Term) -> Formula
        ensures { result ≡ Eq left right }
    {
        Formula {
            node: FormulaNode::Eq(left, right),
            binders: 0,
        }
    }

    /// A symbol applied to arguments.
    pub fn atom(sym: Sym, args: Terms) -> Formula
        ensures { result ≡ Atom sym args }
    {
        Formula {
            node: FormulaNode::Atom(sym, args),
            binders: 0,
        }
    }

    /// The negation of `f`, also where that is a double one.
    pub fn not(alloc: Global, f: Formula) -> Result<Formula, AllocError>
        ensures { IfOk result (λ g. g ≡ Not f) }
    {
        let binders = f.binders;
        let f = Box::new(alloc, f)?;
        Ok(Formula {
            node: FormulaNode::Not(f),
            binders,
        })
    }

    /// The conjunction of `f` and `g`.
    pub fn and(alloc: Global, f: Formula, g: Formula) -> Result<Formula, AllocError>
        ensures { IfOk result (λ h. h ≡ And f g) }
    {
        let binders = f.binders.max(g.binders);
        let f = Box::new(alloc, f)?;
        let g = Box::new(alloc, g)?;
        Ok(Formula {
            node: FormulaNode::And(f, g),
            binders,
        })
    }

    /// A quantifier over `f`. More than 4,294,967,295 nested ones are as no memory.
    pub fn all(alloc: Global, f: Formula) -> Result<Formula, AllocError>
        ensures { IfOk result (λ g. g ≡ All f) }
    {
        let binders = f.binders.checked_add(1).ok_or(AllocError)?;
        let f = Box::new(alloc, f)?;
        Ok(Formula {
            node: FormulaNode::All(f),
            binders,
        })
    }

    /// The form of a formula that is given up.
    pub fn into_node(self) -> FormulaNode
        ensures { formula_of result ≡ self }
    {
        let Formula {
            node,
            binders: _binders,
        } = self;
        node
    }

    /// An equal formula.
    pub fn copy(&self, alloc: Global) -> Result<Formula, AllocError>
        ensures { IfOk result (λ f. f ≡ self.now) }
    {
        match &self.node {
            FormulaNode::Truth => Ok(Formula::truth()),
            FormulaNode::Eq(t, u) => {
                let t = t.copy(alloc)?;
                let u = u.copy(alloc)?;
                Ok(Formula::equation(t, u))
            }
            FormulaNode::Atom(s, ts) => {
                let ts = ts.copy(alloc)?;
                Ok(Formula::atom(*s, ts))
            }
            FormulaNode::Not(f) => {
                let f = f.copy(alloc)?;
                Formula::not(alloc, f)
            }
            FormulaNode::And(f, g) => {
                let f = f.copy(alloc)?;
                let g = g.copy(alloc)?;
                Formula::and(alloc, f, g)
            }
            FormulaNode::All(f) => {
                let f = f.copy(alloc)?;
                Formula::all(alloc, f)
            }
        }
    }

    /// Whether two formulas are equal.
    pub fn equals(&self, other: &Formula) -> bool
        ensures { IsTrue result ↔ (self.now ≡ other.now) }
    {
        match (&self.node, &other.node) {
            (FormulaNode::Truth, FormulaNode::Truth) => true,
            (FormulaNode::Eq(t, u), FormulaNode::Eq(v, w)) => t.equals(v) && u.equals(w),
            (FormulaNode::Atom(r, ts), FormulaNode::Atom(s, us)) => r.is(*s) && ts.equals(us),
            (FormulaNode::Not(f), FormulaNode::Not(g)) => f.equals(g),
            (FormulaNode::And(f, g), FormulaNode::And(h, k)) => f.equals(h) && g.equals(k),
            (FormulaNode::All(f), FormulaNode::All(g)) => f.equals(g),
            _ => false,
        }
    }

    /// Whether it is the negation of `f`.
    pub fn is_negation_of(&self, f: &Formula) -> bool
        ensures { IsTrue result ↔ (self.now ≡ Not f.now) }
    {
        match &self.node {
            FormulaNode::Not(g) => g.equals(f),
            _ => false,
        }
    }
}
