//! Terms.
ghost use Rattle.std.specs.Prelude.{◌≡◌, ◌<◌, ◌↔◌, List, [], ◌∷◌, ◌++◌, length, slice_get, Some, IfOk, OnOk, OnErr, IsTrue};
ghost use Rattle.mz_logic.specs.Term.{Term, Bound, Const, App, terms_of};

use crate::sym::Sym;
use std::alloc::{AllocError, Global};
use std::marker::Model;

/// A term of first-order logic.
#[cycle(term)]
pub struct Term {
    pub node: TermNode,
}

impl Drop for Term {
    #[cycle(let_go)]
    fn drop(self) {
        let Term { node: _node } = self;
    }
}

/// The forms of a term: the index of a binder, from 0 for the innermost; a constant, by its number;
/// a symbol with its arguments.
#[cycle(term)]
#[derive(Drop)]
pub enum TermNode {
    Bound(u32),
    Const(u32),
    App(Sym, Terms),
}

/// A list of terms, as the arguments of a symbol.
#[cycle(term)]
pub struct Terms {
    pub items: Vec<Term>,
}

impl Drop for Terms {
    #[cycle(let_go)]
    fn drop(self) {
        let Terms { items: _items } = self;
    }
}

impl Model for Term {
    ghost use Rattle.mz_logic.specs.Term.{Term};
    ghost use Rattle.mz_logic.specs.TermStorage.{term_code, size_of};

    ghost Value = { Term };

    ghost coded = { term_code };

    ghost use Rattle.mz_logic.specs.TermView.{term_of};

    ghost view = { λ a. term_of a.node };

    ghost size = { size_of };

    ghost use Rattle.mz_logic.specs.TermDecreases.{decreases};

    ghost size_decreases = { λ a h. decreases a.node };
}

impl Model for Terms {
    ghost use Rattle.std.specs.Prelude.{List};
    ghost use Rattle.std.specs.Coded.{coded_list};
    ghost use Rattle.mz_logic.specs.Term.{Term};
    ghost use Rattle.mz_logic.specs.TermStorage.{term_code, sizes_of, most_le-sizes_of};

    ghost Value = { List Term };

    ghost coded = { coded_list term_code };

    ghost view = { λ a. a.items.items };

    ghost size = { sizes_of };

    ghost use Rattle.std.proofs.Common.{arith};

    ghost size_decreases = { λ a h. omega (arith, most_le-sizes_of a.items.items) };
}

impl Term {
    /// The index of a binder, from 0 for the innermost.
    pub fn bound(index: u32) -> Term
        ensures { result ≡ Bound index }
    {
        Term {
            node: TermNode::Bound(index),
        }
    }

    /// The constant with a number.
    pub fn constant(number: u32) -> Term
        ensures { result ≡ Const number }
    {
        Term {
            node: TermNode::Const(number),
        }
    }

    /// A symbol applied to arguments.
    pub fn apply(sym: Sym, args: Terms) -> Term
        ensures { result ≡ App sym (terms_of args) }
    {
        Term {
            node: TermNode::App(sym, args),
        }
    }

    /// An equal term.
    #[cycle(copy)]
    pub fn copy(&self, alloc: Global) -> Result<Term, AllocError>
        ensures { IfOk result (λ t. t ≡ self.now) }
    {
        match &self.node {
            TermNode::Bound(index) => Ok(Term::bound(*index)),
            TermNode::Const(number) => Ok(Term::constant(*number)),
            TermNode::App(sym, args) => {
                let args = args.copy(alloc)?;
                Ok(Term::apply(*sym, args))
            }
        }
    }

    /// Whether it is this index of a binder.
    pub fn is_bound(&self, index: u32) -> bool
        ensures { IsTrue result ↔ (self.now ≡ Bound index) }
    {
        match &self.node {
            TermNode::Bound(n) => *n == index,
            _ => false,
        }
    }

    /// Whether it is the constant with this number.
    pub fn is_const(&self, number: u32) -> bool
        ensures { IsTrue result ↔ (self.now ≡ Const number) }
    {
        match &self.node {
            TermNode::Const(n) => *n == number,
            _ => false,
        }
    }

    /// Whether two terms are equal.
    #[cycle(equals)]
    #[tactic(auto, using(crate::proofs::TermLemmas::term_rules))]
    pub fn equals(&self, other: &Term) -> bool
        ensures { IsTrue result ↔ (self.now ≡ other.now) }
    {
        match (&self.node, &other.node) {
            (TermNode::Bound(m), TermNode::Bound(n)) => *m == *n,
            (TermNode::Const(m), TermNode::Const(n)) => *m == *n,
            (TermNode::App(s, a), TermNode::App(t, b)) => s.is(*t) && a.equals(b),
            _ => false,
        }
    }
}

impl Terms {
    /// No terms.
    pub fn new(alloc: Global) -> Terms
        ensures { result ≡ [] }
    {
        Terms {
            items: Vec::new(alloc),
        }
    }

    /// The terms of a list that is given up.
    pub fn into_items(self) -> Vec<Term>
        ensures { result.items ≡ self }
    {
        let Terms { items } = self;
        items
    }

    /// How many there are.
    pub fn len(&self) -> usize
        ensures { result ≡ length self.now }
    {
        self.items.len()
    }

    /// The term at an index from 0.
    pub fn get(&self, index: usize) -> &Term
        requires { index < length self.now }
        ensures { slice_get self.now index ≡ Some result.now }
    {
        &self.items[index]
    }

    /// Puts a term at the end.
    pub fn push(&mut self, t: Term) -> Result<(), AllocError>
        ensures ok { OnOk result (self.new ≡ self.old ++ t ∷ []) }
        ensures err { OnErr result (self.new ≡ self.old) }
    {
        self.items.push(t)?;
        Ok(())
    }

    /// An equal list.
    #[cycle(copy)]
    pub fn copy(&self, alloc: Global) -> Result<Terms, AllocError>
        ensures { IfOk result (λ t. t ≡ self.now) }
    {
        let mut out = Vec::new(alloc);
        for t in &self.items {
            out.push(t.copy(alloc)?)?;
        }
        Ok(Terms { items: out })
    }

    /// Whether two lists are equal.
    #[cycle(equals)]
    pub fn equals(&self, other: &Terms) -> bool
        ensures { IsTrue result ↔ (self.now ≡ other.now) }
    {
        if self.items.len() != other.items.len() {
            return false;
        }
        for i in 0..self.items.len() {
            if !self.items[i].equals(&other.items[i]) {
                return false;
            }
        }
        true
    }
}
