//! Lists of formulas.
ghost use Rattle.std.specs.Prelude.{◌≡◌, ◌↔◌, ◌<◌, List, [], ◌∷◌, ◌++◌, length, slice_get, Some, IfOk, OnOk, OnErr, IsTrue, All};
ghost use Rattle.std.specs.List.{list_any};
ghost use Rattle.mz_logic.specs.Constants.{occurs_in_formula};
ghost use Rattle.mz_logic.specs.Formula.{Not};
ghost use Rattle.mz_logic.specs.Formulas.{IsMember};

use crate::formula::Formula;
use std::alloc::{AllocError, Global};
use std::marker::Model;

/// A list of formulas.
pub struct Formulas {
    pub items: Vec<Formula>,
}

impl Drop for Formulas {
    fn drop(self) {
        let Formulas { items: _items } = self;
    }
}

impl Model for Formulas {
    ghost use Rattle.std.specs.Prelude.{List};
    ghost use Rattle.std.specs.Coded.{coded_list};
    ghost use Rattle.mz_logic.specs.Formula.{Formula};
    ghost use Rattle.mz_logic.specs.FormulaStorage.{formula_code};

    ghost Value = { List Formula };

    ghost coded = { coded_list formula_code };

    ghost view = { λ a. a.items.items };
}

impl Formulas {
    /// No formulas.
    pub fn new(alloc: Global) -> Formulas
        ensures { result ≡ [] }
    {
        Formulas {
            items: Vec::new(alloc),
        }
    }

    /// The formulas of a list that is given up.
    pub fn into_items(self) -> Vec<Formula>
        ensures { result.items ≡ self }
    {
        let Formulas { items } = self;
        items
    }

    /// How many there are.
    pub fn len(&self) -> usize
        ensures { result ≡ length self.now }
    {
        self.items.len()
    }

    /// Whether there are none.
    pub fn is_empty(&self) -> bool
        ensures { IsTrue result ↔ (self.now ≡ []) }
    {
        self.items.len() == 0
    }

    /// The formula at an index from 0.
    pub fn get(&self, index: usize) -> &Formula
        requires { index < length self.now }
        ensures { slice_get self.now index ≡ Some result.now }
    {
        &self.items[index]
    }

    /// Puts a formula at the end.
    pub fn push(&mut self, f: Formula) -> Result<(), AllocError>
        ensures ok { OnOk result (self.new ≡ self.old ++ f ∷ []) }
        ensures err { OnErr result (self.new ≡ self.old) }
    {
        self.items.push(f)?;
        Ok(())
    }

    /// Whether `f` is a member.
    #[tactic(auto, unfolding(crate::specs::Formulas::IsMember))]
    pub fn contains(&self, f: &Formula) -> bool
        ensures { IsTrue result ↔ IsMember self.now f.now }
    {
        self.items.iter().any(|g| g.equals(f))
    }

    /// Whether each member is a member of `others`.
    pub fn are_within(&self, others: &Formulas) -> bool
        ensures { IsTrue result ↔ All (IsMember others.now) self.now }
    {
        self.items.iter().all(|f| others.contains(f))
    }

    /// Whether the lists are equal.
    pub fn equals(&self, others: &Formulas) -> bool
        ensures { IsTrue result ↔ (self.now ≡ others.now) }
    {
        if self.items.len() != others.items.len() {
            return false;
        }
        for i in 0..self.items.len() {
            if !self.items[i].equals(&others.items[i]) {
                return false;
            }
        }
        true
    }

    /// Whether these are `f` and then `others`.
    pub fn is_cons(&self, f: &Formula, others: &Formulas) -> bool
        ensures { IsTrue result ↔ (self.now ≡ f.now ∷ others.now) }
    {
        if self.items.len() == 0 || self.items.len() - 1 != others.items.len() {
            return false;
        }
        if !self.items[0].equals(f) {
            return false;
        }
        for i in 0..others.items.len() {
            if !self.items[i + 1].equals(&others.items[i]) {
                return false;
            }
        }
        true
    }

    /// Whether these are the negation of `f` and then `others`.
    pub fn is_negation_cons(&self, f: &Formula, others: &Formulas) -> bool
        ensures { IsTrue result ↔ (self.now ≡ Not f.now ∷ others.now) }
    {
        if self.items.len() == 0 || self.items.len() - 1 != others.items.len() {
            return false;
        }
        if !self.items[0].is_negation_of(f) {
            return false;
        }
        for i in 0..others.items.len() {
            if !self.items[i + 1].equals(&others.items[i]) {
                return false;
            }
        }
        true
    }

    /// Whether the constant occurs in one of them.
    pub fn have_constant(&self, number: u32) -> bool
        ensures { result ≡ list_any (occurs_in_formula number) self.now }
    {
        self.items.iter().any(|f| f.has_constant(number))
    }

    /// An equal list.
    pub fn copy(&self, alloc: Global) -> Result<Formulas, AllocError>
        ensures { IfOk result (λ fs. fs ≡ self.now) }
    {
        let mut out = Vec::new(alloc);
        for f in &self.items {
            out.push(f.copy(alloc)?)?;
        }
        Ok(Formulas { items: out })
    }
}
