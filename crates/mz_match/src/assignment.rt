//! Assignments of classes to variables.
ghost use Rattle.std.specs.Prelude.{◌≡◌, ◌∷◌, ◌++◌, ◌<◌, [], length, map, set, None, Some, IfOk};
ghost use Rattle.std.specs.List.{AllByRecursion};
ghost use Rattle.mz_match.specs.Fitting.{Fits};
ghost use Rattle.mz_match.specs.Slots.{slot_at};
ghost use Rattle.mz_match.specs.Places.{Extends, SlotFits};

use std::alloc::{AllocError, Global};
use std::marker::Model;

/// A slot for each variable, the innermost first: the number of its class, where it has one.
#[derive(Drop)]
pub struct Assignment {
    pub slots: Vec<Option<usize>>,
}

impl Model for Assignment {
    ghost use Rattle.std.specs.Prelude.{List, Option, ℕ};
    ghost use Rattle.std.specs.Coded.{coded_list, coded_option, coded_ℕ};

    ghost Value = { List (Option ℕ) };

    ghost coded = { coded_list (coded_option coded_ℕ) };

    ghost view = { λ a. a.slots.items };
}

impl Assignment {
    /// The assignment of no variable.
    pub fn new(alloc: Global) -> Assignment
        ensures { result ≡ [] }
    {
        Assignment {
            slots: Vec::new(alloc),
        }
    }

    /// An equal assignment.
    pub fn copy(&self, alloc: Global) -> Result<Assignment, AllocError>
        ensures { IfOk result (λ e. e ≡ self.now) }
    {
        let mut slots = Vec::new(alloc);
        for x in &self.slots {
            slots.push(*x)?;
        }
        Ok(Assignment { slots })
    }

    /// The assignment with the class at a variable.
    pub fn with(&self, alloc: Global, index: usize, class: usize) -> Result<Assignment, AllocError>
        ensures { IfOk result (λ e. e ≡ set self.now index (Some class)) }
    {
        let mut e = self.copy(alloc)?;
        if index < e.slots.len() {
            e.slots[index] = Some(class);
        }
        Ok(e)
    }

    /// The assignment with one more place, which has no class.
    pub fn push_variable(&self, alloc: Global) -> Result<Assignment, AllocError>
        ensures { IfOk result (λ e. e ≡ self.now ++ None ∷ []) }
    {
        let mut e = self.copy(alloc)?;
        e.slots.push(None)?;
        Ok(e)
    }

    /// The class at a place, where it has one.
    #[tactic(auto, using(crate::proofs::PlaceLemmas::slot_rules))]
    pub fn at(&self, place: usize) -> Option<usize>
        ensures { result ≡ slot_at self.now place }
    {
        if place < self.slots.len() {
            self.slots[place]
        } else {
            None
        }
    }

    /// The classes at some places.
    pub fn at_places(&self, alloc: Global, scope: &[usize]) -> Result<Assignment, AllocError>
        ensures { IfOk result (λ e. e ≡ map (slot_at self.now) scope.now) }
    {
        let mut slots = Vec::new(alloc);
        for place in scope {
            slots.push(self.at(*place))?;
        }
        Ok(Assignment { slots })
    }

    /// Puts a class at a place; false where it has another class.
    pub fn bind(&mut self, place: usize, class: usize) -> bool
        requires { place < length self.old }
        ensures { Extends (λ a. a place ≡ class) self.old self.new result }
    {
        match self.slots[place] {
            None => {
                self.slots[place] = Some(class);
                true
            }
            Some(other) => other == class,
        }
    }

    /// Puts the classes of an assignment at some places; false where a place has another class.
    pub fn bind_all(&mut self, scope: &[usize], local: &Assignment) -> bool
        requires { AllByRecursion (λ i. i < length self.old) scope.now }
        ensures { Extends (λ a. Fits local.now (map a scope.now)) self.old self.new result }
    {
        if scope.len() != local.slots.len() {
            return false;
        }
        for k in 0..scope.len() {
            if !self.bind_slot(scope[k], local.at(k)) {
                return false;
            }
        }
        true
    }

    /// Puts a class at a place, if there is one; false where the place has another class.
    fn bind_slot(&mut self, place: usize, slot: Option<usize>) -> bool
        requires { place < length self.old }
        ensures { Extends (λ a. SlotFits slot (a place)) self.old self.new result }
    {
        match slot {
            None => true,
            Some(class) => self.bind(place, class),
        }
    }
}
