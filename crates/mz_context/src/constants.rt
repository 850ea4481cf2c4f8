//! Lists of constants.
ghost use Rattle.std.specs.Prelude.{◌≡◌, ◌<◌, ◌≤◌, ◌-◌, ◌++◌, ◌∷◌, [], None, Some, MatchOption, OnOk, OnErr, length, slice_set, take};
ghost use Rattle.mz_context.specs.Context.{numbered};
ghost use Rattle.mz_context.specs.Changes.{places_in_use, trimmed};

use mz_base::text::Text;
use mz_core::soft_type::SoftType;
use mz_logic::term::Term;
use std::alloc::{AllocError, Global};
use std::marker::Model;

/// A constant: its name, which is empty where no identifier stands for it, its type, and the term that it is equal to,
/// where there is one.
#[derive(Drop)]
pub struct Constant {
    pub name: Text,
    pub ty: SoftType,
    pub equal: Option<Term>,
}

/// The constants by their numbers: the first place is that of the number 1. A place whose constant is out of force
/// has none.
#[derive(Drop)]
pub struct Constants {
    pub items: Vec<Option<Constant>>,
}

impl Model for Constants {
    ghost use Rattle.std.specs.Prelude.{List, Option};
    ghost use Rattle.std.specs.Coded.{coded_list, coded_option};
    ghost use Rattle.mz_context.specs.declared.constants.Constant.{Constant};
    ghost use Rattle.mz_context.specs.contracts.constants.Constant.{the_row};

    ghost Value = { List (Option Constant) };

    ghost coded = { coded_list (coded_option the_row.coded) };

    ghost view = { λ a. a.items.items };
}

impl Constants {
    /// No constants.
    pub fn new(alloc: Global) -> Constants
        ensures { result ≡ [] }
    {
        Constants {
            items: Vec::new(alloc),
        }
    }

    /// Puts a constant at the end.
    pub fn push(&mut self, k: Constant) -> Result<(), AllocError>
        ensures ok { OnOk result (self.new ≡ self.old ++ Some k ∷ []) }
        ensures err { OnErr result (self.new ≡ self.old) }
    {
        self.items.push(Some(k))?;
        Ok(())
    }

    /// The constant with the number, where it is in force.
    pub fn get(&self, number: u32) -> Option<&Constant>
        ensures { MatchOption result (numbered self.now number ≡ None) (λ k. numbered self.now number ≡ Some k.now) }
    {
        let place = number as usize;
        if place == 0 || place > self.items.len() {
            return None;
        }
        match &self.items[place - 1] {
            Some(k) => Some(k),
            None => None,
        }
    }

    /// Takes the constant with the number out of force.
    pub fn release(&mut self, number: u32)
        requires number { 0 < number }
        requires within { number ≤ length self.old }
        ensures { self.new ≡ trimmed (slice_set self.old (number - 1) None) }
    {
        let place = number as usize - 1;
        self.items[place] = None;
        self.trim();
    }

    /// Cuts the list back to so many places, and to the last of these that has a constant.
    pub fn cut_back(&mut self, places: usize)
        ensures { self.new ≡ trimmed (take places self.old) }
    {
        self.items.truncate(places);
        self.trim();
    }

    fn trim(&mut self)
        ensures { self.new ≡ trimmed self.old }
    {
        let places = places_in_use(self.items.as_slice());
        self.items.truncate(places);
    }
}

#[tactic(auto, using(crate::proofs::PlaceLemmas::place_rules))]
fn places_in_use(ks: &[Option<Constant>]) -> usize
    ensures { result ≡ places_in_use ks.now }
{
    let mut places = ks.len();
    while places > 0 {
        match &ks[places - 1] {
            Some(_) => return places,
            None => places -= 1,
        }
    }
    0
}
