//! Symbols of a run that aren't applied yet.
ghost use Rattle.std.specs.Prelude.{◌≡◌, ◌∷◌, [], suc, nat_lt, OnOk};
ghost use Rattle.mz_grouping.specs.Open.{head, head_at, replaces_top, begin_of, top_of, rest_of, popped, left_by};
ghost use Rattle.mz_grouping.specs.Grouping.{replaces};

use std::alloc::{AllocError, Global};
use std::marker::Model;

/// A symbol: its place in the run, its rank, whether it stands directly after an operand, and whether something stands
/// before it in the run whose head it is.
#[derive(Clone, Copy, Debug, PartialEq, Eq)]
pub struct Opened {
    pub place: usize,
    pub rank: u32,
    pub after: bool,
    pub left: bool,
}

/// Symbols, as contracts see them the one opened last in front.
#[derive(Drop)]
pub struct OpenSymbols {
    pub items: Vec<Opened>,
}

impl Model for OpenSymbols {
    ghost use Rattle.std.specs.Prelude.{List, reverse};
    ghost use Rattle.mz_grouping.specs.declared.opened.Opened.{Opened};

    ghost Value = { List Opened };

    ghost view = { λ a. reverse a.items.items };
}

impl OpenSymbols {
    /// None.
    pub fn new(alloc: Global) -> OpenSymbols
        ensures { result ≡ [] }
    {
        OpenSymbols {
            items: Vec::new(alloc),
        }
    }

    /// Opens one.
    #[tactic(auto, using(crate::proofs::OpenedLemmas::opened_rules))]
    pub fn push(&mut self, o: Opened) -> Result<(), AllocError>
        ensures { OnOk result (self.new ≡ o ∷ self.old) }
    {
        self.items.push(o)?;
        Ok(())
    }

    /// Takes the one opened last.
    #[tactic(auto, using(crate::proofs::OpenedLemmas::opened_rules))]
    pub fn pop(&mut self) -> Option<Opened>
        ensures top { result ≡ top_of self.old }
        ensures rest { self.new ≡ rest_of self.old }
    {
        self.items.pop()
    }

    /// Whether something stands before the place k in the run behind the one opened last.
    #[tactic(auto, using(crate::proofs::OpenedLemmas::opened_rules))]
    pub fn stands_before(&self, k: usize) -> bool
        ensures { result ≡ nat_lt (begin_of self.now) k }
    {
        match self.items.last() {
            Some(o) => is_behind(o.place, k),
            None => 0 < k,
        }
    }

    #[tactic(auto, using(crate::proofs::OpenedLemmas::opened_rules))]
    fn is_top_replaced(&self, place: usize, rank: u32, after: bool) -> bool
        ensures { result ≡ replaces_top (head place rank after) self.now }
    {
        match self.items.last() {
            Some(o) => is_replaced(place, rank, after, *o),
            None => false,
        }
    }

    /// Takes the one opened last, where a symbol of the rank replaces it as the head.
    pub fn pop_replaced(&mut self, place: usize, rank: u32, after: bool) -> Option<Opened>
        ensures top { result ≡ popped (head place rank after) self.old }
        ensures rest { self.new ≡ left_by (head place rank after) self.old }
    {
        if self.is_top_replaced(place, rank, after) {
            self.pop()
        } else {
            None
        }
    }
}

/// Whether something stands between the places.
pub fn is_behind(place: usize, k: usize) -> bool
    ensures { result ≡ nat_lt (suc place) k }
{
    place < k && k - place > 1
}

fn is_replaced(place: usize, rank: u32, after: bool, o: Opened) -> bool
    ensures { result ≡ replaces (head place rank after) (head_at o) }
{
    rank < o.rank || (rank == o.rank && after)
}
