//! Lists of shared exports.
ghost use Rattle.std.specs.Prelude.{◌≡◌, ◌<◌, ◌≤◌, ◌++◌, ◌∷◌, [], length, map, Some, slice_get, vec_len, vec_capacity, IfOk, OnOk, OnErr};
ghost use Rattle.std.specs.List.{insert};
ghost use Rattle.std.specs.Arc.{arc_value};
ghost use Rattle.mz_axioms.specs.Library.{added, place_in};

use mz_base::name::Name;
use mz_core::outcome::Export;
use std::alloc::{AllocError, Global};
use std::marker::Model;
use std::sync::Arc;

/// The most exports of a library: those of 512 articles and the three built-in ones.
const MOST: usize = 515;

/// Exports, shared. Those of a sound library are in the order of names.
///
/// There is always room for 515 of them.
pub struct Exports {
    items: Vec<Arc<Export>>,
}

impl Drop for Exports {
    fn drop(self) {
        let Exports { items: _items } = self;
    }
}

impl Model for Exports {
    ghost use Rattle.std.specs.Prelude.{List, map, ◌≤◌, vec_capacity};
    ghost use Rattle.std.specs.Arc.{arc_value};
    ghost use Rattle.std.specs.Coded.{coded_list};
    ghost use Rattle.mz_core.specs.declared.outcome.Export.{Export};
    ghost use Rattle.mz_core.specs.contracts.outcome.Export.{the_row};

    ghost Value = { List Export };

    ghost coded = { coded_list the_row.coded };

    ghost view = { λ a. map arc_value a.items.items };

    ghost invariant = { λ a. 515 ≤ vec_capacity a.items };
}

/// How many exports at the front have names before this one.
fn place_in(exports: &[Arc<Export>], name: &Name) -> usize
    ensures place { result ≡ place_in name.now (map arc_value exports.now) }
    ensures within { result ≤ length exports.now }
{
    match exports.split_first() {
        None => 0,
        Some((e, rest)) => {
            if e.name.number < name.number {
                place_in(rest, name) + 1
            } else {
                0
            }
        }
    }
}

/// Inserts an export where there is room.
fn insert_at(exports: &mut Vec<Arc<Export>>, place: usize, export: Arc<Export>)
    requires place { place ≤ vec_len exports.old }
    requires room { vec_len exports.old < vec_capacity exports.old }
    ensures items { exports.new.items ≡ insert exports.old.items place export }
    ensures capacity { vec_capacity exports.old ≤ vec_capacity exports.new }
{
    let _ = exports.insert(place, export);
}

impl Exports {
    /// No exports, and room for 515.
    pub fn new(alloc: Global) -> Result<Exports, AllocError>
        ensures { IfOk result (λ es. es ≡ []) }
    {
        let items = Vec::with_capacity(alloc, MOST)?;
        Ok(Exports { items })
    }

    /// How many exports there are.
    pub fn len(&self) -> usize
        ensures { result ≡ length self.now }
    {
        self.items.len()
    }

    /// The export at the index, from 0.
    pub fn get(&self, index: usize) -> &Export
        requires { index < length self.now }
        ensures { slice_get self.now index ≡ Some result.now }
    {
        &self.items[index]
    }

    /// The exports.
    pub fn as_slice(&self) -> &[Arc<Export>]
        ensures { map arc_value result.now ≡ self.now }
    {
        self.items.as_slice()
    }

    /// Puts an export at the end.
    pub fn push(&mut self, export: Arc<Export>) -> Result<(), AllocError>
        ensures ok { OnOk result (self.new ≡ self.old ++ arc_value export ∷ []) }
        ensures err { OnErr result (self.new ≡ self.old) }
    {
        self.items.push(export)?;
        Ok(())
    }

    /// Adds an export at its place in the order of names. It takes no memory.
    pub fn insert(&mut self, export: Arc<Export>)
        requires { length self.old < 515 }
        ensures { self.new ≡ added (arc_value export) self.old }
    {
        let place = place_in(self.items.as_slice(), &export.name);
        insert_at(&mut self.items, place, export);
    }
}
