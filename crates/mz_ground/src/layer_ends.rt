//! Lists of ends of layers.
ghost use Rattle.std.specs.Prelude.{◌≡◌, ◌<◌, [], ◌∷◌, ◌++◌, length, slice_get, Some, IfOk, OnOk, OnErr};

use std::alloc::{AllocError, Global};
use std::marker::Model;

/// How many terms, atoms and equations stand in a layer and in those before it.
#[derive(Clone, Copy, Debug, PartialEq, Eq)]
pub struct LayerEnd {
    pub terms: usize,
    pub atoms: usize,
    pub equations: usize,
}

/// A list of ends of layers.
pub struct LayerEnds {
    pub items: Vec<LayerEnd>,
}

impl Drop for LayerEnds {
    fn drop(self) {
        let LayerEnds { items: _items } = self;
    }
}

impl Model for LayerEnds {
    ghost use Rattle.std.specs.Prelude.{List};
    ghost use Rattle.std.specs.Coded.{coded_list};
    ghost use Rattle.mz_ground.specs.declared.layer_ends.LayerEnd.{LayerEnd};
    ghost use Rattle.mz_ground.specs.contracts.layer_ends.LayerEnd.{the_row};

    ghost Value = { List LayerEnd };

    ghost coded = { coded_list the_row.coded };

    ghost view = { λ a. a.items.items };
}

impl LayerEnds {
    /// An empty list.
    pub fn new(alloc: Global) -> LayerEnds
        ensures { result ≡ [] }
    {
        LayerEnds {
            items: Vec::new(alloc),
        }
    }

    /// How many there are.
    pub fn len(&self) -> usize
        ensures { result ≡ length self.now }
    {
        self.items.len()
    }

    /// The one at a place, from 0.
    pub fn get(&self, place: usize) -> &LayerEnd
        requires { place < length self.now }
        ensures { slice_get self.now place ≡ Some result.now }
    {
        &self.items[place]
    }

    /// Puts one at the end.
    pub(crate) fn push(&mut self, item: LayerEnd) -> Result<(), AllocError>
        ensures ok { OnOk result (self.new ≡ self.old ++ item ∷ []) }
        ensures err { OnErr result (self.new ≡ self.old) }
    {
        self.items.push(item)?;
        Ok(())
    }

    /// An equal list.
    pub fn copy(&self, alloc: Global) -> Result<LayerEnds, AllocError>
        ensures { IfOk result (λ items. items ≡ self.now) }
    {
        let mut out = Vec::new(alloc);
        for item in &self.items {
            out.push(*item)?;
        }
        Ok(LayerEnds { items: out })
    }
}
