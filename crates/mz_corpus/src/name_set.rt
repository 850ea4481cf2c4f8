//! Names in turn, each once.
ghost use Rattle.std.specs.Prelude.{◌≡◌, [], length, IfOk, OnOk};
ghost use Rattle.mz_corpus.specs.Names.{with_name, with_fetched_name, place_of, is_among};

use indexmap::IndexSet;
use mz_base::name::Name;
use mz_base::names::Names;
use std::alloc::{AllocError, Global};
use std::marker::Model;

/// Names in the order in which they were added first.
#[derive(Drop)]
pub struct NameSet {
    names: IndexSet<Name>,
}

impl Model for NameSet {
    ghost use Rattle.std.specs.Prelude.{List};
    ghost use Rattle.mz_base.specs.declared.name.Name.{Name};

    ghost Value = { List Name };

    ghost view = { λ a. a.names.keys };
}

impl NameSet {
    /// No names. It takes no memory yet.
    pub fn new(alloc: Global) -> NameSet
        ensures { result ≡ [] }
    {
        NameSet {
            names: IndexSet::new(alloc),
        }
    }

    /// How many names there are.
    pub fn len(&self) -> usize
        ensures { result ≡ length self.now }
    {
        self.names.len()
    }

    /// The names, in turn.
    pub fn as_slice(&self) -> &[Name]
        ensures { result.now ≡ self.now }
    {
        self.names.as_slice()
    }

    /// Adds the name at the end, where it isn't there yet.
    pub fn insert(&mut self, name: Name) -> Result<(), AllocError>
        ensures { OnOk result (self.new ≡ with_name self.old name) }
    {
        self.names.insert_full(name).map_err(|_| AllocError)?;
        Ok(())
    }

    /// Adds the name at the end, where it isn't there yet and isn't built in.
    pub fn insert_fetched(&mut self, name: Name) -> Result<(), AllocError>
        ensures { OnOk result (self.new ≡ with_fetched_name self.old name) }
    {
        if name.is_built_in() {
            return Ok(());
        }
        self.insert(name)
    }

    /// Whether the name is there.
    pub fn contains(&self, name: &Name) -> bool
        ensures { result ≡ is_among self.now name.now }
    {
        self.names.contains(name)
    }

    /// The place of the name, from 0.
    pub fn place(&self, name: &Name) -> Option<usize>
        ensures { result ≡ place_of self.now name.now }
    {
        self.names.get_index_of(name)
    }

    /// The names as a list.
    pub fn to_names(&self, alloc: Global) -> Result<Names, AllocError>
        ensures { IfOk result (λ names. names ≡ self.now) }
    {
        Names::from_slice(alloc, self.names.as_slice())
    }
}
