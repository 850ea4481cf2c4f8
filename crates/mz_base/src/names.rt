//! Lists of names.
ghost use Rattle.std.specs.Prelude.{◌≡◌, ◌↔◌, ◌++◌, ◌∷◌, [], length, IsTrue, IfOk, OnOk, OnErr, Contains};

use crate::name::Name;
use std::alloc::{AllocError, Global};
use std::marker::Model;

/// A list of names.
#[derive(Debug, Drop)]
pub struct Names {
    /// The names, in order.
    pub items: Vec<Name>,
}

impl Model for Names {
    ghost use Rattle.std.specs.Prelude.{List};
    ghost use Rattle.mz_base.specs.declared.name.Name.{Name};

    ghost Value = { List Name };

    ghost view = { λ a. a.items.items };
}

impl Names {
    /// A list without names, which takes no memory yet.
    pub fn new(alloc: Global) -> Names
        ensures { result ≡ [] }
    {
        Names {
            items: Vec::new(alloc),
        }
    }

    /// These names.
    pub fn from_slice(alloc: Global, names: &[Name]) -> Result<Names, AllocError>
        ensures { IfOk result (λ list. list ≡ names.now) }
    {
        let items = Vec::from_slice(alloc, names)?;
        Ok(Names { items })
    }

    /// An equal list.
    pub fn copy(&self, alloc: Global) -> Result<Names, AllocError>
        ensures { IfOk result (λ list. list ≡ self.now) }
    {
        Names::from_slice(alloc, self.as_slice())
    }

    /// How many names there are.
    pub fn len(&self) -> usize
        ensures { result ≡ length self.now }
    {
        self.items.len()
    }

    /// Whether there is no name.
    pub fn is_empty(&self) -> bool
        ensures { IsTrue result ↔ (self.now ≡ []) }
    {
        self.items.is_empty()
    }

    /// The names.
    pub fn as_slice(&self) -> &[Name]
        ensures { result.now ≡ self.now }
    {
        self.items.as_slice()
    }

    /// Whether the name is in the list.
    pub fn contains(&self, name: &Name) -> bool
        ensures { IsTrue result ↔ Contains self.now name.now }
    {
        self.items.contains(name)
    }

    /// Adds one name at the end.
    pub fn push(&mut self, name: Name) -> Result<(), AllocError>
        ensures ok { OnOk result (self.new ≡ self.old ++ name ∷ []) }
        ensures err { OnErr result (self.new ≡ self.old) }
    {
        self.items.push(name)?;
        Ok(())
    }
}

#[cfg(test)]
mod tests {
    use super::*;

    #[test]
    fn grows(rt: HostRuntime) {
        let mut names = Names::new(rt.alloc());
        names.push(Name::hidden()).expect(&rt, "memory");
        let copy = names.copy(rt.alloc()).expect(&rt, "memory");
        assert!(rt; copy.len() == 1);
        assert!(rt; copy.contains(&Name::hidden()));
        assert!(rt; !copy.contains(&Name::tarski_0()));
    }
}
