//! Lists of articles, in which one is found by its number.
ghost use Rattle.std.specs.Prelude.{◌≡◌, ◌++◌, ◌∷◌, [], IfOk, OnOk};
ghost use Rattle.mz_env.specs.Symbols.{is_among};

use mz_base::name::Name;
use mz_base::names::Names;
use std::alloc::{AllocError, Global};
use std::collections::BTreeSet;
use std::marker::Model;
use std::mem;

/// Articles, the latest one last. How long it takes to find one hardly grows with their number.
#[derive(Drop)]
pub struct Articles {
    names: Names,
    numbers: BTreeSet<u64>,
}

impl Model for Articles {
    ghost use Rattle.std.specs.Prelude.{List};
    ghost use Rattle.mz_base.specs.declared.name.Name.{Name};
    ghost use Rattle.mz_env.specs.Symbols.{AreNumbers};

    ghost Value = { List Name };

    ghost view = { λ a. a.names };

    ghost invariant = { λ a. AreNumbers a.names a.numbers };
}

impl Articles {
    /// None.
    pub fn new(alloc: Global) -> Articles
        ensures { result ≡ [] }
    {
        Articles {
            names: Names::new(alloc),
            numbers: BTreeSet::new(alloc),
        }
    }

    /// Whether the article with the number is one of these.
    pub fn has(&self, number: u64) -> bool
        ensures { result ≡ is_among number self.now }
    {
        self.numbers.contains(&number)
    }

    /// The articles with one more at the end.
    fn with(self, n: Name) -> Result<Articles, AllocError>
        ensures { IfOk result (λ a. a ≡ self ++ n ∷ []) }
    {
        let Articles { names, numbers } = self;
        let mut names = names;
        let mut numbers = numbers;
        names.push(n)?;
        numbers.insert(n.number)?;
        Ok(Articles { names, numbers })
    }

    /// Puts one at the end.
    pub fn push(&mut self, alloc: Global, n: Name) -> Result<(), AllocError>
        ensures { OnOk result (self.new ≡ self.old ++ n ∷ []) }
    {
        let before = mem::replace(self, Articles::new(alloc));
        *self = before.with(n)?;
        Ok(())
    }
}
