//! Lists of statements.
ghost use Rattle.std.specs.Prelude.{◌≡◌, ◌↔◌, IsTrue, ◌++◌, ◌∷◌, [], IfOk, OnOk, OnErr};

use crate::statement::Statement;
use std::alloc::{AllocError, Global};
use std::marker::Model;

/// Statements, in the order of the text.
pub struct Statements {
    pub items: Vec<Statement>,
}

impl Drop for Statements {
    fn drop(self) {
        let Statements { items: _items } = self;
    }
}

impl Model for Statements {
    ghost use Rattle.std.specs.Prelude.{List};
    ghost use Rattle.std.specs.Coded.{coded_list};
    ghost use Rattle.mz_core.specs.Statement.{Statement};
    ghost use Rattle.mz_core.specs.StatementStorage.{statement_code};

    ghost Value = { List Statement };

    ghost coded = { coded_list statement_code };

    ghost view = { λ a. a.items.items };
}

impl Statements {
    /// No statements.
    pub fn new(alloc: Global) -> Statements
        ensures { result ≡ [] }
    {
        Statements {
            items: Vec::new(alloc),
        }
    }

    /// Puts a statement at the end.
    pub fn push(&mut self, x: Statement) -> Result<(), AllocError>
        ensures ok { OnOk result (self.new ≡ self.old ++ x ∷ []) }
        ensures err { OnErr result (self.new ≡ self.old) }
    {
        self.items.push(x)?;
        Ok(())
    }

    /// An equal list.
    pub fn copy(&self, alloc: Global) -> Result<Statements, AllocError>
        ensures { IfOk result (λ xs. xs ≡ self.now) }
    {
        let mut out = Vec::new(alloc);
        for x in &self.items {
            out.push(x.copy(alloc)?)?;
        }
        Ok(Statements { items: out })
    }

    /// Whether the lists are equal.
    pub fn equals(&self, other: &Statements) -> bool
        ensures { IsTrue result ↔ (self.now ≡ other.now) }
    {
        if self.items.len() != other.items.len() {
            return false;
        }
        for i in 0..self.items.len() {
            if !self.items[i].equals(&other.items[i]) {
                return false;
            }
        }
        true
    }
}
