//! Labelled statements.
ghost use Rattle.std.specs.Prelude.{◌≡◌, ◌++◌, ◌∷◌, [], OnOk, OnErr};
ghost use Rattle.mz_context.specs.Changes.{labelled};

use mz_base::text::Text;
use mz_core::statement::Statement;
use std::alloc::{AllocError, Global};
use std::marker::Model;

/// A statement that can be cited by a label.
#[derive(Drop)]
pub struct LabelledStatement {
    pub label: Text,
    pub statement: Statement,
}

/// Labelled statements, the latest last.
#[derive(Drop)]
pub struct LabelledStatements {
    pub items: Vec<LabelledStatement>,
}

impl Model for LabelledStatements {
    ghost use Rattle.std.specs.Prelude.{List};
    ghost use Rattle.std.specs.Coded.{coded_list};
    ghost use Rattle.mz_context.specs.declared.labelled.LabelledStatement.{LabelledStatement};
    ghost use Rattle.mz_context.specs.contracts.labelled.LabelledStatement.{the_row};

    ghost Value = { List LabelledStatement };

    ghost coded = { coded_list the_row.coded };

    ghost view = { λ a. a.items.items };
}

impl LabelledStatements {
    /// No statements.
    pub fn new(alloc: Global) -> LabelledStatements
        ensures { result ≡ [] }
    {
        LabelledStatements {
            items: Vec::new(alloc),
        }
    }

    /// Puts one at the end.
    pub fn push(&mut self, x: LabelledStatement) -> Result<(), AllocError>
        ensures ok { OnOk result (self.new ≡ self.old ++ x ∷ []) }
        ensures err { OnErr result (self.new ≡ self.old) }
    {
        self.items.push(x)?;
        Ok(())
    }

    /// Puts the statement under the label at the end; an empty label is none.
    pub fn push_if_any(
        &mut self,
        alloc: Global,
        label: Text,
        s: &Statement,
    ) -> Result<(), AllocError>
        ensures ok { OnOk result (self.new ≡ self.old ++ labelled label s.now) }
        ensures err { OnErr result (self.new ≡ self.old) }
    {
        if label.is_empty() {
            return Ok(());
        }
        let statement = s.copy(alloc)?;
        self.push(LabelledStatement { label, statement })?;
        Ok(())
    }
}
