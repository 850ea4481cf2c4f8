//! Definientia after `means`.
ghost use Rattle.std.specs.Prelude.{◌≡◌, ◌++◌, ◌∷◌, [], OnOk, OnErr};

use crate::statement::Statement;
use std::alloc::{AllocError, Global};
use std::marker::Model;

/// A case: `definiens if condition`. The definiens stands under one more binder, that of `it`, for
/// a functor or a mode.
pub struct FormulaCase {
    pub condition: Statement,
    pub definiens: Statement,
}

impl Drop for FormulaCase {
    fn drop(self) {
        let FormulaCase {
            condition: _condition,
            definiens: _definiens,
        } = self;
    }
}

/// Cases of a definiens, in the order of the text.
pub struct FormulaCases {
    pub items: Vec<FormulaCase>,
}

impl Drop for FormulaCases {
    fn drop(self) {
        let FormulaCases { items: _items } = self;
    }
}

impl Model for FormulaCases {
    ghost use Rattle.std.specs.Prelude.{List};
    ghost use Rattle.std.specs.Coded.{coded_list};
    ghost use Rattle.mz_core.specs.declared.formula_definiens.FormulaCase.{FormulaCase};
    ghost use Rattle.mz_core.specs.contracts.formula_definiens.FormulaCase.{the_row};

    ghost Value = { List FormulaCase };

    ghost coded = { coded_list the_row.coded };

    ghost view = { λ a. a.items.items };
}

impl FormulaCases {
    /// No cases of a definiens.
    pub fn new(alloc: Global) -> FormulaCases
        ensures { result ≡ [] }
    {
        FormulaCases {
            items: Vec::new(alloc),
        }
    }

    /// Puts a case at the end.
    pub fn push(&mut self, x: FormulaCase) -> Result<(), AllocError>
        ensures ok { OnOk result (self.new ≡ self.old ++ x ∷ []) }
        ensures err { OnErr result (self.new ≡ self.old) }
    {
        self.items.push(x)?;
        Ok(())
    }
}

/// A definiens: one formula, or cases with or without `otherwise`.
pub enum FormulaDefiniens {
    Plain(Statement),
    Cases(FormulaCases),
    CasesOtherwise(FormulaCases, Statement),
}

impl Drop for FormulaDefiniens {
    fn drop(self) {
        match self {
            FormulaDefiniens::Plain(_statement) => {}
            FormulaDefiniens::Cases(_formula_cases) => {}
            FormulaDefiniens::CasesOtherwise(_formula_cases, _statement) => {}
        }
    }
}
