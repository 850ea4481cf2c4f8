//! Definientia after `equals`.
ghost use Rattle.std.specs.Prelude.{◌≡◌, ◌++◌, ◌∷◌, [], OnOk, OnErr};

use crate::statement::Statement;
use mz_logic::term::Term;
use std::alloc::{AllocError, Global};
use std::marker::Model;

/// A case: `definiens if condition`.
pub struct TermCase {
    pub condition: Statement,
    pub definiens: Term,
}

impl Drop for TermCase {
    fn drop(self) {
        let TermCase {
            condition: _condition,
            definiens: _definiens,
        } = self;
    }
}

/// Cases of a definiens, in the order of the text.
pub struct TermCases {
    pub items: Vec<TermCase>,
}

impl Drop for TermCases {
    fn drop(self) {
        let TermCases { items: _items } = self;
    }
}

impl Model for TermCases {
    ghost use Rattle.std.specs.Prelude.{List};
    ghost use Rattle.std.specs.Coded.{coded_list};
    ghost use Rattle.mz_core.specs.declared.term_definiens.TermCase.{TermCase};
    ghost use Rattle.mz_core.specs.contracts.term_definiens.TermCase.{the_row};

    ghost Value = { List TermCase };

    ghost coded = { coded_list the_row.coded };

    ghost view = { λ a. a.items.items };
}

impl TermCases {
    /// No cases of a definiens.
    pub fn new(alloc: Global) -> TermCases
        ensures { result ≡ [] }
    {
        TermCases {
            items: Vec::new(alloc),
        }
    }

    /// Puts a case at the end.
    pub fn push(&mut self, x: TermCase) -> Result<(), AllocError>
        ensures ok { OnOk result (self.new ≡ self.old ++ x ∷ []) }
        ensures err { OnErr result (self.new ≡ self.old) }
    {
        self.items.push(x)?;
        Ok(())
    }
}

/// A definiens: one term, or cases with or without `otherwise`.
pub enum TermDefiniens {
    Plain(Term),
    Cases(TermCases),
    CasesOtherwise(TermCases, Term),
}

impl Drop for TermDefiniens {
    fn drop(self) {
        match self {
            TermDefiniens::Plain(_term) => {}
            TermDefiniens::Cases(_term_cases) => {}
            TermDefiniens::CasesOtherwise(_term_cases, _term) => {}
        }
    }
}
