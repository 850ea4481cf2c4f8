//! Parts of what a `now` states.
ghost use Rattle.std.specs.Prelude.{◌≡◌, ◌++◌, ◌∷◌, [], OnOk, OnErr};

use mz_core::soft_type::SoftType;
use mz_core::statement::Statement;
use mz_logic::term::Term;
use std::alloc::{AllocError, Global};
use std::marker::Model;

/// What a step adds to what a `now` states.
#[derive(Drop)]
pub enum NowPart {
    /// `let`: a quantifier over all that comes behind it, for the constant.
    Quantifier { constant: u32, ty: SoftType },
    /// `assume` and `given`: an antecedent of all that comes behind it.
    Antecedent(Statement),
    /// `thus` and `hence`: a conjunct.
    Conjunct(Statement),
    /// `set` and `reconsider`: the constant is replaced by the term.
    Defined { constant: u32, term: Term },
    /// `consider` and `given`: the constant may not be in what is stated.
    Hidden { constant: u32 },
}

/// Parts of what a `now` states, in the order of its steps.
#[derive(Drop)]
pub struct NowParts {
    pub items: Vec<NowPart>,
}

impl Model for NowParts {
    ghost use Rattle.std.specs.Prelude.{List};
    ghost use Rattle.std.specs.Coded.{coded_list};
    ghost use Rattle.mz_now.specs.declared.now_part.NowPart.{NowPart};
    ghost use Rattle.mz_now.specs.contracts.now_part.NowPart.{the_row};

    ghost Value = { List NowPart };

    ghost coded = { coded_list the_row.coded };

    ghost view = { λ a. a.items.items };
}

impl NowParts {
    /// No parts.
    pub fn new(alloc: Global) -> NowParts
        ensures { result ≡ [] }
    {
        NowParts {
            items: Vec::new(alloc),
        }
    }

    /// Puts one at the end.
    pub fn push(&mut self, x: NowPart) -> Result<(), AllocError>
        ensures ok { OnOk result (self.new ≡ self.old ++ x ∷ []) }
        ensures err { OnErr result (self.new ≡ self.old) }
    {
        self.items.push(x)?;
        Ok(())
    }

    /// Puts the others behind these.
    pub fn append(&mut self, more: NowParts) -> Result<(), AllocError>
        ensures { OnOk result (self.new ≡ self.old ++ more) }
    {
        let mut rest = more;
        self.items.append(&mut rest.items)?;
        Ok(())
    }
}
