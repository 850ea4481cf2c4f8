//! Labelled schemes.
ghost use Rattle.std.specs.Prelude.{◌≡◌, ◌++◌, ◌∷◌, [], OnOk, OnErr};

use mz_base::text::Text;
use std::alloc::{AllocError, Global};
use std::marker::Model;

/// A scheme of the article that `from` can name by a label, with its number there, from 1 in the order of the text.
#[derive(Drop)]
pub struct LabelledScheme {
    pub label: Text,
    pub number: u64,
}

/// Labelled schemes, the latest last.
#[derive(Drop)]
pub struct LabelledSchemes {
    pub items: Vec<LabelledScheme>,
}

impl Model for LabelledSchemes {
    ghost use Rattle.std.specs.Prelude.{List};
    ghost use Rattle.std.specs.Coded.{coded_list};
    ghost use Rattle.mz_context.specs.declared.labelled_schemes.LabelledScheme.{LabelledScheme};
    ghost use Rattle.mz_context.specs.contracts.labelled_schemes.LabelledScheme.{the_row};

    ghost Value = { List LabelledScheme };

    ghost coded = { coded_list the_row.coded };

    ghost view = { λ a. a.items.items };
}

impl LabelledSchemes {
    /// No schemes.
    pub fn new(alloc: Global) -> LabelledSchemes
        ensures { result ≡ [] }
    {
        LabelledSchemes {
            items: Vec::new(alloc),
        }
    }

    /// Puts one at the end.
    pub fn push(&mut self, x: LabelledScheme) -> Result<(), AllocError>
        ensures ok { OnOk result (self.new ≡ self.old ++ x ∷ []) }
        ensures err { OnErr result (self.new ≡ self.old) }
    {
        self.items.push(x)?;
        Ok(())
    }
}
