//! What loci are fixed to.
ghost use Rattle.std.specs.Prelude.{◌≡◌, ◌++◌, ◌∷◌, [], IfOk};
ghost use Rattle.mz_fits.specs.Matching.{unfixed, values_of};

use mz_logic::term::{Term, Terms};
use std::alloc::{AllocError, Global};
use std::marker::Model;

/// For each locus in order the term to which it is fixed, if it is.
#[derive(Drop)]
pub struct Fixed {
    pub items: Vec<Option<Term>>,
}

impl Model for Fixed {
    ghost use Rattle.std.specs.Prelude.{List, Option};
    ghost use Rattle.std.specs.Coded.{coded_list, coded_option};
    ghost use Rattle.mz_logic.specs.Term.{Term};
    ghost use Rattle.mz_logic.specs.TermStorage.{term_code};

    ghost Value = { List (Option Term) };

    ghost coded = { coded_list (coded_option term_code) };

    ghost view = { λ a. a.items.items };
}

impl Fixed {
    /// So many loci, none of them fixed.
    pub fn none(alloc: Global, count: usize) -> Result<Fixed, AllocError>
        ensures { IfOk result (λ fs. fs ≡ unfixed count) }
    {
        let mut items = Vec::new(alloc);
        for place in 0..count {
            items.push(None)?;
        }
        Ok(Fixed { items })
    }

    /// An equal value.
    pub fn copy(&self, alloc: Global) -> Result<Fixed, AllocError>
        ensures { IfOk result (λ fs. fs ≡ self.now) }
    {
        let mut items = Vec::new(alloc);
        for slot in &self.items {
            match slot {
                Some(t) => items.push(Some(t.copy(alloc)?))?,
                None => items.push(None)?,
            }
        }
        Ok(Fixed { items })
    }

    /// The values of the loci, where each is fixed.
    #[tactic(auto, using(crate::proofs::MatchLemmas::value_rules))]
    pub fn values(&self, alloc: Global) -> Result<Option<Terms>, AllocError>
        ensures { IfOk result (λ ts. ts ≡ values_of self.now) }
    {
        let mut out = Terms::new(alloc);
        for slot in &self.items {
            match slot {
                Some(t) => out.push(t.copy(alloc)?)?,
                None => return Ok(None),
            }
        }
        Ok(Some(out))
    }
}
