//! Patterns of notations.
ghost use Rattle.std.specs.Prelude.{◌≡◌, IfOk};

use crate::soft_types::SoftTypes;
use mz_base::numbers::Numbers;
use mz_base::text::Text;
use mz_logic::kind::Kind;
use std::alloc::{AllocError, Global};

/// A pattern: a symbol (of brackets the left one, with the right one as `closing`, which is empty
/// elsewhere), what it makes, the types of its loci, each under those before it, and the places of the
/// visible loci before and after the symbol, from 0. An attribute's pattern has the loci before the symbol on
/// its left and the subject, alone, on its right; the subject need not be the last locus.
pub struct Pattern {
    pub symbol: Text,
    pub closing: Text,
    pub kind: Kind,
    pub loci: SoftTypes,
    pub left: Numbers,
    pub right: Numbers,
}

impl Drop for Pattern {
    fn drop(self) {
        let Pattern {
            symbol: _symbol,
            closing: _closing,
            kind: _kind,
            loci: _loci,
            left: _left,
            right: _right,
        } = self;
    }
}

impl Pattern {
    /// An equal pattern.
    pub fn copy(&self, alloc: Global) -> Result<Pattern, AllocError>
        ensures { IfOk result (λ p. p ≡ self.now) }
    {
        let symbol = self.symbol.copy(alloc)?;
        let closing = self.closing.copy(alloc)?;
        let loci = self.loci.copy(alloc)?;
        let left = Numbers::from_slice(alloc, self.left.as_slice())?;
        let right = Numbers::from_slice(alloc, self.right.as_slice())?;
        Ok(Pattern {
            symbol,
            closing,
            kind: self.kind,
            loci,
            left,
            right,
        })
    }
}
