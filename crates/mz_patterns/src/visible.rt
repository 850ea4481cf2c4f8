//! The visible loci of a pattern.
use mz_base::numbers::Numbers;

/// The places of the visible loci, from 0, before and behind the symbol.
#[derive(Drop)]
pub struct Visible {
    pub left: Numbers,
    pub right: Numbers,
}
