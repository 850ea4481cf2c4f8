//! Answers.
use mz_logic::literal::Literal;

/// A literal, and whether it fits.
#[derive(Drop)]
pub struct Answer {
    pub literal: Literal,
    pub fits: bool,
}
