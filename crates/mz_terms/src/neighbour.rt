//! What stands before a symbol of a run.

/// An operand of the grammar; a symbol without arguments, which is an operand beside others; a symbol with arguments, or
/// nothing.
#[derive(Clone, Copy, Debug, PartialEq, Eq)]
pub enum Neighbour {
    Operand,
    Nullary,
    Other,
}
