//! Which unfoldings are sought.
use mz_logic::sym::Sym;

/// Unfoldings of atoms of a symbol, or of equations.
#[derive(Clone, Copy, Debug, PartialEq, Eq)]
pub enum Sought {
    AtomOf(Sym),
    Equation,
}
