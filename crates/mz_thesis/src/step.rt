//! Steps that change a thesis.
use mz_core::soft_type::SoftType;
use mz_core::statement::Statement;
use mz_logic::term::Term;

/// A step as it was read. `given` is the assumption of its existential.
#[derive(Drop)]
pub enum Step {
    /// `let`: the number of the constant, which isn't in force yet, and its type.
    Let { constant: u32, ty: SoftType },
    /// `assume`.
    Assume(Statement),
    /// `thus` or `hence`.
    Thus(Statement),
    /// `take`.
    Take(Term),
}
