//! Steps of reasonings as they are read.
use mz_base::text::Text;
use mz_core::soft_type::SoftType;
use mz_core::statement::Statement;
use mz_logic::term::Term;
use mz_names::variable::{Variable, Variables};

/// A name for a term, with the type that it is to have.
#[derive(Drop)]
pub struct Definition {
    pub name: Text,
    pub ty: SoftType,
    pub term: Term,
}

/// A step as it was read. Of a list each member is a step of its own. In the statement behind variables they are
/// constants, the first one with the number of the next constant.
#[derive(Drop)]
pub enum ReadStep {
    /// `let x be T`.
    Let(Variable),
    /// `assume A`, and `such that A` behind `let`.
    Assume(Statement),
    /// `given x being T such that A`.
    Given(Variables, Statement),
    /// `thus A`, `hence A`, and `hereby` with what it states.
    Thus(Statement),
    /// `take t`; `take x = t` is this and then a `set`.
    Take(Term),
    /// `consider x being T such that A`.
    Consider(Variables, Statement),
    /// `reconsider x = t as T`.
    Reconsider(Definition),
    /// `set x = t`, where T is the first radix of the chain of t.
    Set(Definition),
    /// A statement.
    State(Statement),
}
