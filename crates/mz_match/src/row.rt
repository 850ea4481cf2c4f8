//! Rows of a table.
ghost use Rattle.std.specs.Prelude.{◌≡◌};
ghost use Rattle.mz_match.specs.Heads.{same_head, number_of};

use mz_logic::sym::Sym;

/// What a row is of: a constant, an application of a functor, an atom that holds, an atom that
/// fails, or an equation that fails.
#[derive(Clone, Copy, Debug, Drop)]
pub enum Head {
    Constant(u32),
    Functor(Sym),
    Holds(Sym),
    Fails(Sym),
    Disequal,
}

/// The classes of the arguments or sides, and the class of a term; a fact has the class 0.
#[derive(Drop)]
pub struct Row {
    pub args: Vec<usize>,
    pub value: usize,
}

impl Head {
    /// Whether two heads are one.
    pub fn is(self, other: Head) -> bool
        ensures { result ≡ same_head self other }
    {
        match (self, other) {
            (Head::Constant(m), Head::Constant(n)) => m == n,
            (Head::Functor(r), Head::Functor(s)) => r.is(s),
            (Head::Holds(r), Head::Holds(s)) => r.is(s),
            (Head::Fails(r), Head::Fails(s)) => r.is(s),
            (Head::Disequal, Head::Disequal) => true,
            _ => false,
        }
    }

    /// The number of the constant or of the symbol.
    pub fn number(self) -> u32
        ensures { result ≡ number_of self }
    {
        match self {
            Head::Constant(n) => n,
            Head::Functor(s) => s.number,
            Head::Holds(s) => s.number,
            Head::Fails(s) => s.number,
            Head::Disequal => 0,
        }
    }
}
