//! Kinds of symbols.
ghost use Rattle.std.specs.Prelude.{◌≡◌};
ghost use Rattle.mz_logic.specs.Sym.{kind_number};

/// What a symbol stands for. The last two are the letters of schemes.
#[derive(Clone, Copy, Debug, PartialEq, Eq, PartialOrd, Ord, Hash)]
pub enum Kind {
    Mode,
    Structure,
    Attribute,
    Functor,
    Selector,
    Aggregate,
    Predicate,
    LetterFunctor,
    LetterPredicate,
}

impl Kind {
    /// The kind's place in the list of kinds, from 0.
    pub fn code(self) -> u8
        ensures { result ≡ kind_number self }
    {
        self as u8
    }
}
