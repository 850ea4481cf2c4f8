//! Symbols.
ghost use Rattle.std.specs.Prelude.{◌≡◌, ◌↔◌, IsTrue};
ghost use Rattle.mz_logic.specs.Sym.{same_sym};
ghost use Rattle.mz_logic.specs.Letters.{is_functor_letter, is_predicate_letter};

use crate::kind::Kind;

/// A symbol: the number of the name of the article that introduced it, its kind, and its number
/// among the symbols of this kind there.
#[derive(Clone, Copy, Debug, PartialEq, Eq, PartialOrd, Ord, Hash)]
pub struct Sym {
    pub article: u64,
    pub kind: Kind,
    pub number: u32,
}

impl Sym {
    /// Whether two symbols are one.
    #[tactic(auto, using(crate::proofs::SymLemmas::sym_rules))]
    pub fn is(self, other: Sym) -> bool
        ensures same { result ≡ same_sym self other }
        ensures one { IsTrue result ↔ (self ≡ other) }
    {
        self.article == other.article
            && self.kind.code() == other.kind.code()
            && self.number == other.number
    }

    /// Whether it is the letter of a scheme that stands for a functor.
    pub fn is_functor_letter(self) -> bool
        ensures { result ≡ is_functor_letter self }
    {
        self.kind.code() == Kind::LetterFunctor.code()
    }

    /// Whether it is the letter of a scheme that stands for a predicate.
    pub fn is_predicate_letter(self) -> bool
        ensures { result ≡ is_predicate_letter self }
    {
        self.kind.code() == Kind::LetterPredicate.code()
    }
}
