//! Laws of what is usable, each the contract of a function that does nothing.
ghost use Rattle.mz_term_laws.specs.ChangeLaws.{UsableTermLaw, UsableTypeLaw, UsableStatementLaw, UsableBackLaw, NoneUsableLaw, MoreUsableLaw};
ghost use Rattle.mz_term_laws.specs.ChangeLaws.{EmptyLaw, WholeFromLaw, ConstantLaw, VariablesLaw, StatementLaw, ThesisLaw, PreviousLaw, ReservedLaw, FunctorLaw, PredicateLaw, LetterLaw};
ghost use Rattle.mz_term_laws.specs.TermLaws.{TermLaw, TermsLaw, AdjectivesLaw, TypeLaw, RegisteredLaw, ReservedTypeLaw, RadicesLaw};

/// What is usable has no loose index, its constants are below the next one, and none is below the least one; what is so is
/// usable. Where no constant may be used it has none, and it is usable where fewer may not be used.
pub fn usable_law()
    ensures term { UsableTermLaw }
    ensures ty { UsableTypeLaw }
    ensures statement { UsableStatementLaw }
    ensures back { UsableBackLaw }
    ensures nothing { NoneUsableLaw }
    ensures more { MoreUsableLaw }
{}

/// A context with nothing in it is whole, and stays whole where what is put into it is usable; and where its constants may
/// no longer be used, if it is outside of all proofs and items.
pub fn whole_law()
    ensures empty { EmptyLaw }
    ensures later { WholeFromLaw }
    ensures constant { ConstantLaw }
    ensures variables { VariablesLaw }
    ensures statement { StatementLaw }
    ensures thesis { ThesisLaw }
    ensures previous { PreviousLaw }
    ensures reserved { ReservedLaw }
    ensures functor { FunctorLaw }
    ensures predicate { PredicateLaw }
    ensures letter { LetterLaw }
{}

/// What terms, adjectives and types are read to in a whole context of a closed environment is usable.
pub fn term_law()
    ensures term { TermLaw }
    ensures terms { TermsLaw }
    ensures adjectives { AdjectivesLaw }
    ensures ty { TypeLaw }
    ensures registered { RegisteredLaw }
    ensures reserved { ReservedTypeLaw }
    ensures radices { RadicesLaw }
{}
