//! What holds of an accepted article, each law as the contract of a function that does nothing.
ghost use Rattle.mz_axioms.specs.Checker.{AnswersName, KeepsSound};
ghost use Rattle.mz_article.specs.Outcome.{IsOutcome};
ghost use Rattle.mz_accepted_laws.specs.Alone.{AxiomsLaw, TheoremsLaw, AloneLaw};

/// An article that is accepted from exports of a sound library, which has no export of its name, keeps the library sound where it
/// is added, and its export has the name that was handed in.
pub fn accepted_law()
    ensures keeps_sound { KeepsSound IsOutcome }
    ensures answers_name { AnswersName IsOutcome }
{}

/// Each sequent that an item owes of an article that is accepted from the built-in exports alone derives from the seven axioms and what
/// the items before it grant, so from the axioms alone where no item grants anything; and where the article isn't built in itself,
/// these exports with its own are a sound library.
pub fn alone_law()
    ensures axioms { AxiomsLaw }
    ensures theorems { TheoremsLaw }
    ensures sound { AloneLaw }
{}
