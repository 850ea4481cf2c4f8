//! Laws of what is read, each the contract of a function that does nothing.
ghost use Rattle.mz_reading_laws.specs.ReadingLaws.{FormulaLaw, DeclaredLaw, SentenceLaw};
ghost use Rattle.mz_reading_laws.specs.CallLaws.{TermCallLaw, TypeCallLaw, FormulaCallLaw, SentenceCallLaw};
ghost use Rattle.mz_reading_laws.specs.StepLaws.{ContextAfterLaw, StartLaw, FactsInForceLaw, FactsClosedLaw, DeclaredInForceLaw};

/// What formulas, declarations and sentences are read to in a whole context of a closed environment is usable.
pub fn reading_law()
    ensures formula { FormulaLaw }
    ensures declared { DeclaredLaw }
    ensures sentence { SentenceLaw }
{}

/// So is what the calls for expressions that are part of no other answer.
pub fn call_law()
    ensures term { TermCallLaw }
    ensures ty { TypeCallLaw }
    ensures formula { FormulaCallLaw }
    ensures sentence { SentenceCallLaw }
{}

/// A context stays whole behind a step whose parts are usable and at the start of a block. What a whole context says is of
/// constants below the next one and has no loose index.
pub fn step_law()
    ensures after { ContextAfterLaw }
    ensures start { StartLaw }
    ensures facts { FactsInForceLaw }
    ensures closed { FactsClosedLaw }
    ensures declared { DeclaredInForceLaw }
{}
