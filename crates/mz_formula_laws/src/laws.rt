//! Laws of formulas, each the contract of a function that does nothing.
ghost use Rattle.mz_formula_laws.specs.Laws.{OneFormulaLaw, OneDeclarationLaw, OneSentenceLaw};

/// What formulas, declarations and sentences are read to is determined.
pub fn one_formula_law()
    ensures formula { OneFormulaLaw }
    ensures declaration { OneDeclarationLaw }
    ensures sentence { OneSentenceLaw }
{}
