//! The laws of the walk, the contract of a function that does nothing.
ghost use Rattle.mz_walk_value_laws.specs.Laws.{OneJustifiedLaw, OneProofLaw, OneStatementLaw, OneStepLaw, OneCasesLaw, OneWalkLaw};

/// What justifications, proofs, statements, steps, cases and reasonings lead to is determined: the obligations that they make
/// and what stands behind them, or the refusal.
pub fn one_walk_law()
    ensures justified { OneJustifiedLaw }
    ensures proof { OneProofLaw }
    ensures statement { OneStatementLaw }
    ensures step { OneStepLaw }
    ensures cases { OneCasesLaw }
    ensures steps { OneWalkLaw }
{}
