//! What holds of conditions behind a heading, as contracts of functions that do nothing.
ghost use Rattle.mz_condition_laws.specs.Laws.{OneConditionsLaw, ConditionsLaw};

/// What comes of conditions is determined.
pub fn one_conditions_law()
    ensures { OneConditionsLaw }
{}

/// Where none is missing behind them, each condition of the item derives for all loci.
pub fn conditions_law()
    ensures { ConditionsLaw }
{}
