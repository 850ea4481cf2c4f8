//! Laws of judged obligations, each the contract of a function that does nothing.
ghost use Rattle.mz_judged.specs.Laws.{OneJudgementLaw, MetLaw};

/// Obligations have one list of faults at most.
pub fn one_judgement_law()
    ensures { OneJudgementLaw }
{}

/// Where there is no fault, what each obligation had to decide derives from its problem's premises and its clauses, where these
/// have no constants.
pub fn met_law()
    ensures { MetLaw }
{}
