//! The law of problems, the contract of a function that does nothing.
ghost use Rattle.mz_problem_laws.specs.ProblemLaw.{ProblemLaw, JoinedProblemLaw};
ghost use Rattle.mz_problem_laws.specs.OneProblem.{OneProblemLaw};

/// Where a problem's conclusion derives from its premises, the statement derives from what they derive from.
pub fn problem_law()
    ensures { ProblemLaw }
{}

/// So it is where the conclusion derives from the premises and from further formulas that derive, as clauses do.
pub fn joined_problem_law()
    ensures { JoinedProblemLaw }
{}

/// A statement and what is given have one problem at most.
pub fn one_problem_law()
    ensures { OneProblemLaw }
{}
