//! Laws of what the program writes, each the contract of a function that does nothing.
ghost use Rattle.mz_article.specs.Outcome.{IsOutcome};
ghost use Rattle.mz_run.specs.Laws.{OneOutputLaw, AcceptedLaw};

use crate::checker::ProgramChecker;
use mz_run::laws::{accepted_law, one_output_law};

/// There is one text on the articles of an order at most, where its files are known.
pub fn output_law()
    ensures { OneOutputLaw IsOutcome }
{
    one_output_law::<ProgramChecker>();
}

/// Where the report says of an article that it is accepted, the library has one export of its name, with as many items of
/// each kind as the report says; and each sequent that one of its items owes derives from the axioms, the grants of the
/// articles on which it depends, and those of its items before.
pub fn derived_law()
    ensures { AcceptedLaw IsOutcome }
{
    accepted_law::<ProgramChecker>();
}
