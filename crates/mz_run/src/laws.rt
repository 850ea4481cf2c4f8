//! Laws of what a run writes, each the contract of a function that does nothing.
ghost use Rattle.mz_run.specs.Laws.{OneGatheringLaw, OneOutputLaw, AcceptedLaw, BothTakenLaw, FirstPartLaw, SecondPartLaw};

use mz_axioms::checker::Semantics;

/// An order has one gathering at most.
pub fn one_gathering_law()
    ensures { OneGatheringLaw }
{}

/// The articles of an order come to one corpus, order, list of verdicts and library at most, where its files are known; so
/// there is one text on them at most.
pub fn one_output_law<C: Semantics>()
    ensures { OneOutputLaw C.is_outcome }
{}

/// Where the report says of an article that it is accepted, the library has one export of its name, with as many items of
/// each kind as the report says; and each sequent that one of its items owes derives from the axioms, the grants of the
/// articles on which it depends, and those of its items before.
pub fn accepted_law<C: Semantics>()
    ensures { AcceptedLaw C.is_outcome }
{}

/// Two writes one behind the other are one write: of both texts, where each was taken whole; else of a part of both from
/// their front, and not all.
pub fn writes_law()
    ensures both { BothTakenLaw }
    ensures first { FirstPartLaw }
    ensures second { SecondPartLaw }
{}
