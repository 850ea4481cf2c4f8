//! Laws of statements and types, each the contract of a function that does nothing.
ghost use Rattle.mz_core.specs.Laws.{ErasureOfShift, ErasureOfSubstitution, ErasureOfBody, ErasureOfAbstraction, ErasureOfNegation, ErasureOfConjunction, GuardOfSubstitution, GuardOfAbstraction, BodyOfAbstraction, AbstractionOfBody, BodyBelow, AbstractionBelow, ErasureBelow, MoreInForce, BodyInForce, AbstractionInForce, NegationInForce, PartsInForce, ConjunctionInForce, GuardInForce, ErasureInForce, NextIsNew};

/// Erasure goes with shifts, substitution, abstraction, negation and conjunction.
#[tactic(auto, using(crate::proofs::LawProofs::erasure_of_shift, crate::proofs::LawProofs::erasure_of_substitution, crate::proofs::LawProofs::erasure_of_body, crate::proofs::LawProofs::erasure_of_abstraction, crate::proofs::LawProofs::erasure_of_negation, crate::proofs::LawProofs::erasure_of_conjunction))]
pub fn erasure_law()
    ensures shift { ErasureOfShift }
    ensures substitution { ErasureOfSubstitution }
    ensures body { ErasureOfBody }
    ensures abstraction { ErasureOfAbstraction }
    ensures negation { ErasureOfNegation }
    ensures conjunction { ErasureOfConjunction }
{}

/// Guards go with substitution and abstraction.
#[tactic(auto, using(crate::proofs::LawProofs::guard_of_substitution, crate::proofs::LawProofs::guard_of_abstraction))]
pub fn guard_law()
    ensures substitution { GuardOfSubstitution }
    ensures abstraction { GuardOfAbstraction }
{}

/// The body of a quantifier at a constant, and the way back.
#[tactic(auto, using(crate::proofs::LawProofs::body_of_abstraction, crate::proofs::LawProofs::abstraction_of_body))]
pub fn abstraction_law()
    ensures body { BodyOfAbstraction }
    ensures abstraction { AbstractionOfBody }
{}

/// Free indices of bodies, abstractions and erasures.
#[tactic(auto, using(crate::proofs::LawProofs::body_below, crate::proofs::LawProofs::abstraction_below, crate::proofs::LawProofs::erasure_below))]
pub fn below_law()
    ensures body { BodyBelow }
    ensures abstraction { AbstractionBelow }
    ensures erasure { ErasureBelow }
{}

/// Constants in force.
#[tactic(auto, using(crate::proofs::LawProofs::more_in_force, crate::proofs::LawProofs::body_in_force, crate::proofs::LawProofs::abstraction_in_force, crate::proofs::LawProofs::negation_in_force, crate::proofs::LawProofs::parts_in_force, crate::proofs::LawProofs::conjunction_in_force, crate::proofs::LawProofs::guard_in_force, crate::proofs::LawProofs::erasure_in_force, crate::proofs::LawProofs::next_is_new))]
pub fn in_force_law()
    ensures more { MoreInForce }
    ensures body { BodyInForce }
    ensures abstraction { AbstractionInForce }
    ensures negation { NegationInForce }
    ensures parts { PartsInForce }
    ensures conjunction { ConjunctionInForce }
    ensures guard { GuardInForce }
    ensures erasure { ErasureInForce }
    ensures new { NextIsNew }
{}
