//! Laws of types and statements through shifts, substitution and abstraction. A proof of a crate above cites the
//! lemma of `proofs/StatementProofs.antt`.
ghost use Rattle.mz_laws.specs.StatementLaws.{TermShiftInForce, TypeShiftInForce, FormulaShiftInForce, StatementShiftInForce, TermSubstitutionInForce, TypeSubstitutionInForce, FormulaSubstitutionInForce, StatementSubstitutionInForce, MoreTermInForce, MoreTypeInForce, MoreFormulaInForce, TypeAbstractionInForce, TypeUnderQuantifier, GuardAtTerm, BodyUnderGuard, TypeShiftBelow, StatementShiftBelow, TypeSubstitutionBelow, StatementSubstitutionBelow, GuardBelow, AbstractionOfBodyLacking, NextLacking, AbstractionLacking, ErasureLacking};

/// What is in force stays so through a shift.
#[tactic(auto, using(crate::proofs::StatementProofs::term_shift_in_force, crate::proofs::StatementProofs::type_shift_in_force, crate::proofs::StatementProofs::formula_shift_in_force, crate::proofs::StatementProofs::statement_shift_in_force))]
pub fn shift_in_force_law()
    ensures term { TermShiftInForce }
    ensures ty { TypeShiftInForce }
    ensures formula { FormulaShiftInForce }
    ensures statement { StatementShiftInForce }
{}

/// What is in force stays so where values that are in force are put for its indices.
#[tactic(auto, using(crate::proofs::StatementProofs::term_substitution_in_force, crate::proofs::StatementProofs::type_substitution_in_force, crate::proofs::StatementProofs::formula_substitution_in_force, crate::proofs::StatementProofs::statement_substitution_in_force))]
pub fn substitution_in_force_law()
    ensures term { TermSubstitutionInForce }
    ensures ty { TypeSubstitutionInForce }
    ensures formula { FormulaSubstitutionInForce }
    ensures statement { StatementSubstitutionInForce }
{}

/// What is in force stays so with more constants, and a type where the last constant is made an index.
#[tactic(auto, using(crate::proofs::StatementProofs::more_term_in_force, crate::proofs::StatementProofs::more_type_in_force, crate::proofs::StatementProofs::more_formula_in_force, crate::proofs::StatementProofs::type_abstraction_in_force))]
pub fn more_in_force_law()
    ensures term { MoreTermInForce }
    ensures ty { MoreTypeInForce }
    ensures formula { MoreFormulaInForce }
    ensures abstraction { TypeAbstractionInForce }
{}

/// The type, the guard and the erased body of a typed quantifier at a term.
#[tactic(auto, using(crate::proofs::StatementProofs::type_under_quantifier, crate::proofs::StatementProofs::guard_at_term, crate::proofs::StatementProofs::body_under_guard))]
pub fn quantifier_at_law()
    ensures ty { TypeUnderQuantifier }
    ensures guard { GuardAtTerm }
    ensures body { BodyUnderGuard }
{}

/// Free indices of types, statements and guards.
#[tactic(auto, using(crate::proofs::StatementProofs::type_shift_below, crate::proofs::StatementProofs::statement_shift_below, crate::proofs::StatementProofs::type_substitution_below, crate::proofs::StatementProofs::statement_substitution_below, crate::proofs::StatementProofs::guard_below))]
pub fn index_law()
    ensures type_shift { TypeShiftBelow }
    ensures statement_shift { StatementShiftBelow }
    ensures type_substitution { TypeSubstitutionBelow }
    ensures statement_substitution { StatementSubstitutionBelow }
    ensures guard { GuardBelow }
{}

/// A constant that a statement lacks.
#[tactic(auto, using(crate::proofs::StatementProofs::abstraction_of_body_lacking, crate::proofs::StatementProofs::next_lacking, crate::proofs::StatementProofs::abstraction_lacking, crate::proofs::StatementProofs::erasure_lacking))]
pub fn lacking_law()
    ensures abstraction { AbstractionOfBodyLacking }
    ensures next { NextLacking }
    ensures made { AbstractionLacking }
    ensures erasure { ErasureLacking }
{}
