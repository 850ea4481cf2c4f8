//! Laws of what derives from properties of formulas, each a clause of a function that does nothing. A proof
//! of a crate above cites the lemma of `proofs/SetLaws.antt`.
ghost use Rattle.mz_logic.specs.SetLaws.{MemberLaw, LargerLaw, CutSetLaw, OtherAxiomsLaw, DeductionLaw, ConjunctionLaw, NegationLaw, UniversalLaw, GeneralizationLaw, ExistentialLaw, EquationLaw, LetterLaw, FreshConstantLaw};

/// A property of formulas.
pub trait FormulaProperty {
    ghost use Rattle.mz_logic.specs.Formula.{Formula};

    ghost holds: { Formula → Type 0 };
}

/// Members derive, larger sets derive more, and what derives from what derives does so itself.
pub fn set_law<A: FormulaProperty, B: FormulaProperty, P: FormulaProperty, Q: FormulaProperty>()
    ensures member { MemberLaw A.holds P.holds }
    ensures larger { LargerLaw A.holds B.holds P.holds Q.holds }
    ensures cut { CutSetLaw A.holds P.holds Q.holds }
    ensures axioms { OtherAxiomsLaw A.holds B.holds P.holds }
{}

/// Implications, conjunctions and negations.
pub fn connective_law<A: FormulaProperty, P: FormulaProperty>()
    ensures deduction { DeductionLaw A.holds P.holds }
    ensures conjunction { ConjunctionLaw A.holds P.holds }
    ensures negation { NegationLaw A.holds P.holds }
{}

/// Universals, existentials, equations and letters.
pub fn quantifier_law<A: FormulaProperty, P: FormulaProperty>()
    ensures universal { UniversalLaw A.holds P.holds }
    ensures generalization { GeneralizationLaw A.holds P.holds }
    ensures existential { ExistentialLaw A.holds P.holds }
    ensures equation { EquationLaw A.holds P.holds }
    ensures letter { LetterLaw A.holds P.holds }
    ensures constant { FreshConstantLaw A.holds P.holds }
{}
