//! Existentials without a double negation, formulas that are the same, and the parts of a statement, as they
//! derive from properties of formulas. A proof of a crate above cites the lemma of `proofs/DerivationProofs.antt`.
ghost use Rattle.mz_laws.specs.DerivationLaws.{ExistentialFormLaw, SameFormLaw, PartsLaw};

use mz_logic::set_laws::FormulaProperty;

/// An existential at a closed term, an object of an existential, and formulas that are the same.
pub fn form_law<A: FormulaProperty, P: FormulaProperty>()
    ensures existential { ExistentialFormLaw A.holds P.holds }
    ensures same { SameFormLaw A.holds P.holds }
{}

/// A statement derives exactly where its parts do.
pub fn parts_law<A: FormulaProperty, P: FormulaProperty>()
    ensures { PartsLaw A.holds P.holds }
{}
