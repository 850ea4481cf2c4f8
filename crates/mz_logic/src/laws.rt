//! Laws of what is derivable, each the contract of a function that does nothing. A proof of a crate
//! above cites the lemma of `proofs/` that `docs/PROOFS.md` names beside the law.
ghost use Rattle.mz_logic.specs.Laws.{WeakeningLaw, CutLaw, AxiomsLaw, InstanceLaw, ConstantLaw, SameLaw, NormalFormLaw, FormulaCongruenceLaw, TermCongruenceLaw, ApplicationLaw, AtomLaw};

/// What derives from premises derives from others that have each of them.
pub fn weakening_law()
    ensures { WeakeningLaw }
{}

/// A formula that derives from the premises may be used as one of them.
pub fn cut_law()
    ensures { CutLaw }
{}

/// Axioms that derive each other axiom derive what the others do.
pub fn axioms_law()
    ensures { AxiomsLaw }
{}

/// The instance by letters of what is derivable is derivable.
pub fn instance_law()
    ensures { InstanceLaw }
{}

/// A closed term may stand for a constant throughout what is derivable.
pub fn constant_law()
    ensures { ConstantLaw }
{}

/// Formulas that are the same derive one from the other.
pub fn same_law()
    ensures { SameLaw }
{}

/// Formulas are the same exactly where they have one normal form.
pub fn normal_form_law()
    ensures { NormalFormLaw }
{}

/// An equal term may stand for a term in a formula.
pub fn formula_congruence_law()
    ensures { FormulaCongruenceLaw }
{}

/// A closed term is equal to it with an equal term in it.
pub fn term_congruence_law()
    ensures { TermCongruenceLaw }
{}

/// Applications of a symbol to closed arguments that are equal one by one are equal.
pub fn application_law()
    ensures { ApplicationLaw }
{}

/// An atom derives from that with closed arguments that are equal one by one.
pub fn atom_law()
    ensures { AtomLaw }
{}
