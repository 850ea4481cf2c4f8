//! A law for each row of the table of clauses. A proof of a crate above cites the lemma of that name, in
//! `proofs/RowProofs.antt`, `PropertyProofs.antt`, `StructureProofs.antt` or `ItemProofs.antt`.
ghost use Rattle.mz_clause_laws.specs.ClausesLaw.{ItemLaw, LetterLaw, ClausesLaw};
ghost use Rattle.mz_clause_laws.specs.PropertyLaws.{PropertyLaw};
ghost use Rattle.mz_clause_laws.specs.RowLaws.{FunctorTypeLaw, ModeParentLaw, EquationLaw, FunctorialLaw, ConditionalLaw, PartLaw, AggregateLaw, StrictLaw};

/// The type of a functor, and the new type of a redefinition.
pub fn functor_type_law()
    ensures { FunctorTypeLaw }
{}

/// The parent of a mode, and the new parent of a redefinition.
pub fn mode_parent_law()
    ensures { ModeParentLaw }
{}

/// A definition by `equals`, a reduction and an identification.
pub fn equation_law()
    ensures { EquationLaw }
{}

/// A functorial registration.
pub fn functorial_law()
    ensures { FunctorialLaw }
{}

/// A conditional registration.
pub fn conditional_law()
    ensures { ConditionalLaw }
{}

/// The ancestors and the fields of a structure.
pub fn part_law()
    ensures { PartLaw }
{}

/// The aggregate of a structure.
pub fn aggregate_law()
    ensures { AggregateLaw }
{}

/// The strict objects of a structure.
pub fn strict_law()
    ensures { StrictLaw }
{}

/// The properties.
pub fn property_law()
    ensures { PropertyLaw }
{}

/// The clauses of an item.
pub fn item_law()
    ensures { ItemLaw }
{}

/// The clause of a scheme's functor letter.
pub fn letter_law()
    ensures { LetterLaw }
{}

/// Each clause of an export derives from what its items grant and owe.
pub fn clauses_law()
    ensures { ClausesLaw }
{}
