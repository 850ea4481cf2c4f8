//! The laws of closed items. A proof of a crate above cites the lemma of `proofs/ItemProofs.antt`,
//! `proofs/UnfoldingProofs.antt`, `proofs/FormulaProofs.antt` or `proofs/EnvironmentProofs.antt`.
ghost use Rattle.mz_closed_laws.specs.ClosedLaws.{TypingLaw, FurtherLaw, EqualityLaw, ItemLaw, ExportLaw, LetterLaw, FunctorRowLaw, ModeRowLaw, LetterRowLaw, UnfoldingLaw, FormulaLaw, ConstantLaw, IndexLaw};
ghost use Rattle.mz_closed_laws.specs.EnvironmentLaws.{GivenLaw, NothingLaw, JoinedLaw};

/// The clauses of an item without constants and loose indices have none.
#[tactic(auto, using(crate::proofs::ItemProofs::typing_law, crate::proofs::ItemProofs::further_law, crate::proofs::ItemProofs::equality_law, crate::proofs::ItemProofs::item_law))]
pub fn closed_item_law()
    ensures typing { TypingLaw }
    ensures further { FurtherLaw }
    ensures equalities { EqualityLaw }
    ensures all { ItemLaw }
{}

/// The clauses of an export of such items have none.
#[tactic(auto, using(crate::proofs::ItemProofs::export_law))]
pub fn closed_export_law()
    ensures { ExportLaw }
{}

/// Nor have those of a letter of a scheme.
#[tactic(auto, using(crate::proofs::ItemProofs::letter_law))]
pub fn closed_letter_law()
    ensures { LetterLaw }
{}

/// The rows of an item or a letter without constants and loose indices have none.
#[tactic(auto, using(crate::proofs::UnfoldingProofs::functor_row_law, crate::proofs::UnfoldingProofs::mode_row_law, crate::proofs::UnfoldingProofs::letter_row_law))]
pub fn closed_row_law()
    ensures functors { FunctorRowLaw }
    ensures modes { ModeRowLaw }
    ensures letters { LetterRowLaw }
{}

/// Nor have the unfoldings of such an item.
#[tactic(auto, using(crate::proofs::UnfoldingProofs::unfolding_law))]
pub fn closed_unfolding_law()
    ensures { UnfoldingLaw }
{}

/// The formulas of clauses without constants and loose indices have none.
#[tactic(auto, using(crate::proofs::FormulaProofs::formula_law, crate::proofs::FormulaProofs::constant_law, crate::proofs::FormulaProofs::index_law))]
pub fn closed_formula_law()
    ensures formulas { FormulaLaw }
    ensures constants { ConstantLaw }
    ensures indices { IndexLaw }
{}

/// What items without constants and loose indices give to an environment has none, all of it.
#[tactic(auto, using(crate::proofs::EnvironmentProofs::given_law, crate::proofs::EnvironmentProofs::nothing_law, crate::proofs::EnvironmentProofs::joined_law))]
pub fn closed_environment_law()
    ensures given { GivenLaw }
    ensures nothing { NothingLaw }
    ensures joined { JoinedLaw }
{}
