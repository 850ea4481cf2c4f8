//! The laws of rows. A proof of a crate above cites the lemma of `proofs/RowProofs.antt`.
ghost use Rattle.mz_row_laws.specs.RowLaws.{FunctorRowLaw, ModeRowLaw, LetterRowLaw, FunctorClauseLaw, ModeClauseLaw, LetterClauseLaw};

/// The clauses of an item's rows are typing clauses of the item, those of a letter's row clauses of the letter.
pub fn row_law()
    ensures functors { FunctorRowLaw }
    ensures modes { ModeRowLaw }
    ensures letters { LetterRowLaw }
{}

/// Each literal that a row's type has is the conclusion of such a clause, under the guards of the loci.
pub fn row_clause_law()
    ensures functors { FunctorClauseLaw }
    ensures modes { ModeClauseLaw }
    ensures letters { LetterClauseLaw }
{}
