//! Laws of whole contexts, each the contract of a function that does nothing. A proof of a crate above cites the lemma that is
//! named here.
ghost use Rattle.mz_whole_laws.specs.WholeLaws.{ReadsWellLaw, WholeSkeletonLaw, WholeJustificationLaw, WholeStatementLaw};

/// What is read in a whole context stands, and each change keeps it whole where what is put into it stands.
pub fn reads_well_law()
    ensures { ReadsWellLaw }
{}

/// So the laws of reasonings hold of whole contexts.
pub fn whole_law()
    ensures skeleton { WholeSkeletonLaw }
    ensures justification { WholeJustificationLaw }
    ensures statement { WholeStatementLaw }
{}
