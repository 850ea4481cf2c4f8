//! What holds within blocks of definitions, notations and registrations, as contracts of functions that do nothing.
ghost use Rattle.mz_loci_laws.specs.Laws.{BlockLaw, EndLaw, FormulaLaw, HeadingLaw, LetLaw, TypesLaw};

/// Where an article stands soundly, a block may begin, declare loci and put items in force that are owed; behind it the article stands
/// soundly.
pub fn block_law()
    ensures block { BlockLaw }
    ensures declared { LetLaw }
    ensures heading { HeadingLaw }
    ensures end { EndLaw }
{}

/// Under its loci nothing has a constant or a loose index: neither their types nor what was read with them.
pub fn loci_law()
    ensures types { TypesLaw }
    ensures formula { FormulaLaw }
{}
