//! What holds of headings of definitions, as the contract of a function that does nothing.
ghost use Rattle.mz_defined.specs.Atoms.{DefinesPredicate, DefinesAttribute};
ghost use Rattle.mz_defined.specs.Functors.{DefinesFunctor, DefinesMode, DefinesAbbreviation};
ghost use Rattle.mz_heading_laws.specs.Laws.{HeadingGrowsLaw, HeadingKeepsLaw, OneHeadingLaw};

/// The clauses only grow; where an article stood soundly but for the loci of a block it does behind; and there is one outcome at most.
pub fn heading_law()
    ensures grows_of_predicates { HeadingGrowsLaw DefinesPredicate }
    ensures grows_of_attributes { HeadingGrowsLaw DefinesAttribute }
    ensures grows_of_functors { HeadingGrowsLaw DefinesFunctor }
    ensures grows_of_modes { HeadingGrowsLaw DefinesMode }
    ensures grows_of_abbreviations { HeadingGrowsLaw DefinesAbbreviation }
    ensures keeps_of_predicates { HeadingKeepsLaw DefinesPredicate }
    ensures keeps_of_attributes { HeadingKeepsLaw DefinesAttribute }
    ensures keeps_of_functors { HeadingKeepsLaw DefinesFunctor }
    ensures keeps_of_modes { HeadingKeepsLaw DefinesMode }
    ensures keeps_of_abbreviations { HeadingKeepsLaw DefinesAbbreviation }
    ensures one_of_predicates { OneHeadingLaw DefinesPredicate }
    ensures one_of_attributes { OneHeadingLaw DefinesAttribute }
    ensures one_of_functors { OneHeadingLaw DefinesFunctor }
    ensures one_of_modes { OneHeadingLaw DefinesMode }
    ensures one_of_abbreviations { OneHeadingLaw DefinesAbbreviation }
{}
