//! Laws of parts of steps, each the contract of a function that does nothing.
ghost use Rattle.mz_parts_laws.specs.Laws.{OneTermReadLaw, OneTypeReadLaw, OneFormulaReadLaw, OneSentenceReadLaw, OneDeclarationLaw, OneDeclarationsLaw, OnePropositionsLaw, OneDescriptionLaw, OneDefinitionLaw, OneNamedLaw, OneTermsLaw, OneRetypedLaw, OneSidesLaw};

/// What an expression that is part of no other is read to, and what the article has left behind it, is determined.
pub fn one_expression_law()
    ensures term { OneTermReadLaw }
    ensures ty { OneTypeReadLaw }
    ensures formula { OneFormulaReadLaw }
    ensures sentence { OneSentenceReadLaw }
{}

/// What declared identifiers and declarations are read to, and what the article has left behind them, is determined.
pub fn one_declaration_law()
    ensures declaration { OneDeclarationLaw }
    ensures declarations { OneDeclarationsLaw }
{}

/// What propositions, and what `given` and `consider` introduce, are read to, and what the article has left behind them, is
/// determined.
pub fn one_proposition_law()
    ensures propositions { OnePropositionsLaw }
    ensures description { OneDescriptionLaw }
{}

/// What terms that steps name are read to, and what the article has left behind them, is determined; and so is the definition of
/// a name by a term.
pub fn one_name_law()
    ensures definition { OneDefinitionLaw }
    ensures named { OneNamedLaw }
    ensures terms { OneTermsLaw }
    ensures retyped { OneRetypedLaw }
    ensures sides { OneSidesLaw }
{}
