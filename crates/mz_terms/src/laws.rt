//! Laws of the reading, each the contract of a function that does nothing.
ghost use Rattle.mz_terms.specs.Laws.{OneTermLaw, OneListLaw, OneOwnLaw, OneAdjectivesLaw, OneTypeLaw, OneRegisteredLaw};

/// What terms are read to is determined.
pub fn one_term_law()
    ensures term { OneTermLaw }
    ensures list { OneListLaw }
{}

/// What adjectives are read to is determined.
pub fn one_adjective_law()
    ensures own { OneOwnLaw }
    ensures adjectives { OneAdjectivesLaw }
{}

/// What types are read to is determined.
pub fn one_type_law()
    ensures covered { OneTypeLaw }
    ensures registered { OneRegisteredLaw }
{}
