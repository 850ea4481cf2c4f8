//! Laws of applications, each the contract of a function that does nothing.
ghost use Rattle.mz_applied.specs.Laws.{OneTermLaw, OneTypeLaw, OneAdjectiveLaw, OneStatementLaw, OneFunctorLaw, OnePredicateLaw};

/// What a symbol applied to arguments is read to is determined.
pub fn one_application_law()
    ensures term { OneTermLaw }
    ensures ty { OneTypeLaw }
    ensures adjective { OneAdjectiveLaw }
    ensures statement { OneStatementLaw }
{}

/// What an identifier with arguments is read to is determined.
pub fn one_private_law()
    ensures functor { OneFunctorLaw }
    ensures predicate { OnePredicateLaw }
{}
