//! Laws of private functors and predicates as they are defined, each the contract of a function that does nothing.
ghost use Rattle.mz_private_laws.specs.Laws.{OnePlacesLaw, OneFunctorLaw, OnePredicateLaw};

/// What the types of places, `deffunc` and `defpred` are read to, and what the article has left behind them, is determined.
pub fn one_private_law()
    ensures places { OnePlacesLaw }
    ensures functor { OneFunctorLaw }
    ensures predicate { OnePredicateLaw }
{}
