//! What clauses say of rows and structures, as the contract of a function that does nothing.
ghost use Rattle.mz_chain_clause_laws.specs.ChainClauses.{PlainRowsLaw, ChainClausesLaw, LetInChainClausesLaw};

/// Where the entries of an environment are of items of exports without constants and loose indices, no row of a mode and no
/// structure is `object` or `set`, and clauses say what the rows and the structures do by which chains go. So it is of what is let
/// in, and of own items behind it.
pub fn chain_clauses_law()
    ensures plain { PlainRowsLaw }
    ensures entries { ChainClausesLaw }
    ensures let_in { LetInChainClausesLaw }
{}
