//! Laws of chains, each the contract of a function that does nothing.
ghost use Rattle.mz_chain_laws.specs.ChainLaw.{ChainLaw, StructureClauseLaw};

/// The guard of each radix of a closed term's chain, at the term, derives from what is known of the constants and from
/// the clauses.
pub fn chain_law()
    ensures { ChainLaw }
{}

/// What a structure says of its objects and of its aggregates, typing clauses of its item say.
pub fn structure_clause_law()
    ensures { StructureClauseLaw }
{}
