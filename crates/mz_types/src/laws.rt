//! Laws of chains, each the contract of a function that does nothing.
ghost use Rattle.mz_types.specs.Laws.{OneChainLaw};

/// A term has one chain.
pub fn one_chain_law()
    ensures { OneChainLaw }
{}
