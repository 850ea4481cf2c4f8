//! Terms, formulas, expressions and proofs as they are read, worked out by hand.
#![tactic(auto)]

#[cfg(test)]
mod formulas;
#[cfg(test)]
mod free;
#[cfg(test)]
mod proofs;
#[cfg(test)]
mod resolve;
#[cfg(test)]
mod terms;
