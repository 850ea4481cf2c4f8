//! Tokens, and what the parsers make of them, worked out by hand.
#![tactic(auto)]

#[cfg(test)]
mod articles;
#[cfg(test)]
mod expressions;
#[cfg(test)]
mod items;
#[cfg(test)]
mod parts;
#[cfg(test)]
mod patterns;
#[cfg(test)]
mod reasonings;
#[cfg(test)]
mod tokens;
