//! Whole articles, worked out by hand: what is told in front of their items, and whether they are accepted.
#![tactic(auto)]

#[cfg(test)]
mod articles;
#[cfg(test)]
mod checker;
#[cfg(test)]
mod front;
#[cfg(test)]
mod schemes;
