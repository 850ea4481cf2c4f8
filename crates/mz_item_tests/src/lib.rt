//! Statements, items, clauses, the built-in articles, environments, types, reports and listings, worked out by hand.
#![tactic(auto)]

#[cfg(test)]
mod answers;
#[cfg(test)]
mod built_in;
#[cfg(test)]
mod clauses;
#[cfg(test)]
mod environments;
#[cfg(test)]
mod items;
#[cfg(test)]
mod listings;
#[cfg(test)]
mod reading;
#[cfg(test)]
mod types;
