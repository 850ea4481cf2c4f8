//! Corpora, desks and workers over small corpora, worked out by hand.
#![tactic(auto)]

#[cfg(test)]
mod corpora;
#[cfg(test)]
mod desk;
#[cfg(test)]
mod workers;
