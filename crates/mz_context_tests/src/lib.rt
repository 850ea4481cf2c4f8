//! Contexts, names, what fits, theses, steps, references and sizes, worked out by hand.
#![tactic(auto)]

#[cfg(test)]
mod contexts;
#[cfg(test)]
mod fits;
#[cfg(test)]
mod names;
#[cfg(test)]
mod references;
#[cfg(test)]
mod sizes;
#[cfg(test)]
mod standings;
#[cfg(test)]
mod steps;
#[cfg(test)]
mod theses;
