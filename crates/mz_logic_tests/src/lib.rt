//! Formulas, derivations, normal forms, ground parts, facts, classes, universals and problems, worked out by hand.
#![tactic(auto)]

#[cfg(test)]
mod classes;
#[cfg(test)]
mod decisions;
#[cfg(test)]
mod derivations;
#[cfg(test)]
mod facts;
#[cfg(test)]
mod formulas;
#[cfg(test)]
mod ground_parts;
#[cfg(test)]
mod normal_forms;
#[cfg(test)]
mod universals;
