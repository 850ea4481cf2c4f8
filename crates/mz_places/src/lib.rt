//! The types of places: those of a private functor or predicate, or of a letter.
#![tactic(auto)]

pub mod places;
