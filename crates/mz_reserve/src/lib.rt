//! Reservations: identifiers that are reserved for types.
#![tactic(auto)]

pub mod reserve;
