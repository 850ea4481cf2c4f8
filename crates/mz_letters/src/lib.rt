//! Letters of schemes, as they are declared, and what is put aside beside them.
#![tactic(auto)]

pub mod aside;
pub mod declared;
pub mod kept;
pub mod private;
