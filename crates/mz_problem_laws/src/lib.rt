//! The law of problems: whoever derives a problem's conclusion from its premises has derived the statement.
#![tactic(auto)]

pub mod laws;
