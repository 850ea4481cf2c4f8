//! The context of a reading: what is known at a place of an article.
#![tactic(auto)]

pub mod constants;
pub mod context;
pub mod gather;
pub mod labelled;
pub mod labelled_schemes;
pub mod letters;
pub mod occurring;
pub mod private;
pub mod reserved;
