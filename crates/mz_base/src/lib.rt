//! Names, places, texts, tokens, codes and statuses: what every other crate speaks of.
#![tactic(auto)]

pub mod head;
pub mod limit;
pub mod name;
pub mod names;
pub mod numbers;
pub mod place;
pub mod profile;
pub mod rule_code;
pub mod status;
pub mod symbol_kind;
pub mod text;
pub mod token;
pub mod vocabularies;
pub mod words;
