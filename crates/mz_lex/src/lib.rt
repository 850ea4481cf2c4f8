//! The one cut of a text into tokens, and the environment part.
#![tactic(auto)]

pub mod built_in;
pub mod cut;
pub mod head;
pub mod head_fault;
pub mod head_token;
pub mod known;
pub mod lex_fault;
pub mod lexeme;
pub mod piece;
pub mod symbol_table;
pub mod table;
pub mod table_fault;
pub mod tokens;
