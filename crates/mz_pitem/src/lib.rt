//! The parser of articles, exact: it gives the one tree that all tokens spell, or the place of the first token with which
//! the tokens so far begin no article, of the first one that is nested too deep, or of the text's end.
#![tactic(auto)]

pub mod articles;
pub mod definitions;
pub mod items;
pub mod parse;
