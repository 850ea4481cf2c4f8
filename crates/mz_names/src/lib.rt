//! What names stand for at a place of an article: variables, reserved variables, private functors and predicates,
//! letters, labels; and the way back from the constants that variables are to indices.
#![tactic(auto)]

pub mod names;
pub mod quantifiers;
pub mod refusal;
pub mod scope;
pub mod variable;
