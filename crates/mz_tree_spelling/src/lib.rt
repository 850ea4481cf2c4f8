//! The tokens that trees are spelled with.
#![tactic(auto)]

pub mod article;
pub mod cluster;
pub mod definition;
pub mod directive;
pub mod equality_step;
pub mod expressions;
pub mod heading;
pub mod introduction;
pub mod lists;
pub mod meaning;
pub mod notation;
pub mod parameter;
pub mod patterns;
pub mod propositions;
pub mod reasoning;
pub mod references;
pub mod registration;
pub mod reserve;
pub mod schemes;
pub mod skeleton;
pub mod spell;
pub mod structure;
pub mod tree;
