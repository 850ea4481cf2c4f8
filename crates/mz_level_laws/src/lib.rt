//! Laws of contexts of an article's own level, where no definition and no field's type is being read.
#![tactic(auto)]

pub mod laws;
