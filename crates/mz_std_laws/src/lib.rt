//! Laws of the library's values: sums, options, truth values and lists.
#![tactic(auto)]
