//! Tests of the parser of expressions.
mod chains;
mod depths;
mod expressions;
mod fields;
mod lists;
mod long;
mod terms;
mod texts;
mod types;
mod units;
