//! Terms, types, formulas and sentences read in small articles, their nodes, and the limits on these, worked out by hand from
//! the rules.
mod answers;
mod environments;
mod long;
mod sizes;
mod small;
mod texts;
mod worked;
