//! Theses after steps, problems, and sizes, worked out by hand.
mod problems;
mod samples;
mod sizes;
mod theses;
