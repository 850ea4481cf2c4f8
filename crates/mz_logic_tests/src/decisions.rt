//! Small problems with their verdicts, worked out by hand from the rules.
mod registrations;
mod tests;
