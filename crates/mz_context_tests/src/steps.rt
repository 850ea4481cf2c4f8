//! What a `now` states, and what steps do where they stand.
mod samples;
mod tests;
