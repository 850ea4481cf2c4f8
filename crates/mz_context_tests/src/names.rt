//! What names stand for in small contexts, and runs grouped by hand.
mod names;
mod runs;
mod samples;
