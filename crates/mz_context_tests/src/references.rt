//! What references cite.
mod samples;
mod tests;
