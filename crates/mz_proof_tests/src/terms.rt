//! Terms and types as texts, and what they are read to in a small environment.
mod environment;
mod tests;
mod texts;
