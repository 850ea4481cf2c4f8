//! Articles with a vocabulary, as their tokens spell them.
mod cuts;
mod rows;
