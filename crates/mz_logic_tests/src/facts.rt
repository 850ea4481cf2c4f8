//! Problems of texts with their facts, and the plain form of the closing and the numbered classes on one table of them.
//! For tests alone.
pub mod problems;
mod tables;
mod tests;
