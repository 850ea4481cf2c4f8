//! Tests of what texts are before their items are read.
mod large;
mod rows;
mod texts;
