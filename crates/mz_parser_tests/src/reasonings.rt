//! Tests of the parser of statements and reasonings.
mod depths;
mod reasonings;
mod statements;
mod texts;
