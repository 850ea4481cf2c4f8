//! Items, read from lines of text: a word, and behind it fields with `;` between.
pub mod definitions;
pub mod items;
pub mod parts;
pub mod registrations;
