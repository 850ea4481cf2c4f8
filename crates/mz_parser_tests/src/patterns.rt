//! Tests of the parsers of patterns and of headings.
mod headings;
mod patterns;
