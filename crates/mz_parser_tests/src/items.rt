//! Tests of the parser of items.
mod articles;
mod blocks;
mod clusters;
mod definitions;
