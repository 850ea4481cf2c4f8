//! What the words ask for.

use mz_base::names::Names;

/// What the words ask for.
#[derive(Drop)]
pub struct Order {
    /// How many workers check articles, 1 to 16.
    pub workers: u32,
    /// Whether the listing is wanted.
    pub list: bool,
    /// How many articles are made, 1 to 512, in place of those of the shelf.
    pub generate: Option<u32>,
    /// The names of the articles, each once, in the order of the words.
    pub names: Names,
}
