//! The order of a corpus.
use mz_base::names::Names;

/// The order in which articles are checked, and the rest: those that depend on themselves or on others of the rest.
#[derive(Drop)]
pub struct Ordering {
    /// Each after all that it depends on.
    pub order: Names,
    /// The articles that never have all dependencies before them, in the order of names.
    pub rest: Names,
}
