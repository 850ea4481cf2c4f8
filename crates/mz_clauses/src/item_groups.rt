//! What an item gives, by what may use it.
use crate::clause_groups::ClauseGroups;

/// The groups of an item's clauses: those that say of which types a term is, which `fits` and `by` use; further
/// ones, which `by` alone uses; and the equalities of a definition by `equals`, which `by` uses where they are
/// let in.
#[derive(Drop)]
pub struct ItemGroups {
    pub typing: ClauseGroups,
    pub further: ClauseGroups,
    pub equalities: ClauseGroups,
}
