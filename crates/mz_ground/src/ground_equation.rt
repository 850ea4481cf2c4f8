//! Ground equations, by the places of their sides.
ghost use Rattle.std.specs.Prelude.{◌≡◌, ◌↔◌, IsTrue};
ghost use Rattle.mz_ground.specs.Hash.{equation_hash};

use crate::hash_places::hash_with;

/// A ground equation: both sides by their places in the list of ground terms.
#[derive(Clone, Copy, Debug, PartialEq, Eq, PartialOrd, Ord, Hash)]
pub struct GroundEquation {
    pub left: usize,
    pub right: usize,
}

impl GroundEquation {
    /// Whether two entries are equal.
    pub fn equals(&self, other: &GroundEquation) -> bool
        ensures { IsTrue result ↔ (self.now ≡ other.now) }
    {
        self.left == other.left && self.right == other.right
    }

    /// A number by which the entry is found.
    pub fn hash(&self) -> u64
        ensures { result ≡ equation_hash self.now }
    {
        hash_with(hash_with(2, self.left as u64), self.right as u64)
    }

    /// An equal entry.
    pub fn copy(&self) -> GroundEquation
        ensures { result ≡ self.now }
    {
        *self
    }
}
