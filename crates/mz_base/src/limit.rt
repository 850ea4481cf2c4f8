//! The limits of one step.

/// A limit that the check of one justification may pass.
#[derive(Clone, Copy, Debug, PartialEq, Eq)]
pub enum Limit {
    /// The disjuncts of a problem: at most 1,024.
    Disjuncts,
    /// The ground terms of a disjunct: at most 4,096.
    Terms,
    /// The ground atoms of a disjunct: at most 16,384.
    Atoms,
    /// The work of a universal: at most 10,000,000.
    Work,
}
