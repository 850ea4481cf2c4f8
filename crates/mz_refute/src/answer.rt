//! What is answered for a universal.

/// Whether a universal is refuted, or its work where that passes the limit.
#[derive(Clone, Copy, Debug, PartialEq, Eq)]
pub enum Answer {
    /// It is.
    Yes,
    /// No choice of ground terms for its variables refutes it.
    No,
    /// Its work passes 10,000,000; a work above 1,000,000,000 is told as that.
    Over { work: u64 },
}
