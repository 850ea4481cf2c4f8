//! What a worker is given.
use crate::job::Job;

/// What a claim answers.
#[derive(Drop)]
pub enum Claim {
    /// A row to check.
    Take(Job),
    /// No row is ready, and some are claimed; the first of these.
    NotYet { claimed: u32 },
    /// Every row is settled.
    Finished,
}
