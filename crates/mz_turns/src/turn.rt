//! What changes the rows.

/// A turn: a worker takes a row, or publishes what it found, or all claims are taken away. Rows and workers
/// are numbered from 0.
#[derive(Clone, Copy, Debug, PartialEq, Eq)]
pub enum Turn {
    Take(u32, u32),
    Publish(u32, u32),
    Reclaim,
}
