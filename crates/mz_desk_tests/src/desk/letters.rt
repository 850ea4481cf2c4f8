//! Verdicts as letters, for tests alone.
use mz_core::verdict::{Entry, Verdict};

/// How an entry reads, by one letter.
pub fn letter(entry: &Entry) -> u8 {
    match entry.verdict {
        None => b'-',
        Some(Verdict::Accepted) => b'a',
        Some(Verdict::Rejected) => b'r',
        Some(Verdict::Blocked(_)) => b'b',
        Some(Verdict::Cyclic) => b'c',
        Some(Verdict::Missing) => b'm',
    }
}
