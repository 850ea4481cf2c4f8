//! Why a text isn't read.
use std::alloc::{AllocError, AllocFailed};

/// Why a text isn't read.
#[derive(Debug, Drop, PartialEq)]
pub enum SampleFault {
    /// There was no memory.
    Memory,
    /// It isn't the text of such a value.
    Text,
}

impl From<AllocError> for SampleFault {
    fn from(_error: AllocError) -> Self {
        SampleFault::Memory
    }
}

impl<T: Drop> From<AllocFailed<T>> for SampleFault {
    fn from(_error: AllocFailed<T>) -> Self {
        SampleFault::Memory
    }
}
