//! Why an environment part lets nothing in.
use mz_base::place::Place;
use std::alloc::AllocError;
use thiserror::Error;

/// The first fault of an environment part, in the order of the text, with the place of the name.
#[derive(Debug, Drop, Error)]
pub enum EnvFault {
    /// A notation of the article names a constructor that no directive lets in; the number of the first such
    /// item, from 1.
    #[error("missing constructor {item}")]
    MissingConstructor { place: Place, item: u64 },
    /// No such requirement is known.
    #[error("unknown requirement")]
    UnknownRequirement { place: Place },
    /// There is no export of the name.
    #[error("not exported")]
    NotExported { place: Place },
    /// Want of memory.
    #[error(transparent)]
    Memory(#[from(alloc)] AllocError),
}
