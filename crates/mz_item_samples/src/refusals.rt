//! The texts of refusals.
use mz_names::refusal::Refusal;
use std::alloc::{AllocError, Global};

/// The letter of the refusal and its column.
pub fn refusal_text(alloc: Global, r: Refusal) -> Result<Vec<u8>, AllocError> {
    let (letter, place) = match r {
        Refusal::UnknownSymbol(p) => ('S', p),
        Refusal::NoNotation(p) => ('N', p),
        Refusal::UnknownVariable(p) => ('V', p),
        Refusal::Unregistered(p) => ('U', p),
        Refusal::UnfitArgument(p) => ('A', p),
        Refusal::TooLarge(p) => ('L', p),
    };
    let column = place.column;
    let text = format!(in alloc; "{letter}{column}")?;
    Ok(text.into_bytes())
}
