//! Symbols applied to arguments.
ghost use Rattle.std.specs.Prelude.{◌≡◌, IfOk};
ghost use Rattle.mz_applied.specs.Application.{application, bracketed, attribute_of};

use mz_base::text::Text;
use mz_choice::choice::Applied;
use mz_logic::kind::Kind;
use mz_logic::term::{Term, Terms};
use std::alloc::{AllocError, Global};

/// A symbol of the kind, with arguments on both sides.
pub fn application(
    alloc: Global,
    kind: Kind,
    symbol: &Text,
    left: Terms,
    right: Terms,
) -> Result<Applied, AllocError>
    ensures { IfOk result (λ a. a ≡ application kind symbol.now left right) }
{
    let symbol = symbol.copy(alloc)?;
    Ok(Applied {
        symbol,
        closing: Text::new(alloc),
        kind,
        left,
        right,
    })
}

/// Brackets, which are of the kind, around arguments.
pub fn bracketed(
    alloc: Global,
    kind: Kind,
    symbol: &[u8],
    closing: &[u8],
    ts: Terms,
) -> Result<Applied, AllocError>
    ensures { IfOk result (λ a. a ≡ bracketed kind symbol.now closing.now ts) }
{
    let symbol = Text::from_slice(alloc, symbol)?;
    let closing = Text::from_slice(alloc, closing)?;
    Ok(Applied {
        symbol,
        closing,
        kind,
        left: Terms::new(alloc),
        right: ts,
    })
}

/// The attribute with arguments before it, of the subject.
pub fn attribute_of(
    alloc: Global,
    symbol: &Text,
    left: Terms,
    subject: &Term,
) -> Result<Applied, AllocError>
    ensures { IfOk result (λ a. a ≡ attribute_of symbol.now left subject.now) }
{
    let t = subject.copy(alloc)?;
    let mut right = Terms::new(alloc);
    right.push(t)?;
    application(alloc, Kind::Attribute, symbol, left, right)
}
