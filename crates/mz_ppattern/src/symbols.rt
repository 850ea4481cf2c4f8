//! Functor symbols, and identifiers in brackets.
ghost use Rattle.std.specs.Prelude.{◌≡◌, true};
ghost use Rattle.mz_forms.specs.Reading.{Reads};
ghost use Rattle.mz_pterm.specs.Classes.{closes};
ghost use Rattle.mz_pterm.specs.Words.{is_fixed};
ghost use Rattle.mz_ppattern.specs.Optional.{plainly};
ghost use Rattle.mz_ppattern.specs.Forms.{bracketed_form, bracketed_from, enclosed_form, enclosed_from, functor_form};

use crate::names::identifiers;
use mz_base::place::Place;
use mz_forms::refusal::Refusal;
use mz_pterm::reader::{Reader, word_of};
use mz_pterm::sign::Sign;
use mz_tree::lists::Separated;
use mz_tree::word::Word;
use mz_tree_heading::patterns::IdentifierTree;

/// Takes the next token, which has to be a functor symbol, with its priority.
pub fn expect_functor(reader: &mut Reader<'_>) -> Result<(Word, u8), Refusal>
    ensures { Reads functor_form 0 plainly reader.old.rest.now result reader.new.rest.now }
{
    let Some((next, rest)) = reader.rest.split_first() else {
        return Err(Refusal::Refused);
    };
    if !Sign::of(next).is(Sign::Functor) {
        return Err(Refusal::Refused);
    }
    let symbol = word_of(reader.alloc, next)?;
    reader.rest = rest;
    Ok((symbol, next.token.priority))
}

/// Identifiers in these brackets. `room` says how many constructs may still be opened within one another.
pub fn bracketed(
    reader: &mut Reader<'_>,
    opening: Sign,
    closing: Sign,
    room: usize,
) -> Result<(Place, Separated<IdentifierTree>, Place), Refusal>
    requires opening { is_fixed opening ≡ true }
    requires closing { closes closing ≡ true }
    ensures { Reads (bracketed_form opening closing) room bracketed_from reader.old.rest.now result reader.new.rest.now }
{
    let left = reader.opens(opening, room)?;
    let identifiers = identifiers(reader)?;
    let right = reader.expect(closing)?;
    Ok((left, identifiers, right))
}

/// Identifiers in brackets of an environment.
pub fn enclosed(
    reader: &mut Reader<'_>,
    room: usize,
) -> Result<(Word, Separated<IdentifierTree>, Word), Refusal>
    ensures { Reads enclosed_form room enclosed_from reader.old.rest.now result reader.new.rest.now }
{
    let left = reader.opens_name(Sign::LeftBracket, room)?;
    let identifiers = identifiers(reader)?;
    let right = reader.expect_name(Sign::RightBracket)?;
    Ok((left, identifiers, right))
}
