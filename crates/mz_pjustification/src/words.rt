//! How tokens of proofs are taken.
ghost use Rattle.std.specs.Prelude.{◌≡◌, true, ◌<◌, OnOk};
ghost use Rattle.mz_forms.specs.Form.{nested};
ghost use Rattle.mz_forms.specs.Reading.{Reads};
ghost use Rattle.mz_pterm.specs.Words.{same_place, same_word};
ghost use Rattle.mz_pjustification.specs.Words.{is_key, keyword, numeral_form, TakesKey};

use crate::keyword::Keyword;
use mz_base::place::Place;
use mz_forms::refusal::Refusal;
use mz_pterm::reader::{Reader, word_of};
use mz_tree::word::Word;

/// The place of the next token, which is taken if it has this keyword.
pub fn takes_key(reader: &mut Reader<'_>, word: Keyword) -> Option<Place>
    requires { is_key word ≡ true }
    ensures { TakesKey word reader.old.rest.now result reader.new.rest.now }
{
    let Some((next, rest)) = reader.rest.split_first() else {
        return None;
    };
    if Keyword::of(next).is(word) {
        reader.rest = rest;
        Some(next.token.place)
    } else {
        None
    }
}

/// Takes the next token, which has to have this keyword.
pub fn expect_key(reader: &mut Reader<'_>, word: Keyword) -> Result<Place, Refusal>
    requires { is_key word ≡ true }
    ensures { Reads (keyword word) 0 same_place reader.old.rest.now result reader.new.rest.now }
{
    match takes_key(reader, word) {
        Some(place) => Ok(place),
        None => Err(Refusal::Refused),
    }
}

/// Takes the next token, which has to be a numeral.
pub fn expect_numeral(reader: &mut Reader<'_>) -> Result<Word, Refusal>
    ensures { Reads numeral_form 0 same_word reader.old.rest.now result reader.new.rest.now }
{
    let Some((next, rest)) = reader.rest.split_first() else {
        return Err(Refusal::Refused);
    };
    if !Keyword::of(next).is(Keyword::Numeral) {
        return Err(Refusal::Refused);
    }
    let number = word_of(reader.alloc, next)?;
    reader.rest = rest;
    Ok(number)
}

/// Takes the next token, which has to have this keyword and is one level down.
pub fn opens_key(reader: &mut Reader<'_>, word: Keyword, room: usize) -> Result<Place, Refusal>
    requires { is_key word ≡ true }
    ensures reads { Reads (nested (keyword word)) room same_place reader.old.rest.now result reader.new.rest.now }
    ensures room { OnOk result (0 < room) }
{
    let Some((next, rest)) = reader.rest.split_first() else {
        return Err(Refusal::Refused);
    };
    if !Keyword::of(next).is(word) {
        return Err(Refusal::Refused);
    }
    if room == 0 {
        return Err(Refusal::TooDeep);
    }
    reader.rest = rest;
    Ok(next.token.place)
}
