//! What the functions of the parsers read from.
ghost use Rattle.std.specs.Prelude.{◌≡◌, true, IfOk, OnOk, ◌<◌};
ghost use Rattle.mz_forms.specs.Form.{nested};
ghost use Rattle.mz_forms.specs.Reading.{Reads};
ghost use Rattle.mz_pterm.specs.Words.{is_fixed, is_named, word, name, word_of, same_place, same_word, TakesPlace};

use crate::sign::Sign;
use mz_base::place::Place;
use mz_base::token::MarkedToken;
use mz_forms::refusal::Refusal;
use mz_tree::word::Word;
use std::alloc::{AllocError, Global};

/// The tokens that are left, and where trees are to lie.
#[derive(Drop)]
pub struct Reader<'a> {
    pub rest: &'a [MarkedToken],
    pub alloc: Global,
}

/// The place and the spelling of a token.
pub fn word_of(alloc: Global, marked: &MarkedToken) -> Result<Word, AllocError>
    ensures { IfOk result (λ word. word ≡ word_of marked.now) }
{
    let spelling = marked.token.spelling.copy(alloc)?;
    Ok(Word {
        place: marked.token.place,
        spelling,
    })
}

impl Reader<'_> {
    /// The place of the next token, which is taken if it has this sign.
    pub fn takes(&mut self, sign: Sign) -> Option<Place>
        requires { is_fixed sign ≡ true }
        ensures { TakesPlace sign self.old.rest.now result self.new.rest.now }
    {
        let Some((next, rest)) = self.rest.split_first() else {
            return None;
        };
        if Sign::of(next).is(sign) {
            self.rest = rest;
            Some(next.token.place)
        } else {
            None
        }
    }

    /// Takes the next token, which has to have this sign.
    pub fn expect(&mut self, sign: Sign) -> Result<Place, Refusal>
        requires { is_fixed sign ≡ true }
        ensures { Reads (word sign) 0 same_place self.old.rest.now result self.new.rest.now }
    {
        match self.takes(sign) {
            Some(place) => Ok(place),
            None => Err(Refusal::Refused),
        }
    }

    /// Takes the next token, which has to be an identifier or a symbol of this sign.
    pub fn expect_name(&mut self, sign: Sign) -> Result<Word, Refusal>
        requires { is_named sign ≡ true }
        ensures { Reads (name sign) 0 same_word self.old.rest.now result self.new.rest.now }
    {
        let Some((next, rest)) = self.rest.split_first() else {
            return Err(Refusal::Refused);
        };
        if !Sign::of(next).is(sign) {
            return Err(Refusal::Refused);
        }
        let word = word_of(self.alloc, next)?;
        self.rest = rest;
        Ok(word)
    }

    /// Takes the next token, which has to have this sign and is one level down.
    pub fn opens(&mut self, sign: Sign, room: usize) -> Result<Place, Refusal>
        requires { is_fixed sign ≡ true }
        ensures reads { Reads (nested (word sign)) room same_place self.old.rest.now result self.new.rest.now }
        ensures room { OnOk result (0 < room) }
    {
        let Some((next, rest)) = self.rest.split_first() else {
            return Err(Refusal::Refused);
        };
        if !Sign::of(next).is(sign) {
            return Err(Refusal::Refused);
        }
        if room == 0 {
            return Err(Refusal::TooDeep);
        }
        self.rest = rest;
        Ok(next.token.place)
    }

    /// Takes the next token, which has to be an identifier or a symbol of this sign and is one level down.
    pub fn opens_name(&mut self, sign: Sign, room: usize) -> Result<Word, Refusal>
        requires { is_named sign ≡ true }
        ensures reads { Reads (nested (name sign)) room same_word self.old.rest.now result self.new.rest.now }
        ensures room { OnOk result (0 < room) }
    {
        let Some((next, rest)) = self.rest.split_first() else {
            return Err(Refusal::Refused);
        };
        if !Sign::of(next).is(sign) {
            return Err(Refusal::Refused);
        }
        if room == 0 {
            return Err(Refusal::TooDeep);
        }
        let word = word_of(self.alloc, next)?;
        self.rest = rest;
        Ok(word)
    }
}
