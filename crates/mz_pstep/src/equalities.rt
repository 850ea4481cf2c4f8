//! Names for terms, and steps of an iterative equality.
ghost use Rattle.std.specs.Prelude.{◌≡◌};
ghost use Rattle.std.specs.Str.{bytes_eq};
ghost use Rattle.mz_forms.specs.Reading.{Reads};
ghost use Rattle.mz_pterm.specs.Words.{same_place};
ghost use Rattle.mz_pstep.specs.Words.{equals_form, is_equals, named_next, set_form, TakesEquals};
ghost use Rattle.mz_pstep.specs.Forms.{
  equality_step_form,
  named_term_form,
  retyped_form,
  same_equality_step,
  same_named_term,
  same_retyped,
  same_taken,
  taken_form,
};

use mz_base::place::Place;
use mz_base::token::MarkedToken;
use mz_forms::refusal::Refusal;
use mz_pjustification::keyword::Keyword;
use mz_pjustification::simple::simple;
use mz_pjustification::words::expect_key;
use mz_pterm::reader::Reader;
use mz_pterm::sign::Sign;
use mz_tree::expressions::TermTree;
use mz_tree_proof::equality_step::EqualityStepTree;
use mz_tree_proof::introduction::{NamedTermTree, RetypedTree};
use mz_tree_proof::skeleton::TakenTree;

fn spells(spelling: &[u8], word: &[u8]) -> bool
    ensures { result ≡ bytes_eq spelling.now word.now }
{
    spelling == word
}

/// Whether the token is `=`.
pub fn is_equals(marked: &MarkedToken) -> bool
    ensures { result ≡ is_equals marked.now }
{
    if !Sign::of(marked).is(Sign::Predicate) {
        return false;
    }
    spells(marked.token.spelling.as_slice(), b"=")
}

/// The place of the next token, which is taken if it is `=`.
pub fn takes_equals(reader: &mut Reader<'_>) -> Option<Place>
    ensures { TakesEquals reader.old.rest.now result reader.new.rest.now }
{
    let Some((next, rest)) = reader.rest.split_first() else {
        return None;
    };
    if is_equals(next) {
        reader.rest = rest;
        Some(next.token.place)
    } else {
        None
    }
}

/// Takes the next token, which has to be `=`.
pub fn expect_equals(reader: &mut Reader<'_>) -> Result<Place, Refusal>
    ensures { Reads equals_form 0 same_place reader.old.rest.now result reader.new.rest.now }
{
    match takes_equals(reader) {
        Some(place) => Ok(place),
        None => Err(Refusal::Refused),
    }
}

/// Takes the next token, which has to be `set`.
pub fn expect_set(reader: &mut Reader<'_>) -> Result<Place, Refusal>
    ensures { Reads set_form 0 same_place reader.old.rest.now result reader.new.rest.now }
{
    let Some((next, rest)) = reader.rest.split_first() else {
        return Err(Refusal::Refused);
    };
    if !Sign::of(next).is(Sign::Mode) {
        return Err(Refusal::Refused);
    }
    if !spells(next.token.spelling.as_slice(), b"set") {
        return Err(Refusal::Refused);
    }
    reader.rest = rest;
    Ok(next.token.place)
}

/// Whether an identifier comes next and a `=` behind it.
pub fn named_comes(reader: &Reader<'_>) -> bool
    ensures { result ≡ named_next reader.now.rest.now }
{
    let Some((next, rest)) = reader.rest.split_first() else {
        return false;
    };
    if !Sign::of(next).is(Sign::Identifier) {
        return false;
    }
    let Some((second, _)) = rest.split_first() else {
        return false;
    };
    is_equals(second)
}

/// A name for a term.
pub fn named_term(reader: &mut Reader<'_>, room: usize) -> Result<NamedTermTree, Refusal>
    ensures { Reads named_term_form room same_named_term reader.old.rest.now result reader.new.rest.now }
{
    let name = reader.expect_name(Sign::Identifier)?;
    let equals = expect_equals(reader)?;
    let node = reader.term(false, room)?;
    let term = TermTree::from_node(node);
    Ok(NamedTermTree { name, equals, term })
}

/// What gets another type: a variable, or a name for a term.
pub fn retyped(reader: &mut Reader<'_>, room: usize) -> Result<RetypedTree, Refusal>
    ensures { Reads retyped_form room same_retyped reader.old.rest.now result reader.new.rest.now }
{
    let name = reader.expect_name(Sign::Identifier)?;
    let Some(equals) = takes_equals(reader) else {
        return Ok(RetypedTree::Itself(name));
    };
    let node = reader.term(false, room)?;
    let term = TermTree::from_node(node);
    Ok(RetypedTree::Named(NamedTermTree { name, equals, term }))
}

/// What is taken as an example: a term, with a name for it or without.
pub fn taken(reader: &mut Reader<'_>, room: usize) -> Result<TakenTree, Refusal>
    ensures { Reads taken_form room same_taken reader.old.rest.now result reader.new.rest.now }
{
    if named_comes(reader) {
        let named = named_term(reader, room)?;
        return Ok(TakenTree::Named(named));
    }
    let node = reader.term(false, room)?;
    Ok(TakenTree::Plain(TermTree::from_node(node)))
}

/// A further side of an iterative equality.
pub fn equality_step(reader: &mut Reader<'_>, room: usize) -> Result<EqualityStepTree, Refusal>
    ensures { Reads equality_step_form room same_equality_step reader.old.rest.now result reader.new.rest.now }
{
    let sign = expect_key(reader, Keyword::Link)?;
    let node = reader.term(false, room)?;
    let simple = simple(reader, room)?;
    let term = TermTree::from_node(node);
    Ok(EqualityStepTree { sign, term, simple })
}
