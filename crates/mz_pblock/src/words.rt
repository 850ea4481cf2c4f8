//! The words of conditions and of properties.
ghost use Rattle.std.specs.Prelude.{◌≡◌, ℕ};
ghost use Rattle.mz_forms.specs.Reading.{Reads};
ghost use Rattle.mz_tree_part.specs.Keywords.{condition_word, property_word};
ghost use Rattle.mz_ppattern.specs.Optional.{next_has, plainly};
ghost use Rattle.mz_ppart.specs.WordLists.{first_of};
ghost use Rattle.mz_pblock.specs.Classes.{begins_condition, begins_property, conditions, properties};
ghost use Rattle.mz_pblock.specs.Forms.{condition_word_form, property_word_form};

use mz_base::place::Place;
use mz_base::token::MarkedToken;
use mz_forms::refusal::Refusal;
use mz_ppattern::words::is_word;
use mz_pterm::reader::Reader;
use mz_tree_part::words::{ConditionWord, PropertyWord};

/// The word of a condition that the token is. Those of a later stage of the language are none yet.
fn condition_of(marked: &MarkedToken) -> Option<ConditionWord>
    ensures { result ≡ first_of condition_word conditions marked.now }
{
    if is_word(marked, b"existence") {
        Some(ConditionWord::Existence)
    } else if is_word(marked, b"uniqueness") {
        Some(ConditionWord::Uniqueness)
    } else if is_word(marked, b"coherence") {
        Some(ConditionWord::Coherence)
    } else if is_word(marked, b"compatibility") {
        Some(ConditionWord::Compatibility)
    } else if is_word(marked, b"consistency") {
        Some(ConditionWord::Consistency)
    } else if is_word(marked, b"correctness") {
        Some(ConditionWord::Correctness)
    } else {
        None
    }
}

/// The word of a property that the token is. Those of a later stage of the language are none yet.
fn property_of(marked: &MarkedToken) -> Option<PropertyWord>
    ensures { result ≡ first_of property_word properties marked.now }
{
    if is_word(marked, b"reflexivity") {
        Some(PropertyWord::Reflexivity)
    } else if is_word(marked, b"irreflexivity") {
        Some(PropertyWord::Irreflexivity)
    } else if is_word(marked, b"symmetry") {
        Some(PropertyWord::Symmetry)
    } else if is_word(marked, b"asymmetry") {
        Some(PropertyWord::Asymmetry)
    } else if is_word(marked, b"connectedness") {
        Some(PropertyWord::Connectedness)
    } else if is_word(marked, b"commutativity") {
        Some(PropertyWord::Commutativity)
    } else if is_word(marked, b"idempotence") {
        Some(PropertyWord::Idempotence)
    } else if is_word(marked, b"involutiveness") {
        Some(PropertyWord::Involutiveness)
    } else if is_word(marked, b"projectivity") {
        Some(PropertyWord::Projectivity)
    } else {
        None
    }
}

/// Whether the word of a condition comes next.
pub fn condition_comes(reader: &Reader<'_>) -> bool
    ensures { result ≡ next_has begins_condition reader.now.rest.now }
{
    let Some((next, _)) = reader.rest.split_first() else {
        return false;
    };
    condition_of(next).is_some()
}

/// Whether the word of a property comes next.
pub fn property_comes(reader: &Reader<'_>) -> bool
    ensures { result ≡ next_has begins_property reader.now.rest.now }
{
    let Some((next, _)) = reader.rest.split_first() else {
        return false;
    };
    property_of(next).is_some()
}

/// The word of a condition, with its place.
pub fn expect_condition(reader: &mut Reader<'_>) -> Result<(ConditionWord, Place), Refusal>
    ensures { (room : ℕ) → Reads condition_word_form room plainly reader.old.rest.now result reader.new.rest.now }
{
    let Some((next, rest)) = reader.rest.split_first() else {
        return Err(Refusal::Refused);
    };
    match condition_of(next) {
        Some(word) => {
            reader.rest = rest;
            Ok((word, next.token.place))
        }
        None => Err(Refusal::Refused),
    }
}

/// The word of a property, with its place.
pub fn expect_property(reader: &mut Reader<'_>) -> Result<(PropertyWord, Place), Refusal>
    ensures { (room : ℕ) → Reads property_word_form room plainly reader.old.rest.now result reader.new.rest.now }
{
    let Some((next, rest)) = reader.rest.split_first() else {
        return Err(Refusal::Refused);
    };
    match property_of(next) {
        Some(word) => {
            reader.rest = rest;
            Ok((word, next.token.place))
        }
        None => Err(Refusal::Refused),
    }
}
