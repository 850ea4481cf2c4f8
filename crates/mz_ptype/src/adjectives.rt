//! Adjectives.
ghost use Rattle.std.specs.Prelude.{◌≡◌};
ghost use Rattle.mz_forms.specs.Reading.{Reads};
ghost use Rattle.mz_tree.specs.Views.{adjective_of};
ghost use Rattle.mz_ptype.specs.Classes.{begins_adjective, next_is};
ghost use Rattle.mz_ptype.specs.Forms.{
  adjective_form,
  adjective_from,
  adjective_list_form,
  adjectives_form,
  adjectives_in,
  adjectives_pair,
  argument_seen,
  maybe_argument,
};

use mz_base::place::Place;
use mz_forms::refusal::Refusal;
use mz_pterm::reader::Reader;
use mz_pterm::sign::Sign;
use mz_pterm::terms::Bracketed;
use mz_tree::nodes::AdjectiveNode;
use mz_tree::word::Word;

/// What an adjective's attribute is said of besides its subject.
#[derive(Drop)]
pub enum Argument {
    None,
    Identifier(Word),
    /// Terms in parentheses.
    Terms(Bracketed),
}

/// The adjective of these parts.
fn with_argument(non: Option<Place>, argument: Argument, attribute: Word) -> AdjectiveNode
    ensures { adjective_of result ≡ adjective_from non (argument_seen argument) attribute }
{
    match argument {
        Argument::None => AdjectiveNode::Plain(non, attribute),
        Argument::Identifier(name) => AdjectiveNode::WithIdentifier(non, name, attribute),
        Argument::Terms(inside) => AdjectiveNode::WithTerms(
            non,
            inside.open,
            inside.terms,
            inside.close,
            attribute,
        ),
    }
}

/// The argument of an adjective, where one comes next.
fn maybe_argument(reader: &mut Reader<'_>, field: bool, room: usize) -> Result<Argument, Refusal>
    ensures { Reads (maybe_argument field) room argument_seen reader.old.rest.now result reader.new.rest.now }
{
    let Some((next, _)) = reader.rest.split_first() else {
        return Ok(Argument::None);
    };
    match Sign::of(next) {
        Sign::Identifier => {
            let name = reader.expect_name(Sign::Identifier)?;
            Ok(Argument::Identifier(name))
        }
        Sign::Open => {
            let inside = reader.bracketed(Sign::Open, Sign::Close, field, room)?;
            Ok(Argument::Terms(inside))
        }
        _ => Ok(Argument::None),
    }
}

/// An adjective: an attribute, with `non` or an argument before it.
pub fn adjective(
    reader: &mut Reader<'_>,
    field: bool,
    room: usize,
) -> Result<AdjectiveNode, Refusal>
    ensures { Reads (adjective_form field) room adjective_of reader.old.rest.now result reader.new.rest.now }
{
    let non = reader.takes(Sign::Non);
    let argument = maybe_argument(reader, field, room)?;
    let attribute = reader.expect_name(Sign::Attribute)?;
    Ok(with_argument(non, argument, attribute))
}

/// Whether an adjective begins with the next token.
pub fn adjective_comes(reader: &Reader<'_>) -> bool
    ensures { result ≡ next_is begins_adjective reader.now.rest.now }
{
    let Some((next, _)) = reader.rest.split_first() else {
        return false;
    };
    matches!(
        Sign::of(next),
        Sign::Non | Sign::Identifier | Sign::Open | Sign::Attribute
    )
}

/// Any number of adjectives.
pub fn adjective_list(
    reader: &mut Reader<'_>,
    field: bool,
    room: usize,
) -> Result<Vec<AdjectiveNode>, Refusal>
    ensures { Reads (adjective_list_form field) room adjectives_in reader.old.rest.now result reader.new.rest.now }
{
    let mut list = Vec::new(reader.alloc);
    'list: while adjective_comes(reader) {
        let next = adjective(reader, field, room)?;
        list.push(next)?;
    }
    Ok(list)
}

/// Adjectives, at least one.
pub fn adjectives(
    reader: &mut Reader<'_>,
    field: bool,
    room: usize,
) -> Result<(AdjectiveNode, Vec<AdjectiveNode>), Refusal>
    ensures { Reads (adjectives_form field) room adjectives_pair reader.old.rest.now result reader.new.rest.now }
{
    let first = adjective(reader, field, room)?;
    let more = adjective_list(reader, field, room)?;
    Ok((first, more))
}
