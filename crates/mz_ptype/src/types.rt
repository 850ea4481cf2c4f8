//! Types.
ghost use Rattle.std.specs.Prelude.{◌≡◌};
ghost use Rattle.mz_forms.specs.Reading.{Reads};
ghost use Rattle.mz_tree.specs.Trees.{adjectives_of};
ghost use Rattle.mz_tree.specs.Views.{type_of};
ghost use Rattle.mz_ptype.specs.Forms.{
  adjectives_in,
  arguments_seen,
  maybe_arguments,
  preposition,
  radix_symbol,
  same_symbol,
  type_from,
  type_in,
  whole_type,
  BoxesType,
  ReadsRadix,
};

use crate::adjectives::adjective_list;
use mz_base::place::Place;
use mz_forms::refusal::Refusal;
use mz_pterm::reader::{Reader, word_of};
use mz_pterm::sign::Sign;
use mz_tree::nodes::{AdjectiveNode, TermsNode, TypeNode};
use mz_tree::word::Word;
use std::alloc::Global;

fn boxed(alloc: Global, node: TypeNode) -> Result<Box<TypeNode>, Refusal>
    ensures { BoxesType node result }
{
    Ok(Box::new(alloc, node)?)
}

/// The type of these parts, with a symbol of a structure or of a mode.
fn with_adjectives(
    adjectives: Vec<AdjectiveNode>,
    structured: bool,
    symbol: Word,
    arguments: Option<(Place, TermsNode)>,
) -> TypeNode
    ensures { type_of result ≡ type_from (adjectives_of (adjectives_in adjectives)) structured symbol (arguments_seen arguments) }
{
    match arguments {
        None => {
            if structured {
                TypeNode::Structure(adjectives, symbol)
            } else {
                TypeNode::Mode(adjectives, symbol)
            }
        }
        Some((place, terms)) => {
            if structured {
                TypeNode::StructureOver(adjectives, symbol, place, terms)
            } else {
                TypeNode::ModeOf(adjectives, symbol, place, terms)
            }
        }
    }
}

/// What stands before the arguments of a structure, or of a mode.
fn preposition(structured: bool) -> Sign
    ensures { result ≡ preposition structured }
{
    if structured { Sign::Over } else { Sign::Of }
}

/// A preposition and terms, or nothing.
fn arguments(
    reader: &mut Reader<'_>,
    structured: bool,
    field: bool,
    room: usize,
) -> Result<Option<(Place, TermsNode)>, Refusal>
    ensures { Reads (maybe_arguments field structured) room arguments_seen reader.old.rest.now result reader.new.rest.now }
{
    let Some(place) = reader.takes(preposition(structured)) else {
        return Ok(None);
    };
    let terms = reader.terms(field, room)?;
    Ok(Some((place, terms)))
}

/// A symbol of a mode, or of a structure.
fn radix_symbol(reader: &mut Reader<'_>) -> Result<(bool, Word), Refusal>
    ensures { Reads radix_symbol 0 same_symbol reader.old.rest.now result reader.new.rest.now }
{
    let Some((next, rest)) = reader.rest.split_first() else {
        return Err(Refusal::Refused);
    };
    match Sign::of(next) {
        Sign::Mode => {
            let symbol = word_of(reader.alloc, next)?;
            reader.rest = rest;
            Ok((false, symbol))
        }
        Sign::Structure => {
            let symbol = word_of(reader.alloc, next)?;
            reader.rest = rest;
            Ok((true, symbol))
        }
        _ => Err(Refusal::Refused),
    }
}

/// The type with these adjectives, from its symbol on.
pub fn radix(
    reader: &mut Reader<'_>,
    adjectives: Vec<AdjectiveNode>,
    field: bool,
    room: usize,
) -> Result<Box<TypeNode>, Refusal>
    ensures { ReadsRadix field room (adjectives_in adjectives) reader.old.rest.now result reader.new.rest.now }
{
    let (structured, symbol) = radix_symbol(reader)?;
    let arguments = arguments(reader, structured, field, room)?;
    boxed(
        reader.alloc,
        with_adjectives(adjectives, structured, symbol, arguments),
    )
}

/// A type.
pub fn whole_type(
    reader: &mut Reader<'_>,
    field: bool,
    room: usize,
) -> Result<Box<TypeNode>, Refusal>
    ensures { Reads (whole_type field) room type_in reader.old.rest.now result reader.new.rest.now }
{
    let adjectives = adjective_list(reader, field, room)?;
    radix(reader, adjectives, field, room)
}
