//! Items.
ghost use Rattle.std.specs.Prelude.{◌≡◌};
ghost use Rattle.mz_forms.specs.Reading.{Reads};
ghost use Rattle.mz_ppart.specs.WordLists.{first_of};
ghost use Rattle.mz_ppattern.specs.Optional.{plainly};
ghost use Rattle.mz_pitem.specs.Classes.{item_next, item_word, items};
ghost use Rattle.mz_pitem.specs.Forms.{item_form};

use crate::definitions::definition;
use mz_base::token::MarkedToken;
use mz_forms::refusal::Refusal;
use mz_pblock::registrations::registration;
use mz_pblock::schemes::{scheme, theorem};
use mz_ppart::notations::notation;
use mz_ppart::reserves::reserve;
use mz_ppattern::words::is_word;
use mz_pproof::reasonings::statement;
use mz_pterm::reader::Reader;
use mz_tree_item::article::ItemTree;

/// The word that an item begins with, where it is no statement.
#[derive(Clone, Copy, Debug, PartialEq, Eq)]
pub enum ItemWord {
    Reserve,
    Theorem,
    Scheme,
    Definition,
    Notation,
    Registration,
}

/// The word of an item that the token is.
fn item_of(marked: &MarkedToken) -> Option<ItemWord>
    ensures { result ≡ first_of item_word items marked.now }
{
    if is_word(marked, b"reserve") {
        Some(ItemWord::Reserve)
    } else if is_word(marked, b"theorem") {
        Some(ItemWord::Theorem)
    } else if is_word(marked, b"scheme") {
        Some(ItemWord::Scheme)
    } else if is_word(marked, b"definition") {
        Some(ItemWord::Definition)
    } else if is_word(marked, b"notation") {
        Some(ItemWord::Notation)
    } else if is_word(marked, b"registration") {
        Some(ItemWord::Registration)
    } else {
        None
    }
}

/// The word of an item that comes next.
pub fn item_comes(reader: &Reader<'_>) -> Option<ItemWord>
    ensures { result ≡ item_next reader.now.rest.now }
{
    let Some((next, _)) = reader.rest.split_first() else {
        return None;
    };
    item_of(next)
}

/// An item. `room` says how many constructs may still be opened within one another.
pub fn item(reader: &mut Reader<'_>, room: usize) -> Result<ItemTree, Refusal>
    ensures { Reads item_form room plainly reader.old.rest.now result reader.new.rest.now }
{
    match item_comes(reader) {
        Some(ItemWord::Reserve) => {
            let tree = reserve(reader, room)?;
            Ok(ItemTree::Reserve(tree))
        }
        Some(ItemWord::Theorem) => {
            let tree = theorem(reader, room)?;
            Ok(ItemTree::Theorem(tree))
        }
        Some(ItemWord::Scheme) => {
            let tree = scheme(reader, room)?;
            Ok(ItemTree::Scheme(tree))
        }
        Some(ItemWord::Definition) => {
            let tree = definition(reader, room)?;
            Ok(ItemTree::Definition(tree))
        }
        Some(ItemWord::Notation) => {
            let tree = notation(reader, room)?;
            Ok(ItemTree::Notation(tree))
        }
        Some(ItemWord::Registration) => {
            let tree = registration(reader, room)?;
            Ok(ItemTree::Registration(tree))
        }
        None => {
            let tree = statement(reader, room)?;
            Ok(ItemTree::Statement(tree))
        }
    }
}
