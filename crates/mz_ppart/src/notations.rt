//! Loci of blocks, and notations.
ghost use Rattle.mz_forms.specs.Reading.{Reads};
ghost use Rattle.mz_ppattern.specs.Optional.{next_has, plainly};
ghost use Rattle.mz_ppart.specs.Classes.{begins_let, begins_notation_part};
ghost use Rattle.mz_tree_part.specs.Keywords.{notation_word};
ghost use Rattle.mz_ppart.specs.WordLists.{first_of, notations};
ghost use Rattle.mz_ppart.specs.Forms.{block_let_form, notation_form, notation_word_form, notation_parts_form, notation_part_form, other_from, other_pattern_form, synonym_form};
ghost use Rattle.std.specs.Prelude.{◌≡◌, ℕ};

use mz_base::place::Place;
use mz_base::token::MarkedToken;
use mz_forms::refusal::Refusal;
use mz_pjustification::keyword::Keyword;
use mz_pjustification::words::expect_key;
use mz_ppattern::patterns::pattern;
use mz_ppattern::words::{expect_word, is_word};
use mz_pterm::reader::Reader;
use mz_pterm::sign::Sign;
use mz_ptype::declarations::declarations;
use mz_tree::expressions::DeclarationsTree;
use mz_tree::lists::Trees;
use mz_tree_heading::patterns::PatternTree;
use mz_tree_part::notation::{BlockLetTree, NotationPartTree, NotationTree};
use mz_tree_part::words::NotationWord;

/// The loci of a block: `let` and declarations.
pub fn block_let(reader: &mut Reader<'_>, room: usize) -> Result<BlockLetTree, Refusal>
    ensures { Reads block_let_form room plainly reader.old.rest.now result reader.new.rest.now }
{
    let let_ = expect_key(reader, Keyword::Let)?;
    let node = declarations(reader, false, room)?;
    let semicolon = expect_key(reader, Keyword::Semicolon)?;
    let declarations = DeclarationsTree::from_node(node);
    Ok(BlockLetTree {
        let_,
        declarations,
        semicolon,
    })
}

/// Whether `let` comes next.
pub fn let_comes(reader: &Reader<'_>) -> bool
    ensures { result ≡ next_has begins_let reader.now.rest.now }
{
    let Some((next, _)) = reader.rest.split_first() else {
        return false;
    };
    matches!(Keyword::of(next), Keyword::Let)
}

/// The word of a notation that the token is.
fn notation_of(marked: &MarkedToken) -> Option<NotationWord>
    ensures { result ≡ first_of notation_word notations marked.now }
{
    if is_word(marked, b"synonym") {
        Some(NotationWord::Synonym)
    } else if is_word(marked, b"antonym") {
        Some(NotationWord::Antonym)
    } else {
        None
    }
}

/// The word of a notation, with its place.
fn expect_notation(reader: &mut Reader<'_>) -> Result<(NotationWord, Place), Refusal>
    ensures { (room : ℕ) → Reads notation_word_form room plainly reader.old.rest.now result reader.new.rest.now }
{
    let Some((next, rest)) = reader.rest.split_first() else {
        return Err(Refusal::Refused);
    };
    match notation_of(next) {
        Some(word) => {
            reader.rest = rest;
            Ok((word, next.token.place))
        }
        None => Err(Refusal::Refused),
    }
}

/// `for`, the other pattern of a notation and the semicolon.
fn other_pattern(
    reader: &mut Reader<'_>,
    room: usize,
) -> Result<(Place, PatternTree, Place), Refusal>
    ensures { Reads other_pattern_form room other_from reader.old.rest.now result reader.new.rest.now }
{
    let for_ = reader.expect(Sign::For)?;
    let second = pattern(reader, room)?;
    let semicolon = expect_key(reader, Keyword::Semicolon)?;
    Ok((for_, second, semicolon))
}

/// A synonym or an antonym.
fn synonym(reader: &mut Reader<'_>, room: usize) -> Result<NotationPartTree, Refusal>
    ensures { Reads synonym_form room plainly reader.old.rest.now result reader.new.rest.now }
{
    let (word, place) = expect_notation(reader)?;
    let first = pattern(reader, room)?;
    let (for_, second, semicolon) = other_pattern(reader, room)?;
    Ok(NotationPartTree::Notation {
        place,
        word,
        first,
        for_,
        second,
        semicolon,
    })
}

/// A part of a block of notations.
fn notation_part(reader: &mut Reader<'_>, room: usize) -> Result<NotationPartTree, Refusal>
    ensures { Reads notation_part_form room plainly reader.old.rest.now result reader.new.rest.now }
{
    if let_comes(reader) {
        let loci = block_let(reader, room)?;
        return Ok(NotationPartTree::Let(loci));
    }
    synonym(reader, room)
}

/// Whether a part of a block of notations begins with the next token.
fn notation_part_comes(reader: &Reader<'_>) -> bool
    ensures { result ≡ next_has begins_notation_part reader.now.rest.now }
{
    let Some((next, _)) = reader.rest.split_first() else {
        return false;
    };
    if notation_of(next).is_some() {
        return true;
    }
    matches!(Keyword::of(next), Keyword::Let)
}

/// Any number of parts of a block of notations.
fn notation_parts(reader: &mut Reader<'_>, room: usize) -> Result<Trees<NotationPartTree>, Refusal>
    ensures { Reads notation_parts_form room plainly reader.old.rest.now result reader.new.rest.now }
{
    let mut items = Vec::new(reader.alloc);
    'list: while notation_part_comes(reader) {
        let next = notation_part(reader, room)?;
        items.push(next)?;
    }
    Ok(Trees { items })
}

/// A block of notations.
pub fn notation(reader: &mut Reader<'_>, room: usize) -> Result<NotationTree, Refusal>
    ensures { Reads notation_form room plainly reader.old.rest.now result reader.new.rest.now }
{
    let notation = expect_word(reader, b"notation")?;
    let parts = notation_parts(reader, room)?;
    let end = expect_key(reader, Keyword::End)?;
    let semicolon = expect_key(reader, Keyword::Semicolon)?;
    Ok(NotationTree {
        notation,
        parts,
        end,
        semicolon,
    })
}
