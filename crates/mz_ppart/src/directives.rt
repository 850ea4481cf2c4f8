//! Directives.
ghost use Rattle.std.specs.Prelude.{◌≡◌, ℕ};
ghost use Rattle.mz_forms.specs.Reading.{Reads};
ghost use Rattle.mz_base.specs.Name.{is_name};
ghost use Rattle.mz_ppattern.specs.Optional.{next_has, plainly};
ghost use Rattle.mz_ppart.specs.Classes.{spells_name};
ghost use Rattle.mz_tree_part.specs.Keywords.{directive_word};
ghost use Rattle.mz_ppart.specs.WordLists.{directives, first_of};
ghost use Rattle.mz_ppart.specs.Forms.{article_name_form, article_names_form, directive_form, directive_word_form};

use mz_base::name::Name;
use mz_base::place::Place;
use mz_base::token::MarkedToken;
use mz_forms::refusal::Refusal;
use mz_pjustification::keyword::Keyword;
use mz_pjustification::words::expect_key;
use mz_ppattern::words::is_word;
use mz_pterm::reader::Reader;
use mz_pterm::sign::Sign;
use mz_ptype::declarations::takes_comma;
use mz_tree::chain::Next;
use mz_tree::lists::{Separated, Trees};
use mz_tree_heading::patterns::IdentifierTree;
use mz_tree_part::directive::DirectiveTree;
use mz_tree_part::words::DirectiveWord;

/// The word of a directive that the token is. Those of a later stage of the language are none yet.
pub fn directive_of(marked: &MarkedToken) -> Option<DirectiveWord>
    ensures { result ≡ first_of directive_word directives marked.now }
{
    if is_word(marked, b"vocabularies") {
        Some(DirectiveWord::Vocabularies)
    } else if is_word(marked, b"notations") {
        Some(DirectiveWord::Notations)
    } else if is_word(marked, b"constructors") {
        Some(DirectiveWord::Constructors)
    } else if is_word(marked, b"registrations") {
        Some(DirectiveWord::Registrations)
    } else if is_word(marked, b"definitions") {
        Some(DirectiveWord::Definitions)
    } else if is_word(marked, b"theorems") {
        Some(DirectiveWord::Theorems)
    } else if is_word(marked, b"schemes") {
        Some(DirectiveWord::Schemes)
    } else if is_word(marked, b"requirements") {
        Some(DirectiveWord::Requirements)
    } else {
        None
    }
}

/// The word of a directive, with its place.
fn expect_directive(reader: &mut Reader<'_>) -> Result<(DirectiveWord, Place), Refusal>
    ensures { (room : ℕ) → Reads directive_word_form room plainly reader.old.rest.now result reader.new.rest.now }
{
    let Some((next, rest)) = reader.rest.split_first() else {
        return Err(Refusal::Refused);
    };
    match directive_of(next) {
        Some(word) => {
            reader.rest = rest;
            Ok((word, next.token.place))
        }
        None => Err(Refusal::Refused),
    }
}

/// Whether the word is the name of an article.
fn names_article(word: &[u8]) -> bool
    ensures { result ≡ is_name word.now }
{
    match Name::read(word) {
        Ok(_) => true,
        Err(_) => false,
    }
}

/// Whether a word that is the name of an article comes next.
fn name_comes(reader: &Reader<'_>) -> bool
    ensures { result ≡ next_has spells_name reader.now.rest.now }
{
    let Some((next, _)) = reader.rest.split_first() else {
        return false;
    };
    names_article(next.token.spelling.as_slice())
}

/// An identifier that is the name of an article.
fn article_name(reader: &mut Reader<'_>) -> Result<IdentifierTree, Refusal>
    ensures { (room : ℕ) → Reads article_name_form room plainly reader.old.rest.now result reader.new.rest.now }
{
    if !name_comes(reader) {
        return Err(Refusal::Refused);
    }
    let name = reader.expect_name(Sign::Identifier)?;
    Ok(IdentifierTree { name })
}

/// Names of articles with commas between them, of either mark.
fn article_names(reader: &mut Reader<'_>) -> Result<Separated<IdentifierTree>, Refusal>
    ensures { (room : ℕ) → Reads article_names_form room plainly reader.old.rest.now result reader.new.rest.now }
{
    let first = article_name(reader)?;
    let mut items = Vec::new(reader.alloc);
    'more: while let Some(sign) = takes_comma(reader, false) {
        let tree = article_name(reader)?;
        items.push(Next { sign, tree })?;
    }
    let more = Trees { items };
    Ok(Separated { first, more })
}

/// A directive.
pub fn directive(reader: &mut Reader<'_>) -> Result<DirectiveTree, Refusal>
    ensures { (room : ℕ) → Reads directive_form room plainly reader.old.rest.now result reader.new.rest.now }
{
    let (word, place) = expect_directive(reader)?;
    let names = article_names(reader)?;
    let semicolon = expect_key(reader, Keyword::Semicolon)?;
    Ok(DirectiveTree {
        place,
        word,
        names,
        semicolon,
    })
}
