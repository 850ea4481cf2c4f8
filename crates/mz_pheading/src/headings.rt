//! Headings of definitions.
ghost use Rattle.std.specs.Prelude.{◌≡◌};
ghost use Rattle.mz_forms.specs.Parse.{OneTree};
ghost use Rattle.mz_forms.specs.Reading.{Reads};
ghost use Rattle.mz_ppart.specs.WordLists.{first_of};
ghost use Rattle.mz_ppattern.specs.Optional.{plainly};
ghost use Rattle.mz_pheading.specs.Classes.{heading_next, heading_word, headings};
ghost use Rattle.mz_pmeaning.specs.MeaningForms.{meaning_form, means_form, optional_meaning, optional_means};
ghost use Rattle.mz_pheading.specs.HeadingForms.{attribute_heading_form, functor_heading_form, heading_form, predicate_heading_form, redefined_form};
ghost use Rattle.mz_pheading.specs.ModeForms.{stated};

use crate::modes::{maybe_result, mode, redefined_mode};
use mz_base::token::MarkedToken;
use mz_forms::refusal::Refusal;
use mz_pjustification::keyword::Keyword;
use mz_pjustification::words::expect_key;
use mz_pmeaning::meanings::{maybe_meaning, maybe_means, meaning, means};
use mz_ppart::structures::structure;
use mz_ppattern::patterns::{attribute_pattern, functor_pattern, predicate_pattern};
use mz_ppattern::words::{expect_word, is_word};
use mz_pterm::reader::Reader;
use mz_tree_heading::heading::{
    AttributeHeadingTree, FunctorHeadingTree, HeadingTree, PredicateHeadingTree,
};
use mz_tree_heading::meaning::MeaningTree;

/// The heading of a functor.
fn functor(reader: &mut Reader<'_>, room: usize) -> Result<FunctorHeadingTree<MeaningTree>, Refusal>
    ensures { Reads (functor_heading_form meaning_form) room plainly reader.old.rest.now result reader.new.rest.now }
{
    let func = expect_word(reader, b"func")?;
    let pattern = functor_pattern(reader, room)?;
    let result = maybe_result(reader, room)?;
    let meaning = meaning(reader, room)?;
    let semicolon = expect_key(reader, Keyword::Semicolon)?;
    Ok(FunctorHeadingTree {
        func,
        pattern,
        result,
        meaning,
        semicolon,
    })
}

/// The heading of a redefinition of a functor.
fn redefined_functor(
    reader: &mut Reader<'_>,
    room: usize,
) -> Result<FunctorHeadingTree<Option<MeaningTree>>, Refusal>
    ensures { Reads (functor_heading_form optional_meaning) room plainly reader.old.rest.now result reader.new.rest.now }
{
    let func = expect_word(reader, b"func")?;
    let pattern = functor_pattern(reader, room)?;
    let result = maybe_result(reader, room)?;
    let meaning = maybe_meaning(reader, room)?;
    let semicolon = expect_key(reader, Keyword::Semicolon)?;
    Ok(FunctorHeadingTree {
        func,
        pattern,
        result,
        meaning,
        semicolon,
    })
}

/// The heading of a predicate.
fn predicate(
    reader: &mut Reader<'_>,
    room: usize,
) -> Result<PredicateHeadingTree<MeaningTree>, Refusal>
    ensures { Reads (predicate_heading_form means_form) room plainly reader.old.rest.now result reader.new.rest.now }
{
    let pred = expect_word(reader, b"pred")?;
    let pattern = predicate_pattern(reader, room)?;
    let meaning = means(reader, room)?;
    let semicolon = expect_key(reader, Keyword::Semicolon)?;
    Ok(PredicateHeadingTree {
        pred,
        pattern,
        meaning,
        semicolon,
    })
}

/// The heading of a redefinition of a predicate.
fn redefined_predicate(
    reader: &mut Reader<'_>,
    room: usize,
) -> Result<PredicateHeadingTree<Option<MeaningTree>>, Refusal>
    ensures { Reads (predicate_heading_form optional_means) room plainly reader.old.rest.now result reader.new.rest.now }
{
    let pred = expect_word(reader, b"pred")?;
    let pattern = predicate_pattern(reader, room)?;
    let meaning = maybe_means(reader, room)?;
    let semicolon = expect_key(reader, Keyword::Semicolon)?;
    Ok(PredicateHeadingTree {
        pred,
        pattern,
        meaning,
        semicolon,
    })
}

/// The heading of an attribute.
fn attribute(
    reader: &mut Reader<'_>,
    room: usize,
) -> Result<AttributeHeadingTree<MeaningTree>, Refusal>
    ensures { Reads (attribute_heading_form means_form) room plainly reader.old.rest.now result reader.new.rest.now }
{
    let attr = expect_word(reader, b"attr")?;
    let pattern = attribute_pattern(reader, room)?;
    let meaning = means(reader, room)?;
    let semicolon = expect_key(reader, Keyword::Semicolon)?;
    Ok(AttributeHeadingTree {
        attr,
        pattern,
        meaning,
        semicolon,
    })
}

/// The heading of a redefinition of an attribute, which has a meaning.
fn redefined_attribute(
    reader: &mut Reader<'_>,
    room: usize,
) -> Result<AttributeHeadingTree<Option<MeaningTree>>, Refusal>
    ensures { Reads (attribute_heading_form (stated means_form)) room plainly reader.old.rest.now result reader.new.rest.now }
{
    let attr = expect_word(reader, b"attr")?;
    let pattern = attribute_pattern(reader, room)?;
    let meaning = means(reader, room)?;
    let semicolon = expect_key(reader, Keyword::Semicolon)?;
    Ok(AttributeHeadingTree {
        attr,
        pattern,
        meaning: Some(meaning),
        semicolon,
    })
}

/// The word that a heading begins with.
#[derive(Clone, Copy, Debug, PartialEq, Eq)]
pub enum HeadingWord {
    Func,
    Pred,
    Attr,
    Mode,
    Struct,
    Redefine,
}

/// The word of a heading that the token is.
fn heading_of(marked: &MarkedToken) -> Option<HeadingWord>
    ensures { result ≡ first_of heading_word headings marked.now }
{
    if is_word(marked, b"func") {
        Some(HeadingWord::Func)
    } else if is_word(marked, b"pred") {
        Some(HeadingWord::Pred)
    } else if is_word(marked, b"attr") {
        Some(HeadingWord::Attr)
    } else if is_word(marked, b"mode") {
        Some(HeadingWord::Mode)
    } else if is_word(marked, b"struct") {
        Some(HeadingWord::Struct)
    } else if is_word(marked, b"redefine") {
        Some(HeadingWord::Redefine)
    } else {
        None
    }
}

/// The word of a heading that comes next.
pub fn heading_comes(reader: &Reader<'_>) -> Option<HeadingWord>
    ensures { result ≡ heading_next reader.now.rest.now }
{
    let Some((next, _)) = reader.rest.split_first() else {
        return None;
    };
    heading_of(next)
}

/// The heading of a redefinition.
fn redefinition(reader: &mut Reader<'_>, room: usize) -> Result<HeadingTree, Refusal>
    ensures { Reads redefined_form room plainly reader.old.rest.now result reader.new.rest.now }
{
    let redefine = expect_word(reader, b"redefine")?;
    let Some(word) = heading_comes(reader) else {
        return Err(Refusal::Refused);
    };
    match word {
        HeadingWord::Func => {
            let heading = redefined_functor(reader, room)?;
            Ok(HeadingTree::RedefinedFunctor { redefine, heading })
        }
        HeadingWord::Pred => {
            let heading = redefined_predicate(reader, room)?;
            Ok(HeadingTree::RedefinedPredicate { redefine, heading })
        }
        HeadingWord::Attr => {
            let heading = redefined_attribute(reader, room)?;
            Ok(HeadingTree::RedefinedAttribute { redefine, heading })
        }
        HeadingWord::Mode => {
            let heading = redefined_mode(reader, room)?;
            Ok(HeadingTree::RedefinedMode { redefine, heading })
        }
        HeadingWord::Struct => Err(Refusal::Refused),
        HeadingWord::Redefine => Err(Refusal::Refused),
    }
}

/// A heading of a definition. `room` says how many constructs may still be opened within one another.
pub fn heading(reader: &mut Reader<'_>, room: usize) -> Result<HeadingTree, Refusal>
    ensures { Reads heading_form room plainly reader.old.rest.now result reader.new.rest.now }
{
    let Some(word) = heading_comes(reader) else {
        return Err(Refusal::Refused);
    };
    match word {
        HeadingWord::Func => {
            let heading = functor(reader, room)?;
            Ok(HeadingTree::Functor(heading))
        }
        HeadingWord::Pred => {
            let heading = predicate(reader, room)?;
            Ok(HeadingTree::Predicate(heading))
        }
        HeadingWord::Attr => {
            let heading = attribute(reader, room)?;
            Ok(HeadingTree::Attribute(heading))
        }
        HeadingWord::Mode => mode(reader, room),
        HeadingWord::Struct => {
            let heading = structure(reader, room)?;
            Ok(HeadingTree::Structure(heading))
        }
        HeadingWord::Redefine => redefinition(reader, room),
    }
}

/// Two headings that spell the same tokens are equal, however deep they nest.
pub fn one_tree()
    ensures { OneTree heading_form }
{}
