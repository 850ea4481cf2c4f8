//! Headings of modes, and the type of what a heading defines.
ghost use Rattle.std.specs.Prelude.{◌≡◌};
ghost use Rattle.mz_forms.specs.Reading.{Reads};
ghost use Rattle.mz_ppattern.specs.Optional.{plainly};
ghost use Rattle.mz_pheading.specs.ModeForms.{mode_form, mode_meaning, optional_result, redefined_mode_form, result_form, ReadsModeRest};

use mz_base::place::Place;
use mz_forms::refusal::Refusal;
use mz_pjustification::keyword::Keyword;
use mz_pjustification::words::expect_key;
use mz_pmeaning::meanings::{maybe_means, means};
use mz_ppattern::patterns::mode_pattern;
use mz_ppattern::words::{arrow_comes, expect_arrow, expect_word};
use mz_pterm::reader::Reader;
use mz_pterm::sign::Sign;
use mz_ptype::types::whole_type;
use mz_tree::expressions::TypeTree;
use mz_tree_heading::heading::{AbbreviationTree, HeadingTree, ModeHeadingTree, ResultTree};
use mz_tree_heading::meaning::MeaningTree;
use mz_tree_heading::patterns::ModePatternTree;

/// `->` and a type.
fn result(reader: &mut Reader<'_>, room: usize) -> Result<ResultTree, Refusal>
    ensures { Reads result_form room plainly reader.old.rest.now result reader.new.rest.now }
{
    let arrow = expect_arrow(reader)?;
    let node = whole_type(reader, false, room)?;
    let ty = TypeTree::from_node(node);
    Ok(ResultTree { arrow, ty })
}

/// `->` and a type, or nothing.
pub fn maybe_result(reader: &mut Reader<'_>, room: usize) -> Result<Option<ResultTree>, Refusal>
    ensures { Reads optional_result room plainly reader.old.rest.now result reader.new.rest.now }
{
    if !arrow_comes(reader) {
        return Ok(None);
    }
    let result = result(reader, room)?;
    Ok(Some(result))
}

/// What stands behind the pattern of a mode: `is` and a type, or a type or none and what the mode means.
fn mode_rest(
    reader: &mut Reader<'_>,
    mode: Place,
    pattern: ModePatternTree,
    room: usize,
) -> Result<HeadingTree, Refusal>
    ensures { ReadsModeRest room mode pattern reader.old.rest.now result reader.new.rest.now }
{
    if let Some(is) = reader.takes(Sign::Is) {
        let node = whole_type(reader, false, room)?;
        let semicolon = expect_key(reader, Keyword::Semicolon)?;
        let ty = TypeTree::from_node(node);
        return Ok(HeadingTree::Abbreviation(AbbreviationTree {
            mode,
            pattern,
            is,
            ty,
            semicolon,
        }));
    }
    let result = maybe_result(reader, room)?;
    let meaning = means(reader, room)?;
    let semicolon = expect_key(reader, Keyword::Semicolon)?;
    Ok(HeadingTree::Mode(ModeHeadingTree {
        mode,
        pattern,
        result,
        meaning,
        semicolon,
    }))
}

/// The heading of a mode: a definition or an abbreviation.
pub fn mode(reader: &mut Reader<'_>, room: usize) -> Result<HeadingTree, Refusal>
    ensures { Reads mode_form room plainly reader.old.rest.now result reader.new.rest.now }
{
    let mode = expect_word(reader, b"mode")?;
    let pattern = mode_pattern(reader, room)?;
    mode_rest(reader, mode, pattern, room)
}

/// What a redefinition of a mode means, which may be left out where the type is written.
fn mode_meaning(
    reader: &mut Reader<'_>,
    typed: bool,
    room: usize,
) -> Result<Option<MeaningTree>, Refusal>
    ensures { Reads (mode_meaning typed) room plainly reader.old.rest.now result reader.new.rest.now }
{
    if typed {
        return maybe_means(reader, room);
    }
    let meaning = means(reader, room)?;
    Ok(Some(meaning))
}

/// The heading of a redefinition of a mode, with a type or a meaning.
pub fn redefined_mode(
    reader: &mut Reader<'_>,
    room: usize,
) -> Result<ModeHeadingTree<Option<MeaningTree>>, Refusal>
    ensures { Reads redefined_mode_form room plainly reader.old.rest.now result reader.new.rest.now }
{
    let mode = expect_word(reader, b"mode")?;
    let pattern = mode_pattern(reader, room)?;
    let result = maybe_result(reader, room)?;
    let meaning = mode_meaning(reader, result.is_some(), room)?;
    let semicolon = expect_key(reader, Keyword::Semicolon)?;
    Ok(ModeHeadingTree {
        mode,
        pattern,
        result,
        meaning,
        semicolon,
    })
}
