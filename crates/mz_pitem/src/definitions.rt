//! Blocks of definitions.
ghost use Rattle.std.specs.Prelude.{◌≡◌};
ghost use Rattle.mz_forms.specs.Reading.{Reads};
ghost use Rattle.mz_ppattern.specs.Optional.{next_has, plainly};
ghost use Rattle.mz_pitem.specs.Classes.{begins_definition_part, is_due};
ghost use Rattle.mz_pitem.specs.Forms.{definition_form, definition_part_form, definition_parts_form, headed_form, paired, ReadsBehindHeading};

use mz_forms::refusal::Refusal;
use mz_pblock::conditions::owed;
use mz_pheading::headings::{heading, heading_comes};
use mz_pjustification::keyword::Keyword;
use mz_pjustification::words::expect_key;
use mz_ppart::notations::{block_let, let_comes};
use mz_ppattern::words::expect_word;
use mz_pterm::reader::Reader;
use mz_tree::lists::Trees;
use mz_tree_heading::heading::HeadingTree;
use mz_tree_item::definition::{DefinitionPartTree, DefinitionTree};

/// Whether a property has to follow: behind a redefinition of a functor or a predicate with neither type nor meaning.
fn is_due(heading: &HeadingTree) -> bool
    ensures { result ≡ is_due heading.now }
{
    match heading {
        HeadingTree::RedefinedFunctor { heading, .. } => {
            heading.result.is_none() && heading.meaning.is_none()
        }
        HeadingTree::RedefinedPredicate { heading, .. } => heading.meaning.is_none(),
        HeadingTree::Functor(_) => false,
        HeadingTree::Predicate(_) => false,
        HeadingTree::Attribute(_) => false,
        HeadingTree::Mode(_) => false,
        HeadingTree::Abbreviation(_) => false,
        HeadingTree::Structure(_) => false,
        HeadingTree::RedefinedAttribute { .. } => false,
        HeadingTree::RedefinedMode { .. } => false,
    }
}

/// Both, where there is a second. So none is held by its parts while the other one is missed.
fn paired<A: Drop, B: Drop>(first: A, second: Result<B, Refusal>) -> Result<(A, B), Refusal>
    ensures { result ≡ paired first second }
{
    match second {
        Ok(second) => Ok((first, second)),
        Err(refusal) => Err(refusal),
    }
}

/// This heading with the conditions and properties that stand behind it.
fn behind_heading(
    reader: &mut Reader<'_>,
    heading: HeadingTree,
    room: usize,
) -> Result<DefinitionPartTree, Refusal>
    ensures { ReadsBehindHeading room heading reader.old.rest.now result reader.new.rest.now }
{
    let conditions = owed(reader, is_due(&heading), room);
    let (heading, conditions) = paired(heading, conditions)?;
    Ok(DefinitionPartTree::Heading {
        heading,
        conditions,
    })
}

/// A heading with its conditions and properties.
fn headed(reader: &mut Reader<'_>, room: usize) -> Result<DefinitionPartTree, Refusal>
    ensures { Reads headed_form room plainly reader.old.rest.now result reader.new.rest.now }
{
    let heading = heading(reader, room)?;
    behind_heading(reader, heading, room)
}

/// A part of a block of definitions: loci, or a heading with its conditions and properties.
fn definition_part(reader: &mut Reader<'_>, room: usize) -> Result<DefinitionPartTree, Refusal>
    ensures { Reads definition_part_form room plainly reader.old.rest.now result reader.new.rest.now }
{
    if let_comes(reader) {
        let loci = block_let(reader, room)?;
        return Ok(DefinitionPartTree::Let(loci));
    }
    headed(reader, room)
}

/// Whether a part of a block of definitions begins with the next token.
fn definition_part_comes(reader: &Reader<'_>) -> bool
    ensures { result ≡ next_has begins_definition_part reader.now.rest.now }
{
    if heading_comes(reader).is_some() {
        return true;
    }
    let_comes(reader)
}

/// Any number of parts of a block of definitions.
fn definition_parts(
    reader: &mut Reader<'_>,
    room: usize,
) -> Result<Trees<DefinitionPartTree>, Refusal>
    ensures { Reads definition_parts_form room plainly reader.old.rest.now result reader.new.rest.now }
{
    let mut items = Vec::new(reader.alloc);
    'list: while definition_part_comes(reader) {
        let next = definition_part(reader, room)?;
        items.push(next)?;
    }
    Ok(Trees { items })
}

/// A block of definitions.
pub fn definition(reader: &mut Reader<'_>, room: usize) -> Result<DefinitionTree, Refusal>
    ensures { Reads definition_form room plainly reader.old.rest.now result reader.new.rest.now }
{
    let definition = expect_word(reader, b"definition")?;
    let parts = definition_parts(reader, room)?;
    let end = expect_key(reader, Keyword::End)?;
    let semicolon = expect_key(reader, Keyword::Semicolon)?;
    Ok(DefinitionTree {
        definition,
        parts,
        end,
        semicolon,
    })
}
