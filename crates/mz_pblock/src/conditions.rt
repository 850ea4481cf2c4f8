//! Conditions and properties.
ghost use Rattle.std.specs.Prelude.{◌≡◌};
ghost use Rattle.mz_forms.specs.Reading.{Reads};
ghost use Rattle.mz_ppattern.specs.Optional.{next_has, plainly};
ghost use Rattle.mz_pblock.specs.Classes.{begins_either};
ghost use Rattle.mz_pblock.specs.Forms.{condition_form, conditions_form, either_form, is_property, owed_form, property_form};

use crate::words::{condition_comes, expect_condition, expect_property, property_comes};
use mz_forms::refusal::Refusal;
use mz_pjustification::keyword::Keyword;
use mz_pjustification::words::expect_key;
use mz_pproof::reasonings::justification;
use mz_pterm::reader::Reader;
use mz_tree::lists::Trees;
use mz_tree_item::definition::{ConditionOrPropertyTree, ConditionTree, PropertyTree};

/// A condition with its justification.
pub fn condition(reader: &mut Reader<'_>, room: usize) -> Result<ConditionTree, Refusal>
    ensures { Reads condition_form room plainly reader.old.rest.now result reader.new.rest.now }
{
    let (word, place) = expect_condition(reader)?;
    let just = justification(reader, room)?;
    let semicolon = expect_key(reader, Keyword::Semicolon)?;
    Ok(ConditionTree {
        place,
        word,
        just,
        semicolon,
    })
}

/// A property with its justification.
pub fn property(reader: &mut Reader<'_>, room: usize) -> Result<PropertyTree, Refusal>
    ensures { Reads property_form room plainly reader.old.rest.now result reader.new.rest.now }
{
    let (word, place) = expect_property(reader)?;
    let just = justification(reader, room)?;
    let semicolon = expect_key(reader, Keyword::Semicolon)?;
    Ok(PropertyTree {
        place,
        word,
        just,
        semicolon,
    })
}

/// Any number of conditions.
pub fn conditions(reader: &mut Reader<'_>, room: usize) -> Result<Trees<ConditionTree>, Refusal>
    ensures { Reads conditions_form room plainly reader.old.rest.now result reader.new.rest.now }
{
    let mut items = Vec::new(reader.alloc);
    'list: while condition_comes(reader) {
        let next = condition(reader, room)?;
        items.push(next)?;
    }
    Ok(Trees { items })
}

/// A condition or a property.
fn either(reader: &mut Reader<'_>, room: usize) -> Result<ConditionOrPropertyTree, Refusal>
    ensures { Reads either_form room plainly reader.old.rest.now result reader.new.rest.now }
{
    if property_comes(reader) {
        let property = property(reader, room)?;
        return Ok(ConditionOrPropertyTree::Property(property));
    }
    let condition = condition(reader, room)?;
    Ok(ConditionOrPropertyTree::Condition(condition))
}

/// Whether it is a property.
fn is_property(tree: &ConditionOrPropertyTree) -> bool
    ensures { result ≡ is_property tree.now }
{
    matches!(tree, ConditionOrPropertyTree::Property(_))
}

/// Whether a condition or a property begins with the next token.
fn either_comes(reader: &Reader<'_>) -> bool
    ensures { result ≡ next_has begins_either reader.now.rest.now }
{
    if property_comes(reader) {
        return true;
    }
    condition_comes(reader)
}

/// Conditions and properties behind a heading. `due` says whether a property has to be among them.
pub fn owed(
    reader: &mut Reader<'_>,
    due: bool,
    room: usize,
) -> Result<Trees<ConditionOrPropertyTree>, Refusal>
    ensures { Reads (owed_form due) room plainly reader.old.rest.now result reader.new.rest.now }
{
    let mut items = Vec::new(reader.alloc);
    let mut still_due = due;
    'list: while either_comes(reader) {
        let next = either(reader, room)?;
        if is_property(&next) {
            still_due = false;
        }
        items.push(next)?;
    }
    if still_due {
        return Err(Refusal::Refused);
    }
    Ok(Trees { items })
}
