//! Labels of definientia, `means` and `equals`.
ghost use Rattle.std.specs.Prelude.{◌≡◌, ℕ};
ghost use Rattle.mz_forms.specs.Reading.{Reads};
ghost use Rattle.mz_ppattern.specs.Optional.{next_has, plainly};
ghost use Rattle.mz_pmeaning.specs.Classes.{begins_label, begins_meaning, begins_means};
ghost use Rattle.mz_pmeaning.specs.MeaningForms.{definition_label_form, equals_form, meaning_form, means_form, optional_label, optional_meaning, optional_means};

use crate::cases::{equals_cases, means_cases};
use mz_forms::refusal::Refusal;
use mz_pjustification::keyword::Keyword;
use mz_pjustification::words::expect_key;
use mz_ppattern::words::{expect_word, is_word};
use mz_pterm::reader::Reader;
use mz_pterm::sign::Sign;
use mz_tree_heading::meaning::{DefinitionLabelTree, MeaningTree};

/// The label of a definiens, between colons.
fn label(reader: &mut Reader<'_>) -> Result<DefinitionLabelTree, Refusal>
    ensures { (room : ℕ) → Reads definition_label_form room plainly reader.old.rest.now result reader.new.rest.now }
{
    let left = expect_key(reader, Keyword::Colon)?;
    let name = reader.expect_name(Sign::Identifier)?;
    let right = expect_key(reader, Keyword::Colon)?;
    Ok(DefinitionLabelTree { left, name, right })
}

/// Whether `:` comes next.
fn label_comes(reader: &Reader<'_>) -> bool
    ensures { result ≡ next_has begins_label reader.now.rest.now }
{
    let Some((next, _)) = reader.rest.split_first() else {
        return false;
    };
    matches!(Keyword::of(next), Keyword::Colon)
}

/// A label, or nothing.
fn maybe_label(reader: &mut Reader<'_>) -> Result<Option<DefinitionLabelTree>, Refusal>
    ensures { (room : ℕ) → Reads optional_label room plainly reader.old.rest.now result reader.new.rest.now }
{
    if !label_comes(reader) {
        return Ok(None);
    }
    let label = label(reader)?;
    Ok(Some(label))
}

/// `means`, a label or none, and formulas.
pub fn means(reader: &mut Reader<'_>, room: usize) -> Result<MeaningTree, Refusal>
    ensures { Reads means_form room plainly reader.old.rest.now result reader.new.rest.now }
{
    let means = expect_key(reader, Keyword::Means)?;
    let label = maybe_label(reader)?;
    let cases = means_cases(reader, room)?;
    Ok(MeaningTree::Means {
        means,
        label,
        cases,
    })
}

/// `equals`, a label or none, and terms.
fn equals(reader: &mut Reader<'_>, room: usize) -> Result<MeaningTree, Refusal>
    ensures { Reads equals_form room plainly reader.old.rest.now result reader.new.rest.now }
{
    let equals = expect_word(reader, b"equals")?;
    let label = maybe_label(reader)?;
    let cases = equals_cases(reader, room)?;
    Ok(MeaningTree::Equals {
        equals,
        label,
        cases,
    })
}

/// Whether `means` comes next.
fn means_comes(reader: &Reader<'_>) -> bool
    ensures { result ≡ next_has begins_means reader.now.rest.now }
{
    let Some((next, _)) = reader.rest.split_first() else {
        return false;
    };
    matches!(Keyword::of(next), Keyword::Means)
}

/// Whether `means` or `equals` comes next.
fn meaning_comes(reader: &Reader<'_>) -> bool
    ensures { result ≡ next_has begins_meaning reader.now.rest.now }
{
    let Some((next, _)) = reader.rest.split_first() else {
        return false;
    };
    if is_word(next, b"equals") {
        return true;
    }
    matches!(Keyword::of(next), Keyword::Means)
}

/// What the definition of a functor says of it.
pub fn meaning(reader: &mut Reader<'_>, room: usize) -> Result<MeaningTree, Refusal>
    ensures { Reads meaning_form room plainly reader.old.rest.now result reader.new.rest.now }
{
    if means_comes(reader) {
        return means(reader, room);
    }
    equals(reader, room)
}

/// `means` and what stands behind it, or nothing.
pub fn maybe_means(reader: &mut Reader<'_>, room: usize) -> Result<Option<MeaningTree>, Refusal>
    ensures { Reads optional_means room plainly reader.old.rest.now result reader.new.rest.now }
{
    if !means_comes(reader) {
        return Ok(None);
    }
    let meaning = means(reader, room)?;
    Ok(Some(meaning))
}

/// `means` or `equals` and what stands behind it, or nothing.
pub fn maybe_meaning(reader: &mut Reader<'_>, room: usize) -> Result<Option<MeaningTree>, Refusal>
    ensures { Reads optional_meaning room plainly reader.old.rest.now result reader.new.rest.now }
{
    if !meaning_comes(reader) {
        return Ok(None);
    }
    let meaning = meaning(reader, room)?;
    Ok(Some(meaning))
}
