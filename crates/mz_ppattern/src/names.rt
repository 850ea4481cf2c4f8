//! Identifiers and selectors, with commas between them.
ghost use Rattle.std.specs.Prelude.{ℕ};
ghost use Rattle.mz_forms.specs.Reading.{Reads};
ghost use Rattle.mz_ppattern.specs.Optional.{plainly};
ghost use Rattle.mz_ppattern.specs.Forms.{identifier_form, identifiers_form, selector_form, selectors_form};

use mz_forms::refusal::Refusal;
use mz_pterm::reader::Reader;
use mz_pterm::sign::Sign;
use mz_ptype::declarations::takes_comma;
use mz_tree::chain::Next;
use mz_tree::lists::{Separated, Trees};
use mz_tree_heading::patterns::IdentifierTree;
use mz_tree_heading::structure::SelectorTree;

/// An identifier.
pub fn identifier(reader: &mut Reader<'_>) -> Result<IdentifierTree, Refusal>
    ensures { (room : ℕ) → Reads identifier_form room plainly reader.old.rest.now result reader.new.rest.now }
{
    let name = reader.expect_name(Sign::Identifier)?;
    Ok(IdentifierTree { name })
}

/// A selector.
pub fn selector(reader: &mut Reader<'_>) -> Result<SelectorTree, Refusal>
    ensures { (room : ℕ) → Reads selector_form room plainly reader.old.rest.now result reader.new.rest.now }
{
    let symbol = reader.expect_name(Sign::Selector)?;
    Ok(SelectorTree { symbol })
}

/// Identifiers with commas between them, of either mark.
pub fn identifiers(reader: &mut Reader<'_>) -> Result<Separated<IdentifierTree>, Refusal>
    ensures { (room : ℕ) → Reads identifiers_form room plainly reader.old.rest.now result reader.new.rest.now }
{
    let first = identifier(reader)?;
    let mut items = Vec::new(reader.alloc);
    'more: while let Some(sign) = takes_comma(reader, false) {
        let tree = identifier(reader)?;
        items.push(Next { sign, tree })?;
    }
    let more = Trees { items };
    Ok(Separated { first, more })
}

/// Selectors with commas between them, of either mark.
pub fn selectors(reader: &mut Reader<'_>) -> Result<Separated<SelectorTree>, Refusal>
    ensures { (room : ℕ) → Reads selectors_form room plainly reader.old.rest.now result reader.new.rest.now }
{
    let first = selector(reader)?;
    let mut items = Vec::new(reader.alloc);
    'more: while let Some(sign) = takes_comma(reader, false) {
        let tree = selector(reader)?;
        items.push(Next { sign, tree })?;
    }
    let more = Trees { items };
    Ok(Separated { first, more })
}
