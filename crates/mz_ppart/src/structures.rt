//! Structures.
ghost use Rattle.std.specs.Prelude.{◌≡◌, ◌<◌};
ghost use Rattle.mz_forms.specs.Reading.{Reads};
ghost use Rattle.mz_ppattern.specs.Optional.{next_has, plainly};
ghost use Rattle.mz_ppart.specs.Classes.{begins_ancestors, begins_structure_loci};
ghost use Rattle.mz_ppart.specs.StructureForms.{ancestors_form, fields_form, optional_ancestors, optional_structure_loci, structure_form, structure_loci_form, ReadsField};

use mz_forms::refusal::Refusal;
use mz_pjustification::keyword::Keyword;
use mz_pjustification::words::expect_key;
use mz_ppattern::names::{identifiers, selectors};
use mz_ppattern::words::{expect_arrow, expect_word};
use mz_pstep::lists::types;
use mz_pterm::reader::Reader;
use mz_pterm::sign::Sign;
use mz_ptype::declarations::{takes_comma, type_ends_in_terms};
use mz_ptype::types::whole_type;
use mz_tree::chain::Next;
use mz_tree::expressions::TypeTree;
use mz_tree::lists::{Separated, Trees};
use mz_tree_heading::structure::{AncestorsTree, FieldTree, StructureLociTree, StructureTree};

/// Selectors, `->` and their type, and whether a list of terms stands last in it.
fn field(reader: &mut Reader<'_>, room: usize) -> Result<(FieldTree, bool), Refusal>
    ensures { ReadsField room reader.old.rest.now result reader.new.rest.now }
{
    let selectors = selectors(reader)?;
    let arrow = expect_arrow(reader)?;
    let node = whole_type(reader, true, room)?;
    let behind_terms = type_ends_in_terms(&*node);
    let ty = TypeTree::from_node(node);
    Ok((
        FieldTree {
            selectors,
            arrow,
            ty,
        },
        behind_terms,
    ))
}

/// Fields with commas between them. Behind a list of terms only a dividing comma stands.
fn fields(reader: &mut Reader<'_>, room: usize) -> Result<Separated<FieldTree>, Refusal>
    ensures { Reads fields_form room plainly reader.old.rest.now result reader.new.rest.now }
{
    let (first, mut behind_terms) = field(reader, room)?;
    let mut items = Vec::new(reader.alloc);
    'more: while let Some(sign) = takes_comma(reader, behind_terms) {
        let (tree, now_behind) = field(reader, room)?;
        behind_terms = now_behind;
        items.push(Next { sign, tree })?;
    }
    let more = Trees { items };
    Ok(Separated { first, more })
}

/// Types in parentheses.
fn ancestors(reader: &mut Reader<'_>, room: usize) -> Result<AncestorsTree, Refusal>
    ensures { Reads ancestors_form room plainly reader.old.rest.now result reader.new.rest.now }
{
    let left = reader.opens(Sign::Open, room)?;
    let types = types(reader, room - 1)?;
    let right = reader.expect(Sign::Close)?;
    Ok(AncestorsTree { left, types, right })
}

/// Whether `(` comes next.
fn ancestors_come(reader: &Reader<'_>) -> bool
    ensures { result ≡ next_has begins_ancestors reader.now.rest.now }
{
    let Some((next, _)) = reader.rest.split_first() else {
        return false;
    };
    matches!(Sign::of(next), Sign::Open)
}

/// Types in parentheses, or nothing.
fn maybe_ancestors(reader: &mut Reader<'_>, room: usize) -> Result<Option<AncestorsTree>, Refusal>
    ensures { Reads optional_ancestors room plainly reader.old.rest.now result reader.new.rest.now }
{
    if !ancestors_come(reader) {
        return Ok(None);
    }
    let ancestors = ancestors(reader, room)?;
    Ok(Some(ancestors))
}

/// `over` and identifiers.
fn structure_loci(reader: &mut Reader<'_>, room: usize) -> Result<StructureLociTree, Refusal>
    ensures { Reads structure_loci_form room plainly reader.old.rest.now result reader.new.rest.now }
{
    let over = reader.expect(Sign::Over)?;
    let identifiers = identifiers(reader)?;
    Ok(StructureLociTree { over, identifiers })
}

/// Whether `over` comes next.
fn over_comes(reader: &Reader<'_>) -> bool
    ensures { result ≡ next_has begins_structure_loci reader.now.rest.now }
{
    let Some((next, _)) = reader.rest.split_first() else {
        return false;
    };
    matches!(Sign::of(next), Sign::Over)
}

/// `over` and identifiers, or nothing.
fn maybe_structure_loci(
    reader: &mut Reader<'_>,
    room: usize,
) -> Result<Option<StructureLociTree>, Refusal>
    ensures { Reads optional_structure_loci room plainly reader.old.rest.now result reader.new.rest.now }
{
    if !over_comes(reader) {
        return Ok(None);
    }
    let loci = structure_loci(reader, room)?;
    Ok(Some(loci))
}

/// The heading of a structure.
pub fn structure(reader: &mut Reader<'_>, room: usize) -> Result<StructureTree, Refusal>
    ensures { Reads structure_form room plainly reader.old.rest.now result reader.new.rest.now }
{
    let struct_ = expect_word(reader, b"struct")?;
    let ancestors = maybe_ancestors(reader, room)?;
    let symbol = reader.expect_name(Sign::Structure)?;
    let loci = maybe_structure_loci(reader, room)?;
    let left = reader.opens(Sign::OpenAggregate, room)?;
    let fields = fields(reader, room - 1)?;
    let right = reader.expect(Sign::CloseAggregate)?;
    let semicolon = expect_key(reader, Keyword::Semicolon)?;
    Ok(StructureTree {
        struct_,
        ancestors,
        symbol,
        loci,
        left,
        fields,
        right,
        semicolon,
    })
}
