//! Lists of what steps of a reasoning name.
ghost use Rattle.std.specs.Prelude.{◌≡◌};
ghost use Rattle.mz_forms.specs.Reading.{Reads};
ghost use Rattle.mz_pstep.specs.Forms.{
  named_terms_form,
  retypeds_form,
  same_named_terms,
  same_retypeds,
  same_takens,
  same_types,
  takens_form,
  types_form,
};

use crate::equalities::{named_term, retyped, taken};
use mz_forms::refusal::Refusal;
use mz_pterm::reader::Reader;
use mz_ptype::declarations::{takes_comma, type_ends_in_terms};
use mz_ptype::types::whole_type;
use mz_tree::chain::Next;
use mz_tree::expressions::TypeTree;
use mz_tree::lists::{Separated, Trees};
use mz_tree_proof::introduction::{NamedTermTree, RetypedTree};
use mz_tree_proof::skeleton::TakenTree;

/// Names for terms, with commas between them.
pub fn named_terms(
    reader: &mut Reader<'_>,
    room: usize,
) -> Result<Separated<NamedTermTree>, Refusal>
    ensures { Reads named_terms_form room same_named_terms reader.old.rest.now result reader.new.rest.now }
{
    let first = named_term(reader, room)?;
    let mut items = Vec::new(reader.alloc);
    'more: while let Some(sign) = takes_comma(reader, false) {
        let tree = named_term(reader, room)?;
        items.push(Next { sign, tree })?;
    }
    let more = Trees { items };
    Ok(Separated { first, more })
}

/// What gets another type, with commas between.
pub fn retypeds(reader: &mut Reader<'_>, room: usize) -> Result<Separated<RetypedTree>, Refusal>
    ensures { Reads retypeds_form room same_retypeds reader.old.rest.now result reader.new.rest.now }
{
    let first = retyped(reader, room)?;
    let mut items = Vec::new(reader.alloc);
    'more: while let Some(sign) = takes_comma(reader, false) {
        let tree = retyped(reader, room)?;
        items.push(Next { sign, tree })?;
    }
    let more = Trees { items };
    Ok(Separated { first, more })
}

/// Examples, with commas between them.
pub fn takens(reader: &mut Reader<'_>, room: usize) -> Result<Separated<TakenTree>, Refusal>
    ensures { Reads takens_form room same_takens reader.old.rest.now result reader.new.rest.now }
{
    let first = taken(reader, room)?;
    let mut items = Vec::new(reader.alloc);
    'more: while let Some(sign) = takes_comma(reader, false) {
        let tree = taken(reader, room)?;
        items.push(Next { sign, tree })?;
    }
    let more = Trees { items };
    Ok(Separated { first, more })
}

/// Types, with commas between them. Behind a list of terms only a dividing comma stands.
pub fn types(reader: &mut Reader<'_>, room: usize) -> Result<Separated<TypeTree>, Refusal>
    ensures { Reads types_form room same_types reader.old.rest.now result reader.new.rest.now }
{
    let first_node = whole_type(reader, false, room)?;
    let mut behind_terms = type_ends_in_terms(&*first_node);
    let mut items = Vec::new(reader.alloc);
    'more: while let Some(sign) = takes_comma(reader, behind_terms) {
        let node = whole_type(reader, false, room)?;
        behind_terms = type_ends_in_terms(&*node);
        let tree = TypeTree::from_node(node);
        items.push(Next { sign, tree })?;
    }
    let first = TypeTree::from_node(first_node);
    let more = Trees { items };
    Ok(Separated { first, more })
}
