//! Declarations of identifiers.
ghost use Rattle.std.specs.Prelude.{◌≡◌};
ghost use Rattle.mz_forms.specs.Reading.{Reads};
ghost use Rattle.mz_tree.specs.Rules.{ends_in_terms};
ghost use Rattle.mz_tree.specs.Views.{declarations_of, declared_of, type_of};
ghost use Rattle.mz_ptype.specs.Forms.{
  declarations_form,
  declared_ends_in_terms,
  declared_form,
  declared_from,
  maybe_type,
  type_seen,
  ReadsRestOfDeclarations,
  TakesBeing,
  TakesComma,
};

use crate::types::whole_type;
use mz_forms::refusal::Refusal;
use mz_pterm::reader::Reader;
use mz_pterm::sign::Sign;
use mz_tree::chain::{Chain, Next};
use mz_tree::nodes::{DeclarationsNode, DeclaredNode, TypeNode};
use mz_tree::word::{Being, Comma, Word};

/// `be` or `being`, which is taken if it comes next.
pub fn takes_being(reader: &mut Reader<'_>) -> Option<Being>
    ensures { TakesBeing reader.old.rest.now result reader.new.rest.now }
{
    let Some((next, rest)) = reader.rest.split_first() else {
        return None;
    };
    match Sign::of(next) {
        Sign::Be => {
            reader.rest = rest;
            Some(Being {
                place: next.token.place,
                long: false,
            })
        }
        Sign::Being => {
            reader.rest = rest;
            Some(Being {
                place: next.token.place,
                long: true,
            })
        }
        _ => None,
    }
}

/// A comma, which is taken if it comes next. Behind a list of terms only a dividing comma is taken.
pub fn takes_comma(reader: &mut Reader<'_>, behind_terms: bool) -> Option<Comma>
    ensures { TakesComma behind_terms reader.old.rest.now result reader.new.rest.now }
{
    let Some((next, rest)) = reader.rest.split_first() else {
        return None;
    };
    match Sign::of(next) {
        Sign::DividingComma => {
            reader.rest = rest;
            Some(Comma {
                place: next.token.place,
                dividing: true,
            })
        }
        Sign::ListComma => {
            if behind_terms {
                return None;
            }
            reader.rest = rest;
            Some(Comma {
                place: next.token.place,
                dividing: false,
            })
        }
        _ => None,
    }
}

/// `be` or `being` and a type, or nothing.
fn maybe_type(
    reader: &mut Reader<'_>,
    field: bool,
    room: usize,
) -> Result<Option<(Being, Box<TypeNode>)>, Refusal>
    ensures { Reads (maybe_type field) room type_seen reader.old.rest.now result reader.new.rest.now }
{
    let Some(being) = takes_being(reader) else {
        return Ok(None);
    };
    let tree = whole_type(reader, field, room)?;
    Ok(Some((being, tree)))
}

/// The declaration of these parts.
fn with_type(name: Word, typed: Option<(Being, Box<TypeNode>)>) -> DeclaredNode
    ensures { declared_of result ≡ declared_from name (type_seen typed) }
{
    match typed {
        None => DeclaredNode::Plain(name),
        Some((being, tree)) => DeclaredNode::Typed(name, being, tree),
    }
}

/// A declared identifier, with a type where `be` or `being` stands behind it.
pub fn declared(reader: &mut Reader<'_>, field: bool, room: usize) -> Result<DeclaredNode, Refusal>
    ensures { Reads (declared_form field) room declared_of reader.old.rest.now result reader.new.rest.now }
{
    let name = reader.expect_name(Sign::Identifier)?;
    let typed = maybe_type(reader, field, room)?;
    Ok(with_type(name, typed))
}

/// Whether a list of terms stands last in its type.
pub fn ends_in_terms(declared: &DeclaredNode) -> bool
    ensures { result ≡ declared_ends_in_terms (declared_of declared.now) }
{
    match declared {
        DeclaredNode::Plain(_) => false,
        DeclaredNode::Typed(_, _, tree) => type_ends_in_terms(&**tree),
    }
}

/// Whether a list of terms stands last in it.
pub fn type_ends_in_terms(tree: &TypeNode) -> bool
    ensures { result ≡ ends_in_terms (type_of tree.now) }
{
    match tree {
        TypeNode::Mode(_, _) => false,
        TypeNode::ModeOf(_, _, _, _) => true,
        TypeNode::Structure(_, _) => false,
        TypeNode::StructureOver(_, _, _, _) => true,
    }
}

/// The declarations that go on with this one.
pub fn rest_of_declarations(
    reader: &mut Reader<'_>,
    first: DeclaredNode,
    field: bool,
    room: usize,
) -> Result<DeclarationsNode, Refusal>
    ensures { ReadsRestOfDeclarations field room (declared_of first) reader.old.rest.now result reader.new.rest.now }
{
    let mut behind_terms = ends_in_terms(&first);
    let mut more = Vec::new(reader.alloc);
    'more: while let Some(sign) = takes_comma(reader, behind_terms) {
        let tree = declared(reader, field, room)?;
        behind_terms = ends_in_terms(&tree);
        more.push(Next { sign, tree })?;
    }
    Ok(Chain { first, more })
}

/// Declared identifiers with commas between them.
pub fn declarations(
    reader: &mut Reader<'_>,
    field: bool,
    room: usize,
) -> Result<DeclarationsNode, Refusal>
    ensures { Reads (declarations_form field) room declarations_of reader.old.rest.now result reader.new.rest.now }
{
    let first = declared(reader, field, room)?;
    rest_of_declarations(reader, first, field, room)
}
