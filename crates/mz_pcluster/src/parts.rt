//! The parts of clusters behind their premises, adjectives or term.
ghost use Rattle.std.specs.Prelude.{◌≡◌};
ghost use Rattle.mz_forms.specs.Reading.{Reads};
ghost use Rattle.mz_ppattern.specs.Optional.{next_has, plainly};
ghost use Rattle.mz_pcluster.specs.Classes.{begins_attribute, begins_for_type};
ghost use Rattle.mz_pcluster.specs.Forms.{
  assigned_form,
  bare_type_form,
  behind_form,
  for_type_form,
  implied_form,
  optional_for_type,
};

use mz_base::place::Place;
use mz_forms::refusal::Refusal;
use mz_pjustification::keyword::Keyword;
use mz_pjustification::words::expect_key;
use mz_ppattern::words::{arrow_comes, expect_arrow};
use mz_pterm::reader::Reader;
use mz_pterm::sign::Sign;
use mz_ptype::adjectives::adjectives;
use mz_ptype::types::{radix, whole_type};
use mz_tree::expressions::{AdjectivesTree, TermTree, TypeTree};
use mz_tree_part::cluster::ForTypeTree;

/// What stands behind the premises of a conditional cluster.
#[derive(Drop)]
pub struct ImpliedTree {
    pub arrow: Place,
    pub adjectives: AdjectivesTree,
    pub for_type: ForTypeTree,
    pub semicolon: Place,
}

/// What stands behind the term of a functorial cluster.
#[derive(Drop)]
pub struct AssignedTree {
    pub arrow: Place,
    pub adjectives: AdjectivesTree,
    pub for_type: Option<ForTypeTree>,
    pub semicolon: Place,
}

/// What stands behind the adjectives that a cluster begins with.
#[derive(Drop)]
pub enum BehindTree {
    /// A type without adjectives, as all of them are the cluster's.
    Type(TypeTree, Place),
    For(ForTypeTree, Place),
    Implied(ImpliedTree),
}

/// What stands behind `cluster`.
#[derive(Drop)]
pub enum RegisteredTree {
    /// Adjectives that follow from none.
    Implied(ImpliedTree),
    Adjectives(AdjectivesTree, BehindTree),
    Term(TermTree, AssignedTree),
}

/// Whether `for` comes next.
fn for_comes(reader: &Reader<'_>) -> bool
    ensures { result ≡ next_has begins_for_type reader.now.rest.now }
{
    let Some((next, _)) = reader.rest.split_first() else {
        return false;
    };
    matches!(Sign::of(next), Sign::For)
}

/// `for` and a type.
fn for_type(reader: &mut Reader<'_>, room: usize) -> Result<ForTypeTree, Refusal>
    ensures { Reads for_type_form room plainly reader.old.rest.now result reader.new.rest.now }
{
    let for_ = reader.expect(Sign::For)?;
    let node = whole_type(reader, false, room)?;
    let ty = TypeTree::from_node(node);
    Ok(ForTypeTree { for_, ty })
}

/// `for` and a type, or nothing.
fn maybe_for_type(reader: &mut Reader<'_>, room: usize) -> Result<Option<ForTypeTree>, Refusal>
    ensures { Reads optional_for_type room plainly reader.old.rest.now result reader.new.rest.now }
{
    if !for_comes(reader) {
        return Ok(None);
    }
    let for_type = for_type(reader, room)?;
    Ok(Some(for_type))
}

/// `->`, adjectives, `for` and a type.
pub fn implied(reader: &mut Reader<'_>, room: usize) -> Result<ImpliedTree, Refusal>
    ensures { Reads implied_form room plainly reader.old.rest.now result reader.new.rest.now }
{
    let arrow = expect_arrow(reader)?;
    let (first, more) = adjectives(reader, false, room)?;
    let adjectives = AdjectivesTree::from_nodes(first, more);
    let for_type = for_type(reader, room)?;
    let semicolon = expect_key(reader, Keyword::Semicolon)?;
    Ok(ImpliedTree {
        arrow,
        adjectives,
        for_type,
        semicolon,
    })
}

/// `->` and adjectives, with `for` and a type or without.
pub fn assigned(reader: &mut Reader<'_>, room: usize) -> Result<AssignedTree, Refusal>
    ensures { Reads assigned_form room plainly reader.old.rest.now result reader.new.rest.now }
{
    let arrow = expect_arrow(reader)?;
    let (first, more) = adjectives(reader, false, room)?;
    let adjectives = AdjectivesTree::from_nodes(first, more);
    let for_type = maybe_for_type(reader, room)?;
    let semicolon = expect_key(reader, Keyword::Semicolon)?;
    Ok(AssignedTree {
        arrow,
        adjectives,
        for_type,
        semicolon,
    })
}

/// A type without adjectives.
fn bare_type(reader: &mut Reader<'_>, room: usize) -> Result<TypeTree, Refusal>
    ensures { Reads bare_type_form room plainly reader.old.rest.now result reader.new.rest.now }
{
    let adjectives = Vec::new(reader.alloc);
    let node = radix(reader, adjectives, false, room)?;
    Ok(TypeTree::from_node(node))
}

/// What stands behind the adjectives that a cluster begins with: `->`, `for` and a type, or a type without adjectives.
pub fn behind(reader: &mut Reader<'_>, room: usize) -> Result<BehindTree, Refusal>
    ensures { Reads behind_form room plainly reader.old.rest.now result reader.new.rest.now }
{
    if arrow_comes(reader) {
        let implied = implied(reader, room)?;
        return Ok(BehindTree::Implied(implied));
    }
    if for_comes(reader) {
        let for_type = for_type(reader, room)?;
        let semicolon = expect_key(reader, Keyword::Semicolon)?;
        return Ok(BehindTree::For(for_type, semicolon));
    }
    let ty = bare_type(reader, room)?;
    let end = expect_key(reader, Keyword::Semicolon)?;
    Ok(BehindTree::Type(ty, end))
}

/// Whether an attribute comes next.
pub fn attribute_comes(reader: &Reader<'_>) -> bool
    ensures { result ≡ next_has begins_attribute reader.now.rest.now }
{
    let Some((next, _)) = reader.rest.split_first() else {
        return false;
    };
    matches!(Sign::of(next), Sign::Attribute)
}
