//! Predicates, and what stands behind `is`.
//!
//! A parenthesis may open a formula or a term, and nothing decides this before it is closed and what follows has come.
//! So terms are read together with the predicate that may stand behind them.
ghost use Rattle.std.specs.Prelude.{◌≡◌, true, false};
ghost use Rattle.mz_forms.specs.Reading.{Reads};
ghost use Rattle.mz_tree.specs.Trees.{GroupBase};
ghost use Rattle.mz_tree.specs.Views.{term_of, terms_of, unit_of};
ghost use Rattle.mz_ptype.specs.Classes.{begins_radix, next_is};
ghost use Rattle.mz_ptype.specs.Forms.{adjectives_in};
ghost use Rattle.mz_patom.specs.Classes.{begins_term, private_next};
ghost use Rattle.mz_patom.specs.Forms.{
  maybe_terms_form,
  predicate_from,
  private_from,
  related,
  terms_seen,
  BoxesUnit,
  GivesAdjectives,
  IsOnlyTerm,
  ReadsAtom,
  ReadsBehindGroup,
  ReadsIs,
  ReadsPredicate,
  ReadsPrivate,
  ReadsRelated,
  ReadsTail,
};

use mz_base::place::Place;
use mz_forms::refusal::Refusal;
use mz_pterm::reader::Reader;
use mz_pterm::sign::Sign;
use mz_pterm::terms::Last;
use mz_ptype::adjectives::adjective_list;
use mz_ptype::types::radix;
use mz_tree::chain::Chain;
use mz_tree::nodes::{
    AdjectiveNode, BaseNode, OperandNode, PieceNode, TermNode, TermsNode, UnitNode,
};
use mz_tree::word::Word;
use std::alloc::Global;

/// A unit, or terms behind which no predicate stands.
#[derive(Drop)]
pub enum Opening {
    Unit(Box<UnitNode>),
    Terms(TermsNode),
}

/// The unit in a box.
pub fn boxed(alloc: Global, node: UnitNode) -> Result<Box<UnitNode>, Refusal>
    ensures { BoxesUnit node result }
{
    Ok(Box::new(alloc, node)?)
}

/// Whether a term begins with the next token.
pub fn term_comes(reader: &Reader<'_>) -> bool
    ensures { result ≡ next_is begins_term reader.now.rest.now }
{
    let Some((next, _)) = reader.rest.split_first() else {
        return false;
    };
    matches!(
        Sign::of(next),
        Sign::Functor
            | Sign::Identifier
            | Sign::Structure
            | Sign::LeftBracket
            | Sign::It
            | Sign::The
            | Sign::Argument(_)
            | Sign::Open
            | Sign::OpenBrace
            | Sign::OpenSquare
    )
}

/// Terms, where one begins next.
fn maybe_terms(
    reader: &mut Reader<'_>,
    field: bool,
    room: usize,
) -> Result<Option<TermsNode>, Refusal>
    ensures { Reads (maybe_terms_form field) room terms_seen reader.old.rest.now result reader.new.rest.now }
{
    if !term_comes(reader) {
        return Ok(None);
    }
    let terms = reader.terms(field, room)?;
    Ok(Some(terms))
}

/// The only term, if there is just one, and else the terms as they are.
fn only_term(terms: TermsNode) -> Result<TermNode, TermsNode>
    ensures { IsOnlyTerm (terms_of terms) result }
{
    let Chain { first, more } = terms;
    if more.is_empty() {
        Ok(first)
    } else {
        Err(Chain { first, more })
    }
}

/// Whether a type goes on behind its adjectives.
fn radix_comes(reader: &Reader<'_>) -> bool
    ensures { result ≡ next_is begins_radix reader.now.rest.now }
{
    let Some((next, _)) = reader.rest.split_first() else {
        return false;
    };
    matches!(Sign::of(next), Sign::Mode | Sign::Structure)
}

/// The unit of these adjectives, of which there has to be one.
fn with_adjectives(
    alloc: Global,
    subject: TermNode,
    is: Place,
    mut adjectives: Vec<AdjectiveNode>,
) -> Result<Box<UnitNode>, Refusal>
    ensures { GivesAdjectives (term_of subject) is (adjectives_in adjectives) result }
{
    if adjectives.is_empty() {
        return Err(Refusal::Refused);
    }
    let first = adjectives.remove(0);
    boxed(
        alloc,
        UnitNode::IsAdjectives(subject, is, first, adjectives),
    )
}

/// What stands behind `is`: a type, or adjectives.
fn is_unit(
    reader: &mut Reader<'_>,
    subject: TermNode,
    is: Place,
    field: bool,
    room: usize,
) -> Result<Box<UnitNode>, Refusal>
    ensures { ReadsIs field room (term_of subject) is reader.old.rest.now result reader.new.rest.now }
{
    let adjectives = adjective_list(reader, field, room)?;
    if !radix_comes(reader) {
        return with_adjectives(reader.alloc, subject, is, adjectives);
    }
    let tree = radix(reader, adjectives, field, room)?;
    boxed(reader.alloc, UnitNode::IsType(subject, is, tree))
}

/// The unit of terms, a predicate symbol, and the terms behind it.
fn with_right(left: TermsNode, symbol: Word, right: Option<TermsNode>) -> UnitNode
    ensures { unit_of result ≡ related (terms_of left) symbol (terms_seen right) }
{
    match right {
        None => UnitNode::PredicateLeft(left, symbol),
        Some(right) => UnitNode::PredicateBoth(left, symbol, right),
    }
}

/// Behind terms and a predicate symbol.
fn related(
    reader: &mut Reader<'_>,
    left: TermsNode,
    symbol: Word,
    field: bool,
    room: usize,
) -> Result<Box<UnitNode>, Refusal>
    ensures { ReadsRelated field room (terms_of left) symbol reader.old.rest.now result reader.new.rest.now }
{
    let right = maybe_terms(reader, field, room)?;
    boxed(reader.alloc, with_right(left, symbol, right))
}

/// What may stand behind terms: a predicate symbol, `is` behind a single one, or nothing.
pub fn tail(
    reader: &mut Reader<'_>,
    terms: TermsNode,
    field: bool,
    room: usize,
) -> Result<Opening, Refusal>
    ensures { ReadsTail field room (terms_of terms) reader.old.rest.now result reader.new.rest.now }
{
    let Some((next, rest)) = reader.rest.split_first() else {
        return Ok(Opening::Terms(terms));
    };
    match Sign::of(next) {
        Sign::Predicate => {
            let symbol = reader.expect_name(Sign::Predicate)?;
            let unit = related(reader, terms, symbol, field, room)?;
            Ok(Opening::Unit(unit))
        }
        Sign::Is => match only_term(terms) {
            Ok(subject) => {
                reader.rest = rest;
                let unit = is_unit(reader, subject, next.token.place, field, room)?;
                Ok(Opening::Unit(unit))
            }
            Err(terms) => Ok(Opening::Terms(terms)),
        },
        _ => Ok(Opening::Terms(terms)),
    }
}

/// Terms, and what stands behind them.
pub fn atom(reader: &mut Reader<'_>, field: bool, room: usize) -> Result<Opening, Refusal>
    ensures { ReadsAtom field room reader.old.rest.now result reader.new.rest.now }
{
    let terms = reader.terms(field, room)?;
    tail(reader, terms, field, room)
}

/// What goes on with a group of terms, as a term, as terms and as a predicate.
pub fn behind_group(
    reader: &mut Reader<'_>,
    opens: Place,
    group: TermsNode,
    closes: Place,
    field: bool,
    room: usize,
) -> Result<Opening, Refusal>
    ensures { ReadsBehindGroup field room opens (terms_of group) closes reader.old.rest.now result reader.new.rest.now }
{
    let base = Box::new(reader.alloc, BaseNode::Group(opens, group, closes))?;
    let prefixes = Vec::new(reader.alloc);
    let operand = OperandNode { prefixes, base };
    let last = Last::Start.after(&operand);
    let term = reader.rest_of_term(PieceNode::Operand(operand), last, field, room)?;
    let terms = reader.rest_of_terms(term, field, room)?;
    tail(reader, terms, field, room)
}

/// The unit of a predicate symbol, and the terms behind it.
fn with_terms(symbol: Word, right: Option<TermsNode>) -> UnitNode
    ensures { unit_of result ≡ predicate_from symbol (terms_seen right) }
{
    match right {
        None => UnitNode::Predicate(symbol),
        Some(right) => UnitNode::PredicateRight(symbol, right),
    }
}

/// A predicate symbol with nothing before it.
pub fn predicate(
    reader: &mut Reader<'_>,
    field: bool,
    room: usize,
) -> Result<Box<UnitNode>, Refusal>
    ensures { ReadsPredicate field room reader.old.rest.now result reader.new.rest.now }
{
    let symbol = reader.expect_name(Sign::Predicate)?;
    let right = maybe_terms(reader, field, room)?;
    boxed(reader.alloc, with_terms(symbol, right))
}

/// Whether an identifier comes next and a `[` behind it.
pub fn private_comes(reader: &Reader<'_>) -> bool
    ensures { result ≡ private_next reader.now.rest.now }
{
    let Some((next, rest)) = reader.rest.split_first() else {
        return false;
    };
    if !Sign::of(next).is(Sign::Identifier) {
        return false;
    }
    let Some((second, _)) = rest.split_first() else {
        return false;
    };
    Sign::of(second).is(Sign::OpenSquare)
}

/// The unit of a private predicate.
fn with_arguments(name: Word, opens: Place, terms: Option<TermsNode>, closes: Place) -> UnitNode
    ensures { unit_of result ≡ private_from name opens (terms_seen terms) closes }
{
    match terms {
        None => UnitNode::Private(name, opens, closes),
        Some(terms) => UnitNode::PrivateWith(name, opens, terms, closes),
    }
}

/// A private predicate with its arguments.
pub fn private(reader: &mut Reader<'_>, field: bool, room: usize) -> Result<Box<UnitNode>, Refusal>
    ensures { ReadsPrivate field room reader.old.rest.now result reader.new.rest.now }
{
    let name = reader.expect_name(Sign::Identifier)?;
    let open = reader.opens(Sign::OpenSquare, room)?;
    let terms = maybe_terms(reader, field, room - 1)?;
    let close = reader.expect(Sign::CloseSquare)?;
    boxed(reader.alloc, with_arguments(name, open, terms, close))
}
