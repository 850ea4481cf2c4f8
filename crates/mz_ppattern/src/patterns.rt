//! Loci and patterns, in the order of the grammar.
ghost use Rattle.std.specs.Prelude.{◌≡◌};
ghost use Rattle.mz_forms.specs.Reading.{Reads};
ghost use Rattle.mz_ppattern.specs.Classes.{begins_identifiers, begins_loci, begins_mode_loci, kind_next, second_kind};
ghost use Rattle.mz_ppattern.specs.Optional.{next_has, plainly};
ghost use Rattle.mz_ppattern.specs.Forms.{
  attribute_pattern_form,
  functor_pattern_form,
  loci_form,
  mode_loci_form,
  mode_pattern_form,
  optional_identifiers,
  optional_loci,
  optional_mode_loci,
  pattern_form,
  predicate_pattern_form,
  symbol_pattern_form,
};

use crate::names::identifiers;
use crate::symbols::{bracketed, enclosed, expect_functor};
use mz_base::token::MarkedToken;
use mz_forms::refusal::Refusal;
use mz_pterm::reader::Reader;
use mz_pterm::sign::Sign;
use mz_tree::lists::Separated;
use mz_tree_heading::patterns::{
    AttributePatternTree, FunctorPatternTree, IdentifierTree, LociTree, ModeLociTree,
    ModePatternTree, PatternTree, PredicatePatternTree, SymbolPatternTree,
};

/// Whether loci begin with the next token.
fn loci_come(reader: &Reader<'_>) -> bool
    ensures { result ≡ next_has begins_loci reader.now.rest.now }
{
    let Some((next, _)) = reader.rest.split_first() else {
        return false;
    };
    matches!(Sign::of(next), Sign::Identifier | Sign::Open)
}

/// Whether an identifier comes next.
pub fn identifier_comes(reader: &Reader<'_>) -> bool
    ensures { result ≡ next_has begins_identifiers reader.now.rest.now }
{
    let Some((next, _)) = reader.rest.split_first() else {
        return false;
    };
    matches!(Sign::of(next), Sign::Identifier)
}

/// Loci: an identifier, or identifiers in parentheses. `room` says how many constructs may still be opened within one
/// another.
pub fn loci(reader: &mut Reader<'_>, room: usize) -> Result<LociTree, Refusal>
    ensures { Reads loci_form room plainly reader.old.rest.now result reader.new.rest.now }
{
    if identifier_comes(reader) {
        let name = reader.expect_name(Sign::Identifier)?;
        return Ok(LociTree::One(name));
    }
    let (left, identifiers, right) = bracketed(reader, Sign::Open, Sign::Close, room)?;
    Ok(LociTree::Several {
        left,
        identifiers,
        right,
    })
}

/// Loci, where they come next.
pub fn maybe_loci(reader: &mut Reader<'_>, room: usize) -> Result<Option<LociTree>, Refusal>
    ensures { Reads optional_loci room plainly reader.old.rest.now result reader.new.rest.now }
{
    if !loci_come(reader) {
        return Ok(None);
    }
    let loci = loci(reader, room)?;
    Ok(Some(loci))
}

/// Identifiers, where they come next.
pub fn maybe_identifiers(
    reader: &mut Reader<'_>,
    room: usize,
) -> Result<Option<Separated<IdentifierTree>>, Refusal>
    ensures { Reads optional_identifiers room plainly reader.old.rest.now result reader.new.rest.now }
{
    if !identifier_comes(reader) {
        return Ok(None);
    }
    let identifiers = identifiers(reader)?;
    Ok(Some(identifiers))
}

/// `of` and identifiers.
fn mode_loci(reader: &mut Reader<'_>, room: usize) -> Result<ModeLociTree, Refusal>
    ensures { Reads mode_loci_form room plainly reader.old.rest.now result reader.new.rest.now }
{
    let of = reader.expect(Sign::Of)?;
    let identifiers = identifiers(reader)?;
    Ok(ModeLociTree { of, identifiers })
}

/// Whether `of` comes next.
fn of_comes(reader: &Reader<'_>) -> bool
    ensures { result ≡ next_has begins_mode_loci reader.now.rest.now }
{
    let Some((next, _)) = reader.rest.split_first() else {
        return false;
    };
    matches!(Sign::of(next), Sign::Of)
}

/// `of` and identifiers, or nothing.
fn maybe_mode_loci(reader: &mut Reader<'_>, room: usize) -> Result<Option<ModeLociTree>, Refusal>
    ensures { Reads optional_mode_loci room plainly reader.old.rest.now result reader.new.rest.now }
{
    if !of_comes(reader) {
        return Ok(None);
    }
    let loci = mode_loci(reader, room)?;
    Ok(Some(loci))
}

/// A functor symbol, with loci before it and behind it or without.
fn symbol_pattern(reader: &mut Reader<'_>, room: usize) -> Result<SymbolPatternTree, Refusal>
    ensures { Reads symbol_pattern_form room plainly reader.old.rest.now result reader.new.rest.now }
{
    let left = maybe_loci(reader, room)?;
    let (symbol, priority) = expect_functor(reader)?;
    let right = maybe_loci(reader, room)?;
    Ok(SymbolPatternTree {
        left,
        symbol,
        priority,
        right,
    })
}

/// The pattern of a functor.
pub fn functor_pattern(reader: &mut Reader<'_>, room: usize) -> Result<FunctorPatternTree, Refusal>
    ensures { Reads functor_pattern_form room plainly reader.old.rest.now result reader.new.rest.now }
{
    let Some((next, _)) = reader.rest.split_first() else {
        return Err(Refusal::Refused);
    };
    match Sign::of(next) {
        Sign::LeftBracket => {
            let (left, identifiers, right) = enclosed(reader, room)?;
            Ok(FunctorPatternTree::Brackets {
                left,
                identifiers,
                right,
            })
        }
        Sign::OpenBrace => {
            let (left, identifiers, right) = bracketed(
                reader,
                Sign::OpenBrace,
                Sign::CloseBrace,
                room,
            )?;
            Ok(FunctorPatternTree::Braces {
                left,
                identifiers,
                right,
            })
        }
        Sign::OpenSquare => {
            let (left, identifiers, right) = bracketed(
                reader,
                Sign::OpenSquare,
                Sign::CloseSquare,
                room,
            )?;
            Ok(FunctorPatternTree::Squares {
                left,
                identifiers,
                right,
            })
        }
        _ => {
            let pattern = symbol_pattern(reader, room)?;
            Ok(FunctorPatternTree::Symbol(pattern))
        }
    }
}

/// The pattern of a predicate.
pub fn predicate_pattern(
    reader: &mut Reader<'_>,
    room: usize,
) -> Result<PredicatePatternTree, Refusal>
    ensures { Reads predicate_pattern_form room plainly reader.old.rest.now result reader.new.rest.now }
{
    let left = maybe_identifiers(reader, room)?;
    let symbol = reader.expect_name(Sign::Predicate)?;
    let right = maybe_identifiers(reader, room)?;
    Ok(PredicatePatternTree {
        left,
        symbol,
        right,
    })
}

/// The pattern of an attribute, behind the identifier of its subject.
pub fn attribute_pattern(
    reader: &mut Reader<'_>,
    room: usize,
) -> Result<AttributePatternTree, Refusal>
    ensures { Reads attribute_pattern_form room plainly reader.old.rest.now result reader.new.rest.now }
{
    let subject = reader.expect_name(Sign::Identifier)?;
    let is = reader.expect(Sign::Is)?;
    let loci = maybe_loci(reader, room)?;
    let symbol = reader.expect_name(Sign::Attribute)?;
    Ok(AttributePatternTree {
        subject,
        is,
        loci,
        symbol,
    })
}

/// The pattern of a mode.
pub fn mode_pattern(reader: &mut Reader<'_>, room: usize) -> Result<ModePatternTree, Refusal>
    ensures { Reads mode_pattern_form room plainly reader.old.rest.now result reader.new.rest.now }
{
    let symbol = reader.expect_name(Sign::Mode)?;
    let loci = maybe_mode_loci(reader, room)?;
    Ok(ModePatternTree { symbol, loci })
}

/// Which pattern the next tokens begin.
#[derive(Clone, Copy, Debug, PartialEq, Eq)]
pub enum PatternKind {
    Functor,
    Predicate,
    Attribute,
    Mode,
}

/// Which pattern begins with an identifier, by the token behind it.
fn second_kind(rest: &[MarkedToken]) -> PatternKind
    ensures { result ≡ second_kind rest.now }
{
    let Some((next, _)) = rest.split_first() else {
        return PatternKind::Predicate;
    };
    match Sign::of(next) {
        Sign::Functor => PatternKind::Functor,
        Sign::Is => PatternKind::Attribute,
        _ => PatternKind::Predicate,
    }
}

fn kind_next(reader: &Reader<'_>) -> PatternKind
    ensures { result ≡ kind_next reader.now.rest.now }
{
    let Some((next, rest)) = reader.rest.split_first() else {
        return PatternKind::Functor;
    };
    match Sign::of(next) {
        Sign::Identifier => second_kind(rest),
        Sign::Predicate => PatternKind::Predicate,
        Sign::Mode => PatternKind::Mode,
        _ => PatternKind::Functor,
    }
}

/// The pattern of a notation.
pub fn pattern(reader: &mut Reader<'_>, room: usize) -> Result<PatternTree, Refusal>
    ensures { Reads pattern_form room plainly reader.old.rest.now result reader.new.rest.now }
{
    match kind_next(reader) {
        PatternKind::Functor => {
            let pattern = functor_pattern(reader, room)?;
            Ok(PatternTree::Functor(pattern))
        }
        PatternKind::Predicate => {
            let pattern = predicate_pattern(reader, room)?;
            Ok(PatternTree::Predicate(pattern))
        }
        PatternKind::Attribute => {
            let pattern = attribute_pattern(reader, room)?;
            Ok(PatternTree::Attribute(pattern))
        }
        PatternKind::Mode => {
            let pattern = mode_pattern(reader, room)?;
            Ok(PatternTree::Mode(pattern))
        }
    }
}
