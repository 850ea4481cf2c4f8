//! Reservations, and parameters of schemes.
ghost use Rattle.std.specs.Prelude.{◌≡◌, ◌<◌, true};
ghost use Rattle.mz_forms.specs.Reading.{Reads};
ghost use Rattle.mz_pterm.specs.Classes.{closes};
ghost use Rattle.mz_ppattern.specs.Optional.{next_has, plainly};
ghost use Rattle.mz_ppart.specs.Classes.{opens_square};
ghost use Rattle.mz_ppart.specs.Forms.{closing_form, parameters_form, reserve_form, segments_form, ReadsParameter, ReadsSegment};

use mz_base::place::Place;
use mz_forms::refusal::Refusal;
use mz_pjustification::keyword::Keyword;
use mz_pjustification::words::expect_key;
use mz_ppattern::names::identifiers;
use mz_ppattern::words::{expect_arrow, expect_word};
use mz_pstep::lists::types;
use mz_pterm::reader::Reader;
use mz_pterm::sign::Sign;
use mz_ptype::declarations::{takes_comma, type_ends_in_terms};
use mz_ptype::types::whole_type;
use mz_tree::chain::Next;
use mz_tree::expressions::TypeTree;
use mz_tree::lists::{Separated, Trees};
use mz_tree_part::parameter::ParameterTree;
use mz_tree_part::reserve::{ReserveTree, SegmentTree};

/// Identifiers, `for` and their type, and whether a list of terms stands last in it.
fn segment(reader: &mut Reader<'_>, room: usize) -> Result<(SegmentTree, bool), Refusal>
    ensures { ReadsSegment room reader.old.rest.now result reader.new.rest.now }
{
    let identifiers = identifiers(reader)?;
    let for_ = reader.expect(Sign::For)?;
    let node = whole_type(reader, false, room)?;
    let behind_terms = type_ends_in_terms(&*node);
    let ty = TypeTree::from_node(node);
    Ok((
        SegmentTree {
            identifiers,
            for_,
            ty,
        },
        behind_terms,
    ))
}

/// Segments with commas between them. Behind a list of terms only a dividing comma stands.
fn segments(reader: &mut Reader<'_>, room: usize) -> Result<Separated<SegmentTree>, Refusal>
    ensures { Reads segments_form room plainly reader.old.rest.now result reader.new.rest.now }
{
    let (first, mut behind_terms) = segment(reader, room)?;
    let mut items = Vec::new(reader.alloc);
    'more: while let Some(sign) = takes_comma(reader, behind_terms) {
        let (tree, now_behind) = segment(reader, room)?;
        behind_terms = now_behind;
        items.push(Next { sign, tree })?;
    }
    let more = Trees { items };
    Ok(Separated { first, more })
}

/// `reserve` and segments.
pub fn reserve(reader: &mut Reader<'_>, room: usize) -> Result<ReserveTree, Refusal>
    ensures { Reads reserve_form room plainly reader.old.rest.now result reader.new.rest.now }
{
    let reserve = expect_word(reader, b"reserve")?;
    let segments = segments(reader, room)?;
    let semicolon = expect_key(reader, Keyword::Semicolon)?;
    Ok(ReserveTree {
        reserve,
        segments,
        semicolon,
    })
}

/// Types or nothing, and the bracket that closes. `room` counts the bracket that is open.
fn closing(
    reader: &mut Reader<'_>,
    closing: Sign,
    room: usize,
) -> Result<(Option<Separated<TypeTree>>, Place), Refusal>
    requires closing { closes closing ≡ true }
    requires room { 0 < room }
    ensures { Reads (closing_form closing) room plainly reader.old.rest.now result reader.new.rest.now }
{
    if let Some(place) = reader.takes(closing) {
        return Ok((None, place));
    }
    let list = types(reader, room - 1)?;
    let place = reader.expect(closing)?;
    Ok((Some(list), place))
}

/// Whether `[` comes next.
fn square_comes(reader: &Reader<'_>) -> bool
    ensures { result ≡ next_has opens_square reader.now.rest.now }
{
    let Some((next, _)) = reader.rest.split_first() else {
        return false;
    };
    matches!(Sign::of(next), Sign::OpenSquare)
}

/// A parameter of a scheme, and whether a list of terms stands last in it.
fn parameter(reader: &mut Reader<'_>, room: usize) -> Result<(ParameterTree, bool), Refusal>
    ensures { ReadsParameter room reader.old.rest.now result reader.new.rest.now }
{
    let identifiers = identifiers(reader)?;
    if square_comes(reader) {
        let left = reader.opens(Sign::OpenSquare, room)?;
        let (types, right) = closing(reader, Sign::CloseSquare, room)?;
        let tree = ParameterTree::Predicate {
            identifiers,
            left,
            types,
            right,
        };
        return Ok((tree, false));
    }
    let left = reader.opens(Sign::Open, room)?;
    let (types, right) = closing(reader, Sign::Close, room)?;
    let arrow = expect_arrow(reader)?;
    let node = whole_type(reader, false, room)?;
    let behind_terms = type_ends_in_terms(&*node);
    let ty = TypeTree::from_node(node);
    let tree = ParameterTree::Functor {
        identifiers,
        left,
        types,
        right,
        arrow,
        ty,
    };
    Ok((tree, behind_terms))
}

/// Parameters with commas between them. Behind a list of terms only a dividing comma stands.
pub fn parameters(reader: &mut Reader<'_>, room: usize) -> Result<Separated<ParameterTree>, Refusal>
    ensures { Reads parameters_form room plainly reader.old.rest.now result reader.new.rest.now }
{
    let (first, mut behind_terms) = parameter(reader, room)?;
    let mut items = Vec::new(reader.alloc);
    'more: while let Some(sign) = takes_comma(reader, behind_terms) {
        let (tree, now_behind) = parameter(reader, room)?;
        behind_terms = now_behind;
        items.push(Next { sign, tree })?;
    }
    let more = Trees { items };
    Ok(Separated { first, more })
}
