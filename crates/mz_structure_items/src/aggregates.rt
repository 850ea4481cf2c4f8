//! The notation of a structure's aggregate.
ghost use Rattle.std.specs.Prelude.{◌≡◌, ◌++◌, ◌+◌, ◌∷◌, [], map, flat_map, slice_get, IfOk, OnOk};
ghost use Rattle.mz_structure_items.specs.Aggregates.{valued_type, valued_types, kept_order, selector_at, selectors_at, field_locus, field_loci, index_in, field_places, index_at, aggregate_of, aggregate_loci, are_closed, aggregate_notation, if_closed, in_order, aggregate_in_order, aggregate_notations};

use crate::closed::{are_loci, loci_closed, term_under};
use mz_base::numbers::Numbers;
use mz_base::text::Text;
use mz_core::hidden::object_type;
use mz_core::notation::{Meaning, Notation};
use mz_core::notations::Notations;
use mz_core::soft_type::SoftType;
use mz_core::soft_types::SoftTypes;
use mz_environment::syms::Syms;
use mz_field_items::fields::{ReadField, selectors_of};
use mz_fields::order::field_order;
use mz_fields::values::type_with_values;
use mz_items::loci::{count_of, variables};
use mz_loci::fixed::are_distinct;
use mz_loci::loci::type_over_loci;
use mz_logic::kind::Kind;
use mz_logic::sym::Sym;
use mz_logic::term::{Term, Terms};
use mz_patterns::patterns::pattern;
use mz_patterns::visible::Visible;
use std::alloc::{AllocError, Global};

fn valued_type(
    alloc: Global,
    f: &ReadField,
    y: u32,
    selectors: &[Sym],
) -> Result<SoftType, AllocError>
    ensures { IfOk result (λ ty. ty ≡ valued_type y selectors.now f.now) }
{
    let first = y.checked_add(1).ok_or(AllocError)?;
    type_with_values(alloc, &f.ty, y, first, selectors)
}

fn valued_types(alloc: Global, fs: &[ReadField], y: u32) -> Result<SoftTypes, AllocError>
    ensures { IfOk result (λ tys. tys ≡ valued_types y fs.now) }
{
    let selectors = selectors_of(alloc, fs)?;
    let mut out = Vec::new(alloc);
    for f in fs {
        out.push(valued_type(alloc, f, y, selectors.as_slice())?)?;
    }
    Ok(SoftTypes { items: out })
}

fn kept_order(alloc: Global, fs: &[ReadField], y: u32) -> Result<Numbers, AllocError>
    ensures { IfOk result (λ ns. ns ≡ kept_order y fs.now) }
{
    let tys = valued_types(alloc, fs, y)?;
    field_order(alloc, y, tys.items.as_slice())
}

/// Puts the selector of the field at a place behind the others, if there is one.
#[tactic(auto, using(crate::proofs::AggregateLemmas::selector_rules))]
fn push_selector_at(out: &mut Syms, fs: &[ReadField], k: u64) -> Result<(), AllocError>
    ensures { OnOk result (out.new ≡ out.old ++ selector_at fs.now k) }
{
    match fs.get(k as usize) {
        None => Ok(()),
        Some(f) => {
            out.push(f.selector)?;
            Ok(())
        }
    }
}

fn push_selectors_at(out: &mut Syms, fs: &[ReadField], order: &[u64]) -> Result<(), AllocError>
    ensures { OnOk result (out.new ≡ out.old ++ selectors_at fs.now order.now) }
{
    match order {
        [] => Ok(()),
        [k, others @ ..] => {
            push_selector_at(out, fs, *k)?;
            push_selectors_at(out, fs, others)
        }
    }
}

fn selectors_at(alloc: Global, fs: &[ReadField], order: &[u64]) -> Result<Syms, AllocError>
    ensures { IfOk result (λ ss. ss ≡ selectors_at fs.now order.now) }
{
    let mut out = Syms::new(alloc);
    push_selectors_at(&mut out, fs, order)?;
    Ok(out)
}

/// The type of a field as one of the pattern's loci, behind so many loci of the structure and so many fields.
fn own_locus(
    alloc: Global,
    f: &ReadField,
    least: u32,
    count: u32,
    ordered: &[Sym],
    before: u32,
) -> Result<SoftType, AllocError>
    ensures { IfOk result (λ ty. ty ≡ field_locus least count ordered.now before (Some f.now)) }
{
    let y = least.checked_add(count).ok_or(AllocError)?;
    let valued = type_with_values(alloc, &f.ty, y, y, ordered)?;
    let behind = count.checked_add(before).ok_or(AllocError)?;
    type_over_loci(alloc, &valued, least, behind)
}

/// So of the field at a place; `object` where there is none.
#[tactic(auto, using(crate::proofs::AggregateLemmas::locus_rules))]
fn field_locus(
    alloc: Global,
    fs: &[ReadField],
    k: u64,
    least: u32,
    count: u32,
    ordered: &[Sym],
    before: u32,
) -> Result<SoftType, AllocError>
    ensures { IfOk result (λ ty. ty ≡ field_locus least count ordered.now before (slice_get fs.now k)) }
{
    match fs.get(k as usize) {
        None => Ok(object_type(alloc)),
        Some(f) => own_locus(alloc, f, least, count, ordered, before),
    }
}

/// Puts the types of the fields in this order, as loci of the pattern behind so many fields, behind the others.
fn push_loci(
    alloc: Global,
    out: &mut SoftTypes,
    fs: &[ReadField],
    order: &[u64],
    least: u32,
    count: u32,
    ordered: &[Sym],
    before: u32,
) -> Result<(), AllocError>
    ensures { OnOk result (out.new ≡ out.old ++ field_loci least count ordered.now fs.now before order.now) }
{
    match order {
        [] => Ok(()),
        [k, others @ ..] => {
            out.push(field_locus(alloc, fs, *k, least, count, ordered, before)?)?;
            let further = before.checked_add(1).ok_or(AllocError)?;
            push_loci(alloc, out, fs, others, least, count, ordered, further)
        }
    }
}

/// At which place of the order a number stands; behind it, where it isn't there.
fn index_in(i: u64, order: &[u64]) -> Result<u64, AllocError>
    ensures { IfOk result (λ k. k ≡ index_in i order.now) }
{
    match order {
        [] => Ok(0),
        [k, others @ ..] => {
            if i == *k {
                Ok(0)
            } else {
                index_in(i, others)?.checked_add(1).ok_or(AllocError)
            }
        }
    }
}

/// Puts the places of fields among the loci behind the others, from that of the field i on.
fn push_places(
    out: &mut Numbers,
    count: u32,
    order: &[u64],
    i: u64,
    fs: &[ReadField],
) -> Result<(), AllocError>
    ensures { OnOk result (out.new ≡ out.old ++ field_places count order.now i fs.now) }
{
    match fs {
        [] => Ok(()),
        [_, others @ ..] => {
            let place = index_in(i, order)?;
            out.push((count as u64).checked_add(place).ok_or(AllocError)?)?;
            let further = i.checked_add(1).ok_or(AllocError)?;
            push_places(out, count, order, further, others)
        }
    }
}

fn field_places(
    alloc: Global,
    count: u32,
    order: &[u64],
    fs: &[ReadField],
) -> Result<Numbers, AllocError>
    ensures { IfOk result (λ ns. ns ≡ field_places count order.now 0 fs.now) }
{
    let mut out = Numbers::new(alloc);
    push_places(&mut out, count, order, 0, fs)?;
    Ok(out)
}

/// The locus at a place of so many loci, as an index.
fn index_at(all: u32, place: u64) -> Result<Term, AllocError>
    ensures { IfOk result (λ t. t ≡ index_at all place) }
{
    let place = u32::try_from(place).map_err(|_| AllocError)?;
    let behind = place.checked_add(1).ok_or(AllocError)?;
    Ok(Term::bound(all.saturating_sub(behind)))
}

fn indices_at(alloc: Global, all: u32, places: &[u64]) -> Result<Terms, AllocError>
    ensures { IfOk result (λ ts. ts ≡ map (index_at all) places.now) }
{
    let mut out = Vec::new(alloc);
    for place in places {
        out.push(index_at(all, *place)?)?;
    }
    Ok(Terms { items: out })
}

/// The aggregate of the structure's loci, which stand outside the fields, and of the fields at these places.
fn aggregate_of(
    alloc: Global,
    count: u32,
    s: Sym,
    fields: u32,
    places: &[u64],
) -> Result<Term, AllocError>
    ensures { IfOk result (λ t. t ≡ aggregate_of count s fields places.now) }
{
    let all = count.checked_add(fields).ok_or(AllocError)?;
    let mut args = variables(alloc, fields, count as usize)?;
    let mut more = indices_at(alloc, all, places)?;
    args.items.append(&mut more.items)?;
    Ok(Term::apply(s, args))
}

/// The loci of its pattern: the structure's, and then the fields in this order.
fn aggregate_loci(
    alloc: Global,
    loci: &SoftTypes,
    fs: &[ReadField],
    order: &[u64],
    least: u32,
) -> Result<SoftTypes, AllocError>
    ensures { IfOk result (λ tys. tys ≡ aggregate_loci least loci.now fs.now order.now) }
{
    let count = count_of(loci.items.len())?;
    let ordered = selectors_at(alloc, fs, order)?;
    let mut all = loci.copy(alloc)?;
    push_loci(
        alloc,
        &mut all,
        fs,
        order,
        least,
        count,
        ordered.items.as_slice(),
        0,
    )?;
    Ok(all)
}

/// Whether each locus stands under those before it, and the places are those of loci, each another one.
fn are_closed(loci: &SoftTypes, places: &[u64], t: &Term) -> Result<bool, AllocError>
    ensures { IfOk result (λ b. b ≡ are_closed loci.now places.now t.now) }
{
    let count = count_of(loci.items.len())?;
    let closed = loci_closed(loci.items.as_slice())?;
    Ok(
        closed
            && (are_loci(loci.items.len(), places)
                && (are_distinct(places) && term_under(t, count))),
    )
}

fn aggregate_notation(
    alloc: Global,
    symbol: &Text,
    loci: SoftTypes,
    places: Numbers,
    t: Term,
) -> Result<Notation, AllocError>
    ensures { IfOk result (λ x. x ≡ aggregate_notation symbol.now loci places t) }
{
    let v = Visible {
        left: Numbers::new(alloc),
        right: places,
    };
    let pattern = pattern(alloc, Kind::Aggregate, symbol, loci, v)?;
    Ok(Notation {
        pattern,
        meaning: Meaning::OfTerm(t),
    })
}

fn if_closed(
    alloc: Global,
    symbol: &Text,
    loci: SoftTypes,
    places: Numbers,
    t: Term,
) -> Result<Notations, AllocError>
    ensures { IfOk result (λ xs. xs ≡ if_closed symbol.now loci places t) }
{
    let mut out = Notations::new(alloc);
    if are_closed(&loci, places.as_slice(), &t)? {
        out.push(aggregate_notation(alloc, symbol, loci, places, t)?)?;
    }
    Ok(out)
}

fn in_order(
    alloc: Global,
    symbol: &Text,
    loci: &SoftTypes,
    s: Sym,
    fs: &[ReadField],
    order: &[u64],
    least: u32,
    places: Numbers,
) -> Result<Notations, AllocError>
    ensures { IfOk result (λ xs. xs ≡ in_order least symbol.now loci.now s fs.now order.now places) }
{
    let count = count_of(loci.items.len())?;
    let fields = count_of(order.len())?;
    let term = aggregate_of(alloc, count, s, fields, places.as_slice())?;
    let all = aggregate_loci(alloc, loci, fs, order, least)?;
    if_closed(alloc, symbol, all, places, term)
}

fn aggregate_in_order(
    alloc: Global,
    symbol: &Text,
    loci: &SoftTypes,
    s: Sym,
    fs: &[ReadField],
    order: &[u64],
    least: u32,
) -> Result<Notations, AllocError>
    ensures { IfOk result (λ xs. xs ≡ aggregate_in_order least symbol.now loci.now s fs.now order.now) }
{
    let count = count_of(loci.items.len())?;
    let places = field_places(alloc, count, order, fs)?;
    in_order(alloc, symbol, loci, s, fs, order, least, places)
}

/// The notations of the aggregate of a structure with these loci, whose symbol has the spelling: one, where each field's type can be put
/// behind the types of the fields that it speaks of. As the fields were read the loci were the constants from `least` on.
pub fn aggregate_notations(
    alloc: Global,
    symbol: &Text,
    loci: &SoftTypes,
    s: Sym,
    fs: &[ReadField],
    least: u32,
) -> Result<Notations, AllocError>
    ensures { IfOk result (λ xs. xs ≡ aggregate_notations least symbol.now loci.now s fs.now) }
{
    let count = count_of(loci.items.len())?;
    let y = least.checked_add(count).ok_or(AllocError)?;
    let order = kept_order(alloc, fs, y)?;
    aggregate_in_order(alloc, symbol, loci, s, fs, order.as_slice(), least)
}
