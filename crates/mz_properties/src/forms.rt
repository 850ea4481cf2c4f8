//! The property that a word states of an item.
ghost use Rattle.std.specs.Prelude.{◌≡◌, ◌++◌, IfOk, OnOk};
ghost use Rattle.mz_properties.specs.Forms.{of_relation, of_operation, of_unary, index_of, are_alike, if_alike, relation_at, operation_at, unary_at, form_of_literal, form_of_term, visible_in, property_in, literal_property, term_property, property_of};

use mz_base::numbers::Numbers;
use mz_clauses::same_types::same_type;
use mz_core::item::Item;
use mz_core::pattern::Pattern;
use mz_core::property::{Operation, Property, PropertyForm, Relation, UnaryOperation};
use mz_core::soft_types::SoftTypes;
use mz_items::loci::{predicate_on, term_on};
use mz_items::property_rows::locus_type;
use mz_logic::literal::Literal;
use mz_logic::term::Term;
use mz_tree_part::words::PropertyWord;
use std::alloc::{AllocError, Global};

fn of_relation(w: PropertyWord, r: Relation) -> Option<PropertyForm>
    ensures { result ≡ of_relation w r }
{
    match w {
        PropertyWord::Reflexivity => Some(PropertyForm::Reflexivity(r)),
        PropertyWord::Irreflexivity => Some(PropertyForm::Irreflexivity(r)),
        PropertyWord::Symmetry => Some(PropertyForm::Symmetry(r)),
        PropertyWord::Asymmetry => Some(PropertyForm::Asymmetry(r)),
        PropertyWord::Connectedness => Some(PropertyForm::Connectedness(r)),
        PropertyWord::Commutativity => None,
        PropertyWord::Idempotence => None,
        PropertyWord::Involutiveness => None,
        PropertyWord::Projectivity => None,
        PropertyWord::Sethood => None,
    }
}

fn of_operation(w: PropertyWord, o: Operation) -> Option<PropertyForm>
    ensures { result ≡ of_operation w o }
{
    match w {
        PropertyWord::Reflexivity => None,
        PropertyWord::Irreflexivity => None,
        PropertyWord::Symmetry => None,
        PropertyWord::Asymmetry => None,
        PropertyWord::Connectedness => None,
        PropertyWord::Commutativity => Some(PropertyForm::Commutativity(o)),
        PropertyWord::Idempotence => Some(PropertyForm::Idempotence(o)),
        PropertyWord::Involutiveness => None,
        PropertyWord::Projectivity => None,
        PropertyWord::Sethood => None,
    }
}

fn of_unary(w: PropertyWord, o: UnaryOperation) -> Option<PropertyForm>
    ensures { result ≡ of_unary w o }
{
    match w {
        PropertyWord::Reflexivity => None,
        PropertyWord::Irreflexivity => None,
        PropertyWord::Symmetry => None,
        PropertyWord::Asymmetry => None,
        PropertyWord::Connectedness => None,
        PropertyWord::Commutativity => None,
        PropertyWord::Idempotence => None,
        PropertyWord::Involutiveness => Some(PropertyForm::Involutiveness(o)),
        PropertyWord::Projectivity => Some(PropertyForm::Projectivity(o)),
        PropertyWord::Sethood => None,
    }
}

/// The index of the locus at a place, of so many loci. More than 4,294,967,295 are as no memory.
fn index_of(count: usize, place: u64) -> Result<u32, AllocError>
    ensures { IfOk result (λ n. n ≡ index_of count place) }
{
    let next = place.checked_add(1).ok_or(AllocError)?;
    u32::try_from((count as u64).saturating_sub(next)).map_err(|_| AllocError)
}

fn are_alike(alloc: Global, loci: &SoftTypes, x: u64, y: u64) -> Result<bool, AllocError>
    ensures { IfOk result (λ b. b ≡ are_alike loci.now x y) }
{
    let x = index_of(loci.items.len(), x)?;
    let y = index_of(loci.items.len(), y)?;
    let t = locus_type(alloc, loci, x)?;
    let u = locus_type(alloc, loci, y)?;
    Ok(same_type(&t, &u))
}

fn relation_at(loci: &SoftTypes, l: Literal, x: u64, y: u64) -> Result<Relation, AllocError>
    ensures { IfOk result (λ r. r ≡ relation_at loci.now l x y) }
{
    let left = index_of(loci.items.len(), x)?;
    let right = index_of(loci.items.len(), y)?;
    Ok(Relation {
        literal: l,
        left,
        right,
    })
}

fn operation_at(loci: &SoftTypes, t: Term, x: u64, y: u64) -> Result<Operation, AllocError>
    ensures { IfOk result (λ o. o ≡ operation_at loci.now t x y) }
{
    let left = index_of(loci.items.len(), x)?;
    let right = index_of(loci.items.len(), y)?;
    Ok(Operation {
        term: t,
        left,
        right,
    })
}

fn unary_at(loci: &SoftTypes, t: Term, x: u64) -> Result<UnaryOperation, AllocError>
    ensures { IfOk result (λ o. o ≡ unary_at loci.now t x) }
{
    let place = index_of(loci.items.len(), x)?;
    Ok(UnaryOperation { term: t, place })
}

fn relation_form(
    w: PropertyWord,
    loci: &SoftTypes,
    l: Literal,
    x: u64,
    y: u64,
) -> Result<Option<PropertyForm>, AllocError>
    ensures { IfOk result (λ f. f ≡ of_relation w (relation_at loci.now l x y)) }
{
    let r = relation_at(loci, l, x, y)?;
    Ok(of_relation(w, r))
}

fn operation_form(
    w: PropertyWord,
    loci: &SoftTypes,
    t: Term,
    x: u64,
    y: u64,
) -> Result<Option<PropertyForm>, AllocError>
    ensures { IfOk result (λ f. f ≡ of_operation w (operation_at loci.now t x y)) }
{
    let o = operation_at(loci, t, x, y)?;
    Ok(of_operation(w, o))
}

fn unary_form(
    w: PropertyWord,
    loci: &SoftTypes,
    t: Term,
    x: u64,
) -> Result<Option<PropertyForm>, AllocError>
    ensures { IfOk result (λ f. f ≡ of_unary w (unary_at loci.now t x)) }
{
    let o = unary_at(loci, t, x)?;
    Ok(of_unary(w, o))
}

fn relation_if_alike(
    alloc: Global,
    w: PropertyWord,
    loci: &SoftTypes,
    l: Literal,
    x: u64,
    y: u64,
) -> Result<Option<PropertyForm>, AllocError>
    ensures { IfOk result (λ f. f ≡ if_alike loci.now x y (of_relation w (relation_at loci.now l x y))) }
{
    let alike = are_alike(alloc, loci, x, y)?;
    if alike {
        relation_form(w, loci, l, x, y)
    } else {
        Ok(None)
    }
}

fn operation_if_alike(
    alloc: Global,
    w: PropertyWord,
    loci: &SoftTypes,
    t: Term,
    x: u64,
    y: u64,
) -> Result<Option<PropertyForm>, AllocError>
    ensures { IfOk result (λ f. f ≡ if_alike loci.now x y (of_operation w (operation_at loci.now t x y))) }
{
    let alike = are_alike(alloc, loci, x, y)?;
    if alike {
        operation_form(w, loci, t, x, y)
    } else {
        Ok(None)
    }
}

fn form_of_literal(
    alloc: Global,
    w: PropertyWord,
    loci: &SoftTypes,
    l: Literal,
    places: &[u64],
) -> Result<Option<PropertyForm>, AllocError>
    ensures { IfOk result (λ f. f ≡ form_of_literal w loci.now l places.now) }
{
    match places {
        [] => Ok(None),
        [x, others @ ..] => match others {
            [] => Ok(None),
            [y, further @ ..] => match further {
                [] => relation_if_alike(alloc, w, loci, l, *x, *y),
                [_, ..] => Ok(None),
            },
        },
    }
}

fn form_of_term(
    alloc: Global,
    w: PropertyWord,
    loci: &SoftTypes,
    t: Term,
    places: &[u64],
) -> Result<Option<PropertyForm>, AllocError>
    ensures { IfOk result (λ f. f ≡ form_of_term w loci.now t places.now) }
{
    match places {
        [] => Ok(None),
        [x, others @ ..] => match others {
            [] => unary_form(w, loci, t, *x),
            [y, further @ ..] => match further {
                [] => operation_if_alike(alloc, w, loci, t, *x, *y),
                [_, ..] => Ok(None),
            },
        },
    }
}

fn put_places(out: &mut Numbers, places: &[u64]) -> Result<(), AllocError>
    ensures { OnOk result (out.new ≡ out.old ++ places.now) }
{
    out.items.extend_from_slice(places)
}

/// The places of the visible loci, in the order of the text.
fn visible_in(alloc: Global, p: &Pattern) -> Result<Numbers, AllocError>
    ensures { IfOk result (λ ns. ns ≡ visible_in p.now) }
{
    let mut out = Numbers::from_slice(alloc, p.left.as_slice())?;
    put_places(&mut out, p.right.as_slice())?;
    Ok(out)
}

fn property_in(loci: SoftTypes, f: Option<PropertyForm>) -> Option<Property>
    ensures { result ≡ property_in loci f }
{
    match f {
        None => None,
        Some(form) => Some(Property { loci, form }),
    }
}

fn literal_property(
    alloc: Global,
    w: PropertyWord,
    p: &Pattern,
    l: Literal,
) -> Result<Option<Property>, AllocError>
    ensures { IfOk result (λ o. o ≡ literal_property w p.now l) }
{
    let loci = p.loci.copy(alloc)?;
    let places = visible_in(alloc, p)?;
    let f = form_of_literal(alloc, w, &p.loci, l, places.as_slice())?;
    Ok(property_in(loci, f))
}

fn term_property(
    alloc: Global,
    w: PropertyWord,
    p: &Pattern,
    t: Term,
) -> Result<Option<Property>, AllocError>
    ensures { IfOk result (λ o. o ≡ term_property w p.now t) }
{
    let loci = p.loci.copy(alloc)?;
    let places = visible_in(alloc, p)?;
    let f = form_of_term(alloc, w, &p.loci, t, places.as_slice())?;
    Ok(property_in(loci, f))
}

/// The property that the word states of an item. There is none where the word is no property of the item's kind, or where its pattern has other
/// visible loci than the property wants: two of the same type, and for `involutiveness` and `projectivity` one.
///
/// # Errors
/// `AllocError` for want of memory.
pub fn property_of(alloc: Global, w: PropertyWord, x: &Item) -> Result<Option<Property>, AllocError>
    ensures { IfOk result (λ o. o ≡ property_of w x.now) }
{
    match x {
        Item::FunctorMeans(d) => {
            let t = term_on(alloc, &d.pattern.loci, d.sym)?;
            term_property(alloc, w, &d.pattern, t)
        }
        Item::FunctorEquals(d) => {
            let t = term_on(alloc, &d.pattern.loci, d.sym)?;
            term_property(alloc, w, &d.pattern, t)
        }
        Item::Predicate(d) => {
            let l = predicate_on(alloc, &d.pattern.loci, d.sym)?;
            literal_property(alloc, w, &d.pattern, l)
        }
        Item::RedefinedFunctor(d) => {
            let t = d.term.copy(alloc)?;
            term_property(alloc, w, &d.pattern, t)
        }
        Item::RedefinedPredicate(d) => {
            let l = d.literal.copy(alloc)?;
            literal_property(alloc, w, &d.pattern, l)
        }
        _ => Ok(None),
    }
}
