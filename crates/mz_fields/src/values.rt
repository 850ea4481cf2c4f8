//! What stands for the fields of a structure's object in their types. A number above 4,294,967,295 is as no memory.
ghost use Rattle.std.specs.Prelude.{◌≡◌, IfOk, map};
ghost use Rattle.mz_fields.specs.Values.{place_of, is_constant, is_object, field_at, value_or, with_values, adjective_with_values, radix_with_values, type_with_values};

use mz_core::adjective::Adjective;
use mz_core::adjectives::Adjectives;
use mz_core::radix::Radix;
use mz_core::soft_type::SoftType;
use mz_logic::sym::Sym;
use mz_logic::term::{Term, TermNode, Terms};
use std::alloc::{AllocError, Global};

/// The place of a selector among those of the fields, from 0, where it is one of them.
#[tactic(auto, using(crate::proofs::ValueLemmas::place_rules))]
pub fn place_of(s: Sym, selectors: &[Sym]) -> Option<usize>
    ensures { result ≡ place_of s selectors.now }
{
    let mut rest = selectors;
    let mut place = 0;
    while let Some((t, others)) = rest.split_first() {
        if t.is(s) {
            return Some(place);
        }
        place += 1;
        rest = others;
    }
    None
}

fn is_constant(t: &Term, y: u32) -> bool
    ensures { result ≡ is_constant y t.now }
{
    match &t.node {
        TermNode::Bound(_) => false,
        TermNode::Const(number) => *number == y,
        TermNode::App(_, _) => false,
    }
}

#[tactic(auto, using(crate::proofs::ValueLemmas::object_rules))]
fn is_object(ts: &[Term], y: u32) -> bool
    ensures { result ≡ is_object y ts.now }
{
    match ts.split_first() {
        None => false,
        Some((t, others)) => {
            if others.len() == 0 {
                is_constant(t, y)
            } else {
                false
            }
        }
    }
}

fn field_at(s: Sym, ts: &[Term], y: u32, selectors: &[Sym]) -> Option<usize>
    ensures { result ≡ field_at y selectors.now s ts.now }
{
    if is_object(ts, y) {
        place_of(s, selectors)
    } else {
        None
    }
}

fn value_or(first: u32, place: Option<usize>, t: Term) -> Result<Term, AllocError>
    ensures { IfOk result (λ u. u ≡ value_or first place t) }
{
    match place {
        None => Ok(t),
        Some(k) => {
            let k = u32::try_from(k).map_err(|_| AllocError)?;
            let number = first.checked_add(k).ok_or(AllocError)?;
            Ok(Term::constant(number))
        }
    }
}

/// The term, in which for each selector of the object, the constant y, stands the constant of the field's value. The values are the
/// constants from `first` on, in the order of the selectors.
#[cycle(values)]
#[tactic(auto, using(crate::proofs::ValueLemmas::value_rules))]
pub fn with_values(
    alloc: Global,
    t: &Term,
    y: u32,
    first: u32,
    selectors: &[Sym],
) -> Result<Term, AllocError>
    ensures { IfOk result (λ u. u ≡ with_values y first selectors.now t.now) }
{
    match &t.node {
        TermNode::Bound(index) => Ok(Term::bound(*index)),
        TermNode::Const(number) => Ok(Term::constant(*number)),
        TermNode::App(s, ts) => {
            let place = field_at(*s, ts.items.as_slice(), y, selectors);
            let us = terms_with_values(alloc, ts, y, first, selectors)?;
            value_or(first, place, Term::apply(*s, us))
        }
    }
}

#[cycle(values)]
fn terms_with_values(
    alloc: Global,
    ts: &Terms,
    y: u32,
    first: u32,
    selectors: &[Sym],
) -> Result<Terms, AllocError>
    ensures { IfOk result (λ us. us ≡ map (with_values y first selectors.now) ts.now) }
{
    let mut out = Vec::new(alloc);
    for t in &ts.items {
        out.push(with_values(alloc, t, y, first, selectors)?)?;
    }
    Ok(Terms { items: out })
}

fn adjective_with_values(
    alloc: Global,
    a: &Adjective,
    y: u32,
    first: u32,
    selectors: &[Sym],
) -> Result<Adjective, AllocError>
    ensures { IfOk result (λ b. b ≡ adjective_with_values y first selectors.now a.now) }
{
    let args = terms_with_values(alloc, &a.args, y, first, selectors)?;
    Ok(Adjective {
        positive: a.positive,
        sym: a.sym,
        args,
    })
}

fn adjectives_with_values(
    alloc: Global,
    xs: &Adjectives,
    y: u32,
    first: u32,
    selectors: &[Sym],
) -> Result<Adjectives, AllocError>
    ensures { IfOk result (λ ys. ys ≡ map (adjective_with_values y first selectors.now) xs.now) }
{
    let mut out = Vec::new(alloc);
    for a in &xs.items {
        out.push(adjective_with_values(alloc, a, y, first, selectors)?)?;
    }
    Ok(Adjectives { items: out })
}

fn radix_with_values(
    alloc: Global,
    r: &Radix,
    y: u32,
    first: u32,
    selectors: &[Sym],
) -> Result<Radix, AllocError>
    ensures { IfOk result (λ q. q ≡ radix_with_values y first selectors.now r.now) }
{
    let args = terms_with_values(alloc, &r.args, y, first, selectors)?;
    Ok(Radix { sym: r.sym, args })
}

/// The same of each term of a type.
pub fn type_with_values(
    alloc: Global,
    ty: &SoftType,
    y: u32,
    first: u32,
    selectors: &[Sym],
) -> Result<SoftType, AllocError>
    ensures { IfOk result (λ t. t ≡ type_with_values y first selectors.now ty.now) }
{
    let adjectives = adjectives_with_values(alloc, &ty.adjectives, y, first, selectors)?;
    let radix = radix_with_values(alloc, &ty.radix, y, first, selectors)?;
    Ok(SoftType { adjectives, radix })
}
