//! The selectors that a structure has of its ancestors.
ghost use Rattle.std.specs.Prelude.{◌≡◌, ◌&&◌, ◌++◌, ◌∷◌, [], flat_map, map, IfOk, OnOk, OnErr};
ghost use Rattle.std.specs.List.{list_all, list_any};
ghost use Rattle.std.specs.Arc.{arc_value};
ghost use Rattle.mz_types.specs.Structures.{is_structure, structure_of};
ghost use Rattle.mz_structure_items.specs.Selectors.{named, selector_in_term, selector_in, is_selector_kind, selectors_of_notation, selectors_if_any, selectors_of_type, is_named, selector_named, is_symbol, has_spelling, is_field, are_fields};

use mz_base::text::Text;
use mz_core::notation::{Meaning, Notation};
use mz_core::soft_type::SoftType;
use mz_core::structure::Structure;
use mz_environment::structures::Structures;
use mz_logic::kind::Kind;
use mz_logic::sym::Sym;
use mz_logic::term::{Term, TermNode};
use std::alloc::{AllocError, Global};
use std::marker::Model;
use std::sync::Arc;

/// A selector with its spelling.
pub struct NamedSelector {
    pub name: Text,
    pub selector: Sym,
}

impl Drop for NamedSelector {
    fn drop(self) {
        let NamedSelector {
            name: _name,
            selector: _selector,
        } = self;
    }
}

/// Selectors with their spellings, in their order.
pub struct NamedSelectors {
    pub items: Vec<NamedSelector>,
}

impl Drop for NamedSelectors {
    fn drop(self) {
        let NamedSelectors { items: _items } = self;
    }
}

impl Model for NamedSelectors {
    ghost use Rattle.std.specs.Prelude.{List};
    ghost use Rattle.std.specs.Coded.{coded_list};
    ghost use Rattle.mz_structure_items.specs.declared.selectors.NamedSelector.{NamedSelector};
    ghost use Rattle.mz_structure_items.specs.contracts.selectors.NamedSelector.{the_row};

    ghost Value = { List NamedSelector };

    ghost coded = { coded_list the_row.coded };

    ghost view = { λ a. a.items.items };
}

impl NamedSelectors {
    /// None.
    pub fn new(alloc: Global) -> NamedSelectors
        ensures { result ≡ [] }
    {
        NamedSelectors {
            items: Vec::new(alloc),
        }
    }

    /// Puts one at the end.
    pub fn push(&mut self, x: NamedSelector) -> Result<(), AllocError>
        ensures ok { OnOk result (self.new ≡ self.old ++ x ∷ []) }
        ensures err { OnErr result (self.new ≡ self.old) }
    {
        self.items.push(x)?;
        Ok(())
    }
}

fn push_named(
    alloc: Global,
    out: &mut NamedSelectors,
    name: &Text,
    selector: Sym,
) -> Result<(), AllocError>
    ensures { OnOk result (out.new ≡ out.old ++ named name.now selector ∷ []) }
{
    let name = name.copy(alloc)?;
    out.push(NamedSelector { name, selector })
}

/// Puts selectors behind the others.
pub fn push_selectors(
    alloc: Global,
    out: &mut NamedSelectors,
    xs: &[NamedSelector],
) -> Result<(), AllocError>
    ensures { OnOk result (out.new ≡ out.old ++ xs.now) }
{
    match xs {
        [] => Ok(()),
        [x, others @ ..] => {
            push_named(alloc, out, &x.name, x.selector)?;
            push_selectors(alloc, out, others)
        }
    }
}

fn push_in_term(
    alloc: Global,
    out: &mut NamedSelectors,
    name: &Text,
    t: &Term,
) -> Result<(), AllocError>
    ensures { OnOk result (out.new ≡ out.old ++ selector_in_term name.now t.now) }
{
    match &t.node {
        TermNode::Bound(_) => Ok(()),
        TermNode::Const(_) => Ok(()),
        TermNode::App(s, _) => push_named(alloc, out, name, *s),
    }
}

fn push_in(
    alloc: Global,
    out: &mut NamedSelectors,
    name: &Text,
    m: &Meaning,
) -> Result<(), AllocError>
    ensures { OnOk result (out.new ≡ out.old ++ selector_in name.now m.now) }
{
    match m {
        Meaning::OfTerm(t) => push_in_term(alloc, out, name, t),
        Meaning::OfLiteral(_) => Ok(()),
        Meaning::OfType(_) => Ok(()),
    }
}

fn is_selector(kind: Kind) -> bool
    ensures { result ≡ is_selector_kind kind }
{
    match kind {
        Kind::Selector => true,
        _ => false,
    }
}

/// Puts the selector that a notation is of behind the others, if it is of one.
fn push_of_notation(alloc: Global, out: &mut NamedSelectors, x: &Notation) -> Result<(), AllocError>
    ensures { OnOk result (out.new ≡ out.old ++ selectors_of_notation x.now) }
{
    if is_selector(x.pattern.kind) {
        push_in(alloc, out, &x.pattern.symbol, &x.meaning)
    } else {
        Ok(())
    }
}

fn push_of_notations(
    alloc: Global,
    out: &mut NamedSelectors,
    xs: &[Notation],
) -> Result<(), AllocError>
    ensures { OnOk result (out.new ≡ out.old ++ flat_map selectors_of_notation xs.now) }
{
    match xs {
        [] => Ok(()),
        [x, others @ ..] => {
            push_of_notation(alloc, out, x)?;
            push_of_notations(alloc, out, others)
        }
    }
}

fn is_of(x: &Structure, s: Sym) -> bool
    ensures { result ≡ is_structure s x.now }
{
    x.sym.is(s)
}

/// Puts the selectors of the first of the structures with the symbol behind the others.
fn push_of_first(
    alloc: Global,
    out: &mut NamedSelectors,
    all: &[Arc<Structure>],
    s: Sym,
) -> Result<(), AllocError>
    ensures { OnOk result (out.new ≡ out.old ++ selectors_if_any (structure_of (map arc_value all.now) s)) }
{
    match all {
        [] => Ok(()),
        [x, others @ ..] => {
            let first: &Structure = x;
            if is_of(first, s) {
                push_of_notations(alloc, out, first.notations.items.as_slice())
            } else {
                push_of_first(alloc, out, others, s)
            }
        }
    }
}

/// The selectors of the structure that the type's radix is, if it is one, with their spellings.
pub fn selectors_of_type(
    alloc: Global,
    all: &Structures,
    ty: &SoftType,
) -> Result<NamedSelectors, AllocError>
    ensures { IfOk result (λ xs. xs ≡ selectors_of_type all.now ty.now) }
{
    let mut out = NamedSelectors::new(alloc);
    let s = ty.radix.sym;
    push_of_first(alloc, &mut out, all.of(s), s)?;
    Ok(out)
}

fn is_named(x: &NamedSelector, name: &[u8]) -> bool
    ensures { result ≡ is_named name.now x.now }
{
    x.name.as_slice() == name
}

/// The first of the selectors with the name.
pub fn selector_named(xs: &[NamedSelector], name: &[u8]) -> Option<Sym>
    ensures { result ≡ selector_named name.now xs.now }
{
    match xs {
        [] => None,
        [x, others @ ..] => {
            if is_named(x, name) {
                Some(x.selector)
            } else {
                selector_named(others, name)
            }
        }
    }
}

fn is_symbol(s: Sym, o: Option<Sym>) -> bool
    ensures { result ≡ is_symbol s o }
{
    match o {
        None => false,
        Some(t) => t.is(s),
    }
}

fn has_spelling(name: &[u8], other: &Text) -> bool
    ensures { result ≡ has_spelling name.now other.now }
{
    other.as_slice() == name
}

/// Whether one of the spellings is this one.
pub fn are_spelled(names: &[Text], name: &[u8]) -> bool
    ensures { result ≡ list_any (has_spelling name.now) names.now }
{
    for other in names {
        if has_spelling(name, other) {
            return true;
        }
    }
    false
}

fn is_field(names: &[Text], inherited: &[NamedSelector], x: &NamedSelector) -> bool
    ensures { result ≡ is_field names.now inherited.now x.now }
{
    are_spelled(names, x.name.as_slice())
        && is_symbol(x.selector, selector_named(inherited, x.name.as_slice()))
}

/// Whether each of these selectors is the first of the inherited ones with its name, and there is a field with that name.
pub fn are_fields(names: &[Text], inherited: &[NamedSelector], xs: &[NamedSelector]) -> bool
    ensures { result ≡ are_fields names.now inherited.now xs.now }
{
    for x in xs {
        if !is_field(names, inherited, x) {
            return false;
        }
    }
    true
}
