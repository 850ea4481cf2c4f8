//! The listing.
ghost use Rattle.std.specs.Prelude.{◌≡◌, ◌++◌, OnOk, IfOk};
ghost use Rattle.std.specs.List.{flat_map};
ghost use Rattle.mz_logic.specs.Text.{formula_text};
ghost use Rattle.mz_items.specs.Items.{owes, grants};
ghost use Rattle.mz_listing.specs.Listing.{kind_text, head_text, further_text, premises_text, owed_line, grant_line, item_lines, export_lines, is_export_of, named_lines, listing_text};

use mz_axioms::exports::Exports;
use mz_base::name::Name;
use mz_base::text::Text;
use mz_core::item::Item;
use mz_core::outcome::Export;
use mz_corpus::ordering::Ordering;
use mz_items::granted::grants;
use mz_items::owed::owes;
use mz_logic::formula::Formula;
use mz_logic::formulas::Formulas;
use mz_logic::sequent::Sequent;
use mz_logic::sequents::Sequents;
use mz_logic::texts::push_formula;
use std::alloc::{AllocError, Global};

/// The word for an item's kind.
pub fn kind_text(item: &Item) -> &'static [u8]
    ensures { result.now ≡ kind_text item.now }
{
    match item {
        Item::Axiom(_) | Item::Theorem(_) => b"theorem".as_slice(),
        Item::AxiomScheme(_) | Item::Scheme(_) => b"scheme".as_slice(),
        Item::FunctorMeans(_) | Item::FunctorEquals(_) => b"func".as_slice(),
        Item::SetTerm(_) | Item::Choice(_) => b"func".as_slice(),
        Item::Predicate(_) => b"pred".as_slice(),
        Item::Attribute(_) => b"attr".as_slice(),
        Item::ModeMeans(_) => b"mode".as_slice(),
        Item::Abbreviation(_) => b"abbreviation".as_slice(),
        Item::Primitive(_) | Item::Notation(_) => b"notation".as_slice(),
        Item::RedefinedFunctor(_) | Item::RedefinedMode(_) => b"redefine".as_slice(),
        Item::RedefinedPredicate(_) | Item::RedefinedAttribute(_) => b"redefine".as_slice(),
        Item::Property(_) => b"property".as_slice(),
        Item::Existential(_) | Item::Conditional(_) | Item::Functorial(_) => {
            b"registration".as_slice()
        }
        Item::Reduction(_) | Item::Identification(_) => b"registration".as_slice(),
        Item::Structure(_) => b"struct".as_slice(),
    }
}

/// The article's name and the item's number, with a space behind each.
fn head_text(alloc: Global, name: &Name, number: usize) -> Result<Text, AllocError>
    ensures { IfOk result (λ text. text ≡ head_text name.now number) }
{
    let digits = format!(in alloc; " {number} ")?;
    let mut text = name.text(alloc)?;
    text.extend_from_slice(digits.as_bytes())?;
    Ok(text)
}

fn push_one(alloc: Global, text: &mut Text, f: &Formula) -> Result<(), AllocError>
    ensures { OnOk result (text.new ≡ text.old ++ formula_text f.now) }
{
    push_formula(alloc, &mut text.items, f)
}

fn push_further(alloc: Global, text: &mut Text, f: &Formula) -> Result<(), AllocError>
    ensures { OnOk result (text.new ≡ text.old ++ further_text f.now) }
{
    text.extend_from_slice(b", ")?;
    push_one(alloc, text, f)
}

fn push_all_further(alloc: Global, text: &mut Text, fs: &[Formula]) -> Result<(), AllocError>
    ensures { OnOk result (text.new ≡ text.old ++ flat_map further_text fs.now) }
{
    for f in fs {
        push_further(alloc, text, f)?;
    }
    Ok(())
}

/// Adds the premises, with a comma and a space between and a space behind; nothing where there are none.
fn push_premises(alloc: Global, text: &mut Text, premises: &Formulas) -> Result<(), AllocError>
    ensures { OnOk result (text.new ≡ text.old ++ premises_text premises.now) }
{
    match premises.items.as_slice() {
        [] => Ok(()),
        [first, rest @ ..] => {
            push_one(alloc, text, first)?;
            push_all_further(alloc, text, rest)?;
            text.push(b' ')
        }
    }
}

/// Adds the line of a sequent that is owed.
fn push_owed(
    alloc: Global,
    text: &mut Text,
    head: &Text,
    kind: &[u8],
    s: &Sequent,
) -> Result<(), AllocError>
    ensures { OnOk result (text.new ≡ text.old ++ owed_line head.now kind.now s.now) }
{
    text.extend_from_slice(head.as_slice())?;
    text.extend_from_slice(kind)?;
    text.push(b' ')?;
    push_premises(alloc, text, &s.premises)?;
    text.extend_from_slice(b"|- ")?;
    push_one(alloc, text, &s.conclusion)?;
    text.push(b'\n')
}

fn push_all_owed(
    alloc: Global,
    text: &mut Text,
    head: &Text,
    kind: &[u8],
    ss: &Sequents,
) -> Result<(), AllocError>
    ensures { OnOk result (text.new ≡ text.old ++ flat_map (owed_line head.now kind.now) ss.now) }
{
    for s in &ss.items {
        push_owed(alloc, text, head, kind, s)?;
    }
    Ok(())
}

/// Adds the line of a formula that is granted.
fn push_grant(alloc: Global, text: &mut Text, head: &Text, f: &Formula) -> Result<(), AllocError>
    ensures { OnOk result (text.new ≡ text.old ++ grant_line head.now f.now) }
{
    text.extend_from_slice(head.as_slice())?;
    text.extend_from_slice(b"grant ")?;
    push_one(alloc, text, f)?;
    text.push(b'\n')
}

fn push_all_grants(
    alloc: Global,
    text: &mut Text,
    head: &Text,
    fs: &Formulas,
) -> Result<(), AllocError>
    ensures { OnOk result (text.new ≡ text.old ++ flat_map (grant_line head.now) fs.now) }
{
    for f in &fs.items {
        push_grant(alloc, text, head, f)?;
    }
    Ok(())
}

/// Adds the lines of an item: of each sequent that it owes, and of each formula that it grants.
fn push_item(
    alloc: Global,
    text: &mut Text,
    name: &Name,
    number: usize,
    item: &Item,
) -> Result<(), AllocError>
    ensures { OnOk result (text.new ≡ text.old ++ item_lines name.now number item.now) }
{
    let head = head_text(alloc, name, number)?;
    let owed = owes(alloc, item)?;
    push_all_owed(alloc, text, &head, kind_text(item), &owed)?;
    let granted = grants(alloc, item)?;
    push_all_grants(alloc, text, &head, &granted)
}

/// Adds the lines of an article's items, which are numbered from 1.
fn push_export(alloc: Global, text: &mut Text, export: &Export) -> Result<(), AllocError>
    ensures { OnOk result (text.new ≡ text.old ++ export_lines export.now) }
{
    for (i, item) in export.items.items.iter().enumerate() {
        push_item(alloc, text, &export.name, i + 1, item)?;
    }
    Ok(())
}

fn is_export_of(name: &Name, export: &Export) -> bool
    ensures { result ≡ is_export_of name.now export.now }
{
    name.number() == export.name.number()
}

/// Adds the lines of the article of this name; none where it has no export.
fn push_named(
    alloc: Global,
    text: &mut Text,
    exports: &Exports,
    name: &Name,
) -> Result<(), AllocError>
    ensures { OnOk result (text.new ≡ text.old ++ named_lines exports.now name.now) }
{
    for i in 0..exports.len() {
        let export = exports.get(i);
        if is_export_of(name, export) {
            return push_export(alloc, text, export);
        }
    }
    Ok(())
}

fn push_all_named(
    alloc: Global,
    text: &mut Text,
    exports: &Exports,
    names: &[Name],
) -> Result<(), AllocError>
    ensures { OnOk result (text.new ≡ text.old ++ flat_map (named_lines exports.now) names.now) }
{
    for name in names {
        push_named(alloc, text, exports, name)?;
    }
    Ok(())
}

/// The listing of the exports, for the names in the order, and then for those of the rest: for each item, numbered from 1,
/// a line `NAME ITEM KIND P1, P2 |- F` for each sequent that it owes, `NAME ITEM KIND |- F` without premises, and a line
/// `NAME ITEM grant F` for each formula that it grants. A name without an export has no line.
pub fn listing(alloc: Global, order: &Ordering, exports: &Exports) -> Result<Text, AllocError>
    ensures { IfOk result (λ text. text ≡ listing_text order.now exports.now) }
{
    let mut text = Text::new(alloc);
    push_all_named(alloc, &mut text, exports, order.order.as_slice())?;
    push_all_named(alloc, &mut text, exports, order.rest.as_slice())?;
    Ok(text)
}
