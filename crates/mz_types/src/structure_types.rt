//! Structures, their fields and aggregates at arguments.
ghost use Rattle.std.specs.Prelude.{◌≡◌, ◌↔◌, ◌++◌, ◌∷◌, [], None, Some, length, map, reverse, take, drop, find, option_copied, IfOk, IsTrue};
ghost use Rattle.std.specs.Arc.{arc_value};
ghost use Rattle.mz_items.specs.StructureRows.{selected, field_values};
ghost use Rattle.mz_types.specs.Structures.{is_structure, has_aggregate, has_selector, structure_of, made_by, field_radix, MemberGives, FirstGives, FieldsFit, given_values, AggregateFits, made_radix, AggregateGives, ancestors_at, AncestorsGive};

use crate::radices::Radixes;
use crate::row_types::{radix_at, reversed};
use mz_context::constants::Constants;
use mz_core::radix::Radix;
use mz_core::structure::{Field, Structure};
use mz_environment::structures::Structures;
use mz_fits::fits::{loci_fit, type_at, type_fits};
use mz_ground::clause::Clause;
use mz_logic::sym::Sym;
use mz_logic::term::{Term, Terms};
use std::alloc::{AllocError, Global};
use std::sync::Arc;

fn is_structure(s: Sym, x: &Structure) -> bool
    ensures { result ≡ is_structure s x.now }
{
    x.sym.is(s)
}

/// The first of the structures with the symbol.
#[tactic(auto, using(crate::proofs::FindLemmas::first_rules))]
fn named_in(all: &[Arc<Structure>], s: Sym) -> Option<&Structure>
    ensures { option_copied result ≡ structure_of (map arc_value all.now) s }
{
    let mut rest = all;
    while let Some((x, others)) = rest.split_first() {
        let first: &Structure = x;
        if is_structure(s, first) {
            return Some(first);
        }
        rest = others;
    }
    None
}

#[tactic(auto, using(crate::proofs::FindLemmas::told_own))]
fn structure_of(all: &Structures, s: Sym) -> Option<&Structure>
    ensures { option_copied result ≡ structure_of all.now s }
{
    let found = named_in(all.of(s), s);
    found
}

fn has_aggregate(s: Sym, x: &Structure) -> bool
    ensures { result ≡ has_aggregate s x.now }
{
    x.aggregate.is(s)
}

/// The first of the structures whose aggregate's symbol it is.
#[tactic(auto, using(crate::proofs::FindLemmas::first_rules))]
fn made_in(all: &[Arc<Structure>], s: Sym) -> Option<&Structure>
    ensures { option_copied result ≡ made_by (map arc_value all.now) s }
{
    let mut rest = all;
    while let Some((x, others)) = rest.split_first() {
        let first: &Structure = x;
        if has_aggregate(s, first) {
            return Some(first);
        }
        rest = others;
    }
    None
}

fn made_by(all: &Structures, s: Sym) -> Option<&Structure>
    ensures { option_copied result ≡ made_by all.now s }
{
    let found = made_in(all.as_slice(), s);
    found
}

fn has_selector(s: Sym, f: &Field) -> bool
    ensures { result ≡ has_selector s f.now }
{
    f.selector.is(s)
}

fn field_of(fields: &[Field], s: Sym) -> Option<&Field>
    ensures { option_copied result ≡ find (has_selector s) fields.now }
{
    fields.iter().find(|f| has_selector(s, f))
}

/// The selector's term on an object.
fn selected(alloc: Global, t: &Term, f: &Field) -> Result<Term, AllocError>
    ensures { IfOk result (λ u. u ≡ selected t.now f.now) }
{
    let mut args = Terms::new(alloc);
    args.push(t.copy(alloc)?)?;
    Ok(Term::apply(f.selector, args))
}

fn copied(alloc: Global, ts: &[Term]) -> Result<Terms, AllocError>
    ensures { IfOk result (λ us. us ≡ ts.now) }
{
    let mut out = Terms::new(alloc);
    for t in ts {
        out.push(t.copy(alloc)?)?;
    }
    Ok(out)
}

/// What stands for the indices of a field's type: the values of the fields from the last to the first, the object, the
/// loci's values from the innermost outward.
fn field_values(alloc: Global, values: Terms, t: &Term, loci: &[Term]) -> Result<Terms, AllocError>
    ensures { IfOk result (λ ts. ts ≡ field_values (reverse values) t.now (reverse loci.now)) }
{
    let mut out = reversed(values);
    out.push(t.copy(alloc)?)?;
    let mut inward = reversed(copied(alloc, loci)?);
    out.items.append(&mut inward.items)?;
    Ok(out)
}

fn all_selected(alloc: Global, t: &Term, fields: &[Field]) -> Result<Terms, AllocError>
    ensures { IfOk result (λ ts. ts ≡ map (selected t.now) fields.now) }
{
    let mut out = Terms::new(alloc);
    for f in fields {
        out.push(selected(alloc, t, f)?)?;
    }
    Ok(out)
}

/// The radix of a field's type for an object of the structure at these arguments.
#[tactic(auto, using(crate::proofs::StructureLemmas::told_radix))]
fn field_radix(
    alloc: Global,
    x: &Structure,
    args: &[Term],
    t: &Term,
    f: &Field,
) -> Result<Radix, AllocError>
    ensures { IfOk result (λ r. r ≡ field_radix x.now args.now t.now f.now) }
{
    let selections = all_selected(alloc, t, x.fields.items.as_slice())?;
    let values = field_values(alloc, selections, t, args)?;
    let at = type_at(alloc, &values, &f.ty)?;
    Ok(at.radix)
}

/// The radix of the field's type that a member of a chain has for the selector.
#[tactic(auto, using(crate::proofs::StructureLemmas::member_rules))]
fn member_gives(
    alloc: Global,
    clauses: &[Clause],
    constants: &Constants,
    all: &Structures,
    s: Sym,
    t: &Term,
    r: &Radix,
) -> Result<Option<Radix>, AllocError>
    ensures { IfOk result (λ o. MemberGives clauses.now constants.now all.now s t.now r.now o) }
{
    match structure_of(all, r.sym) {
        None => Ok(None),
        Some(x) => match field_of(x.fields.items.as_slice(), s) {
            None => Ok(None),
            Some(f) => {
                let args = r.args.items.as_slice();
                if !loci_fit(alloc, clauses, constants, x.loci.items.as_slice(), args)? {
                    return Ok(None);
                }
                let radix = field_radix(alloc, x, args, t, f)?;
                Ok(Some(radix))
            }
        },
    }
}

/// That of the first member that gives one.
#[tactic(auto, using(crate::proofs::StructureLemmas::first_rules))]
pub fn first_gives(
    alloc: Global,
    clauses: &[Clause],
    constants: &Constants,
    all: &Structures,
    s: Sym,
    t: &Term,
    members: &[Radix],
) -> Result<Option<Radix>, AllocError>
    ensures { IfOk result (λ o. FirstGives clauses.now constants.now all.now s t.now members.now o) }
{
    match members.split_first() {
        None => Ok(None),
        Some((r, others)) => match member_gives(alloc, clauses, constants, all, s, t, r)? {
            None => {
                let o = first_gives(alloc, clauses, constants, all, s, t, others)?;
                Ok(o)
            }
            Some(x) => Ok(Some(x)),
        },
    }
}

/// Whether each value fits its field's type.
#[tactic(auto, using(crate::proofs::StructureLemmas::fields_rules))]
fn fields_fit(
    alloc: Global,
    clauses: &[Clause],
    constants: &Constants,
    values: &Terms,
    fields: &[Field],
    zs: &[Term],
) -> Result<bool, AllocError>
    ensures { IfOk result (λ b. IsTrue b ↔ FieldsFit clauses.now constants.now values.now fields.now zs.now) }
{
    let mut fs = fields;
    let mut ts = zs;
    while let Some((f, other_fs)) = fs.split_first() {
        let Some((z, other_ts)) = ts.split_first() else {
            return Ok(false);
        };
        let at = type_at(alloc, values, &f.ty)?;
        if !type_fits(alloc, clauses, constants, z, &at)? {
            return Ok(false);
        }
        fs = other_fs;
        ts = other_ts;
    }
    Ok(ts.len() == 0)
}

/// The first `count` terms.
fn first_of(ts: &Terms, count: usize) -> &[Term]
    ensures { result.now ≡ take count ts.now }
{
    &ts.items[..count.min(ts.items.len())]
}

/// The terms behind the first `count`.
fn rest_of(ts: &Terms, count: usize) -> &[Term]
    ensures { result.now ≡ drop count ts.now }
{
    &ts.items[count.min(ts.items.len())..]
}

/// What stands for the indices of the fields' types for an aggregate of these arguments.
fn given_values(alloc: Global, x: &Structure, args: &Terms) -> Result<Terms, AllocError>
    ensures { IfOk result (λ ts. ts ≡ given_values x.now args.now) }
{
    let object = Term::apply(x.aggregate, args.copy(alloc)?);
    let given = copied(alloc, rest_of(args, x.loci.items.len()))?;
    let values = field_values(alloc, given, &object, first_of(args, x.loci.items.len()))?;
    Ok(values)
}

/// Whether the guards of an aggregate's arguments fit.
#[tactic(auto, using(crate::proofs::StructureLemmas::aggregate_rules))]
fn aggregate_fits(
    alloc: Global,
    clauses: &[Clause],
    constants: &Constants,
    x: &Structure,
    args: &Terms,
) -> Result<bool, AllocError>
    ensures { IfOk result (λ b. IsTrue b ↔ AggregateFits clauses.now constants.now x.now args.now) }
{
    let loci = first_of(args, x.loci.items.len());
    if !loci_fit(alloc, clauses, constants, x.loci.items.as_slice(), loci)? {
        return Ok(false);
    }
    let values = given_values(alloc, x, args)?;
    let zs = rest_of(args, x.loci.items.len());
    let fit = fields_fit(
        alloc,
        clauses,
        constants,
        &values,
        x.fields.items.as_slice(),
        zs,
    )?;
    Ok(fit)
}

/// The structure of an aggregate at its arguments.
fn made_radix(alloc: Global, x: &Structure, args: &Terms) -> Result<Radix, AllocError>
    ensures { IfOk result (λ r. r ≡ made_radix x.now args.now) }
{
    let args = copied(alloc, first_of(args, x.loci.items.len()))?;
    Ok(Radix { sym: x.sym, args })
}

/// The structure of an aggregate, where the guards of its arguments fit.
#[tactic(auto, using(crate::proofs::StructureLemmas::made_rules))]
pub fn aggregate_gives(
    alloc: Global,
    clauses: &[Clause],
    constants: &Constants,
    all: &Structures,
    s: Sym,
    args: &Terms,
) -> Result<Option<Radix>, AllocError>
    ensures { IfOk result (λ o. AggregateGives clauses.now constants.now all.now s args.now o) }
{
    match made_by(all, s) {
        None => Ok(None),
        Some(x) => {
            if !aggregate_fits(alloc, clauses, constants, x, args)? {
                return Ok(None);
            }
            let r = made_radix(alloc, x, args)?;
            Ok(Some(r))
        }
    }
}

fn ancestors_at(alloc: Global, x: &Structure, args: &Terms) -> Result<Radixes, AllocError>
    ensures { IfOk result (λ rs. rs ≡ ancestors_at x.now args.now) }
{
    let mut out = Radixes::new(alloc);
    for ty in &x.ancestors.items {
        let values = args.copy(alloc)?;
        out.push(radix_at(alloc, values, ty)?)?;
    }
    Ok(out)
}

/// The ancestors of a structure at its arguments, in order, where its guards fit.
#[tactic(auto, using(crate::proofs::StructureLemmas::ancestor_rules))]
pub fn ancestors_give(
    alloc: Global,
    clauses: &[Clause],
    constants: &Constants,
    all: &Structures,
    r: &Radix,
) -> Result<Radixes, AllocError>
    ensures { IfOk result (λ rs. AncestorsGive clauses.now constants.now all.now r.now rs) }
{
    match structure_of(all, r.sym) {
        None => Ok(Radixes::new(alloc)),
        Some(x) => {
            let args = r.args.items.as_slice();
            if !loci_fit(alloc, clauses, constants, x.loci.items.as_slice(), args)? {
                return Ok(Radixes::new(alloc));
            }
            let rs = ancestors_at(alloc, x, &r.args)?;
            Ok(rs)
        }
    }
}
