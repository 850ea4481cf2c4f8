//! The fields of a structure, read one after another.
ghost use Rattle.std.specs.Prelude.{◌≡◌, ◌++◌, ◌∷◌, ◌+◌, [], map, flat_map, count_by, IfOk, OnOk};
ghost use Rattle.mz_cited.specs.Cited.{tree_of, members};
ghost use Rattle.mz_core.specs.declared.item.Item.TheVariants as item;
ghost use Rattle.mz_resolve.specs.Answers.{OnRead};
ghost use Rattle.mz_resolve.specs.Calls.{TypeRead};
ghost use Rattle.mz_structure.specs.Fields.{reading, spelling_of, name_of, first_repeated, is_new, next_selector, or_next, field, with_group, environment_with, ReadsGroup};
ghost use Rattle.mz_structure_items.specs.Items.{half_structure};
ghost use Rattle.mz_taken.specs.Answers.{OnTaken, Leads};
ghost use Rattle.mz_taken.specs.OneByOne.{OneByOne};

use mz_base::place::Place;
use mz_base::text::Text;
use mz_context::context::Context;
use mz_core::item::Item;
use mz_core::outcome::Left;
use mz_core::soft_type::SoftType;
use mz_environment::environment::Environment;
use mz_environment::numbering::Numbering;
use mz_field_items::fields::ReadField;
use mz_logic::kind::Kind;
use mz_logic::sym::Sym;
use mz_resolve::calls::type_of;
use mz_resolve::resolve_fault::ResolveFault;
use mz_structure::ancestry::Outline;
use mz_structure_items::items::half_structure;
use mz_structure_items::read_fields::ReadFields;
use mz_structure_items::selectors::{NamedSelector, NamedSelectors, are_spelled, selector_named};
use mz_taken::item_fault::{ItemFault, ItemRefusal, of_reading};
use mz_tree::chain::Next;
use mz_tree::expressions::TypeTree;
use mz_tree::lists::Separated;
use mz_tree::word::Comma;
use mz_tree_heading::structure::{FieldTree, SelectorTree};
use std::alloc::{AllocError, Global};

/// How the selectors of the fields are spelled.
fn names_of(alloc: Global, fs: &[ReadField]) -> Result<Vec<Text>, AllocError>
    ensures { IfOk result (λ ns. ns.items ≡ map name_of fs.now) }
{
    let mut out = Vec::new(alloc);
    for f in fs {
        out.push(f.name.copy(alloc)?)?;
    }
    Ok(out)
}

/// The place of the first further selector that stood before.
fn first_further(
    alloc: Global,
    names: &mut Vec<Text>,
    ts: &[Next<Comma, SelectorTree>],
) -> Result<Option<Place>, AllocError>
    ensures { IfOk result (λ o. o ≡ first_repeated names.old.items (map tree_of ts.now)) }
{
    match ts {
        [] => Ok(None),
        [t, others @ ..] => {
            if are_spelled(names.as_slice(), t.tree.symbol.spelling.as_slice()) {
                return Ok(Some(t.tree.symbol.place));
            }
            names.push(t.tree.symbol.spelling.copy(alloc)?)?;
            first_further(alloc, names, others)
        }
    }
}

/// The place of the first selector of a group that stood before.
fn first_repeated(
    alloc: Global,
    fs: &ReadFields,
    ts: &Separated<SelectorTree>,
) -> Result<Option<Place>, AllocError>
    ensures { IfOk result (λ o. o ≡ first_repeated (map name_of fs.now) (members ts.now)) }
{
    let mut names = names_of(alloc, fs.items.as_slice())?;
    let first = &ts.first.symbol;
    if are_spelled(names.as_slice(), first.spelling.as_slice()) {
        return Ok(Some(first.place));
    }
    names.push(first.spelling.copy(alloc)?)?;
    first_further(alloc, &mut names, ts.more.items.as_slice())
}

fn is_new(ctx: &Context, f: &ReadField) -> bool
    ensures { result ≡ is_new ctx.now f.now }
{
    f.selector.article == ctx.article && ctx.counts.selectors < f.selector.number
}

fn count_new(ctx: &Context, fs: &[ReadField]) -> usize
    ensures { result ≡ count_by (is_new ctx.now) fs.now }
{
    fs.iter().filter(|f| is_new(ctx, *f)).count()
}

/// The next selector of the article, behind those of the fields. More than 4,294,967,295 are as no memory.
fn next_selector(ctx: &Context, fs: &[ReadField]) -> Result<Sym, AllocError>
    ensures { IfOk result (λ s. s ≡ next_selector ctx.now fs.now) }
{
    let new = u32::try_from(count_new(ctx, fs)).map_err(|_| AllocError)?;
    let further = new.checked_add(1).ok_or(AllocError)?;
    let number = ctx.counts.selectors.checked_add(further).ok_or(AllocError)?;
    Ok(Sym {
        article: ctx.article,
        kind: Kind::Selector,
        number,
    })
}

fn or_next(ctx: &Context, fs: &[ReadField], o: Option<Sym>) -> Result<Sym, AllocError>
    ensures { IfOk result (λ s. s ≡ or_next ctx.now fs.now o) }
{
    match o {
        None => next_selector(ctx, fs),
        Some(s) => Ok(s),
    }
}

/// The field of a selector, behind the others.
fn field(
    alloc: Global,
    ctx: &Context,
    inherited: &[NamedSelector],
    fs: &[ReadField],
    ty: &SoftType,
    t: &SelectorTree,
) -> Result<ReadField, AllocError>
    ensures { IfOk result (λ f. f ≡ field ctx.now inherited.now fs.now ty.now t.now) }
{
    let own = selector_named(inherited, t.symbol.spelling.as_slice());
    let selector = or_next(ctx, fs, own)?;
    let name = t.symbol.spelling.copy(alloc)?;
    let ty = ty.copy(alloc)?;
    Ok(ReadField { name, selector, ty })
}

fn put_field(
    alloc: Global,
    ctx: &Context,
    inherited: &[NamedSelector],
    out: &mut ReadFields,
    ty: &SoftType,
    t: &SelectorTree,
) -> Result<(), AllocError>
    ensures { OnOk result (out.new ≡ out.old ++ field ctx.now inherited.now out.old ty.now t.now ∷ []) }
{
    let f = field(alloc, ctx, inherited, out.items.as_slice(), ty, t)?;
    out.push(f)
}

fn put_further(
    alloc: Global,
    ctx: &Context,
    inherited: &[NamedSelector],
    out: &mut ReadFields,
    ty: &SoftType,
    ts: &[Next<Comma, SelectorTree>],
) -> Result<(), AllocError>
    ensures { OnOk result (out.new ≡ with_group ctx.now inherited.now ty.now out.old (map tree_of ts.now)) }
{
    match ts {
        [] => Ok(()),
        [t, others @ ..] => {
            put_field(alloc, ctx, inherited, out, ty, &t.tree)?;
            put_further(alloc, ctx, inherited, out, ty, others)
        }
    }
}

/// Puts the fields of a group, which have this type, behind the others.
fn put_group(
    alloc: Global,
    ctx: &Context,
    inherited: &NamedSelectors,
    out: &mut ReadFields,
    ty: &SoftType,
    ts: &Separated<SelectorTree>,
) -> Result<(), AllocError>
    ensures { OnOk result (out.new ≡ with_group ctx.now inherited.now ty.now out.old (members ts.now)) }
{
    let own = inherited.items.as_slice();
    put_field(alloc, ctx, own, out, ty, &ts.first)?;
    put_further(alloc, ctx, own, out, ty, ts.more.items.as_slice())
}

/// The structure with the ancestors and these fields, as an item.
fn half_item(alloc: Global, o: &Outline, fs: &ReadFields) -> Result<Item, AllocError>
    ensures { IfOk result (λ x. x ≡ item.Structure (half_structure o.now.least o.now.loci o.now.symbols o.now.ancestry.types fs.now)) }
{
    let half = half_structure(
        alloc,
        o.least,
        &o.loci,
        o.symbols,
        &o.ancestry.types,
        fs.items.as_slice(),
    )?;
    Ok(Item::Structure(half))
}

/// What the type of a further field may use.
fn environment_with(
    alloc: Global,
    env: &Environment,
    at: Numbering,
    o: &Outline,
    fs: &ReadFields,
) -> Result<Environment, AllocError>
    ensures { IfOk result (λ e. e ≡ environment_with env.now at o.now fs.now) }
{
    let half = half_item(alloc, o, fs)?;
    let mut next = at;
    let mut out = env.copy(alloc)?;
    out.add(alloc, &mut next, &half)?;
    Ok(out)
}

/// Reads the type of fields, by the ancestors and the fields above. The context is as before.
fn read_field_type(
    alloc: Global,
    env: &Environment,
    at: Numbering,
    ctx: &mut Context,
    o: &Outline,
    fs: &ReadFields,
    t: &TypeTree,
    left: &mut Left,
) -> Result<SoftType, ResolveFault>
    ensures reads { OnRead result (λ p. TypeRead (environment_with env.now at o.now fs.now) ctx.old o.now.least left.old t.now p left.new) }
    ensures same { ctx.new ≡ ctx.old }
{
    let here = environment_with(alloc, env, at, o, fs)?;
    type_of(alloc, &here, ctx, o.least, t, left)
}

/// Reads fields with one type.
fn read_group(
    alloc: Global,
    env: &Environment,
    at: Numbering,
    ctx: &mut Context,
    o: &Outline,
    t: &FieldTree,
    out: &mut ReadFields,
    left: &mut Left,
) -> Result<(), ItemFault>
    ensures reads { OnTaken result (Leads (ReadsGroup env.now at ctx.old o.now (reading out.old left.old) t.now) (reading out.new left.new)) }
    ensures same { ctx.new ≡ ctx.old }
{
    let repeated = first_repeated(alloc, out, &t.selectors)?;
    match repeated {
        Some(place) => Err(ItemFault::Refused(ItemRefusal::SelectorRepeated(place))),
        None => match read_field_type(alloc, env, at, ctx, o, out, &t.ty, left) {
            Err(fault) => Err(of_reading(fault)),
            Ok(ty) => {
                put_group(alloc, ctx, &o.ancestry.inherited, out, &ty, &t.selectors)?;
                Ok(())
            }
        },
    }
}

/// So with further fields.
fn read_further(
    alloc: Global,
    env: &Environment,
    at: Numbering,
    ctx: &mut Context,
    o: &Outline,
    ts: &[Next<Comma, FieldTree>],
    out: &mut ReadFields,
    left: &mut Left,
) -> Result<(), ItemFault>
    ensures reads { OnTaken result (Leads (OneByOne (ReadsGroup env.now at ctx.old o.now) (reading out.old left.old) (map tree_of ts.now)) (reading out.new left.new)) }
    ensures same { ctx.new ≡ ctx.old }
{
    match ts.split_first() {
        None => Ok(()),
        Some((t, others)) => match read_group(alloc, env, at, ctx, o, &t.tree, out, left) {
            Err(fault) => Err(fault),
            Ok(()) => read_further(alloc, env, at, ctx, o, others, out, left),
        },
    }
}

fn first_of(ts: &Separated<FieldTree>) -> &FieldTree
    ensures { result.now ≡ ts.now.first }
{
    &ts.first
}

fn others_of(ts: &Separated<FieldTree>) -> &[Next<Comma, FieldTree>]
    ensures { result.now ≡ ts.now.more }
{
    ts.more.items.as_slice()
}

/// Reads the fields of a structure in a context that has its object. The context is as before.
pub fn read_fields(
    alloc: Global,
    env: &Environment,
    at: Numbering,
    ctx: &mut Context,
    o: &Outline,
    ts: &Separated<FieldTree>,
    out: &mut ReadFields,
    left: &mut Left,
) -> Result<(), ItemFault>
    ensures reads { OnTaken result (Leads (OneByOne (ReadsGroup env.now at ctx.old o.now) (reading out.old left.old) (members ts.now)) (reading out.new left.new)) }
    ensures same { ctx.new ≡ ctx.old }
{
    let first = first_of(ts);
    let others = others_of(ts);
    match read_group(alloc, env, at, ctx, o, first, out, left) {
        Err(fault) => Err(fault),
        Ok(()) => read_further(alloc, env, at, ctx, o, others, out, left),
    }
}
