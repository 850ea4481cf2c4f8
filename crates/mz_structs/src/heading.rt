//! The heading of a structure, taken.
ghost use Rattle.std.specs.Prelude.{◌≡◌, ◌++◌, ◌∷◌, ◌&&◌, [], map, flat_map, length, IfOk, OnOk};
ghost use Rattle.std.specs.List.{list_all};
ghost use Rattle.mz_cited.specs.Cited.{tree_of, members};
ghost use Rattle.mz_choice.specs.Fresh.{keeping};
ghost use Rattle.mz_core.specs.declared.item.Item.TheVariants as item;
ghost use Rattle.mz_patterns.specs.Patterns.{loci_named};
ghost use Rattle.mz_structure.specs.Fields.{reading, spelling_of, names_of_group, loci_in_order, type_at_loci, with_subject, ReadsAncestor, ReadsGroup};
ghost use Rattle.mz_structure.specs.Structures.{identifiers_over, ancestor_trees, field_names, own_loci, structure_loci, are_few, has_few, outline, context_of_fields, structure_item, grants_keep, first_stray, in_force, structure_taken, TakesFields, TakesAncestors, Structures};
ghost use Rattle.mz_sizes.specs.Sizes.{statement_keeps};
ghost use Rattle.mz_standing.specs.Standing.{with_left};
ghost use Rattle.mz_structs.specs.Ends.{EndsWith};
ghost use Rattle.mz_structure_items.specs.Items.{whole_structure};
ghost use Rattle.mz_taken.specs.Answers.{OnTaken, Leads};
ghost use Rattle.mz_taken.specs.OneByOne.{OneByOne};

use crate::ancestors::{no_ancestry, read_ancestors};
use crate::fields::read_fields;
use mz_base::numbers::Numbers;
use mz_base::text::Text;
use mz_choice::fresh::{fresh, keep};
use mz_context::constants::Constant;
use mz_context::context::Context;
use mz_core::adjectives::Adjectives;
use mz_core::item::Item;
use mz_core::outcome::Left;
use mz_core::radix::Radix;
use mz_core::soft_type::SoftType;
use mz_core::statement::Statement;
use mz_environment::environment::Environment;
use mz_environment::numbering::Numbering;
use mz_items::granted::granted_statements;
use mz_items::loci::count_of;
use mz_justified::proof_fault::ProofRefusal;
use mz_loci::loci::{loci_from, locus_types};
use mz_logic::sym::Sym;
use mz_logic::term::{Term, Terms};
use mz_names::refusal::Refusal;
use mz_owed::owed::number_of;
use mz_patterns::patterns::{if_wanted, put_members};
use mz_patterns::visible::Visible;
use mz_sizes::keeps::statement_keeps;
use mz_standing::changes::put_item;
use mz_standing::labels::end_heading;
use mz_standing::standing::Standing;
use mz_structure::ancestry::{Ancestry, Outline};
use mz_structure_items::items::whole_structure;
use mz_structure_items::read_fields::ReadFields;
use mz_structure_items::symbols::structure_symbols;
use mz_taken::item_fault::{ItemFault, ItemRefusal};
use mz_tree::chain::Next;
use mz_tree::lists::Separated;
use mz_tree::word::Comma;
use mz_tree_heading::patterns::IdentifierTree;
use mz_tree_heading::structure::{
    AncestorsTree, FieldTree, SelectorTree, StructureLociTree, StructureTree,
};
use mz_tree_item::definition::ConditionOrPropertyTree;
use std::alloc::{AllocError, Global};
use std::mem::replace;

/// The places of the loci that the identifiers name; none where one names no locus.
#[tactic(auto, using(mz_patterns::proofs::PlaceLemmas::side_rules))]
fn members_named(
    alloc: Global,
    ks: &[Option<Constant>],
    ws: &Separated<IdentifierTree>,
) -> Result<Option<Numbers>, AllocError>
    ensures { IfOk result (λ o. o ≡ loci_named ks.now (members ws.now)) }
{
    let mut out = Numbers::new(alloc);
    if put_members(ks, ws, &mut out)? {
        Ok(Some(out))
    } else {
        Ok(None)
    }
}

fn over_named(
    alloc: Global,
    ks: &[Option<Constant>],
    t: &Option<StructureLociTree>,
) -> Result<Option<Numbers>, AllocError>
    ensures { IfOk result (λ o. o ≡ loci_named ks.now (identifiers_over t.now)) }
{
    match t {
        None => Ok(Some(Numbers::new(alloc))),
        Some(t) => members_named(alloc, ks, &t.identifiers),
    }
}

fn own_loci(s: &Standing, least: u32) -> &[Option<Constant>]
    ensures { result.now ≡ own_loci least s.now }
{
    loci_from(s.context.constants.items.as_slice(), least)
}

fn structure_loci(
    alloc: Global,
    s: &Standing,
    least: u32,
    t: &StructureTree,
) -> Result<Option<Visible>, AllocError>
    ensures { IfOk result (λ o. o ≡ structure_loci least s.now t.now) }
{
    let ks = own_loci(s, least);
    let right = over_named(alloc, ks, &t.loci)?;
    if_wanted(alloc, ks, least, Some(Numbers::new(alloc)), right)
}

fn push_spellings(
    alloc: Global,
    out: &mut Vec<Text>,
    ts: &[Next<Comma, SelectorTree>],
) -> Result<(), AllocError>
    ensures { OnOk result (out.new.items ≡ out.old.items ++ map spelling_of (map tree_of ts.now)) }
{
    match ts {
        [] => Ok(()),
        [t, others @ ..] => {
            out.push(t.tree.symbol.spelling.copy(alloc)?)?;
            push_spellings(alloc, out, others)
        }
    }
}

fn push_group(alloc: Global, out: &mut Vec<Text>, t: &FieldTree) -> Result<(), AllocError>
    ensures { OnOk result (out.new.items ≡ out.old.items ++ names_of_group t.now) }
{
    out.push(t.selectors.first.symbol.spelling.copy(alloc)?)?;
    push_spellings(alloc, out, t.selectors.more.items.as_slice())
}

fn push_groups(
    alloc: Global,
    out: &mut Vec<Text>,
    ts: &[Next<Comma, FieldTree>],
) -> Result<(), AllocError>
    ensures { OnOk result (out.new.items ≡ out.old.items ++ flat_map names_of_group (map tree_of ts.now)) }
{
    match ts {
        [] => Ok(()),
        [t, others @ ..] => {
            push_group(alloc, out, &t.tree)?;
            push_groups(alloc, out, others)
        }
    }
}

fn field_names(alloc: Global, t: &StructureTree) -> Result<Vec<Text>, AllocError>
    ensures { IfOk result (λ ns. ns.items ≡ field_names t.now) }
{
    let mut out = Vec::new(alloc);
    push_group(alloc, &mut out, &t.fields.first)?;
    push_groups(alloc, &mut out, t.fields.more.items.as_slice())?;
    Ok(out)
}

#[tactic(auto, using(crate::proofs::HeadingLemmas::few_rules))]
fn few_ancestors(t: &Option<AncestorsTree>) -> bool
    ensures { result ≡ are_few (ancestor_trees t.now) }
{
    match t {
        None => true,
        Some(t) => t.types.more.items.len() <= 511,
    }
}

/// Whether of loci, ancestors and fields, which have these names, there are at most 512.
fn has_few(s: &Standing, least: u32, t: &StructureTree, names: &[Text]) -> bool
    ensures { result ≡ (are_few (own_loci least s.now) && (are_few (ancestor_trees t.now.ancestors) && are_few names.now)) }
{
    own_loci(s, least).len() <= 512 && (few_ancestors(&t.ancestors) && names.len() <= 512)
}

fn loci_in_order(alloc: Global, least: u32, count: u32) -> Result<Terms, AllocError>
    ensures { IfOk result (λ ts. ts ≡ loci_in_order least count) }
{
    let mut out = Terms::new(alloc);
    for k in 0..count {
        let c = least.checked_add(k).ok_or(AllocError)?;
        out.push(Term::constant(c))?;
    }
    Ok(out)
}

fn type_at_loci(alloc: Global, least: u32, count: u32, s: Sym) -> Result<SoftType, AllocError>
    ensures { IfOk result (λ ty. ty ≡ type_at_loci least count s) }
{
    let args = loci_in_order(alloc, least, count)?;
    Ok(SoftType {
        adjectives: Adjectives::new(alloc),
        radix: Radix { sym: s, args },
    })
}

/// Puts the structure's object into force, and tells what it was before.
fn put_subject(alloc: Global, ctx: &mut Context, ty: SoftType) -> Result<Option<Term>, AllocError>
    ensures before { IfOk result (λ o. o ≡ ctx.old.subject) }
    ensures put { OnOk result (ctx.new ≡ with_subject ctx.old ty) }
{
    let n = ctx.add(fresh(alloc, ty))?;
    let subject = Some(Term::constant(n));
    Ok(replace(&mut ctx.subject, subject))
}

fn put_back(ctx: &mut Context, count: usize, before: Option<Term>)
    ensures { ctx.new ≡ record (keeping count ctx.old) { subject = before } }
{
    keep(ctx, count);
    ctx.subject = before;
}

fn count_constants(ctx: &Context) -> usize
    ensures { result ≡ length ctx.now.constants }
{
    ctx.constants.items.len()
}

fn outline(alloc: Global, s: &Standing, least: u32, a: Ancestry) -> Result<Outline, AllocError>
    ensures { IfOk result (λ o. o ≡ outline least s.now a) }
{
    let loci = locus_types(alloc, own_loci(s, least), least)?;
    let symbols = structure_symbols(&s.context)?;
    Ok(Outline {
        least,
        loci,
        symbols,
        ancestry: a,
    })
}

/// The type of the structure's object.
fn object_type_in(alloc: Global, s: &Standing, least: u32, sym: Sym) -> Result<SoftType, AllocError>
    ensures { IfOk result (λ ty. ty ≡ type_at_loci least (length (own_loci least s.now)) sym) }
{
    let count = count_of(own_loci(s, least).len())?;
    type_at_loci(alloc, least, count, sym)
}

/// Reads the fields, by an object of the type. The context is as before.
fn read_by_object(
    alloc: Global,
    env: &Environment,
    at: Numbering,
    ctx: &mut Context,
    o: &Outline,
    ty: SoftType,
    ts: &Separated<FieldTree>,
    out: &mut ReadFields,
    left: &mut Left,
) -> Result<(), ItemFault>
    ensures reads { OnTaken result (Leads (OneByOne (ReadsGroup env.now at (with_subject ctx.old ty) o.now) (reading out.old left.old) (members ts.now)) (reading out.new left.new)) }
    ensures same { OnOk result (ctx.new ≡ ctx.old) }
{
    let count = count_constants(ctx);
    let before = put_subject(alloc, ctx, ty)?;
    match read_fields(alloc, env, at, ctx, o, ts, out, left) {
        Err(fault) => Err(fault),
        Ok(()) => {
            put_back(ctx, count, before);
            Ok(())
        }
    }
}

/// Reads the fields of the structure. Nothing but what is left changes.
fn read_own_fields(
    alloc: Global,
    s: &mut Standing,
    o: &Outline,
    ty: SoftType,
    ts: &Separated<FieldTree>,
    out: &mut ReadFields,
) -> Result<(), ItemFault>
    ensures reads { OnTaken result (Leads (OneByOne (ReadsGroup s.old.environment s.old.numbering (with_subject s.old.context ty) o.now) (reading out.old s.old.left) (members ts.now)) (reading out.new s.new.left)) }
    ensures same { OnOk result (s.new ≡ with_left s.old s.new.left) }
{
    read_by_object(
        alloc,
        &s.environment,
        s.numbering,
        &mut s.context,
        o,
        ty,
        ts,
        out,
        &mut s.left,
    )
}

fn are_kept(ss: &[Statement]) -> bool
    ensures { result ≡ list_all statement_keeps ss.now }
{
    for s in ss {
        if !statement_keeps(s) {
            return false;
        }
    }
    true
}

fn grants_keep(alloc: Global, x: &Item) -> Result<bool, AllocError>
    ensures { IfOk result (λ b. b ≡ grants_keep x.now) }
{
    let all = granted_statements(alloc, x)?;
    Ok(are_kept(all.items.as_slice()))
}

fn first_stray(ws: &[ConditionOrPropertyTree]) -> Option<ItemRefusal>
    ensures { result ≡ first_stray ws.now }
{
    match ws {
        [] => None,
        [w, ..] => match w {
            ConditionOrPropertyTree::Condition(c) => Some(ItemRefusal::ConditionStray {
                place: c.place,
                condition: number_of(c.word),
            }),
            ConditionOrPropertyTree::Property(p) => Some(ItemRefusal::ConditionStray {
                place: p.place,
                condition: 7,
            }),
        },
    }
}

fn put_in_force(alloc: Global, s: &mut Standing, x: Item) -> Result<(), AllocError>
    ensures { OnOk result (s.new ≡ in_force s.old x s.old.left) }
{
    end_heading(alloc, &mut s.context, &x, Text::new(alloc))?;
    put_item(alloc, s, x)
}

/// Ends the heading of a structure, which was read so: what it grants keeps the limits, and no condition stands behind it.
#[tactic(auto, using(crate::proofs::HeadingLemmas::taken_rules))]
fn end_structure(
    alloc: Global,
    s: &mut Standing,
    t: &StructureTree,
    ws: &[ConditionOrPropertyTree],
    x: Item,
) -> Result<(), ItemFault>
    ensures { OnTaken result (EndsWith (structure_taken s.old t.now ws.now x s.old.left) s.new) }
{
    let keeps = grants_keep(alloc, &x)?;
    if !keeps {
        return Err(ItemFault::Refused(ItemRefusal::Proof(ProofRefusal::Resolve(Refusal::TooLarge(
            t.struct_,
        )))));
    }
    let stray = first_stray(ws);
    match stray {
        Some(r) => Err(ItemFault::Refused(r)),
        None => {
            put_in_force(alloc, s, x)?;
            Ok(())
        }
    }
}

fn structure_item(
    alloc: Global,
    t: &StructureTree,
    v: &Visible,
    o: &Outline,
    fs: &ReadFields,
) -> Result<Item, AllocError>
    ensures { IfOk result (λ x. x ≡ item.Structure (whole_structure o.now.least t.now.symbol.spelling o.now.loci o.now.symbols v.now.right o.now.ancestry.types fs.now)) }
{
    let whole = whole_structure(
        alloc,
        o.least,
        &t.symbol.spelling,
        &o.loci,
        o.symbols,
        &v.right,
        &o.ancestry.types,
        fs.items.as_slice(),
    )?;
    Ok(Item::Structure(whole))
}

/// Takes the fields of a structure behind its ancestors, and ends it.
fn take_fields(
    alloc: Global,
    least: u32,
    s: &mut Standing,
    t: &StructureTree,
    ws: &[ConditionOrPropertyTree],
    v: &Visible,
    a: Ancestry,
) -> Result<(), ItemFault>
    ensures { OnTaken result (Leads (TakesFields least s.old t.now ws.now v.now (reading a s.old.left)) s.new) }
{
    let o = outline(alloc, s, least, a)?;
    let ty = object_type_in(alloc, s, least, o.symbols.sym)?;
    let mut fields = ReadFields::new(alloc);
    match read_own_fields(alloc, s, &o, ty, &t.fields, &mut fields) {
        Err(fault) => Err(fault),
        Ok(()) => {
            let x = structure_item(alloc, t, v, &o, &fields)?;
            end_structure(alloc, s, t, ws, x)
        }
    }
}

/// Reads the ancestors. Nothing but what is left changes.
fn read_own_ancestors(
    alloc: Global,
    least: u32,
    s: &mut Standing,
    names: &[Text],
    t: &Option<AncestorsTree>,
    out: &mut Ancestry,
) -> Result<(), ItemFault>
    ensures reads { OnTaken result (Leads (OneByOne (ReadsAncestor s.old.environment s.old.context least names.now) (reading out.old s.old.left) (ancestor_trees t.now)) (reading out.new s.new.left)) }
    ensures same { s.new ≡ with_left s.old s.new.left }
{
    read_ancestors(
        alloc,
        &s.environment,
        &mut s.context,
        least,
        names,
        t,
        out,
        &mut s.left,
    )
}

/// Takes the ancestors of a structure, whose fields have these names, and what stands behind them.
fn take_ancestors(
    alloc: Global,
    least: u32,
    s: &mut Standing,
    t: &StructureTree,
    ws: &[ConditionOrPropertyTree],
    v: &Visible,
    names: &[Text],
) -> Result<(), ItemFault>
    requires { names.now ≡ field_names t.now }
    ensures { OnTaken result (Leads (TakesAncestors least s.old t.now ws.now v.now) s.new) }
{
    let mut a = no_ancestry(alloc);
    match read_own_ancestors(alloc, least, s, names, &t.ancestors, &mut a) {
        Err(fault) => Err(fault),
        Ok(()) => take_fields(alloc, least, s, t, ws, v, a),
    }
}

/// Takes a structure, a heading of a block whose loci are the constants with the numbers from `least` on, with what is written behind it. It
/// makes no obligation.
///
/// # Errors
/// The first refusal: `BadLoci` at its first token; `TooLarge` there where its loci, ancestors or fields are more than 512; of its ancestors,
/// and `AncestorUnfit` at one of whose selectors one is no field; of its fields, and `SelectorRepeated`; `TooLarge` at its first token where
/// what it grants is beyond the limits; `ConditionStray` at the first condition or property. Or there was no memory.
#[tactic(auto, using(crate::proofs::HeadingLemmas::structure_rules))]
pub fn take_structure(
    alloc: Global,
    least: u32,
    s: &mut Standing,
    t: &StructureTree,
    ws: &[ConditionOrPropertyTree],
) -> Result<(), ItemFault>
    ensures { OnTaken result (Leads (Structures least s.old t.now ws.now) s.new) }
{
    let loci = structure_loci(alloc, s, least, t)?;
    match loci {
        None => Err(ItemFault::Refused(ItemRefusal::BadLoci(t.struct_))),
        Some(v) => {
            let names = field_names(alloc, t)?;
            let few = has_few(s, least, t, names.as_slice());
            if !few {
                return Err(ItemFault::Refused(ItemRefusal::Proof(ProofRefusal::Resolve(
                    Refusal::TooLarge(t.struct_),
                ))));
            }
            take_ancestors(alloc, least, s, t, ws, &v, names.as_slice())
        }
    }
}
