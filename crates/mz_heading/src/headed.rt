//! What all headings share.
ghost use Rattle.std.specs.Prelude.{◌≡◌, nat_le, IfOk, OnOk};
ghost use Rattle.mz_defined.specs.Definientia.{label_of, label_in};
ghost use Rattle.mz_defined.specs.Owing.{headed, loci_count};
ghost use Rattle.mz_justified.specs.declared.proof_fault.ProofRefusal.TheVariants.{Resolve, NotBuilt};
ghost use Rattle.mz_names.specs.declared.refusal.Refusal.TheVariants.{TooLarge};
ghost use Rattle.mz_taken.specs.declared.item_fault.ItemFault.TheVariants.{Refused};
ghost use Rattle.mz_taken.specs.declared.item_fault.ItemRefusal.TheVariants.{Proof};

use mz_base::place::Place;
use mz_base::text::Text;
use mz_context::context::Context;
use mz_copies::items::item_copy;
use mz_core::item::Item;
use mz_items::loci::count_of;
use mz_justified::proof_fault::ProofRefusal;
use mz_loci::loci::loci_from;
use mz_names::refusal::Refusal;
use mz_standing::changes::put_item;
use mz_standing::labels::end_heading;
use mz_standing::standing::Standing;
use mz_taken::item_fault::{ItemFault, ItemRefusal};
use mz_tree_heading::meaning::{DefinitionLabelTree, MeaningTree};
use std::alloc::{AllocError, Global};

fn label_of(alloc: Global, t: &Option<DefinitionLabelTree>) -> Result<Text, AllocError>
    ensures { IfOk result (λ l. l ≡ label_of t.now) }
{
    match t {
        Some(l) => l.name.spelling.copy(alloc),
        None => Ok(Text::new(alloc)),
    }
}

/// The label of a definiens, which is empty where none is written.
pub fn label_in(alloc: Global, t: &MeaningTree) -> Result<Text, AllocError>
    ensures { IfOk result (λ l. l ≡ label_in t.now) }
{
    match t {
        MeaningTree::Means { label, .. } => label_of(alloc, label),
        MeaningTree::Equals { label, .. } => label_of(alloc, label),
    }
}

/// Puts the item of a heading in force, with the label for its definitional theorem.
pub fn put_heading(
    alloc: Global,
    s: &mut Standing,
    item: Box<Item>,
    label: Text,
) -> Result<(), AllocError>
    ensures { OnOk result (s.new ≡ headed s.old item.value label s.old.left) }
{
    end_heading(alloc, &mut s.context, &item, label)?;
    put_item(alloc, s, Box::into_inner(item))
}

/// An equal item.
pub fn copy_of(alloc: Global, x: &Item) -> Result<Box<Item>, AllocError>
    ensures { IfOk result (λ y. y.value ≡ x.now) }
{
    Ok(Box::new(alloc, item_copy(alloc, x)?)?)
}

/// How many loci a block has, the constants from `least` on. More than 4,294,967,295 are as no memory.
pub fn loci_count(ctx: &Context, least: u32) -> Result<u32, AllocError>
    ensures { IfOk result (λ n. n ≡ loci_count least ctx.now) }
{
    count_of(loci_from(ctx.constants.items.as_slice(), least).len())
}

/// Whether a block has at most as many loci as quantifiers may stand in one another.
pub fn has_few_loci(ctx: &Context, least: u32) -> bool
    ensures { result ≡ nat_le (loci_count least ctx.now) 512 }
{
    loci_from(ctx.constants.items.as_slice(), least).len() <= 512
}

/// `TooLarge` at the place.
pub fn too_large(first: Place) -> ItemFault
    ensures { result ≡ Refused (Proof (Resolve (TooLarge first))) }
{
    ItemFault::Refused(ItemRefusal::Proof(ProofRefusal::Resolve(Refusal::TooLarge(first))))
}

/// `NotBuilt` at the place.
pub fn not_built(place: Place) -> ItemFault
    ensures { result ≡ Refused (Proof (NotBuilt place)) }
{
    ItemFault::Refused(ItemRefusal::Proof(ProofRefusal::NotBuilt(place)))
}
