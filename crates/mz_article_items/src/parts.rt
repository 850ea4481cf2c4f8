//! The items of an article, read one after another with their reasonings.
ghost use Rattle.std.specs.Prelude.{◌≡◌};
ghost use Rattle.mz_taken.specs.Answers.{OnTaken, Brings};
ghost use Rattle.mz_article_items.specs.Answers.{as_of_item};
ghost use Rattle.mz_article_items.specs.Items.{IsItem, IsPart, AreItems};

use crate::items::{read_reserve, read_statement, read_theorem};
pub use mz_define::define_items::DefineItems;
use mz_justified::proof_fault::ProofFault;
use mz_obligations::obligation::Obligations;
pub use mz_register::register_items::RegisterItems;
use mz_scheme_items::state_schemes::StateSchemes;
use mz_standing::standing::Standing;
use mz_structure::struct_items::StructItems;
use mz_taken::item_fault::{ItemFault, of_reasoning};
use mz_tree_item::article::{ArticlePartTree, ItemTree};
use mz_walk::prove_steps::ProveSteps;
use std::alloc::Global;

/// The answer of a reasoning as that of an item.
fn as_of_item(answer: Result<(), ProofFault>) -> Result<(), ItemFault>
    ensures { result ≡ as_of_item answer }
{
    match answer {
        Ok(()) => Ok(()),
        Err(fault) => Err(of_reasoning(fault)),
    }
}

/// An item, by what takes reasonings and what takes each kind.
#[tactic(auto, using(crate::proofs::KindLemmas::item_rules))]
fn read_item<P: ProveSteps, D: DefineItems, T: RegisterItems, S: StructItems, C: StateSchemes>(
    alloc: Global,
    s: &mut Standing,
    os: &mut Obligations,
    x: &ItemTree,
) -> Result<(), ItemFault>
    ensures { OnTaken result (Brings (IsItem s.old x.now) s.new os.old os.new) }
{
    match x {
        ItemTree::Reserve(t) => as_of_item(read_reserve(alloc, s, os, t)),
        ItemTree::Theorem(t) => as_of_item(read_theorem::<P>(alloc, s, os, t)),
        ItemTree::Statement(t) => as_of_item(read_statement::<P>(alloc, s, os, t)),
        ItemTree::Scheme(t) => C::scheme::<P>(alloc, s, os, t),
        ItemTree::Definition(t) => D::definition::<S>(alloc, s, os, t),
        ItemTree::Notation(t) => D::notation(alloc, s, t),
        ItemTree::Registration(t) => T::registration(alloc, s, os, t),
    }
}

/// A part of an article.
#[tactic(auto, using(crate::proofs::KindLemmas::part_rules))]
fn read_part<P: ProveSteps, D: DefineItems, T: RegisterItems, S: StructItems, C: StateSchemes>(
    alloc: Global,
    s: &mut Standing,
    os: &mut Obligations,
    part: &ArticlePartTree,
) -> Result<(), ItemFault>
    ensures { OnTaken result (Brings (IsPart s.old part.now) s.new os.old os.new) }
{
    match part {
        ArticlePartTree::Begin(_) => Ok(()),
        ArticlePartTree::Item(x) => read_item::<P, D, T, S, C>(alloc, s, os, x),
    }
}

/// Reads the parts of an article behind its first `begin`, one after another, up to the first refusal: reasonings by `P`, blocks of
/// definitions and notations by `D`, of registrations by `T`, structures by `S`, schemes by `C`. The obligations that they make are put
/// behind the others, in the order of the text.
///
/// # Errors
/// The first refusal in the order of reading, with its place; or there was no memory.
pub fn read_parts<P: ProveSteps, D: DefineItems, T: RegisterItems, S: StructItems, C: StateSchemes>(
    alloc: Global,
    s: &mut Standing,
    os: &mut Obligations,
    parts: &[ArticlePartTree],
) -> Result<(), ItemFault>
    ensures { OnTaken result (Brings (AreItems s.old parts.now) s.new os.old os.new) }
{
    let mut rest = parts;
    while let Some((part, others)) = rest.split_first() {
        match read_part::<P, D, T, S, C>(alloc, s, os, part) {
            Ok(()) => rest = others,
            Err(fault) => return Err(fault),
        }
    }
    Ok(())
}

/// Lets go of where an article stands. It is a call, so that the drops of all that stands there are proved once, in this crate.
pub fn end(_standing: Standing) {}
