//! The check of an article.
ghost use Rattle.std.specs.Prelude.{◌≡◌, IfOk};
ghost use Rattle.mz_core.specs.declared.fault.Fault.{Fault};
ghost use Rattle.mz_front.specs.declared.front_fault.FrontFault.TheVariants as front_faults;
ghost use Rattle.mz_taken.specs.declared.item_fault.ItemFault.TheVariants as item_faults;
ghost use Rattle.mz_taken.specs.declared.item_fault.ItemRefusal.{ItemRefusal};
ghost use Rattle.mz_standing.specs.Standing.{standing_at_start};
ghost use Rattle.mz_article.specs.Outcome.{rejected, IsDecided, IsOutcomeFrom, IsOutcome};
ghost use Rattle.mz_article.specs.Told.{item_told};

use crate::export::{outcome_by, rejected};
use crate::told::item_told;
use mz_article_items::parts::{DefineItems, RegisterItems, end as end_standing, read_parts};
use mz_axioms::exports::Exports;
use mz_base::head::Head;
use mz_base::name::Name;
use mz_base::vocabularies::Vocabularies;
use mz_core::items::Items;
use mz_core::outcome::Outcome;
use mz_environment::environment::Environment;
use mz_front::front::{Front, end as end_front};
use mz_front::front_fault::FrontFault;
use mz_front::stages::front;
use mz_judged::judge_all::judge_all;
use mz_obligations::obligation::Obligations;
use mz_proof::proving::Proving;
use mz_scheme::stating::Stating;
use mz_standing::standing::Standing;
use mz_standing::start::standing_at_start;
use mz_structure::struct_items::StructItems;
use mz_taken::item_fault::ItemFault;
use mz_tree_item::article::ArticlePartTree;
use std::alloc::{AllocError, Global};
use std::mem;
use std::thread::Threads;

/// The outcome where the items were read: their obligations are judged.
#[tactic(auto, using(crate::proofs::CheckLemmas::judged_rules))]
fn judged_outcome(
    rt: &(impl Threads + Sync),
    alloc: Global,
    name: Name,
    head: &Head,
    s: &mut Standing,
    os: &Obligations,
) -> Result<Outcome, AllocError>
    ensures { IfOk result (IsDecided name head.now s.old os.now) }
{
    let faults = judge_all(rt, alloc, &s.clauses, os)?;
    let items = mem::replace(&mut s.items, Items::new(alloc));
    outcome_by(alloc, name, head, items, faults)
}

/// The outcome of the first refusal of its items.
fn items_refused(alloc: Global, fault: ItemFault) -> Result<Outcome, AllocError>
    ensures { IfOk result (λ o. (r : ItemRefusal) × (fault ≡ item_faults.Refused r) × (o ≡ rejected (item_told r))) }
{
    match fault {
        ItemFault::Refused(refusal) => rejected(alloc, item_told(refusal)),
        ItemFault::Memory => Err(AllocError),
    }
}

/// The outcome of an article from where it starts.
#[tactic(auto, using(crate::proofs::CheckLemmas::parts_rules))]
fn outcome_from<D: DefineItems, T: RegisterItems, S: StructItems>(
    rt: &(impl Threads + Sync),
    alloc: Global,
    name: Name,
    head: &Head,
    parts: &[ArticlePartTree],
    s: &mut Standing,
) -> Result<Outcome, AllocError>
    ensures { IfOk result (IsOutcomeFrom name head.now parts.now s.old) }
{
    let mut os = Obligations::new(alloc);
    match read_parts::<Proving, D, T, S, Stating>(alloc, s, &mut os, parts) {
        Ok(()) => judged_outcome(rt, alloc, name, head, s, &os),
        Err(fault) => items_refused(alloc, fault),
    }
}

/// Where an article of so many bytes starts with what the front lets in, which is taken out of it.
fn started(alloc: Global, name: Name, bytes: usize, x: &mut Front) -> Result<Standing, AllocError>
    ensures starts { IfOk result (λ s. s ≡ standing_at_start name bytes x.old.environment) }
    ensures head { x.new.head ≡ x.old.head }
    ensures tree { x.new.tree ≡ x.old.tree }
{
    let environment = mem::replace(&mut x.environment, Environment::new(alloc));
    standing_at_start(alloc, name, bytes, environment)
}

/// The outcome of an article of so many bytes with this front.
#[tactic(auto, using(crate::proofs::CheckLemmas::front_rules))]
fn outcome_behind<D: DefineItems, T: RegisterItems, S: StructItems>(
    rt: &(impl Threads + Sync),
    alloc: Global,
    name: Name,
    bytes: usize,
    x: &mut Front,
) -> Result<Outcome, AllocError>
    ensures { IfOk result (IsOutcomeFrom name x.old.head x.old.tree.parts (standing_at_start name bytes x.old.environment)) }
{
    let mut s = started(alloc, name, bytes, x)?;
    let parts = x.tree.parts.items.as_slice();
    let outcome = outcome_from::<D, T, S>(rt, alloc, name, &x.head, parts, &mut s);
    end_standing(s);
    outcome
}

/// The outcome of the fault in front of the items.
fn front_refused(alloc: Global, fault: FrontFault) -> Result<Outcome, AllocError>
    ensures { IfOk result (λ o. (f : Fault) × (fault ≡ front_faults.Refused f) × (o ≡ rejected f)) }
{
    match fault {
        FrontFault::Refused(fault) => rejected(alloc, fault),
        FrontFault::Memory => Err(AllocError),
    }
}

/// Checks an article, its blocks of definitions and of notations by `D`, of registrations by `T` and its structures by `S`: its outcome by the vocabularies, among which its own are looked for by their names, and by the exports of
/// the articles on which it depends and of the built-in ones (`docs/LANGUAGE.md`, `docs/FAULTS.md`).
///
/// The first of these decides and is then the one fault: that of the environment part, of the vocabularies, of the tokens, of the
/// grammar, of what is let in, and the first refusal of its items, which are read with all their reasonings in the order of the
/// text. Where there is none, all obligations are judged: each that isn't met is a fault, in the order of the text, and without a
/// fault the article is accepted with the export of exactly the items that were read. Threads that it starts have ended when it
/// returns.
///
/// # Errors
/// `AllocError` where there wasn't enough memory.
#[tactic(auto, using(crate::proofs::CheckLemmas::outcome_rules))]
pub fn check_article<D: DefineItems, T: RegisterItems, S: StructItems>(
    rt: &(impl Threads + Sync),
    alloc: Global,
    name: Name,
    vocabularies: &Vocabularies,
    exports: &Exports,
    bytes: &[u8],
) -> Result<Outcome, AllocError>
    ensures { IfOk result (IsOutcome name vocabularies.now exports.now bytes.now) }
{
    match front(alloc, vocabularies, exports, bytes) {
        Ok(mut x) => {
            let outcome = outcome_behind::<D, T, S>(rt, alloc, name, bytes.len(), &mut x);
            end_front(x);
            outcome
        }
        Err(fault) => front_refused(alloc, fault),
    }
}
