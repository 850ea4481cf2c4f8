//! The texts that an order asks for.
ghost use Rattle.std.specs.Prelude.{◌≡◌, ◌≤◌, ℕ, true, List, Option, Some, None, is_some, length, map};
ghost use Rattle.mz_io.specs.Count.{Rose};
ghost use Rattle.mz_io.specs.declared.file.File.{File};
ghost use Rattle.mz_words.specs.Words.{Asked, asked_by};
ghost use Rattle.mz_corpus.specs.Failed.{FailsEarly};
ghost use Rattle.mz_corpus.specs.Gather.{OnAnswer, OnRead};
ghost use Rattle.mz_corpus.specs.Rise.{OnLimit, IsLarge};
ghost use Rattle.mz_run.specs.Gathered.{GathersFor, IsGatheredFor, is_known};

use mz_base::names::Names;
use mz_corpus::corpus::Corpus;
use mz_corpus::gather::gather;
use mz_corpus::gather_fault::GatherFault;
use mz_gen::made::{generate, made_names};
use mz_io::shelf::Shelf;
use mz_words::order::Order;
use std::alloc::{AllocError, Global};

/// Gathers made articles, from a shelf of their own.
fn gather_made(alloc: Global, n: u32) -> Result<Corpus, GatherFault>
    requires { (1 ≤ n) × (n ≤ 512) }
    ensures told { (told : Option (List File)) (a : Asked) → a.generate ≡ Some n → OnAnswer (GathersFor told a) (IsGatheredFor told a) result }
    ensures no_read { OnRead result ⊥ }
{
    let mut shelf = match generate(alloc, n) {
        Ok(shelf) => shelf,
        Err(AllocError) => return Err(GatherFault::Memory),
    };
    let names = match made_names(alloc, n) {
        Ok(names) => names,
        Err(AllocError) => return Err(GatherFault::Memory),
    };
    gather(alloc, &mut shelf, &names)
}

/// Gathers the texts of these names, and of all that they depend on.
fn gather_named<S: Shelf>(
    alloc: Global,
    shelf: &mut S,
    names: &Names,
) -> Result<Corpus, GatherFault>
    ensures told { (a : Asked) → a.generate ≡ None → a.names ≡ map (λ n. n.number) names.now → is_some (S.contents shelf.old) ≡ true → OnAnswer (GathersFor (S.contents shelf.old) a) (IsGatheredFor (S.contents shelf.old) a) result }
    ensures unchanged { S.contents shelf.new ≡ S.contents shelf.old }
    ensures never_fall { S.faults shelf.old ≤ S.faults shelf.new }
    ensures read { OnRead result (Rose (S.faults shelf.old) (S.faults shelf.new)) }
    ensures fails { (files : List File) → S.contents shelf.old ≡ Some files → OnRead result (FailsEarly files names.now (S.amount shelf.old) (S.amount shelf.new)) }
    ensures rises { S.amount shelf.old ≤ S.amount shelf.new }
    ensures limits { OnLimit result (IsLarge (length names.now) (S.amount shelf.old) (S.amount shelf.new)) }
{
    gather(alloc, shelf, names)
}

/// Gathers the texts that the order asks for: those of the names and all that they depend on, from the shelf; or those of
/// the made articles, without the shelf.
///
/// # Errors
/// See `gather`. `Read` never comes where articles are made.
pub fn gather_for<S: Shelf>(
    alloc: Global,
    shelf: &mut S,
    order: &Order,
) -> Result<Corpus, GatherFault>
    requires { (n : ℕ) → order.now.generate ≡ Some n → (1 ≤ n) × (n ≤ 512) }
    ensures told { is_known (S.contents shelf.old) (asked_by order.now) ≡ true → OnAnswer (GathersFor (S.contents shelf.old) (asked_by order.now)) (IsGatheredFor (S.contents shelf.old) (asked_by order.now)) result }
    ensures made { is_some order.now.generate ≡ true → (shelf.new ≡ shelf.old) × OnRead result ⊥ }
    ensures unchanged { S.contents shelf.new ≡ S.contents shelf.old }
    ensures never_fall { S.faults shelf.old ≤ S.faults shelf.new }
    ensures read { OnRead result (Rose (S.faults shelf.old) (S.faults shelf.new)) }
    ensures fails { order.now.generate ≡ None → (files : List File) → S.contents shelf.old ≡ Some files → OnRead result (FailsEarly files order.now.names (S.amount shelf.old) (S.amount shelf.new)) }
    ensures rises { S.amount shelf.old ≤ S.amount shelf.new }
    ensures limits { order.now.generate ≡ None → OnLimit result (IsLarge (length order.now.names) (S.amount shelf.old) (S.amount shelf.new)) }
{
    match order.generate {
        Some(n) => gather_made(alloc, n),
        None => gather_named(alloc, shelf, &order.names),
    }
}
