//! The gathering of texts.
ghost use Rattle.std.specs.Prelude.{◌≡◌, ◌≤◌, ℕ, List, Some, Ok, IfOk, length};
ghost use Rattle.mz_io.specs.Count.{Rose};
ghost use Rattle.mz_io.specs.declared.file.File.{File};
ghost use Rattle.mz_corpus.specs.Fit.{IsFit};
ghost use Rattle.mz_corpus.specs.Failed.{FailsEarly};
ghost use Rattle.mz_corpus.specs.Gather.{Gathers, IsGatherAnswer, OnAnswer, OnRead};
ghost use Rattle.mz_corpus.specs.Rise.{HasRisen, IsLarge, OnLimit, OnTooLong};

use crate::corpus::Corpus;
use crate::gather_fault::GatherFault;
use crate::gathering::Gathering;
use mz_base::names::Names;
use mz_io::shelf::Shelf;
use std::alloc::{AllocError, Global};

/// Gathers what the queue of these names comes to, until it has no further name.
fn gathered<S: Shelf>(alloc: Global, shelf: &mut S, names: &Names) -> Result<Gathering, GatherFault>
    ensures told { (files : List File) → S.contents shelf.old ≡ Some files → OnAnswer (Gathers files names.now) (λ g. Gathers files names.now (Ok g)) result }
    ensures fit { IfOk result (λ g. IsFit g.sources g.vocabularies) }
    ensures unchanged { S.contents shelf.new ≡ S.contents shelf.old }
    ensures never_fall { S.faults shelf.old ≤ S.faults shelf.new }
    ensures read { OnRead result (Rose (S.faults shelf.old) (S.faults shelf.new)) }
    ensures fails { (files : List File) → S.contents shelf.old ≡ Some files → OnRead result (FailsEarly files names.now (S.amount shelf.old) (S.amount shelf.new)) }
    ensures rises { S.amount shelf.old ≤ S.amount shelf.new }
    ensures limits { OnLimit result (IsLarge (length names.now) (S.amount shelf.old) (S.amount shelf.new)) }
    ensures too_long { OnTooLong result (HasRisen (S.amount shelf.old) (S.amount shelf.new) 1048577) }
{
    let mut gathering = match Gathering::begin(alloc, names) {
        Ok(gathering) => gathering,
        Err(fault) => return Err(fault),
    };
    while let Some(name) = gathering.next() {
        match gathering.take(alloc, shelf, name) {
            Ok(()) => {}
            Err(fault) => return Err(fault),
        }
    }
    Ok(gathering)
}

/// Gathers the texts of these names, and of all that they depend on.
///
/// A queue of article names begins with the names, in turn, each once and without built-in names. The front name's text is
/// fetched. Where its environment part can be read, its vocabularies that weren't fetched yet are fetched in the order of
/// the text, and then the names of its other directives, `requirements` excepted, are queued in the order of the text, those
/// that aren't queued yet and aren't built in. A name without a text and a text whose environment part can't be read have no
/// dependencies.
///
/// # Errors
/// `Read` only where a fetch failed, and before a limit was passed: where the shelf tells its contents, the amount rose by the
/// bytes of the texts that the gathering has at a fetch which it makes before it passes a limit. Else the first limit that is passed: the sum of bytes is compared with 16,777,216 after
/// each fetch, the number of article names with 512 at the start and after those of an article are queued, and the number of
/// vocabularies with 512 before each fetch of one. `Memory` where memory ran out.
///
/// Whatever the shelf is, a limit is passed only where the number of names and the rise of the shelf's amount are together
/// more than 512, or the amount stands at its last value; a text is too long only where the amount rose by at least
/// 1,048,577, or stands there.
pub fn gather<S: Shelf>(alloc: Global, shelf: &mut S, names: &Names) -> Result<Corpus, GatherFault>
    ensures told { (files : List File) → S.contents shelf.old ≡ Some files → IsGatherAnswer files names.now result }
    ensures unchanged { S.contents shelf.new ≡ S.contents shelf.old }
    ensures never_fall { S.faults shelf.old ≤ S.faults shelf.new }
    ensures read { OnRead result (Rose (S.faults shelf.old) (S.faults shelf.new)) }
    ensures fails { (files : List File) → S.contents shelf.old ≡ Some files → OnRead result (FailsEarly files names.now (S.amount shelf.old) (S.amount shelf.new)) }
    ensures rises { S.amount shelf.old ≤ S.amount shelf.new }
    ensures limits { OnLimit result (IsLarge (length names.now) (S.amount shelf.old) (S.amount shelf.new)) }
    ensures too_long { OnTooLong result (HasRisen (S.amount shelf.old) (S.amount shelf.new) 1048577) }
{
    let gathering = match gathered(alloc, shelf, names) {
        Ok(gathering) => gathering,
        Err(fault) => return Err(fault),
    };
    match gathering.into_corpus(alloc) {
        Ok(corpus) => Ok(corpus),
        Err(AllocError) => Err(GatherFault::Memory),
    }
}
