//! A shelf over memory.
ghost use Rattle.std.specs.Prelude.{◌≡◌, ◌≤◌, ◌↔◌, ℕ, Some, Contains, IsErrOf};
ghost use Rattle.mz_io.specs.Count.{Rose, counted, last_count};
ghost use Rattle.mz_io.specs.Shelf.{amount_after, IsShort, IsExact, OnFailed};

use crate::fetch_fault::FetchFault;
use crate::file_kind::FileKind;
use crate::file_list::FileList;
use crate::shelf::{Shelf, TEXT_LIMIT};
use mz_base::name::Name;
use mz_base::numbers::Numbers;
use mz_base::text::Text;
use std::alloc::Global;

/// A shelf over a list of files, which tells them. Calls are numbered from 1; those whose numbers are
/// in `fail` fail.
#[derive(Debug, Drop)]
pub struct MemoryShelf {
    /// What the shelf tells.
    pub files: FileList,
    /// The numbers of the calls that fail.
    pub fail: Numbers,
    /// How many calls there were.
    pub calls: u64,
    /// How many of them failed.
    pub faults: u64,
    /// The bytes given, a text that is too long counting as 1,048,577.
    pub amount: u64,
    pub ghost faults_fit: { faults ≤ last_count },
    pub ghost amount_fits: { amount ≤ last_count },
}

impl MemoryShelf {
    /// A shelf over these files, before its first call.
    pub fn new(files: FileList, fail: Numbers) -> MemoryShelf
        ensures contents { ⟦<MemoryShelf as Shelf>⟧.contents result ≡ Some files }
        ensures no_fault { ⟦<MemoryShelf as Shelf>⟧.faults result ≡ 0 }
        ensures no_byte { ⟦<MemoryShelf as Shelf>⟧.amount result ≡ 0 }
        ensures calls { result.calls ≡ 0 }
        ensures fail { result.fail ≡ fail }
    {
        MemoryShelf {
            files,
            fail,
            calls: 0,
            faults: 0,
            amount: 0,
        }
    }
}

impl Shelf for MemoryShelf {
    ghost faults = { λ s. s.faults };

    ghost amount = { λ s. s.amount };

    ghost contents = { λ s. Some s.files };

    ghost faults_fit = { λ s. s.faults_fit };

    ghost amount_fits = { λ s. s.amount_fits };

    fn fetch(
        &mut self,
        alloc: Global,
        kind: FileKind,
        name: &Name,
    ) -> Result<Option<Text>, FetchFault>
        ensures never_fall { self.old.faults ≤ self.new.faults }
        ensures amount { self.new.amount ≡ amount_after self.old.amount result }
        ensures unchanged { Some self.new.files ≡ Some self.old.files }
        ensures exact { IsExact (Some self.old.files) kind name.now result }
        ensures short { IsShort result }
        ensures failed { OnFailed result (Rose self.old.faults self.new.faults) }

        // The call fails exactly where its number is listed.
        ensures fails { IsErrOf result FetchFault.Failed ↔ Contains self.old.fail self.new.calls }
        ensures numbered { self.new.calls ≡ counted self.old.calls 1 }
        ensures list { self.new.fail ≡ self.old.fail }
    {
        self.calls = self.calls.saturating_add(1);
        if self.fail.contains(self.calls) {
            self.faults = self.faults.saturating_add(1);
            return Err(FetchFault::Failed);
        }
        match self.files.lookup(kind, name) {
            None => Ok(None),
            Some(bytes) => {
                if bytes.len() > TEXT_LIMIT {
                    self.amount = self.amount.saturating_add(1_048_577);
                    return Err(FetchFault::TooLong);
                }
                let text = Text::from_slice(alloc, bytes)?;
                self.amount = self.amount.saturating_add(text.len() as u64);
                Ok(Some(text))
            }
        }
    }
}

#[cfg(test)]
mod tests {
    use super::*;
    use crate::file::File;
    use std::mem::forget;
    use std::process::Abort;

    /// Adds a file to the list.
    fn add(
        rt: &impl Abort,
        alloc: Global,
        files: &mut FileList,
        kind: FileKind,
        name: &[u8],
        bytes: &[u8],
    ) {
        let name = Name::read(name).expect(rt, "a name");
        let bytes = Text::from_slice(alloc, bytes).expect(rt, "memory");
        files.push(File { kind, name, bytes }).expect(rt, "memory");
    }

    #[test]
    fn gives_the_first_file(rt: HostRuntime) {
        let on_shelf: [(FileKind, &[u8], &[u8]); 4] = [
            (FileKind::Vocabulary, b"A", b"RP"),
            (FileKind::Article, b"A", b"environ begin"),
            (FileKind::Article, b"A", b"later"),
            (FileKind::Article, b"B", b"environ"),
        ];
        let mut files = FileList::new(rt.alloc());
        for (kind, name, bytes) in on_shelf {
            add(&rt, rt.alloc(), &mut files, kind, name, bytes);
        }
        let fail = Numbers::from_slice(rt.alloc(), &[3, 5]).expect(&rt, "memory");
        let mut shelf = MemoryShelf::new(files, fail);
        let rows: [(FileKind, &[u8], Result<Option<&[u8]>, FetchFault>, u64, u64); 6] = [
            (FileKind::Article, b"A", Ok(Some(b"environ begin")), 0, 13),
            (FileKind::Vocabulary, b"a", Ok(Some(b"RP")), 0, 15),
            (FileKind::Article, b"A", Err(FetchFault::Failed), 1, 15),
            (FileKind::Vocabulary, b"B", Ok(None), 1, 15),
            (FileKind::Article, b"B", Err(FetchFault::Failed), 2, 15),
            (FileKind::Article, b"B", Ok(Some(b"environ")), 2, 22),
        ];
        for (kind, name, expected, faults, amount) in rows {
            let name = Name::read(name).expect(&rt, "a name");
            match (shelf.fetch(rt.alloc(), kind, &name), expected) {
                (Ok(Some(text)), Ok(Some(bytes))) => assert!(rt; text.as_slice() == bytes),
                (Ok(None), Ok(None)) => {}
                (Err(fault), Err(other)) => assert!(rt; fault == other),
                _ => panic!(rt; "another answer"),
            }
            assert!(rt; shelf.faults == faults);
            assert!(rt; shelf.amount == amount);
        }
        forget(shelf);
    }

    #[test]
    fn refuses_one_byte_too_many(rt: HostRuntime) {
        let name = Name::read(b"A").expect(&rt, "a name");
        for (len, amount) in [(1_048_576, 1_048_576), (1_048_577, 1_048_577)] {
            let bytes = vec![in rt.alloc(); b' '; len].expect(&rt, "memory");
            let mut files = FileList::new(rt.alloc());
            add(
                &rt,
                rt.alloc(),
                &mut files,
                FileKind::Article,
                b"A",
                bytes.as_slice(),
            );
            let mut shelf = MemoryShelf::new(files, Numbers::new(rt.alloc()));
            match shelf.fetch(rt.alloc(), FileKind::Article, &name) {
                Ok(Some(text)) => {
                    assert!(rt; text.len() == 1_048_576);
                    assert!(rt; len == 1_048_576);
                }
                Err(FetchFault::TooLong) => assert!(rt; len == 1_048_577),
                _ => panic!(rt; "another answer"),
            }
            assert!(rt; shelf.amount == amount);
            forget(shelf);
            forget(bytes);
        }
    }
}
