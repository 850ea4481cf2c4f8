//! A shelf over memory that never fails.
ghost use Rattle.std.specs.Prelude.{◌≡◌, ◌≢◌, ◌≤◌, ℕ, Some, Err};
ghost use Rattle.mz_io.specs.Count.{Rose, last_count};
ghost use Rattle.mz_io.specs.Shelf.{amount_after, IsShort, IsExact, OnFailed};

use crate::fetch_fault::FetchFault;
use crate::file_kind::FileKind;
use crate::file_list::FileList;
use crate::shelf::{Shelf, TEXT_LIMIT};
use mz_base::name::Name;
use mz_base::text::Text;
use std::alloc::Global;

/// A shelf over a list of files, which tells them. Its count of faults is 0, and no call answers `Failed`.
#[derive(Debug, Drop)]
pub struct QuietShelf {
    /// What the shelf tells.
    pub files: FileList,
    /// The bytes given, a text that is too long counting as 1,048,577.
    pub amount: u64,
    pub ghost amount_fits: { amount ≤ last_count },
}

impl QuietShelf {
    /// A shelf over these files, before its first call.
    pub fn new(files: FileList) -> QuietShelf
        ensures contents { ⟦<QuietShelf as Shelf>⟧.contents result ≡ Some files }
        ensures no_fault { ⟦<QuietShelf as Shelf>⟧.faults result ≡ 0 }
        ensures no_byte { ⟦<QuietShelf as Shelf>⟧.amount result ≡ 0 }
    {
        QuietShelf { files, amount: 0 }
    }
}

impl Shelf for QuietShelf {
    ghost use Rattle.mz_io.specs.Count.{none_fit};

    ghost faults = { λ s. 0 };

    ghost amount = { λ s. s.amount };

    ghost contents = { λ s. Some s.files };

    ghost faults_fit = { λ s. none_fit };

    ghost amount_fits = { λ s. s.amount_fits };

    fn fetch(
        &mut self,
        alloc: Global,
        kind: FileKind,
        name: &Name,
    ) -> Result<Option<Text>, FetchFault>
        ensures never_fall { 0 ≤ 0 }
        ensures amount { self.new.amount ≡ amount_after self.old.amount result }
        ensures unchanged { Some self.new.files ≡ Some self.old.files }
        ensures exact { IsExact (Some self.old.files) kind name.now result }
        ensures short { IsShort result }
        ensures failed { OnFailed result (Rose 0 0) }

        // No call fails.
        ensures quiet { result ≢ Err FetchFault.Failed }
    {
        match self.files.lookup(kind, name) {
            None => Ok(None),
            Some(bytes) => {
                if bytes.len() > TEXT_LIMIT {
                    self.amount = self.amount.saturating_add(1_048_577);
                    return Err(FetchFault::TooLong);
                }
                let text = Text::from_slice(alloc, bytes)?;
                self.amount = self.amount.saturating_add(text.len() as u64);
                Ok(Some(text))
            }
        }
    }
}

#[cfg(test)]
mod tests {
    use super::*;
    use crate::file::File;

    #[test]
    fn gives_its_files(rt: HostRuntime) {
        let name = Name::hidden();
        let long = vec![in rt.alloc(); b' '; 1_048_577].expect(&rt, "memory");
        let mut files = FileList::new(rt.alloc());
        files
            .push(File {
                kind: FileKind::Article,
                name,
                bytes: Text::from_slice(rt.alloc(), b"environ begin").expect(&rt, "memory"),
            })
            .expect(&rt, "memory");
        files
            .push(File {
                kind: FileKind::Vocabulary,
                name,
                bytes: Text::from_slice(rt.alloc(), long.as_slice()).expect(&rt, "memory"),
            })
            .expect(&rt, "memory");
        let mut shelf = QuietShelf::new(files);
        match shelf.fetch(rt.alloc(), FileKind::Article, &name) {
            Ok(Some(text)) => assert!(rt; text.as_slice() == b"environ begin".as_slice()),
            _ => panic!(rt; "another answer"),
        }
        assert!(rt; shelf.amount == 13);
        let other = shelf.fetch(rt.alloc(), FileKind::Article, &Name::tarski_0());
        assert!(rt; matches!(other, Ok(None)));
        let other = shelf.fetch(rt.alloc(), FileKind::Vocabulary, &name);
        assert!(rt; matches!(other, Err(FetchFault::TooLong)));
        assert!(rt; shelf.amount == 1_048_590);
    }
}
