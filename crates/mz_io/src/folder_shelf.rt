//! A shelf over a folder.
ghost use Rattle.std.specs.Prelude.{◌≡◌, ◌≢◌, ◌≤◌, IfOk, length};
ghost use Rattle.mz_io.specs.Count.{last_count};
ghost use Rattle.mz_io.specs.File.{file_name, path_in};
ghost use Rattle.mz_io.specs.Shelf.{IsRead, IsShort, text_limit};

use crate::fetch_fault::FetchFault;
use crate::file_kind::FileKind;
use crate::shelf::{Shelf, TEXT_LIMIT};
use mz_base::name::Name;
use mz_base::text::Text;
use std::alloc::{AllocError, Global};
use std::fs::File;
use std::io::{Error, ErrorKind, Read};
use std::rt::Files;

/// A shelf over the files of a folder, which tells no contents. Article NAME is the file `name.miz`
/// and vocabulary NAME the file `name.voc`, in lower case. A file that is not there is no text.
#[derive(Drop)]
pub struct FolderShelf<'r, R: Files> {
    /// What opens the files.
    pub rt: &'r R,
    /// The path of the folder.
    pub folder: Text,
    /// How many calls failed.
    pub faults: u64,
    /// The bytes given, a text that is too long counting as 1,048,577.
    pub amount: u64,
    pub ghost faults_fit: { faults ≤ last_count },
    pub ghost amount_fits: { amount ≤ last_count },
}

impl<'r, R: Files> FolderShelf<'r, R> {
    /// A shelf over this folder, before its first call. A folder without a name is the working folder.
    pub fn new(rt: &'r R, folder: Text) -> FolderShelf<'r, R>
        ensures folder { result.folder ≡ folder }
        ensures no_fault { result.faults ≡ 0 }
        ensures no_byte { result.amount ≡ 0 }
    {
        FolderShelf {
            rt,
            folder,
            faults: 0,
            amount: 0,
        }
    }

    fn read(&self, alloc: Global, kind: FileKind, name: &Name) -> Result<Option<Text>, FetchFault>
        ensures { IsShort result }
    {
        let path = file_path(alloc, self.folder.as_slice(), kind, name)?;
        let Ok(path) = str::from_utf8(path.as_slice()) else {
            return Err(FetchFault::Failed);
        };
        match File::open(self.rt, path) {
            Ok(mut file) => {
                let text = read_text(alloc, &mut file)?;
                Ok(Some(text))
            }
            Err(error) => match error.kind() {
                ErrorKind::NotFound => Ok(None),
                _ => Err(fault_of(&error)),
            },
        }
    }
}

fn fault_of(error: &Error) -> FetchFault
    ensures { result ≢ FetchFault.TooLong }
{
    match error.kind() {
        ErrorKind::OutOfMemory => FetchFault::Memory,
        _ => FetchFault::Failed,
    }
}

fn file_path(alloc: Global, folder: &[u8], kind: FileKind, name: &Name) -> Result<Text, AllocError>
    ensures { IfOk result (λ path. path ≡ path_in folder.now (file_name kind name.now)) }
{
    let mut path = Text::from_slice(alloc, folder)?;
    if !folder.is_empty() {
        path.push(b'/')?;
    }
    let name = name.lowered(alloc)?;
    path.extend_from_slice(name.as_slice())?;
    path.extend_from_slice(kind.extension())?;
    Ok(path)
}

/// All bytes that the reader has left, of which it may have at most `TEXT_LIMIT`.
fn read_text<F: Read>(alloc: Global, file: &mut F) -> Result<Text, FetchFault>
    ensures short { IfOk result (λ text. length text ≤ text_limit) }
    ensures whole { IsRead (F.remaining file.old) result }
{
    let mut text = Text::new(alloc);
    let mut piece = [0; 4096];
    loop {
        match file.read(&mut piece) {
            Ok(0) => return Ok(text),
            Ok(count) => {
                if count > TEXT_LIMIT - text.len() {
                    return Err(FetchFault::TooLong);
                }
                text.extend_from_slice(&piece[..count])?;
            }
            Err(error) => return Err(fault_of(&error)),
        }
    }
}

impl<'r, R: Files> Shelf for FolderShelf<'r, R> {
    ghost use Rattle.std.specs.Prelude.{None};

    ghost faults = { λ s. s.faults };

    ghost amount = { λ s. s.amount };

    ghost contents = { λ s. None };

    ghost faults_fit = { λ s. s.faults_fit };

    ghost amount_fits = { λ s. s.amount_fits };

    fn fetch(
        &mut self,
        alloc: Global,
        kind: FileKind,
        name: &Name,
    ) -> Result<Option<Text>, FetchFault> {
        let answer = self.read(alloc, kind, name);
        match &answer {
            Ok(Some(text)) => self.amount = self.amount.saturating_add(text.len() as u64),
            Ok(None) => {}
            Err(FetchFault::Failed) => self.faults = self.faults.saturating_add(1),
            Err(FetchFault::TooLong) => self.amount = self.amount.saturating_add(1_048_577),
            Err(FetchFault::Memory) => {}
        }
        answer
    }
}

#[cfg(test)]
mod tests {
    use super::*;
    use std::fs;

    #[test]
    fn reads_files(rt: HostRuntime) {
        fs::write(&rt, "shelf1.miz", "environ begin").expect(&rt, "a file");
        let long = vec![in rt.alloc(); b' '; 1_048_577].expect(&rt, "memory");
        fs::write(&rt, "shelf2.voc", long.as_slice()).expect(&rt, "a file");
        let first = Name::read(b"SHELF1").expect(&rt, "a name");
        let second = Name::read(b"SHELF2").expect(&rt, "a name");
        let folder = Text::from_slice(rt.alloc(), b".").expect(&rt, "memory");
        let mut shelf = FolderShelf::new(&rt, folder);
        match shelf.fetch(rt.alloc(), FileKind::Article, &first) {
            Ok(Some(text)) => assert!(rt; text.as_slice() == b"environ begin".as_slice()),
            _ => panic!(rt; "another answer"),
        }
        assert!(rt;
            matches!(
                shelf.fetch(rt.alloc(), FileKind::Vocabulary, &first),
                Ok(None)
            )
        );
        let answer = shelf.fetch(rt.alloc(), FileKind::Vocabulary, &second);
        assert!(rt; matches!(answer, Err(FetchFault::TooLong)));
        assert!(rt; shelf.faults == 0);
        assert!(rt; shelf.amount == 1_048_590);
        let folder = Text::from_slice(rt.alloc(), b"shelf1.miz").expect(&rt, "memory");
        let mut shelf = FolderShelf::new(&rt, folder);
        let answer = shelf.fetch(rt.alloc(), FileKind::Article, &first);
        assert!(rt; matches!(answer, Err(FetchFault::Failed)));
        assert!(rt; shelf.faults == 1);
        fs::remove_file(&rt, "shelf1.miz").expect(&rt, "no file");
        fs::remove_file(&rt, "shelf2.voc").expect(&rt, "no file");
    }
}
