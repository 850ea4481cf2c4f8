//! Lists of files.
ghost use Rattle.std.specs.Prelude.{◌≡◌, ◌++◌, ◌∷◌, [], OnOk, OnErr, find};
ghost use Rattle.std.specs.Option.{option_copied};
ghost use Rattle.mz_io.specs.File.{is_file, lookup};

use crate::file::File;
use crate::file_kind::FileKind;
use mz_base::name::Name;
use std::alloc::{AllocError, Global};
use std::marker::Model;

/// A list of files. Of several with the same kind and name the first counts.
#[derive(Debug, Drop)]
pub struct FileList {
    /// The files, in order.
    pub items: Vec<File>,
}

impl Model for FileList {
    ghost use Rattle.std.specs.Prelude.{List};
    ghost use Rattle.mz_io.specs.declared.file.File.{File};

    ghost Value = { List File };

    ghost view = { λ a. a.items.items };
}

impl FileList {
    /// A list without files, which takes no memory yet.
    pub fn new(alloc: Global) -> FileList
        ensures { result ≡ [] }
    {
        FileList {
            items: Vec::new(alloc),
        }
    }

    /// Adds one file at the end.
    pub fn push(&mut self, file: File) -> Result<(), AllocError>
        ensures ok { OnOk result (self.new ≡ self.old ++ file ∷ []) }
        ensures err { OnErr result (self.new ≡ self.old) }
    {
        self.items.push(file)?;
        Ok(())
    }

    fn find(&self, kind: FileKind, name: &Name) -> Option<&File>
        ensures { option_copied result ≡ find (is_file kind name.now) self.now }
    {
        self.items.iter().find(|file| file.is(kind, name))
    }

    /// The bytes of the first file with this kind and name, or none where there is no such file.
    pub fn lookup(&self, kind: FileKind, name: &Name) -> Option<&[u8]>
        ensures { option_copied result ≡ lookup self.now kind name.now }
    {
        match self.find(kind, name) {
            Some(file) => Some(file.bytes.as_slice()),
            None => None,
        }
    }
}
