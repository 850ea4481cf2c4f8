//! Files in memory.
ghost use Rattle.std.specs.Prelude.{◌≡◌};

use crate::file_kind::FileKind;
use mz_base::name::Name;
use mz_base::text::Text;

/// A file: its kind, its name and its bytes.
#[derive(Debug, Drop)]
pub struct File {
    /// Article or vocabulary.
    pub kind: FileKind,
    /// Its name, without the ending of its kind.
    pub name: Name,
    /// What it holds.
    pub bytes: Text,
}

impl File {
    ghost use Rattle.mz_io.specs.File.{is_file};

    /// Whether the file has this kind and name.
    pub fn is(&self, kind: FileKind, name: &Name) -> bool
        ensures { result ≡ is_file kind name.now self.now }
    {
        self.kind.is(kind) && self.name.number() == name.number()
    }
}
