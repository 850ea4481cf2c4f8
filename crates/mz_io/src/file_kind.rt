//! The kinds of files.
ghost use Rattle.std.specs.Prelude.{◌≡◌};

/// What a file is. Article NAME is the file `name.miz` and vocabulary NAME the file `name.voc`.
#[derive(Clone, Copy, Debug, PartialEq, Eq)]
pub enum FileKind {
    /// A text with theorems and definitions.
    Article,
    /// A list of symbols.
    Vocabulary,
}

impl FileKind {
    ghost use Rattle.mz_io.specs.File.{same_kind, extension};

    /// Whether both are the same kind.
    pub fn is(self, other: FileKind) -> bool
        ensures { result ≡ same_kind self other }
    {
        match (self, other) {
            (FileKind::Article, FileKind::Article) => true,
            (FileKind::Article, FileKind::Vocabulary) => false,
            (FileKind::Vocabulary, FileKind::Article) => false,
            (FileKind::Vocabulary, FileKind::Vocabulary) => true,
        }
    }

    /// How the name of such a file ends.
    pub fn extension(self) -> &'static [u8]
        ensures { result.now ≡ extension self }
    {
        match self {
            FileKind::Article => b".miz",
            FileKind::Vocabulary => b".voc",
        }
    }
}
