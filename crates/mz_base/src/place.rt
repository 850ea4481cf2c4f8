//! Places in a text.
ghost use Rattle.std.specs.Prelude.{◌≡◌, ◌+◌, ◌<◌, ◌≤◌, ◌^◌, length};

/// A line and a column, both from 1. A column counts bytes. A line ends after its byte 10.
#[derive(Clone, Copy, Debug, PartialEq, Eq, PartialOrd, Ord)]
pub struct Place {
    /// The line, from 1.
    pub line: u64,
    /// The column in bytes, from 1.
    pub column: u64,
}

impl Place {
    ghost use Rattle.mz_base.specs.Place.{start, after, end_from};

    /// The place of a text's first byte.
    pub fn start() -> Place
        ensures { result ≡ start }
    {
        Place { line: 1, column: 1 }
    }

    /// Where the text goes on after the byte that stands here.
    pub fn after(self, byte: u8) -> Place
        requires line { self.line + 1 < 2 ^ 64 }
        requires column { self.column + 1 < 2 ^ 64 }
        ensures value { result ≡ after self byte }
        ensures line { result.line ≤ self.line + 1 }
        ensures column { result.column ≤ self.column + 1 }
    {
        if byte == b'\n' {
            Place {
                line: self.line + 1,
                column: 1,
            }
        } else {
            Place {
                line: self.line,
                column: self.column + 1,
            }
        }
    }

    /// Where the text goes on after the bytes that stand here.
    pub fn after_all(self, bytes: &[u8]) -> Place
        requires line { self.line + length bytes.now < 2 ^ 64 }
        requires column { self.column + length bytes.now < 2 ^ 64 }
        ensures value { result ≡ end_from self bytes.now }
        ensures line { result.line ≤ self.line + length bytes.now }
        ensures column { result.column ≤ self.column + length bytes.now }
    {
        let mut now = self;
        for byte in bytes {
            now = now.after(*byte);
        }
        now
    }
}
