//! A sink over a stream.
ghost use Rattle.std.specs.Prelude.{◌≡◌, ◌≤◌, ◌<◌, IfOk, OnErr, None, length, take};
ghost use Rattle.std.specs.Io.KnownBytes.{Appends};
ghost use Rattle.mz_io.specs.Count.{Rose, last_count};
ghost use Rattle.mz_io.specs.Sink.{with_bytes};

use crate::sink::{Sink, SinkFailed};
use std::io;
use std::io::Write;

/// A sink over a writer, which tells nothing. Each call flushes the writer, so that what was taken was
/// handed on. A call fails where the writer or its flush fails, or where the writer takes none of some
/// bytes.
#[derive(Drop)]
pub struct StreamSink<W: Write + Drop> {
    /// What the bytes are handed to.
    pub writer: W,
    /// How many calls failed.
    pub faults: u64,
    pub ghost faults_fit: { faults ≤ last_count },
}

impl<W: Write + Drop> StreamSink<W> {
    /// A sink over this writer, before its first call.
    pub fn new(writer: W) -> StreamSink<W>
        ensures writer { result.writer ≡ writer }
        ensures no_fault { result.faults ≡ 0 }
    {
        StreamSink { writer, faults: 0 }
    }
}

/// Hands a part of the bytes from their front on, and answers how many.
fn hand_on<W: Write>(writer: &mut W, bytes: &[u8]) -> io::Result<usize>
    ensures within { IfOk result (λ n. n ≤ length bytes.now) }
    ensures appends { IfOk result (λ n. Appends (W.contents writer.old) (W.contents writer.new) (take n bytes.now)) }
{
    let count = writer.write(bytes)?;
    writer.flush()?;
    Ok(count)
}

impl<W: Write + Drop> Sink for StreamSink<W> {
    ghost use Rattle.std.specs.Prelude.{None};

    ghost faults = { λ s. s.faults };

    ghost taken = { λ s. None };

    ghost faults_fit = { λ s. s.faults_fit };

    fn write(&mut self, bytes: &[u8]) -> Result<usize, SinkFailed>
        ensures never_fall { self.old.faults ≤ self.new.faults }
        ensures within { IfOk result (λ n. n ≤ length bytes.now) }
        ensures some { IfOk result (λ n. 0 < length bytes.now → 0 < n) }
        ensures failed { OnErr result (Rose self.old.faults self.new.faults) }

        // What is counted as taken was appended to what the writer holds.
        ensures appends { IfOk result (λ n. Appends (W.contents self.old.writer) (W.contents self.new.writer) (take n bytes.now)) }
    {
        match hand_on(&mut self.writer, bytes) {
            Ok(count) if count > 0 || bytes.is_empty() => Ok(count),
            _ => {
                self.faults = self.faults.saturating_add(1);
                Err(SinkFailed)
            }
        }
    }
}

#[cfg(test)]
mod tests {
    use super::*;
    use crate::sink::write_all;
    use std::fs;
    use std::fs::File;

    #[test]
    fn writes_to_a_file(rt: HostRuntime) {
        let mut sink = StreamSink::new(File::create(&rt, "stream.txt").expect(&rt, "a file"));
        assert!(rt; write_all(&mut sink, b"NOFILE missing\n").is_ok());
        assert!(rt; sink.faults == 0);
        let text = fs::read_to_string(&rt, "stream.txt").expect(&rt, "a text");
        assert!(rt; text.as_str() == "NOFILE missing\n");
        let mut closed = StreamSink::new(File::open(&rt, "stream.txt").expect(&rt, "a file"));
        assert!(rt; write_all(&mut closed, b"more").is_err());
        assert!(rt; closed.faults == 1);
        fs::remove_file(&rt, "stream.txt").expect(&rt, "no file");
    }
}
