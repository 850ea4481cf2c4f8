//! A sink over memory.
ghost use Rattle.std.specs.Prelude.{◌≡◌, ◌≤◌, ◌<◌, ◌↔◌, ◌-◌, ◌⊎◌, ℕ, [], Some, Contains, IsErr, IfOk, OnErr, length, min, take, vec_capacity, vec_len};
ghost use Rattle.mz_io.specs.Count.{Rose, counted, last_count};
ghost use Rattle.mz_io.specs.Sink.{with_bytes};

use crate::sink::{Sink, SinkFailed};
use mz_base::numbers::Numbers;
use std::alloc::{AllocError, Global};

/// How many bytes a `MemorySink` has room for.
pub const SINK_ROOM: usize = 1_048_576;

/// A sink over memory, which tells the bytes taken. It has room for 1,048,576 bytes from the start and takes no more.
/// A call takes at most `step` bytes. Calls are numbered from 1; those whose numbers are in `fail`
/// fail, and so does a call with some bytes where no room is left.
#[derive(Debug, Drop)]
pub struct MemorySink {
    /// The most bytes that a call takes.
    pub step: usize,
    /// The numbers of the calls that fail.
    pub fail: Numbers,
    /// How many calls there were.
    pub calls: u64,
    /// How many of them failed.
    pub faults: u64,
    /// The bytes taken, in the room that was reserved.
    pub taken: Vec<u8>,
    pub ghost faults_fit: { faults ≤ last_count },
    pub ghost positive: { 1 ≤ step },
    pub ghost reserved: { 1048576 ≤ vec_capacity taken },
    pub ghost within_room: { vec_len taken ≤ 1048576 },
}

impl MemorySink {
    /// A sink that has taken nothing, before its first call.
    pub fn new(alloc: Global, step: usize, fail: Numbers) -> Result<MemorySink, AllocError>
        requires { 1 ≤ step }
        ensures taken { IfOk result (λ sink. ⟦<MemorySink as Sink>⟧.taken sink ≡ Some []) }
        ensures no_fault { IfOk result (λ sink. ⟦<MemorySink as Sink>⟧.faults sink ≡ 0) }
        ensures calls { IfOk result (λ sink. sink.calls ≡ 0) }
        ensures step { IfOk result (λ sink. sink.step ≡ step) }
        ensures fail { IfOk result (λ sink. sink.fail ≡ fail) }
    {
        let taken = Vec::with_capacity(alloc, SINK_ROOM)?;
        Ok(MemorySink {
            step,
            fail,
            calls: 0,
            faults: 0,
            taken,
        })
    }

    /// The bytes taken.
    pub fn bytes(&self) -> &[u8]
        ensures { ⟦<MemorySink as Sink>⟧.taken self.now ≡ Some result.now }
    {
        self.taken.as_slice()
    }
}

impl Sink for MemorySink {
    ghost faults = { λ s. s.faults };

    ghost taken = { λ s. Some s.taken.items };

    ghost faults_fit = { λ s. s.faults_fit };

    fn write(&mut self, bytes: &[u8]) -> Result<usize, SinkFailed>
        ensures never_fall { self.old.faults ≤ self.new.faults }
        ensures within { IfOk result (λ n. n ≤ length bytes.now) }
        ensures some { IfOk result (λ n. 0 < length bytes.now → 0 < n) }
        ensures took { IfOk result (λ n. Some self.new.taken.items ≡ with_bytes (Some self.old.taken.items) (take n bytes.now)) }
        ensures failed { OnErr result (Rose self.old.faults self.new.faults) }
        ensures nothing { OnErr result (Some self.new.taken.items ≡ Some self.old.taken.items) }

        // The call fails exactly where its number is listed, or where some bytes meet no room.
        ensures fails { IsErr result ↔ (Contains self.old.fail self.new.calls ⊎ ((0 < length bytes.now) × (vec_len self.old.taken ≡ 1048576))) }
        ensures most { IfOk result (λ n. n ≡ min (length bytes.now) (min self.old.step (1048576 - vec_len self.old.taken))) }
        ensures numbered { self.new.calls ≡ counted self.old.calls 1 }
        ensures list { self.new.fail ≡ self.old.fail }
        ensures step { self.new.step ≡ self.old.step }
    {
        self.calls = self.calls.saturating_add(1);
        let room = SINK_ROOM - self.taken.len();
        if self.fail.contains(self.calls) || (room == 0 && !bytes.is_empty()) {
            self.faults = self.faults.saturating_add(1);
            return Err(SinkFailed);
        }
        let count = bytes.len().min(self.step.min(room));
        match self.taken.extend_from_slice(&bytes[..count]) {
            Ok(()) => Ok(count),
            Err(_) => unreachable!(),
        }
    }
}

#[cfg(test)]
mod tests {
    use super::*;
    use crate::sink::write_all;
    use std::mem::forget;

    #[test]
    fn takes_steps(rt: HostRuntime) {
        let fail = Numbers::from_slice(rt.alloc(), &[2]).expect(&rt, "memory");
        let mut sink = MemorySink::new(rt.alloc(), 10, fail).expect(&rt, "memory");
        assert!(rt; write_all(&mut sink, b"A accepted 1 theorems").is_err());
        assert!(rt; sink.bytes() == b"A accepted".as_slice());
        assert!(rt; sink.faults == 1);
        assert!(rt; write_all(&mut sink, b" 1 theorems").is_ok());
        assert!(rt; sink.bytes() == b"A accepted 1 theorems".as_slice());
        forget(sink);
    }

    #[test]
    fn has_room_for_one_mebibyte(rt: HostRuntime) {
        let none = Numbers::new(rt.alloc());
        let mut sink = MemorySink::new(rt.alloc(), 1_000_000, none).expect(&rt, "memory");
        let piece = vec![in rt.alloc(); b' '; 1_048_577].expect(&rt, "memory");
        assert!(rt; write_all(&mut sink, piece.as_slice()).is_err());
        assert!(rt; sink.bytes().len() == 1_048_576);
        assert!(rt; sink.write(&[]) == Ok(0));
        forget(piece);
        forget(sink);
    }
}
