//! Where the report goes.
ghost use Rattle.std.specs.Prelude.{◌≡◌, ◌<◌, ◌≤◌, ℕ, List, Option, length, take, IfOk, OnOk, OnErr};
ghost use Rattle.mz_io.specs.Count.{Rose, last_count};
ghost use Rattle.mz_io.specs.Sink.{with_bytes, TookPrefix, TookPart};

/// A write that failed.
#[derive(Clone, Copy, Debug, PartialEq, Eq)]
pub struct SinkFailed;

/// What takes bytes.
///
/// A sink has a count of faults, which never falls and stands still at the last value of a `u64`.
/// It may tell the bytes taken.
pub trait Sink {
    /// How many faults of writing there were.
    ghost faults: { Self → ℕ };

    /// The bytes taken, where the sink tells them.
    ghost taken: { Self → Option (List ℕ) };

    /// Takes a part of these bytes from their front, and answers how many it took. Of bytes that are
    /// not none it takes at least one. It takes no memory.
    ///
    /// # Errors
    /// `SinkFailed` only where the count of faults rose in this call. Then no byte was taken.
    fn write(&mut self, bytes: &[u8]) -> Result<usize, SinkFailed>
        ensures never_fall { faults self.old ≤ faults self.new }
        ensures within { IfOk result (λ n. n ≤ length bytes.now) }
        ensures some { IfOk result (λ n. 0 < length bytes.now → 0 < n) }
        ensures took { IfOk result (λ n. taken self.new ≡ with_bytes (taken self.old) (take n bytes.now)) }
        ensures failed { OnErr result (Rose (faults self.old) (faults self.new)) }
        ensures nothing { OnErr result (taken self.new ≡ taken self.old) };

    /// The count of faults fits a `u64`.
    ghost faults_fit: { (sink : Self) → faults sink ≤ last_count };
}

/// Writes all of these bytes, by as many calls as that takes. Each call is offered all that was not
/// taken yet, and at least one byte.
///
/// # Errors
/// `SinkFailed` only where the sink's count of faults rose. Then a part of the bytes from their front
/// was taken, and not all.
pub fn write_all<W: Sink>(out: &mut W, bytes: &[u8]) -> Result<(), SinkFailed>
    ensures never_fall { W.faults out.old ≤ W.faults out.new }
    ensures all { OnOk result (W.taken out.new ≡ with_bytes (W.taken out.old) bytes.now) }
    ensures prefix { TookPrefix (W.taken out.old) (W.taken out.new) bytes.now }
    ensures part { OnErr result (TookPart (W.taken out.old) (W.taken out.new) bytes.now) }
    ensures failed { OnErr result (Rose (W.faults out.old) (W.faults out.new)) }
{
    let mut done = 0;
    while done < bytes.len() {
        let taken = out.write(&bytes[done..])?;
        done += taken;
    }
    Ok(())
}
