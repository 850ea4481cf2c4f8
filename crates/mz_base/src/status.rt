//! How the program ends.
ghost use Rattle.std.specs.Prelude.{◌≡◌};

/// How a run ends. The exit statuses are 0 to 6 in this order.
#[derive(Clone, Copy, Debug, PartialEq, Eq)]
pub enum Status {
    /// Every article is accepted.
    Accepted,
    /// Some article is not accepted.
    Rejected,
    /// The words are no order. Nothing was written.
    Usage,
    /// A text could not be read. Nothing was written.
    ReadFault,
    /// The report could not be written. What was written is a part from its front.
    WriteFault,
    /// Memory ran out. What was written by then is a part of the report from its front.
    OutOfMemory,
    /// A limit on the texts was passed. Nothing was written.
    TooLarge,
}

impl Status {
    ghost use Rattle.mz_base.specs.Status.{exit_status};

    /// The exit status of the program, 0 to 6.
    pub fn exit_status(self) -> u8
        ensures { result ≡ exit_status self }
    {
        self as u8
    }
}
