//! Conditions that an item can owe.
ghost use Rattle.std.specs.Prelude.{◌≡◌};
ghost use Rattle.mz_items.specs.Conditions.{condition_number};

/// A condition, in the order of the numbers of conditions.
#[derive(Clone, Copy, Debug, PartialEq, Eq)]
pub enum Condition {
    Existence,
    Uniqueness,
    Coherence,
    Compatibility,
    Consistency,
    Reducibility,
}

impl Condition {
    /// The number by which a fault names the condition. 6 is that of `correctness`, which stands for all that
    /// are left, and 7 that of a property in a wrong place.
    pub fn number(self) -> u64
        ensures { result ≡ condition_number self }
    {
        match self {
            Condition::Existence => 1,
            Condition::Uniqueness => 2,
            Condition::Coherence => 3,
            Condition::Compatibility => 4,
            Condition::Consistency => 5,
            Condition::Reducibility => 8,
        }
    }
}
