//! What is known of the class of arguments.
ghost use Rattle.std.specs.Prelude.{◌≡◌};
ghost use Rattle.mz_match.specs.Values.{with_value, is_class};

/// What rows say of the class of some arguments.
#[derive(Clone, Copy, Debug, Drop)]
pub enum Value {
    /// The rows have to be gone over.
    Unknown,
    /// No row has the arguments.
    Nothing,
    /// Rows have the arguments, and all of them this class.
    Class(usize),
}

/// What is known with one row more that has the arguments and this class.
pub fn with_value(known: Value, class: usize) -> Value
    ensures { result ≡ with_value known class }
{
    match known {
        Value::Nothing => Value::Class(class),
        Value::Class(_) => Value::Unknown,
        Value::Unknown => Value::Unknown,
    }
}

/// Whether the class is known to be this one.
pub fn is_class(known: Value, class: usize) -> bool
    ensures { result ≡ is_class known class }
{
    match known {
        Value::Class(other) => other == class,
        Value::Nothing => false,
        Value::Unknown => false,
    }
}
