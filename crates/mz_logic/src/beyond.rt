//! Indices that have no value.

/// What stands for an index beyond a list of values: the index lowered by the number of values, whose
/// binders go away; the index as it is; or `Const(0)`.
#[derive(Clone, Copy, Debug, PartialEq, Eq)]
pub enum Beyond {
    Lowered,
    Kept,
    Zero,
}
