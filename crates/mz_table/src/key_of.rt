//! What entries are found by.
ghost use Rattle.std.specs.Prelude.{◌≡◌, Bool, true, IfOk};
ghost use Rattle.std.specs.Ordering.{eq_by_cmp};

use std::alloc::{AllocError, Global};

/// Gives each entry a key, by which it is found: `has` tells of a key whether the entry has it.
pub trait KeyOf<K: Ord, T> {
    ghost has: { K → T → Bool };

    /// A key of the entry; it has those that are equal to this one and no others.
    fn key(alloc: Global, x: &T) -> Result<K, AllocError>
        ensures { IfOk result (λ k. (q : K) → has q x.now ≡ eq_by_cmp K.cmp k q) };

    ghost respects: { (k q : K) → eq_by_cmp K.cmp k q ≡ true → (x : T) → has k x ≡ has q x };
}
