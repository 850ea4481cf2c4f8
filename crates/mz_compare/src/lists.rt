//! Comparison of lists, member by member.
ghost use Rattle.std.specs.Prelude.{◌≡◌, ◌↔◌, IsTrue};

/// A member of lists that are compared.
pub trait Compared {
    /// Whether the two are equal.
    fn is_equal(&self, other: &Self) -> bool
        ensures { IsTrue result ↔ (self.now ≡ other.now) };
}

/// Whether the lists are equal.
pub fn are_equal<T: Compared>(a: &[T], b: &[T]) -> bool
    ensures { IsTrue result ↔ (a.now ≡ b.now) }
{
    if a.len() != b.len() {
        return false;
    }
    for i in 0..a.len() {
        if !a[i].is_equal(&b[i]) {
            return false;
        }
    }
    true
}
