//! Classes of numbers: each number leads to one that is not greater, at last to the root of its class.
ghost use Rattle.std.specs.Prelude.{◌≡◌, ◌<◌, ◌≤◌, ℕ, length, slice_index, IfOk};
ghost use Rattle.mz_congruence.specs.Classes.{root, Descends, Flat, total, Progress, United};

use std::alloc::{AllocError, Global};

/// What a number leads to.
pub fn parent(c: &[usize], i: usize) -> usize
    ensures { result ≡ slice_index c.now i }
{
    if i < c.len() { c[i] } else { 0 }
}

/// The root of a number's class.
#[tactic(auto, using(crate::proofs::RootLemmas::root_rules))]
pub fn root_of(c: &[usize], i: usize) -> usize
    requires { Descends c.now }
    ensures { result ≡ root c.now i }
{
    let mut k = i;
    'up: while parent(c, k) != k {
        k = parent(c, k);
    }
    k
}

/// Each number in a class of its own.
pub fn numbers(alloc: Global, n: usize) -> Result<Vec<usize>, AllocError>
    ensures { IfOk result (λ c. (length c.items ≡ n) × ((i : ℕ) → i < n → slice_index c.items i ≡ i)) }
{
    let mut c = Vec::new(alloc);
    for i in 0..n {
        c.push(i)?;
    }
    Ok(c)
}

/// Lets each number lead to its root at once.
pub fn flatten(c: &mut [usize])
    requires { Descends c.old }
    ensures len { length c.new ≡ length c.old }
    ensures descends { Descends c.new }
    ensures flat { Flat c.new }
    ensures roots { (i : ℕ) → root c.new i ≡ root c.old i }
    ensures less { total c.new ≤ total c.old }
{
    for k in 0..c.len() {
        let up = parent(&*c, c[k]);
        c[k] = up;
    }
}

/// Makes two classes one. Whether they were two.
#[tactic(auto, using(crate::proofs::RootLemmas::bound_rules))]
pub fn union(c: &mut [usize], p: usize, q: usize) -> bool
    requires descends { Descends c.old }
    requires left { p < length c.old }
    requires right { q < length c.old }
    ensures len { length c.new ≡ length c.old }
    ensures descends { Descends c.new }
    ensures progress { Progress result c.old c.new }
    ensures united { United result c.old p q c.new }
{
    let a = root_of(&*c, p);
    let b = root_of(&*c, q);
    if a < b {
        c[b] = a;
        true
    } else if b < a {
        c[a] = b;
        true
    } else {
        false
    }
}
