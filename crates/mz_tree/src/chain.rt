//! Trees behind one another.
use mz_base::place::Place;

/// A tree with what stands before it: a comma, or the place of a comma, a word or an `&`.
pub struct Next<S: Drop, T: Drop> {
    pub sign: S,
    pub tree: T,
}

impl<S: Drop, T: Drop> Drop for Next<S, T> {
    fn drop(self) {
        let Next {
            sign: _sign,
            tree: _tree,
        } = self;
    }
}

/// A tree, and more of them behind a sign each.
#[derive(Drop)]
pub struct Chain<S: Drop, T: Drop> {
    pub first: T,
    pub more: Vec<Next<S, T>>,
}

/// A tree with the place of the comma behind it.
pub struct Before<T: Drop> {
    pub tree: T,
    pub comma: Place,
}

impl<T: Drop> Drop for Before<T> {
    fn drop(self) {
        let Before {
            tree: _tree,
            comma: _comma,
        } = self;
    }
}
