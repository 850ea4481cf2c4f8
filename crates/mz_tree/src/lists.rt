//! Lists of trees, with commas between them or without, and trees that may be left out.
use crate::chain::Next;
use crate::word::Comma;
use std::marker::Model;

/// Trees, in order.
pub struct Trees<T> {
    pub items: Vec<T>,
}

impl<T: Drop> Drop for Trees<T> {
    fn drop(self) {
        let Trees { items: _items } = self;
    }
}

impl<T> Model for Trees<T> {
    ghost use Rattle.std.specs.Prelude.{List};

    ghost Value = { List T };

    ghost view = { λ a. a.items.items };
}

/// Trees with commas between them.
pub struct Separated<T: Drop> {
    pub first: T,
    pub more: Trees<Next<Comma, T>>,
}

impl<T: Drop> Drop for Separated<T> {
    fn drop(self) {
        let Separated {
            first: _first,
            more: _more,
        } = self;
    }
}
