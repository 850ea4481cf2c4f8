//! Rows with one head.
ghost use Rattle.mz_match.specs.ByClass.{AreByClass};
ghost use Rattle.mz_match.specs.Values.{AreKnown};

use crate::by_class::ByClass;
use crate::row::Row;
use crate::value::{Value, is_class, with_value};
use crate::values::Values;
use std::alloc::{AllocError, Global};
use std::mem;

/// A list of rows, with what is known of the class of arguments by them, and with the arguments of each class.
#[derive(Drop)]
pub struct Rows {
    pub items: Vec<Row>,
    /// How many rows were put in, equal ones counted though they stand once.
    pub count: usize,
    pub values: Values,
    pub by_class: ByClass,
    ghost known: { AreKnown items.items values },
    ghost classed: { AreByClass items.items by_class },
}

impl Rows {
    ghost use Rattle.std.specs.Prelude.{◌≡◌, ◌∷◌, ◌++◌, ◌+◌, [], Some, None, map, IfOk, OnOk, IsTrue};
    ghost use Rattle.mz_match.specs.Rows.{SomeOf};
    ghost use Rattle.mz_match.specs.ByClass.{args_with};
    ghost use Rattle.mz_match.specs.Table.{IsAdded, value_in};

    /// No rows.
    #[tactic(auto, using(crate::proofs::ValueLemmas::new_rules))]
    pub fn new(alloc: Global) -> Rows
        ensures items { result.items.items ≡ [] }
        ensures count { result.count ≡ 0 }
    {
        Rows {
            items: Vec::new(alloc),
            count: 0,
            values: Values::new(alloc),
            by_class: ByClass::new(alloc),
        }
    }

    /// What is known of the class of arguments.
    pub fn value(&self, args: &[usize]) -> Value
        ensures { result ≡ value_in (Some self.now) args.now }
    {
        self.values.find(args)
    }

    /// The arguments of the rows that have a class, in the order of the rows.
    #[tactic(auto, using(crate::proofs::ByClassLemmas::with_rules))]
    pub fn args_with(&self, class: usize) -> &[Vec<usize>]
        ensures { map (λ k. k.items) result.now ≡ args_with class self.now.items.items }
    {
        self.by_class.find(class)
    }

    /// The rows with one more, which stands at the end, unless an equal one stands there.
    #[tactic(auto, using(crate::proofs::ValueLemmas::add_rules))]
    pub fn with(self, alloc: Global, row: Row) -> Result<Rows, AllocError>
        ensures { IfOk result (λ rows. IsAdded row (Some self) (Some rows)) }
    {
        let known = self.value(row.args.as_slice());
        if is_class(known, row.value) {
            let out = self.counted()?;
            Ok(out)
        } else {
            let out = self.extended(alloc, row, known)?;
            Ok(out)
        }
    }

    /// Adds a row, which stands at the end, unless an equal one stands there.
    pub fn add(&mut self, alloc: Global, row: Row) -> Result<(), AllocError>
        ensures { OnOk result (IsAdded row (Some self.old) (Some self.new)) }
    {
        let before = mem::replace(self, Rows::new(alloc));
        *self = before.with(alloc, row)?;
        Ok(())
    }

    /// The same rows, with one more counted.
    fn counted(self) -> Result<Rows, AllocError>
        ensures { IfOk result (λ rows. (rows.items.items ≡ self.items.items) × (rows.count ≡ self.count + 1)) }
    {
        let Rows {
            items,
            count,
            values,
            by_class,
        } = self;
        let count = count.checked_add(1).ok_or(AllocError)?;
        Ok(Rows {
            items,
            count,
            values,
            by_class,
        })
    }

    /// The rows with one more at the end.
    fn extended(self, alloc: Global, row: Row, known: Value) -> Result<Rows, AllocError>
        requires { known ≡ value_in (Some self) row.args.items }
        ensures { IfOk result (λ rows. (rows.items.items ≡ self.items.items ++ row ∷ []) × (rows.count ≡ self.count + 1)) }
    {
        let Rows {
            items,
            count,
            values,
            by_class,
        } = self;
        let count = count.checked_add(1).ok_or(AllocError)?;
        let mut items = items;
        let mut values = values;
        let mut by_class = by_class;
        let args = Vec::from_slice(alloc, row.args.as_slice())?;
        let again = Vec::from_slice(alloc, row.args.as_slice())?;
        values.insert(args, with_value(known, row.value))?;
        by_class.add(alloc, row.value, again)?;
        items.push(row)?;
        Ok(Rows {
            items,
            count,
            values,
            by_class,
        })
    }
}
