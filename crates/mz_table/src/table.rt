//! Lists whose entries are found by a key.
ghost use Rattle.std.specs.Prelude.{◌≡◌, ◌++◌, ◌∷◌, [], map, None, IfOk, OnOk, cond};
ghost use Rattle.std.specs.List.{filter};
ghost use Rattle.std.specs.Arc.{arc_value};
ghost use Rattle.std.specs.BTreeMap.{get};
ghost use Rattle.std.specs.Ordering.{eq_by_cmp};
ghost use Rattle.mz_table.specs.Groups.{group_at};

use crate::key_of::KeyOf;
use std::alloc::{AllocError, Global};
use std::collections::BTreeMap;
use std::marker::{Model, PhantomData};
use std::mem;
use std::sync::Arc;

/// A list of shared entries, with those of each key apart.
#[derive(Drop)]
pub struct Table<K: Ord + Drop, T: Drop, B: KeyOf<K, T>> {
    items: Vec<Arc<T>>,
    groups: BTreeMap<K, Vec<Arc<T>>>,
    by: PhantomData<B>,
}

impl<K: Ord + Drop, T: Drop, B: KeyOf<K, T>> Model for Table<K, T, B> {
    ghost use Rattle.std.specs.Prelude.{List, map};
    ghost use Rattle.std.specs.Arc.{arc_value};
    ghost use Rattle.mz_table.specs.Groups.{AreGrouped};

    ghost Value = { List T };

    ghost view = { λ a. map arc_value a.items.items };

    ghost invariant = { λ a. AreGrouped K.cmp B.has (map arc_value a.items.items) a.groups };
}

impl<K: Ord + Drop, T: Drop, B: KeyOf<K, T>> Table<K, T, B> {
    /// No entries.
    pub fn new(alloc: Global) -> Table<K, T, B>
        ensures { result ≡ [] }
    {
        Table {
            items: Vec::new(alloc),
            groups: BTreeMap::new(alloc),
            by: PhantomData,
        }
    }

    /// All entries, in their order.
    pub fn as_slice(&self) -> &[Arc<T>]
        ensures { map arc_value result.now ≡ self.now }
    {
        self.items.as_slice()
    }

    /// The entries with the key, in their order. The others aren't looked at.
    pub fn of(&self, key: &K) -> &[Arc<T>]
        ensures { map arc_value result.now ≡ filter (B.has key.now) self.now }
    {
        match self.groups.get(key) {
            Some(g) => g.as_slice(),
            None => &[],
        }
    }

    /// The entries with one more at the end.
    fn with(self, alloc: Global, x: Arc<T>) -> Result<Table<K, T, B>, AllocError>
        ensures { IfOk result (λ t. t ≡ self ++ arc_value x ∷ []) }
    {
        let Table { items, groups, by } = self;
        let key = B::key(alloc, &x)?;
        let shared = Arc::try_clone(&x)?;
        let mut groups = groups;
        let before = taken(alloc, &mut groups, &key);
        let group = with_entry(before, shared)?;
        groups.insert(key, group)?;
        let mut items = items;
        items.push(x)?;
        Ok(Table { items, groups, by })
    }

    /// Puts a shared entry at the end.
    pub fn push_shared(&mut self, x: Arc<T>) -> Result<(), AllocError>
        ensures { OnOk result (self.new ≡ self.old ++ arc_value x ∷ []) }
    {
        let alloc = *self.items.allocator();
        let before = mem::replace(self, Table::new(alloc));
        *self = before.with(alloc, x)?;
        Ok(())
    }

    /// Puts an entry at the end.
    pub fn push(&mut self, x: T) -> Result<(), AllocError>
        ensures { OnOk result (self.new ≡ self.old ++ x ∷ []) }
    {
        let alloc = *self.items.allocator();
        let shared = Arc::new(alloc, x)?;
        self.push_shared(shared)
    }

    /// Puts the entries of another list at the end.
    pub fn append(&mut self, more: Table<K, T, B>) -> Result<(), AllocError>
        ensures { OnOk result (self.new ≡ self.old ++ more) }
    {
        for x in more.items {
            self.push_shared(x)?;
        }
        Ok(())
    }

    /// Puts the entries of another list at the end, which stay its own, too.
    pub fn append_shared(&mut self, more: &Table<K, T, B>) -> Result<(), AllocError>
        ensures { OnOk result (self.new ≡ self.old ++ more.now) }
    {
        for x in more.as_slice() {
            self.push_shared(Arc::try_clone(x)?)?;
        }
        Ok(())
    }

    /// An equal list, which shares the entries.
    pub fn copy(&self, alloc: Global) -> Result<Table<K, T, B>, AllocError>
        ensures { IfOk result (λ t. t ≡ self.now) }
    {
        let mut out = Table::new(alloc);
        for x in &self.items {
            out.push_shared(Arc::try_clone(x)?)?;
        }
        Ok(out)
    }
}

/// Takes away the group of a key.
fn taken<K: Ord + Drop, T: Drop>(
    alloc: Global,
    groups: &mut BTreeMap<K, Vec<Arc<T>>>,
    key: &K,
) -> Vec<Arc<T>>
    ensures group { map arc_value result.items ≡ group_at K.cmp groups.old key.now }
    ensures others { (q : K) → get K.cmp groups.new q ≡ cond (eq_by_cmp K.cmp key.now q) None (get K.cmp groups.old q) }
{
    match groups.remove(key) {
        Some(g) => g,
        None => Vec::new(alloc),
    }
}

/// A group with one entry more.
fn with_entry<T: Drop>(group: Vec<Arc<T>>, x: Arc<T>) -> Result<Vec<Arc<T>>, AllocError>
    ensures { IfOk result (λ g. map arc_value g.items ≡ map arc_value group.items ++ arc_value x ∷ []) }
{
    let mut group = group;
    group.push(x)?;
    Ok(group)
}
