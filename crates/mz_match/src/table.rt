//! The table of rows.
ghost use Rattle.std.specs.Prelude.{◌≡◌, ◌<◌, ℕ, None, OnOk, IfOk, IfSome, MatchOption, length, map};
ghost use Rattle.std.specs.Option.{option_copied};
ghost use Rattle.mz_match.specs.ByClass.{args_with};
ghost use Rattle.mz_match.specs.Table.{rows_at, rows_of, count_of, value_of, group_of, groups_at, HasNoGroup, IsGroupAt, Grows, GroupsGrow};
ghost use Rattle.mz_match.specs.declared.row.Head.{Head};

use crate::row::{Head, Row};
use crate::rows::Rows;
use crate::value::Value;
use std::alloc::{AllocError, Global};
use std::collections::BTreeMap;

/// The rows with one head.
#[derive(Drop)]
pub struct Group {
    pub head: Head,
    pub rows: Rows,
}

/// Groups of different heads.
#[derive(Drop)]
pub struct Groups {
    pub items: Vec<Group>,
}

/// Rows by their heads.
#[derive(Drop)]
pub struct Table {
    /// By the numbers of the heads, which several heads may share.
    pub groups: BTreeMap<u32, Groups>,
}

impl Table {
    /// A table without rows.
    #[tactic(auto, using(crate::proofs::GroupLemmas::new_rules))]
    pub fn new(alloc: Global) -> Table
        ensures { (h : Head) → rows_at result h ≡ None }
    {
        Table {
            groups: BTreeMap::new(alloc),
        }
    }

    /// The rows with a head, of which equal ones stand once.
    pub fn rows(&self, head: Head) -> &[Row]
        ensures { result.now ≡ rows_of self.now head }
    {
        match self.find(head) {
            Some(rows) => rows.items.as_slice(),
            None => &[],
        }
    }

    /// The arguments of the rows with a head that have a class, in the order of the rows.
    pub fn args_with(&self, head: Head, class: usize) -> &[Vec<usize>]
        ensures { map (λ k. k.items) result.now ≡ args_with class (rows_of self.now head) }
    {
        match self.find(head) {
            Some(rows) => rows.args_with(class),
            None => &[],
        }
    }

    /// How many rows with a head were put in, repeated ones counted.
    pub fn count(&self, head: Head) -> usize
        ensures { result ≡ count_of self.now head }
    {
        match self.find(head) {
            Some(rows) => rows.count,
            None => 0,
        }
    }

    /// What is known of the value of the rows with the head and these arguments.
    pub fn value(&self, head: Head, args: &[usize]) -> Value
        ensures { result ≡ value_of self.now head args.now }
    {
        match self.find(head) {
            Some(rows) => rows.value(args),
            None => Value::Nothing,
        }
    }

    #[tactic(auto, unfolding(crate::specs::Table::rows_at))]
    fn find(&self, head: Head) -> Option<&Rows>
        ensures { option_copied result ≡ rows_at self.now head }
    {
        match self.groups.get(&head.number()) {
            Some(groups) => group_in(groups.items.as_slice(), head),
            None => None,
        }
    }

    /// Adds a row behind those with its head; an equal one that stands there is counted alone.
    #[tactic(auto, using(crate::proofs::GroupLemmas::table_rules))]
    pub fn add(&mut self, alloc: Global, head: Head, row: Row) -> Result<(), AllocError>
        ensures { OnOk result (Grows head row self.old self.new) }
    {
        let number = head.number();
        let before = self.remove(alloc, number);
        let groups = with_row(alloc, before, head, row)?;
        self.insert(number, groups)?;
        Ok(())
    }

    /// Takes away the groups at a number.
    fn remove(&mut self, alloc: Global, number: u32) -> Groups
        ensures groups { result.items.items ≡ groups_at self.old.groups number }
        ensures others { (q : ℕ) → (q ≡ number → ⊥) → groups_at self.new.groups q ≡ groups_at self.old.groups q }
    {
        match self.groups.remove(&number) {
            Some(groups) => groups,
            None => Groups {
                items: Vec::new(alloc),
            },
        }
    }

    /// Puts groups at a number in place of those that were there.
    fn insert(&mut self, number: u32, groups: Groups) -> Result<(), AllocError>
        ensures groups { OnOk result (groups_at self.new.groups number ≡ groups.items.items) }
        ensures others { OnOk result ((q : ℕ) → (q ≡ number → ⊥) → groups_at self.new.groups q ≡ groups_at self.old.groups q) }
    {
        self.groups.insert(number, groups)?;
        Ok(())
    }
}

/// The groups with a row more.
fn with_row(alloc: Global, groups: Groups, head: Head, row: Row) -> Result<Groups, AllocError>
    ensures { IfOk result (λ out. GroupsGrow head row groups.items.items out.items.items) }
{
    let Groups { items } = groups;
    let mut items = items;
    add_to_group(alloc, &mut items, head, row)?;
    Ok(Groups { items })
}

fn group_in(groups: &[Group], head: Head) -> Option<&Rows>
    ensures { option_copied result ≡ group_of head groups.now }
{
    for g in groups {
        if g.head.is(head) {
            return Some(&g.rows);
        }
    }
    None
}

#[tactic(auto, using(crate::proofs::GroupLemmas::place_rules))]
fn place_of(groups: &[Group], head: Head) -> Option<usize>
    ensures place { MatchOption result (HasNoGroup head groups.now) (λ i. IsGroupAt head groups.now i) }
    ensures within { IfSome result (λ i. i < length groups.now) }
{
    for i in 0..groups.len() {
        if groups[i].head.is(head) {
            return Some(i);
        }
    }
    None
}

#[tactic(auto, using(crate::proofs::GroupLemmas::group_rules))]
fn add_to_group(
    alloc: Global,
    groups: &mut Vec<Group>,
    head: Head,
    row: Row,
) -> Result<(), AllocError>
    ensures { OnOk result (GroupsGrow head row groups.old.items groups.new.items) }
{
    match place_of(groups.as_slice(), head) {
        Some(i) => {
            groups[i].rows.add(alloc, row)?;
            Ok(())
        }
        None => {
            let none = Rows::new(alloc);
            let rows = none.with(alloc, row)?;
            groups.push(Group { head, rows })?;
            Ok(())
        }
    }
}
