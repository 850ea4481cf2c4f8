//! Arguments by the classes of their rows.
ghost use Rattle.std.specs.Prelude.{◌≡◌, ◌++◌, ◌∷◌, ℕ, [], map, IfOk, OnOk, nat_eq, if◌then◌else◌};
ghost use Rattle.mz_match.specs.ByClass.{lists_at};

use std::alloc::{AllocError, Global};
use std::collections::BTreeMap;
use std::marker::Model;

/// Lists of arguments.
#[derive(Drop)]
pub struct ArgumentLists {
    pub items: Vec<Vec<usize>>,
}

impl Model for ArgumentLists {
    ghost use Rattle.std.specs.Prelude.{ℕ, List, map};

    ghost Value = { List (List ℕ) };

    ghost view = { λ a. map (λ k. k.items) a.items.items };
}

/// For each class the arguments of the rows that have it.
#[derive(Drop)]
pub struct ByClass {
    lists: BTreeMap<usize, ArgumentLists>,
}

impl ByClass {
    /// No arguments.
    pub fn new(alloc: Global) -> ByClass
        ensures { (class : ℕ) → lists_at result.lists class ≡ [] }
    {
        ByClass {
            lists: BTreeMap::new(alloc),
        }
    }

    /// The arguments of a class, in the order in which they came.
    pub fn find(&self, class: usize) -> &[Vec<usize>]
        ensures { map (λ k. k.items) result.now ≡ lists_at self.now.lists class }
    {
        match self.lists.get(&class) {
            Some(lists) => lists.items.as_slice(),
            None => &[],
        }
    }

    /// Takes away the lists of a class.
    fn remove(&mut self, alloc: Global, class: usize) -> ArgumentLists
        ensures lists { result ≡ lists_at self.old.lists class }
        ensures others { (q : ℕ) → (q ≡ class → ⊥) → lists_at self.new.lists q ≡ lists_at self.old.lists q }
    {
        match self.lists.remove(&class) {
            Some(lists) => lists,
            None => ArgumentLists {
                items: Vec::new(alloc),
            },
        }
    }

    /// Puts the lists of a class in place of those that were there.
    fn insert(&mut self, class: usize, lists: ArgumentLists) -> Result<(), AllocError>
        ensures lists { OnOk result (lists_at self.new.lists class ≡ lists) }
        ensures others { OnOk result ((q : ℕ) → (q ≡ class → ⊥) → lists_at self.new.lists q ≡ lists_at self.old.lists q) }
    {
        self.lists.insert(class, lists)?;
        Ok(())
    }

    /// Adds arguments behind those of the class.
    #[tactic(auto, using(crate::proofs::ByClassLemmas::add_rules))]
    pub fn add(&mut self, alloc: Global, class: usize, args: Vec<usize>) -> Result<(), AllocError>
        ensures { OnOk result ((q : ℕ) → lists_at self.new.lists q ≡ (if nat_eq class q then lists_at self.old.lists q ++ args.items ∷ [] else lists_at self.old.lists q)) }
    {
        let before = self.remove(alloc, class);
        let lists = with_args(before, args)?;
        self.insert(class, lists)?;
        Ok(())
    }
}

/// The lists with one more.
fn with_args(lists: ArgumentLists, args: Vec<usize>) -> Result<ArgumentLists, AllocError>
    ensures { IfOk result (λ out. out ≡ lists ++ args.items ∷ []) }
{
    let mut lists = lists;
    lists.items.push(args)?;
    Ok(lists)
}
