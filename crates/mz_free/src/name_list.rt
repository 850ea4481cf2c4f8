//! Lists of names.
ghost use Rattle.std.specs.Prelude.{◌≡◌, ◌++◌, ◌∷◌, [], OnOk, OnErr};
ghost use Rattle.mz_free.specs.Free.{once_more};
ghost use Rattle.mz_free.specs.Occurring.{is_among, is_not_among, unbound};

use mz_base::text::Text;
use std::alloc::{AllocError, Global};
use std::marker::Model;

/// Names, in the order of the text.
#[derive(Drop)]
pub struct NameList {
    pub items: Vec<Text>,
}

impl Model for NameList {
    ghost use Rattle.std.specs.Prelude.{List, ℕ};

    ghost Value = { List (List ℕ) };

    ghost view = { λ a. a.items.items };
}

impl NameList {
    /// No names.
    pub fn new(alloc: Global) -> NameList
        ensures { result ≡ [] }
    {
        NameList {
            items: Vec::new(alloc),
        }
    }

    /// Puts one at the end.
    pub fn push(&mut self, x: Text) -> Result<(), AllocError>
        ensures ok { OnOk result (self.new ≡ self.old ++ x ∷ []) }
        ensures err { OnErr result (self.new ≡ self.old) }
    {
        self.items.push(x)?;
        Ok(())
    }

    /// Puts these at the end.
    pub fn append(&mut self, others: NameList) -> Result<(), AllocError>
        ensures { OnOk result (self.new ≡ self.old ++ others) }
    {
        let mut rest = others;
        self.items.append(&mut rest.items)?;
        Ok(())
    }

    /// Whether the name is among these.
    pub fn has(&self, name: &[u8]) -> bool
        ensures { result ≡ is_among self.now name.now }
    {
        for x in &self.items {
            if name == x.as_slice() {
                return true;
            }
        }
        false
    }

    /// Puts those of the names that are none of the bound ones at the end.
    pub fn push_unbound(
        &mut self,
        alloc: Global,
        bound: &NameList,
        names: &NameList,
    ) -> Result<(), AllocError>
        ensures { OnOk result (self.new ≡ self.old ++ unbound bound.now names.now) }
    {
        push_others(alloc, bound, names, self)?;
        Ok(())
    }

    /// Puts the name at the end, unless it is among these.
    pub fn push_new(&mut self, alloc: Global, name: &Text) -> Result<(), AllocError>
        ensures { OnOk result (self.new ≡ once_more self.old name.now) }
    {
        if self.has(name.as_slice()) {
            return Ok(());
        }
        let copy = name.copy(alloc)?;
        self.push(copy)?;
        Ok(())
    }
}

#[tactic(auto, using(crate::proofs::OccurringLemmas::list_rules))]
fn push_others(
    alloc: Global,
    bound: &NameList,
    names: &NameList,
    out: &mut NameList,
) -> Result<(), AllocError>
    ensures { OnOk result (out.new ≡ out.old ++ unbound bound.now names.now) }
{
    for x in &names.items {
        if !bound.has(x.as_slice()) {
            let copy = x.copy(alloc)?;
            out.push(copy)?;
        }
    }
    Ok(())
}
