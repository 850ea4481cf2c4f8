//! Names in their order.
ghost use Rattle.std.specs.Prelude.{◌≡◌, IfOk};
ghost use Rattle.mz_corpus.specs.Ascending.{sorted_names};

use mz_base::name::Name;
use mz_base::names::Names;
use std::alloc::{AllocError, Global};
use std::collections::BTreeSet;

/// The names in their order, each once.
pub fn ascending(alloc: Global, names: &[Name]) -> Result<Names, AllocError>
    ensures { IfOk result (λ sorted. sorted ≡ sorted_names names.now) }
{
    let mut set = name_set(alloc, names)?;
    let mut sorted = Names::new(alloc);
    while let Some(name) = set.pop_first() {
        sorted.push(name)?;
    }
    Ok(sorted)
}

fn name_set(alloc: Global, names: &[Name]) -> Result<BTreeSet<Name>, AllocError>
    ensures { IfOk result (λ set. set.keys ≡ sorted_names names.now) }
{
    let mut set = BTreeSet::new(alloc);
    for name in names {
        set.insert(*name).map_err(|_| AllocError)?;
    }
    Ok(set)
}
