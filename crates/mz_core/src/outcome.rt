//! What the check of an article gives.
use crate::fault::Faults;
use crate::items::Items;
use crate::notations::Notations;
use mz_base::name::Name;
use mz_base::names::Names;

/// An article for others: its name, the articles that it depends on directly, its items and its notations.
/// Those of a checked article are its items in the order of the text and their notations in the order of
/// the items.
pub struct Export {
    pub name: Name,
    pub dependencies: Names,
    pub items: Items,
    pub notations: Notations,
}

impl Drop for Export {
    fn drop(self) {
        let Export {
            name: _name,
            dependencies: _dependencies,
            items: _items,
            notations: _notations,
        } = self;
    }
}

/// The nodes that an article may still have, the obligations that it may still make, and the items of
/// the set terms and choices that were met in it.
pub struct Left {
    pub nodes: u64,
    pub obligations: u32,
    pub made: Items,
}

impl Drop for Left {
    fn drop(self) {
        let Left {
            nodes: _nodes,
            obligations: _obligations,
            made: _made,
        } = self;
    }
}

/// The outcome of an article: what it gives to others, or its faults. A checked article that is
/// rejected has at least one.
#[derive(Drop)]
pub enum Outcome {
    Accepted(Export),
    Rejected(Faults),
}
