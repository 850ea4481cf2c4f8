//! The ancestors of a structure, as they are read.
use mz_core::soft_types::SoftTypes;
use mz_structure_items::selectors::NamedSelectors;
use mz_structure_items::symbols::StructureSymbols;

/// The types of the ancestors that were read, and their selectors with their spellings, in their order.
pub struct Ancestry {
    pub types: SoftTypes,
    pub inherited: NamedSelectors,
}

impl Drop for Ancestry {
    fn drop(self) {
        let Ancestry {
            types: _types,
            inherited: _inherited,
        } = self;
    }
}

/// What a structure has beside its fields, as they are read: its loci, the constants from `least` on, with their types, its symbols and its
/// ancestors.
pub struct Outline {
    pub least: u32,
    pub loci: SoftTypes,
    pub symbols: StructureSymbols,
    pub ancestry: Ancestry,
}

impl Drop for Outline {
    fn drop(self) {
        let Outline {
            least: _least,
            loci: _loci,
            symbols: _symbols,
            ancestry: _ancestry,
        } = self;
    }
}
