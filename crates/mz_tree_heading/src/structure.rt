//! Structures: their loci, ancestors and fields.
use crate::patterns::IdentifierTree;
use mz_base::place::Place;
use mz_tree::expressions::TypeTree;
use mz_tree::lists::Separated;
use mz_tree::word::Word;

/// A selector.
pub struct SelectorTree {
    pub symbol: Word,
}

impl Drop for SelectorTree {
    fn drop(self) {
        let SelectorTree { symbol: _symbol } = self;
    }
}

/// Fields of a structure with one type.
pub struct FieldTree {
    pub selectors: Separated<SelectorTree>,
    pub arrow: Place,
    pub ty: TypeTree,
}

impl Drop for FieldTree {
    fn drop(self) {
        let FieldTree {
            selectors: _selectors,
            arrow: _arrow,
            ty: _ty,
        } = self;
    }
}

/// The loci of a structure.
pub struct StructureLociTree {
    pub over: Place,
    pub identifiers: Separated<IdentifierTree>,
}

impl Drop for StructureLociTree {
    fn drop(self) {
        let StructureLociTree {
            over: _over,
            identifiers: _identifiers,
        } = self;
    }
}

/// The ancestors of a structure.
pub struct AncestorsTree {
    pub left: Place,
    pub types: Separated<TypeTree>,
    pub right: Place,
}

impl Drop for AncestorsTree {
    fn drop(self) {
        let AncestorsTree {
            left: _left,
            types: _types,
            right: _right,
        } = self;
    }
}

/// A structure.
pub struct StructureTree {
    pub struct_: Place,
    pub ancestors: Option<AncestorsTree>,
    pub symbol: Word,
    pub loci: Option<StructureLociTree>,
    pub left: Place,
    pub fields: Separated<FieldTree>,
    pub right: Place,
    pub semicolon: Place,
}

impl Drop for StructureTree {
    fn drop(self) {
        let StructureTree {
            struct_: _struct,
            ancestors: _ancestors,
            symbol: _symbol,
            loci: _loci,
            left: _left,
            fields: _fields,
            right: _right,
            semicolon: _semicolon,
        } = self;
    }
}
