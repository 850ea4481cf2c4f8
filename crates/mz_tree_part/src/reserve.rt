//! Reservations.
use mz_base::place::Place;
use mz_tree::expressions::TypeTree;
use mz_tree::lists::Separated;
use mz_tree_heading::patterns::IdentifierTree;

/// Identifiers that are reserved for a type.
pub struct SegmentTree {
    pub identifiers: Separated<IdentifierTree>,
    pub for_: Place,
    pub ty: TypeTree,
}

impl Drop for SegmentTree {
    fn drop(self) {
        let SegmentTree {
            identifiers: _identifiers,
            for_: _for,
            ty: _ty,
        } = self;
    }
}

/// Reserved identifiers.
pub struct ReserveTree {
    pub reserve: Place,
    pub segments: Separated<SegmentTree>,
    pub semicolon: Place,
}

impl Drop for ReserveTree {
    fn drop(self) {
        let ReserveTree {
            reserve: _reserve,
            segments: _segments,
            semicolon: _semicolon,
        } = self;
    }
}
