//! Parameters of schemes.
use mz_base::place::Place;
use mz_tree::expressions::TypeTree;
use mz_tree::lists::Separated;
use mz_tree_heading::patterns::IdentifierTree;

/// A parameter of a scheme: functor letters or predicate letters.
pub enum ParameterTree {
    Functor {
        identifiers: Separated<IdentifierTree>,
        left: Place,
        types: Option<Separated<TypeTree>>,
        right: Place,
        arrow: Place,
        ty: TypeTree,
    },
    Predicate {
        identifiers: Separated<IdentifierTree>,
        left: Place,
        types: Option<Separated<TypeTree>>,
        right: Place,
    },
}

impl Drop for ParameterTree {
    fn drop(self) {
        match self {
            ParameterTree::Functor {
                identifiers: _identifiers,
                left: _left,
                types: _types,
                right: _right,
                arrow: _arrow,
                ty: _ty,
            } => (),
            ParameterTree::Predicate {
                identifiers: _identifiers,
                left: _left,
                types: _types,
                right: _right,
            } => (),
        }
    }
}
