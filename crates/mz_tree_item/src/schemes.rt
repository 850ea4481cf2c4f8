//! Theorems and schemes.
use mz_base::place::Place;
use mz_tree::expressions::FormulaTree;
use mz_tree::lists::Separated;
use mz_tree::word::Word;
use mz_tree_part::parameter::ParameterTree;
use mz_tree_proof::propositions::{PropositionTree, PropositionsTree};
use mz_tree_proof::reasoning::JustTree;

/// The premises of a scheme.
pub struct ProvidedTree {
    pub provided: Place,
    pub propositions: PropositionsTree,
}

impl Drop for ProvidedTree {
    fn drop(self) {
        let ProvidedTree {
            provided: _provided,
            propositions: _propositions,
        } = self;
    }
}

/// A scheme.
pub struct SchemeTree {
    pub scheme: Place,
    pub name: Word,
    pub left: Place,
    pub parameters: Separated<ParameterTree>,
    pub right: Place,
    pub colon: Place,
    pub formula: FormulaTree,
    pub provided: Option<ProvidedTree>,
    pub just: JustTree,
    pub semicolon: Place,
}

impl Drop for SchemeTree {
    fn drop(self) {
        let SchemeTree {
            scheme: _scheme,
            name: _name,
            left: _left,
            parameters: _parameters,
            right: _right,
            colon: _colon,
            formula: _formula,
            provided: _provided,
            just: _just,
            semicolon: _semicolon,
        } = self;
    }
}

/// A theorem.
pub struct TheoremTree {
    pub theorem: Place,
    pub proposition: PropositionTree,
    pub just: JustTree,
    pub semicolon: Place,
}

impl Drop for TheoremTree {
    fn drop(self) {
        let TheoremTree {
            theorem: _theorem,
            proposition: _proposition,
            just: _just,
            semicolon: _semicolon,
        } = self;
    }
}
