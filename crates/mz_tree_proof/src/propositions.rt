//! Propositions, hypotheses and conditions.
use crate::references::LabelTree;
use mz_base::place::Place;
use mz_tree::expressions::FormulaTree;
use mz_tree::lists::Trees;

/// A formula, with a label or without.
pub struct PropositionTree {
    pub label: Option<LabelTree>,
    pub formula: FormulaTree,
}

impl Drop for PropositionTree {
    fn drop(self) {
        let PropositionTree {
            label: _label,
            formula: _formula,
        } = self;
    }
}

/// A further proposition, behind `and`.
pub struct AndPropositionTree {
    pub and: Place,
    pub proposition: PropositionTree,
}

impl Drop for AndPropositionTree {
    fn drop(self) {
        let AndPropositionTree {
            and: _and,
            proposition: _proposition,
        } = self;
    }
}

/// Propositions with `and` between them.
pub struct PropositionsTree {
    pub first: PropositionTree,
    pub more: Trees<AndPropositionTree>,
}

impl Drop for PropositionsTree {
    fn drop(self) {
        let PropositionsTree {
            first: _first,
            more: _more,
        } = self;
    }
}

/// What is assumed: one proposition, or `that` and several.
pub enum HypothesesTree {
    One(PropositionTree),
    That {
        that: Place,
        propositions: PropositionsTree,
    },
}

impl Drop for HypothesesTree {
    fn drop(self) {
        match self {
            HypothesesTree::One(_a) => (),
            HypothesesTree::That {
                that: _that,
                propositions: _propositions,
            } => (),
        }
    }
}

/// Conditions on what is declared.
pub struct SuchTree {
    pub such: Place,
    pub that: Place,
    pub propositions: PropositionsTree,
}

impl Drop for SuchTree {
    fn drop(self) {
        let SuchTree {
            such: _such,
            that: _that,
            propositions: _propositions,
        } = self;
    }
}
