//! Triggers of clauses.
ghost use Rattle.std.specs.Prelude.{◌≡◌, IfOk};
ghost use Rattle.std.specs.List.{list_any};
ghost use Rattle.mz_ground.specs.Variables.{has_index, trigger_has, has_all_below};

use mz_logic::sym::Sym;
use mz_logic::term::{Term, TermNode, Terms};
use std::alloc::{AllocError, Global};

/// What has to stand in the ground part before an instance of a clause is made: a term or an atom, in which
/// `Bound(i)` below the number of the clause's variables is a variable.
pub enum Trigger {
    Term(Term),
    Atom(Sym, Terms),
}

impl Drop for Trigger {
    fn drop(self) {
        match self {
            Trigger::Term(_term) => {}
            Trigger::Atom(_sym, _terms) => {}
        }
    }
}

impl Trigger {
    /// Whether each index below `variables` occurs in the trigger.
    #[tactic(auto, using(crate::proofs::VariableLemmas::variable_rules))]
    pub fn has_all_below(&self, variables: u32) -> bool
        ensures { result ≡ has_all_below variables self.now }
    {
        for index in 0..variables {
            if !self.has(index) {
                return false;
            }
        }
        true
    }

    /// Whether the index occurs in the trigger.
    pub fn has(&self, index: u32) -> bool
        ensures { result ≡ trigger_has index self.now }
    {
        match self {
            Trigger::Term(t) => has_index(t, index),
            Trigger::Atom(_, ts) => have_index(ts, index),
        }
    }

    /// An equal trigger.
    pub fn copy(&self, alloc: Global) -> Result<Trigger, AllocError>
        ensures { IfOk result (λ r. r ≡ self.now) }
    {
        match self {
            Trigger::Term(t) => {
                let t = t.copy(alloc)?;
                Ok(Trigger::Term(t))
            }
            Trigger::Atom(s, ts) => {
                let ts = ts.copy(alloc)?;
                Ok(Trigger::Atom(*s, ts))
            }
        }
    }
}

#[cycle(has)]
#[tactic(auto, using(crate::proofs::VariableLemmas::index_rules))]
fn has_index(t: &Term, index: u32) -> bool
    ensures { result ≡ has_index index t.now }
{
    match &t.node {
        TermNode::Bound(n) => *n == index,
        TermNode::Const(_) => false,
        TermNode::App(_, ts) => have_index(ts, index),
    }
}

#[cycle(has)]
fn have_index(ts: &Terms, index: u32) -> bool
    ensures { result ≡ list_any (has_index index) ts.now }
{
    for t in &ts.items {
        if has_index(t, index) {
            return true;
        }
    }
    false
}
