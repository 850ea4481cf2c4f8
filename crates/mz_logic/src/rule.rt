//! The rules of derivations.
ghost use Rattle.std.specs.Prelude.{◌≡◌, IfOk};

use crate::letters::Letters;
use crate::term::Term;
use std::alloc::{AllocError, Global};

/// The rule of a node of a derivation. `AllIn` has the constant that the quantifier generalizes,
/// `AllOut` the term at which its body is taken, `Axiom` the axiom's number from 1, and `Instance`
/// the letters that are replaced.
#[derive(Drop)]
pub enum Rule {
    Hypothesis,
    Weaken,
    Truth,
    AndIn,
    AndLeft,
    AndRight,
    NotIn,
    NotOut,
    Classical,
    AllIn(u32),
    AllOut(Term),
    Reflexive,
    Replace,
    Cut,
    Axiom(u32),
    Instance(Letters),
}

impl Rule {
    /// An equal rule.
    pub fn copy(&self, alloc: Global) -> Result<Rule, AllocError>
        ensures { IfOk result (λ r. r ≡ self.now) }
    {
        match self {
            Rule::Hypothesis => Ok(Rule::Hypothesis),
            Rule::Weaken => Ok(Rule::Weaken),
            Rule::Truth => Ok(Rule::Truth),
            Rule::AndIn => Ok(Rule::AndIn),
            Rule::AndLeft => Ok(Rule::AndLeft),
            Rule::AndRight => Ok(Rule::AndRight),
            Rule::NotIn => Ok(Rule::NotIn),
            Rule::NotOut => Ok(Rule::NotOut),
            Rule::Classical => Ok(Rule::Classical),
            Rule::AllIn(constant) => Ok(Rule::AllIn(*constant)),
            Rule::AllOut(t) => {
                let t = t.copy(alloc)?;
                Ok(Rule::AllOut(t))
            }
            Rule::Reflexive => Ok(Rule::Reflexive),
            Rule::Replace => Ok(Rule::Replace),
            Rule::Cut => Ok(Rule::Cut),
            Rule::Axiom(number) => Ok(Rule::Axiom(*number)),
            Rule::Instance(letters) => {
                let letters = letters.copy(alloc)?;
                Ok(Rule::Instance(letters))
            }
        }
    }
}
