//! Triggers of clauses.
ghost use Rattle.std.specs.Prelude.{◌≡◌, IfOk};
ghost use Rattle.mz_clauses.specs.Groups.{literal_trigger, full_trigger, first_trigger};
ghost use Rattle.mz_clauses.specs.DefinitionClauses.{radix_trigger};

use mz_core::guard::with_last;
use mz_core::hidden::is_of_any_object;
use mz_core::radix::Radix;
use mz_ground::trigger::Trigger;
use mz_logic::literal::Literal;
use mz_logic::literals::Literals;
use mz_logic::term::Term;
use std::alloc::{AllocError, Global};

/// The atom of a literal; an equation has none.
pub fn literal_trigger(alloc: Global, l: &Literal) -> Result<Option<Trigger>, AllocError>
    ensures { IfOk result (λ r. r ≡ literal_trigger l.now) }
{
    match l {
        Literal::Atom { sym, args, .. } => {
            let args = args.copy(alloc)?;
            Ok(Some(Trigger::Atom(*sym, args)))
        }
        Literal::Eq { .. } => Ok(None),
    }
}

/// The atom of a literal, where it has each of the variables.
fn full_trigger(alloc: Global, variables: u32, l: &Literal) -> Result<Option<Trigger>, AllocError>
    ensures { IfOk result (λ r. r ≡ full_trigger variables l.now) }
{
    match l {
        Literal::Atom { sym, args, .. } => {
            let args = args.copy(alloc)?;
            let r = Trigger::Atom(*sym, args);
            if r.has_all_below(variables) {
                Ok(Some(r))
            } else {
                Ok(None)
            }
        }
        Literal::Eq { .. } => Ok(None),
    }
}

/// The first atom that has each of the variables.
#[tactic(auto, using(crate::proofs::TriggerLemmas::trigger_rules))]
pub fn first_trigger(
    alloc: Global,
    variables: u32,
    ls: &Literals,
) -> Result<Option<Trigger>, AllocError>
    ensures { IfOk result (λ r. r ≡ first_trigger variables ls.now) }
{
    for literal in &ls.items {
        match full_trigger(alloc, variables, literal)? {
            None => {}
            Some(r) => return Ok(Some(r)),
        }
    }
    Ok(None)
}

/// The atom of a radix at an object, which `object` and `set` don't have.
pub fn radix_trigger(alloc: Global, r: &Radix, t: &Term) -> Result<Option<Trigger>, AllocError>
    ensures { IfOk result (λ x. x ≡ radix_trigger r.now t.now) }
{
    if is_of_any_object(r.sym) {
        return Ok(None);
    }
    let args = with_last(alloc, &r.args, t)?;
    Ok(Some(Trigger::Atom(r.sym, args)))
}
