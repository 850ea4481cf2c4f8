//! What fits by typing clauses, with the answers kept. Answers that are right stay so as long as the clauses and the
//! constants in force stand.
ghost use Rattle.std.specs.Prelude.{◌↔◌, IfOk, IsTrue};
ghost use Rattle.mz_fits.specs.Fits.{LiteralFits, AllFit, TypeFits};
ghost use Rattle.mz_answers.specs.Answers.{AreRight};

use crate::answers::Answers;
use crate::hashes::literal_hash;
use mz_context::constants::Constants;
use mz_core::guard::guard_literals;
use mz_core::soft_type::SoftType;
use mz_fits::fits::literal_fits;
use mz_ground::clause::Clause;
use mz_logic::literal::Literal;
use mz_logic::term::Term;
use std::alloc::{AllocError, Global};

/// Whether the literal fits, as it was answered before or as it is found now. The answers stay right.
#[tactic(auto, using(crate::proofs::AnswerLemmas::right_rules))]
pub fn literal_fits_kept(
    alloc: Global,
    clauses: &[Clause],
    constants: &Constants,
    answers: &mut Answers,
    l: &Literal,
) -> Result<bool, AllocError>
    requires { AreRight clauses.now constants.now answers.old }
    ensures right { AreRight clauses.now constants.now answers.new }
    ensures fits { IfOk result (λ b. IsTrue b ↔ LiteralFits clauses.now constants.now l.now) }
{
    let hash = literal_hash(l);
    if let Some(fits) = answers.find(hash, l) {
        return Ok(fits);
    }
    let fits = literal_fits(alloc, clauses, constants, l)?;
    answers.keep(alloc, hash, l, fits)?;
    Ok(fits)
}

/// Whether each of the literals fits. The answers stay right.
#[tactic(auto, using(crate::proofs::AnswerLemmas::each_rules))]
pub fn all_fit_kept(
    alloc: Global,
    clauses: &[Clause],
    constants: &Constants,
    answers: &mut Answers,
    ls: &[Literal],
) -> Result<bool, AllocError>
    requires { AreRight clauses.now constants.now answers.old }
    ensures right { AreRight clauses.now constants.now answers.new }
    ensures fits { IfOk result (λ b. IsTrue b ↔ AllFit clauses.now constants.now ls.now) }
{
    let mut rest = ls;
    while let Some((l, others)) = rest.split_first() {
        if !literal_fits_kept(alloc, clauses, constants, answers, l)? {
            return Ok(false);
        }
        rest = others;
    }
    Ok(true)
}

/// Whether each literal of the type's guard at the term fits. The answers stay right.
pub fn type_fits_kept(
    alloc: Global,
    clauses: &[Clause],
    constants: &Constants,
    answers: &mut Answers,
    t: &Term,
    ty: &SoftType,
) -> Result<bool, AllocError>
    requires { AreRight clauses.now constants.now answers.old }
    ensures right { AreRight clauses.now constants.now answers.new }
    ensures fits { IfOk result (λ b. IsTrue b ↔ TypeFits clauses.now constants.now t.now ty.now) }
{
    let guard = guard_literals(alloc, ty, t)?;
    let fit = all_fit_kept(alloc, clauses, constants, answers, guard.items.as_slice())?;
    Ok(fit)
}
