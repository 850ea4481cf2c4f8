//! The table of steps.
ghost use Rattle.std.specs.Prelude.{◌≡◌, ◌↔◌, IfOk, IsTrue};
ghost use Rattle.mz_core.specs.StatementForms.{opposite};
ghost use Rattle.mz_core.specs.TypeSubstitution.{statement_at};
ghost use Rattle.mz_core.specs.Parts.{parts};
ghost use Rattle.mz_fits.specs.Fits.{TypeFits};
ghost use Rattle.mz_thesis.specs.Rows.{BeginSame, antecedents, rest_behind, IfFor, IfExists, body_of, negated_body_of, FitsFresh, Admits, thesis_after};

use crate::fresh::fits_fresh;
use crate::same_parts::{antecedents, begin_same, rest_behind};
use crate::step::Step;
use mz_context::constants::Constants;
use mz_core::parts::parts;
use mz_core::soft_type::SoftType;
use mz_core::statement::{Statement, StatementNode};
use mz_core::statement_forms::opposite;
use mz_core::type_substitution::statement_at;
use mz_fits::fits::type_fits;
use mz_ground::clause::Clause;
use mz_logic::term::Term;
use std::alloc::{AllocError, Global};

fn admits_let(
    alloc: Global,
    clauses: &[Clause],
    constants: &Constants,
    thesis: &Statement,
    ty: &SoftType,
) -> Result<bool, AllocError>
    ensures { IfOk result (λ b. IsTrue b ↔ IfFor thesis.now (λ T P. FitsFresh clauses.now constants.now T ty.now)) }
{
    match &thesis.node {
        StatementNode::For(known, _) => {
            let fit = fits_fresh(alloc, clauses, constants, known, ty)?;
            Ok(fit)
        }
        _ => Ok(false),
    }
}

fn admits_assume(alloc: Global, thesis: &Statement, s: &Statement) -> Result<bool, AllocError>
    ensures { IfOk result (λ b. IsTrue b ↔ BeginSame (parts s.now) (antecedents thesis.now)) }
{
    let ps = parts(alloc, s)?;
    let all = antecedents(alloc, thesis)?;
    let same = begin_same(alloc, ps.items.as_slice(), all.items.as_slice())?;
    Ok(same)
}

fn admits_thus(alloc: Global, thesis: &Statement, s: &Statement) -> Result<bool, AllocError>
    ensures { IfOk result (λ b. IsTrue b ↔ BeginSame (parts s.now) (parts thesis.now)) }
{
    let ps = parts(alloc, s)?;
    let all = parts(alloc, thesis)?;
    let same = begin_same(alloc, ps.items.as_slice(), all.items.as_slice())?;
    Ok(same)
}

fn admits_take(
    alloc: Global,
    clauses: &[Clause],
    constants: &Constants,
    thesis: &Statement,
    t: &Term,
) -> Result<bool, AllocError>
    ensures { IfOk result (λ b. IsTrue b ↔ IfExists thesis.now (λ T P. TypeFits clauses.now constants.now t.now T)) }
{
    match &thesis.node {
        StatementNode::Not(s) => match &s.node {
            StatementNode::For(ty, _) => {
                let fit = type_fits(alloc, clauses, constants, t, ty)?;
                Ok(fit)
            }
            _ => Ok(false),
        },
        _ => Ok(false),
    }
}

/// Whether the step fits the thesis as it stands.
pub fn admits(
    alloc: Global,
    clauses: &[Clause],
    constants: &Constants,
    thesis: &Statement,
    step: &Step,
) -> Result<bool, AllocError>
    ensures { IfOk result (λ b. IsTrue b ↔ Admits clauses.now constants.now thesis.now step.now) }
{
    match step {
        Step::Let { ty, .. } => admits_let(alloc, clauses, constants, thesis, ty),
        Step::Assume(s) => admits_assume(alloc, thesis, s),
        Step::Thus(s) => admits_thus(alloc, thesis, s),
        Step::Take(t) => admits_take(alloc, clauses, constants, thesis, t),
    }
}

fn body_at(alloc: Global, thesis: &Statement, t: &Term) -> Result<Statement, AllocError>
    ensures { IfOk result (λ s. s ≡ statement_at (body_of thesis.now) t.now) }
{
    match &thesis.node {
        StatementNode::For(_, s) => statement_at(alloc, s, t),
        _ => statement_at(alloc, thesis, t),
    }
}

fn negated_body_at(alloc: Global, thesis: &Statement, t: &Term) -> Result<Statement, AllocError>
    ensures { IfOk result (λ s. s ≡ statement_at (negated_body_of thesis.now) t.now) }
{
    match &thesis.node {
        StatementNode::Not(s) => body_at(alloc, s, t),
        _ => statement_at(alloc, thesis, t),
    }
}

fn after_assume(alloc: Global, thesis: &Statement, s: &Statement) -> Result<Statement, AllocError>
    ensures { IfOk result (λ r. r ≡ opposite (rest_behind s.now (antecedents thesis.now))) }
{
    let all = antecedents(alloc, thesis)?;
    let rest = rest_behind(alloc, s, &all)?;
    opposite(alloc, rest)
}

fn after_thus(alloc: Global, thesis: &Statement, s: &Statement) -> Result<Statement, AllocError>
    ensures { IfOk result (λ r. r ≡ rest_behind s.now (parts thesis.now)) }
{
    let all = parts(alloc, thesis)?;
    rest_behind(alloc, s, &all)
}

fn after_take(alloc: Global, thesis: &Statement, t: &Term) -> Result<Statement, AllocError>
    ensures { IfOk result (λ r. r ≡ opposite (statement_at (negated_body_of thesis.now) t.now)) }
{
    let s = negated_body_at(alloc, thesis, t)?;
    opposite(alloc, s)
}

/// The thesis after a step that fits it.
pub fn thesis_after(alloc: Global, thesis: &Statement, step: &Step) -> Result<Statement, AllocError>
    ensures { IfOk result (λ s. s ≡ thesis_after thesis.now step.now) }
{
    match step {
        Step::Let { constant, .. } => body_at(alloc, thesis, &Term::constant(*constant)),
        Step::Assume(s) => after_assume(alloc, thesis, s),
        Step::Thus(s) => after_thus(alloc, thesis, s),
        Step::Take(t) => after_take(alloc, thesis, t),
    }
}
