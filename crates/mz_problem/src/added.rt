//! Definientia that are added for parts.
ghost use Rattle.std.specs.Prelude.{◌≡◌, ◌++◌, List, true, IfOk, OnOk};
ghost use Rattle.mz_core.specs.Statement.{Statement};
ghost use Rattle.mz_core.specs.TypeStatements.{signed};
ghost use Rattle.mz_problem.specs.Definientia.{is_atom, Adds, AllAdd};

use mz_context::constants::Constants;
use mz_core::statement::{Statement, StatementNode};
use mz_core::statement_forms::opposite;
use mz_core::statements::Statements;
use mz_environment::unfoldings::Unfoldings;
use mz_ground::clause::Clause;
use mz_thesis::unfolds::unfolds_to;
use std::alloc::{AllocError, Global};

/// Puts the definiens of an atom at the end, where there is one, and of a negated atom the negated definiens.
#[tactic(auto, using(crate::proofs::AddedLemmas::sign_rules))]
fn push_definiens(
    alloc: Global,
    clauses: &[Clause],
    constants: &Constants,
    unfoldings: &Unfoldings,
    positive: bool,
    atom: &Statement,
    out: &mut Statements,
) -> Result<(), AllocError>
    requires { is_atom atom.now ≡ true }
    ensures { OnOk result ((ds : List Statement) × Adds clauses.now constants.now unfoldings.now (signed positive atom.now) ds × (out.new ≡ out.old ++ ds)) }
{
    match unfolds_to(alloc, clauses, constants, unfoldings, atom)? {
        None => Ok(()),
        Some(s) => {
            if positive {
                out.push(s)?;
            } else {
                out.push(opposite(alloc, s)?)?;
            }
            Ok(())
        }
    }
}

/// Puts what a part adds at the end.
#[tactic(auto, using(crate::proofs::AddedLemmas::part_rules))]
fn push_added(
    alloc: Global,
    clauses: &[Clause],
    constants: &Constants,
    unfoldings: &Unfoldings,
    part: &Statement,
    out: &mut Statements,
) -> Result<(), AllocError>
    ensures { OnOk result ((ds : List Statement) × Adds clauses.now constants.now unfoldings.now part.now ds × (out.new ≡ out.old ++ ds)) }
{
    match &part.node {
        StatementNode::Atom(_, _) => push_definiens(
            alloc, clauses, constants, unfoldings, true, part, out,
        ),
        StatementNode::Not(s) => match &s.node {
            StatementNode::Atom(_, _) => push_definiens(
                alloc, clauses, constants, unfoldings, false, s, out,
            ),
            _ => Ok(()),
        },
        _ => Ok(()),
    }
}

/// What the parts add, in their order.
#[tactic(auto, using(crate::proofs::AddedLemmas::all_rules))]
pub fn added(
    alloc: Global,
    clauses: &[Clause],
    constants: &Constants,
    unfoldings: &Unfoldings,
    parts: &[Statement],
) -> Result<Statements, AllocError>
    ensures { IfOk result (λ ds. AllAdd clauses.now constants.now unfoldings.now parts.now ds) }
{
    let mut out = Statements::new(alloc);
    for part in parts {
        push_added(alloc, clauses, constants, unfoldings, part, &mut out)?;
    }
    Ok(out)
}
