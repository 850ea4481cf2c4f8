//! The types of results, and what is read behind them, where an article stands.
ghost use Rattle.std.specs.Prelude.{◌≡◌, OnOk};
ghost use Rattle.mz_defined.specs.Atoms.{AtomRead};
ghost use Rattle.mz_defined.specs.Functors.{MeansReadAt, EqualsReadAt};
ghost use Rattle.mz_resolve.specs.Answers.{OnRead};
ghost use Rattle.mz_standing.specs.Standing.{with_left};

use mz_core::formula_definiens::FormulaDefiniens;
use mz_meanings::formula_definientia::read_formulas;
use mz_meanings::read_meaning::{ReadEquals, ReadMeans};
use mz_meanings::results::{equals_there, means_there};
use mz_resolve::resolve_fault::ResolveFault;
use mz_standing::standing::Standing;
use mz_tree::expressions::{FormulaTree, TermTree};
use mz_tree_heading::heading::ResultTree;
use mz_tree_heading::meaning::CasesTree;
use std::alloc::Global;

/// Reads the type of a result, and the definiens behind `means`, in a block whose loci are the constants from `least` on. Nothing but what is
/// left changes.
///
/// # Errors
/// The refusal of the type, or of the definiens; or there was no memory.
pub fn read_means(
    alloc: Global,
    s: &mut Standing,
    least: u32,
    t: &Option<ResultTree>,
    f: &CasesTree<FormulaTree>,
) -> Result<ReadMeans, ResolveFault>
    ensures reads { OnRead result (λ o. MeansReadAt least s.old t.now f.now o s.new.left) }
    ensures same { OnOk result (s.new ≡ with_left s.old s.new.left) }
{
    means_there(
        alloc,
        &s.environment,
        &mut s.context,
        least,
        t,
        f,
        &mut s.left,
    )
}

/// Reads the type of a result, and the definiens behind `equals`, as `read_means`.
///
/// # Errors
/// The refusal of the type, or of the definiens; or there was no memory.
pub fn read_equals(
    alloc: Global,
    s: &mut Standing,
    least: u32,
    t: &Option<ResultTree>,
    u: &CasesTree<TermTree>,
) -> Result<ReadEquals, ResolveFault>
    ensures reads { OnRead result (λ o. EqualsReadAt least s.old t.now u.now o s.new.left) }
    ensures same { OnOk result (s.new ≡ with_left s.old s.new.left) }
{
    equals_there(
        alloc,
        &s.environment,
        &mut s.context,
        least,
        t,
        u,
        &mut s.left,
    )
}

/// Reads the definiens of a predicate or an attribute, in which `it` isn't known, as `read_means`.
///
/// # Errors
/// The refusal of the definiens; or there was no memory.
pub fn read_atom(
    alloc: Global,
    s: &mut Standing,
    least: u32,
    f: &CasesTree<FormulaTree>,
) -> Result<FormulaDefiniens, ResolveFault>
    ensures reads { OnRead result (λ o. AtomRead least s.old f.now o s.new.left) }
    ensures same { OnOk result (s.new ≡ with_left s.old s.new.left) }
{
    read_formulas(
        alloc,
        &s.environment,
        &mut s.context,
        least,
        &None,
        f,
        &mut s.left,
    )
}
