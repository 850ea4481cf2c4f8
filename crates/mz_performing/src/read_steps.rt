//! Lists of steps as they are read.
ghost use Rattle.std.specs.Prelude.{◌≡◌, ◌++◌, ◌∷◌, [], map, IfOk, OnOk, OnErr};
ghost use Rattle.mz_steps.specs.declared.read_step.ReadStep.TheVariants as read;
ghost use Rattle.mz_walk.specs.Skeleton.{lets};

use mz_core::statement::Statement;
use mz_logic::term::Term;
use mz_names::variable::{Variable, Variables};
use mz_parts::definitions::Definitions;
use mz_steps::read_step::{Definition, ReadStep};
use std::alloc::{AllocError, Global};
use std::marker::Model;

/// Steps as they were read, in the order of the text.
#[derive(Drop)]
pub struct ReadSteps {
    pub items: Vec<ReadStep>,
}

impl Model for ReadSteps {
    ghost use Rattle.std.specs.Prelude.{List};
    ghost use Rattle.std.specs.Coded.{coded_list};
    ghost use Rattle.mz_steps.specs.declared.read_step.ReadStep.{ReadStep};
    ghost use Rattle.mz_steps.specs.contracts.read_step.ReadStep.{the_row};

    ghost Value = { List ReadStep };

    ghost coded = { coded_list the_row.coded };

    ghost view = { λ a. a.items.items };
}

impl ReadSteps {
    /// No steps.
    pub fn new(alloc: Global) -> ReadSteps
        ensures { result ≡ [] }
    {
        ReadSteps {
            items: Vec::new(alloc),
        }
    }

    /// Puts one at the end.
    pub fn push(&mut self, x: ReadStep) -> Result<(), AllocError>
        ensures ok { OnOk result (self.new ≡ self.old ++ x ∷ []) }
        ensures err { OnErr result (self.new ≡ self.old) }
    {
        self.items.push(x)?;
        Ok(())
    }
}

fn let_step(alloc: Global, v: &Variable) -> Result<ReadStep, AllocError>
    ensures { IfOk result (λ r. r ≡ read.Let v.now) }
{
    let name = v.name.copy(alloc)?;
    let ty = v.ty.copy(alloc)?;
    Ok(ReadStep::Let(Variable { name, ty }))
}

/// Each variable by a `let` of its own.
pub fn let_steps(alloc: Global, vs: &Variables) -> Result<ReadSteps, AllocError>
    ensures { IfOk result (λ rs. rs ≡ lets vs.now) }
{
    let mut out = ReadSteps::new(alloc);
    for v in &vs.items {
        out.push(let_step(alloc, v)?)?;
    }
    Ok(out)
}

fn definition_copy(alloc: Global, d: &Definition) -> Result<Definition, AllocError>
    ensures { IfOk result (λ c. c ≡ d.now) }
{
    let name = d.name.copy(alloc)?;
    let ty = d.ty.copy(alloc)?;
    let term = d.term.copy(alloc)?;
    Ok(Definition { name, ty, term })
}

fn reconsider_step(alloc: Global, d: &Definition) -> Result<ReadStep, AllocError>
    ensures { IfOk result (λ r. r ≡ read.Reconsider d.now) }
{
    let d = definition_copy(alloc, d)?;
    Ok(ReadStep::Reconsider(d))
}

/// Each name by a `reconsider` of its own.
pub fn reconsider_steps(alloc: Global, ds: &Definitions) -> Result<ReadSteps, AllocError>
    ensures { IfOk result (λ rs. rs ≡ map read.Reconsider ds.now) }
{
    let mut out = ReadSteps::new(alloc);
    for d in &ds.items {
        out.push(reconsider_step(alloc, d)?)?;
    }
    Ok(out)
}

/// `take x = t`: `take t`, and then `set x = t`.
pub fn take_and_set(alloc: Global, d: Definition) -> Result<ReadSteps, AllocError>
    ensures { IfOk result (λ rs. rs ≡ read.Take d.term ∷ read.Set d ∷ []) }
{
    let mut out = ReadSteps::new(alloc);
    let t = d.term.copy(alloc)?;
    out.push(ReadStep::Take(t))?;
    out.push(ReadStep::Set(d))?;
    Ok(out)
}
