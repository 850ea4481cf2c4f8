//! Bodies: what was read where the places were constants, as it stands under the places.
ghost use Rattle.std.specs.Prelude.{◌≡◌, IfOk, OnOk};
ghost use Rattle.mz_logic.specs.Abstraction.{term_over};
ghost use Rattle.mz_core.specs.Abstraction.{statement_over};
ghost use Rattle.mz_private.specs.Bodies.{term_over_places, statement_over_places};

use mz_core::abstraction::{statement_over, term_over};
use mz_core::statement::Statement;
use mz_logic::term::Term;
use std::alloc::{AllocError, Global};

fn make_index(alloc: Global, t: &mut Term, c: u32) -> Result<(), AllocError>
    ensures { OnOk result (t.new ≡ term_over c 0 t.old) }
{
    let over = term_over(alloc, t, c, 0)?;
    *t = over;
    Ok(())
}

/// Makes a term that was read with so many places, the constants from `least` on, a body: each place is an index, the first one 0.
#[tactic(auto, using(crate::proofs::BodyLemmas::body_rules))]
pub fn make_term_body(alloc: Global, t: &mut Term, least: u32, count: u32) -> Result<(), AllocError>
    ensures { OnOk result (t.new ≡ term_over_places least count t.old) }
{
    let mut left = count;
    while left > 0 {
        left -= 1;
        let c = least.checked_add(left).ok_or(AllocError)?;
        make_index(alloc, t, c)?;
    }
    Ok(())
}

fn make_index_within(alloc: Global, s: &mut Statement, c: u32) -> Result<(), AllocError>
    ensures { OnOk result (s.new ≡ statement_over c 0 s.old) }
{
    let over = statement_over(alloc, s, c, 0)?;
    *s = over;
    Ok(())
}

/// The same of a statement.
#[tactic(auto, using(crate::proofs::BodyLemmas::body_rules))]
pub fn make_statement_body(
    alloc: Global,
    s: &mut Statement,
    least: u32,
    count: u32,
) -> Result<(), AllocError>
    ensures { OnOk result (s.new ≡ statement_over_places least count s.old) }
{
    let mut left = count;
    while left > 0 {
        left -= 1;
        let c = least.checked_add(left).ok_or(AllocError)?;
        make_index_within(alloc, s, c)?;
    }
    Ok(())
}
