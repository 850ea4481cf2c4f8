//! How large bodies are with arguments for their places.
ghost use Rattle.std.specs.Prelude.{◌≡◌, map, IfOk};
ghost use Rattle.mz_logic.specs.Substitution.{substitute, argument_at};
ghost use Rattle.mz_core.specs.TypeSubstitution.{substitute_statement};
ghost use Rattle.mz_sizes.specs.Sizes.{term_keeps, statement_keeps};
ghost use Rattle.mz_instance_sizes.specs.Sizes.{term_size};

use crate::size::Size;
use crate::statements::statement_within;
use crate::within::size_at;
use mz_core::statement::Statement;
use mz_logic::term::{Term, Terms};
use std::alloc::{AllocError, Global};

#[tactic(auto, using(crate::proofs::ExpansionLemmas::size_rules))]
fn term_size(t: &Term) -> Size
    ensures { result ≡ term_size t.now }
{
    size_at(t, &[], 0)
}

fn sizes_of(alloc: Global, ts: &Terms) -> Result<Vec<Size>, AllocError>
    ensures { IfOk result (λ xs. xs.items ≡ map term_size ts.now) }
{
    let mut out = Vec::new(alloc);
    for t in &ts.items {
        out.push(term_size(t))?;
    }
    Ok(out)
}

/// Whether the term, with the arguments for its places, is within the limits of an expression. It isn't made.
#[tactic(auto, using(crate::proofs::ExpansionLemmas::keep_rules))]
pub fn is_term_kept_at(alloc: Global, body: &Term, args: &Terms) -> Result<bool, AllocError>
    ensures { IfOk result (λ b. b ≡ term_keeps (substitute 0 (argument_at args.now) body.now)) }
{
    let sizes = sizes_of(alloc, args)?;
    let x = size_at(body, sizes.as_slice(), 0);
    Ok(x.is_kept())
}

/// Whether the statement, with the arguments for its places, is within the limits of an expression. It isn't made.
#[tactic(auto, using(crate::proofs::ExpansionLemmas::keep_rules))]
pub fn is_statement_kept_at(
    alloc: Global,
    body: &Statement,
    args: &Terms,
) -> Result<bool, AllocError>
    ensures { IfOk result (λ b. b ≡ statement_keeps (substitute_statement 0 (argument_at args.now) body.now)) }
{
    let sizes = sizes_of(alloc, args)?;
    let x = statement_within(body, sizes.as_slice(), 0)?;
    Ok(x.is_kept())
}
