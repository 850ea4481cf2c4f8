//! The start of an article.
ghost use Rattle.std.specs.Prelude.{◌≡◌, ◌++◌, IfOk};
ghost use Rattle.mz_standing.specs.Standing.{clauses_in, no_symbols, no_context, left_at_start, standing_at_start};

use crate::standing::Standing;
use mz_base::name::Name;
use mz_context::context::{Context, SymbolCounts};
use mz_core::items::Items;
use mz_core::outcome::Left;
use mz_environment::environment::Environment;
use mz_environment::join::push_clauses;
use mz_environment::numbering::Numbering;
use mz_ground::clauses::Clauses;
use std::alloc::{AllocError, Global};

/// The clauses of an environment that `by` uses.
fn clauses_in(alloc: Global, env: &Environment) -> Result<Clauses, AllocError>
    ensures { IfOk result (λ cs. cs ≡ clauses_in env.now) }
{
    let mut out = Clauses::new(alloc);
    push_clauses(alloc, &mut out, &env.typing)?;
    push_clauses(alloc, &mut out, &env.further)?;
    push_clauses(alloc, &mut out, &env.equalities)?;
    Ok(out)
}

fn no_symbols() -> SymbolCounts
    ensures { result ≡ no_symbols }
{
    SymbolCounts {
        modes: 0,
        structures: 0,
        attributes: 0,
        functors: 0,
        selectors: 0,
        aggregates: 0,
        predicates: 0,
        functor_letters: 0,
        predicate_letters: 0,
    }
}

fn no_context(alloc: Global, article: u64) -> Context
    ensures { result ≡ no_context article }
{
    Context::new(alloc, article, no_symbols())
}

/// What an article of so many bytes may have. More than 2^61 bytes are as no memory.
fn left_at_start(alloc: Global, bytes: usize) -> Result<Left, AllocError>
    ensures { IfOk result (λ l. l ≡ left_at_start bytes) }
{
    let nodes = (bytes as u64)
        .checked_mul(4)
        .ok_or(AllocError)?
        .checked_add(65536)
        .ok_or(AllocError)?;
    Ok(Left {
        nodes,
        obligations: 20000,
        made: Items::new(alloc),
    })
}

/// Where the article of the name, of so many bytes, starts with what its environment part lets in.
pub fn standing_at_start(
    alloc: Global,
    name: Name,
    bytes: usize,
    env: Environment,
) -> Result<Standing, AllocError>
    ensures { IfOk result (λ s. s ≡ standing_at_start name bytes env) }
{
    let clauses = clauses_in(alloc, &env)?;
    let left = left_at_start(alloc, bytes)?;
    Ok(Standing {
        environment: env,
        clauses,
        numbering: Numbering::of_article(name.number()),
        context: no_context(alloc, name.number()),
        items: Items::new(alloc),
        left,
    })
}
