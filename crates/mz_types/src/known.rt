//! The clauses by which it is judged what fits in a context of an environment.
ghost use Rattle.std.specs.Prelude.{◌≡◌, ◌++◌, IfOk, OnOk, MatchOption};
ghost use Rattle.mz_types.specs.Known.{letters_clauses, typing};

use mz_clauses::clauses_of::letter_clauses;
use mz_context::context::Context;
use mz_context::letters::NamedLetters;
use mz_environment::environment::Environment;
use mz_ground::clauses::Clauses;
use std::alloc::{AllocError, Global};

/// Puts these at the end.
fn append(out: &mut Clauses, more: Clauses) -> Result<(), AllocError>
    ensures { OnOk result (out.new ≡ out.old ++ more) }
{
    let mut rest = more;
    out.items.append(&mut rest.items)?;
    Ok(())
}

/// The type clauses of the letters in force.
fn push_letters_clauses(
    alloc: Global,
    letters: &NamedLetters,
    out: &mut Clauses,
) -> Result<(), AllocError>
    ensures { OnOk result (out.new ≡ out.old ++ letters_clauses letters.now) }
{
    for letter in &letters.items {
        let clauses = letter_clauses(alloc, &letter.letter)?;
        append(out, clauses)?;
    }
    Ok(())
}

/// The typing clauses of the environment and those of the letters in force. None where no letter has one: then they are
/// the environment's.
pub fn typing(
    alloc: Global,
    env: &Environment,
    ctx: &Context,
) -> Result<Option<Clauses>, AllocError>
    ensures { IfOk result (λ o. MatchOption o (typing env.now ctx.now ≡ env.now.typing) (λ cs. cs ≡ typing env.now ctx.now)) }
{
    let mut letters = Clauses::new(alloc);
    push_letters_clauses(alloc, &ctx.letters, &mut letters)?;
    if letters.items.is_empty() {
        return Ok(None);
    }
    let mut out = env.typing.copy(alloc)?;
    append(&mut out, letters)?;
    Ok(Some(out))
}
