//! Trees that are spelled by tokens.
ghost use Rattle.std.specs.Prelude.{◌≡◌, ◌++◌, IfOk, List};
ghost use Rattle.mz_base.specs.declared.token.MarkedToken.{MarkedToken};

use mz_base::token::MarkedToken;
use std::alloc::{AllocError, Global};

/// A tree that is spelled by tokens, as the grammar of `docs/LANGUAGE.md` has them.
pub trait Spell: Drop {
    ghost spelled: { Self → List MarkedToken };

    /// Adds its tokens by the alternatives of the grammar alone, also of a tree that breaks a rule beside them. Fails
    /// only for want of memory.
    fn spell(&self, alloc: Global, out: &mut Vec<MarkedToken>) -> Result<(), AllocError>
        ensures { IfOk result (λ _. out.new.items ≡ out.old.items ++ spelled self.now) };
}
