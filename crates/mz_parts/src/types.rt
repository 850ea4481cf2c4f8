//! Types of declarations, which are expressions of their own.
ghost use Rattle.std.specs.Prelude.{◌≡◌};
ghost use Rattle.mz_resolve.specs.Answers.{OnRead};
ghost use Rattle.mz_resolve.specs.Calls.{TypeRead};
ghost use Rattle.mz_tree.specs.Views.{type_of};

use mz_context::context::Context;
use mz_core::outcome::Left;
use mz_core::soft_type::SoftType;
use mz_environment::environment::Environment;
use mz_names::refusal::Refusal;
use mz_resolve::budget::{budget, spend};
use mz_resolve::resolve_fault::ResolveFault;
use mz_sizes::nodes::after_type;
use mz_terms::types::read_type;
use mz_tree::nodes::TypeNode;
use std::alloc::Global;

/// The type that the node is read to. Its nodes are taken off what the article has left; `TooLarge` at its first token where
/// there are fewer. The context is as before.
#[tactic(auto, using(mz_resolve::proofs::CallLemmas::call_rules))]
pub fn type_at(
    alloc: Global,
    env: &Environment,
    ctx: &mut Context,
    least: u32,
    node: &TypeNode,
    left: &mut Left,
) -> Result<SoftType, ResolveFault>
    ensures reads { OnRead result (λ o. TypeRead env.now ctx.old least left.old (type_of node.now) o left.new) }
    ensures same { ctx.new ≡ ctx.old }
{
    match read_type(alloc, env, ctx, least, node)? {
        Err(r) => Err(ResolveFault::Refused(r)),
        Ok(t) => {
            let rest = after_type(&t, budget(left));
            if spend(left, rest)? {
                Ok(t)
            } else {
                Err(ResolveFault::Refused(Refusal::TooLarge(node.first_place())))
            }
        }
    }
}
