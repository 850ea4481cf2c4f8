//! How large a statement or type is with terms for its places, by how large these are.
ghost use Rattle.std.specs.Prelude.{◌≡◌, map, IfOk};
ghost use Rattle.mz_logic.specs.Term.{terms_of};
ghost use Rattle.mz_instance_sizes.specs.Sizes.{all_beside};
ghost use Rattle.mz_instance_sizes.specs.Within.{adjective_within, type_within, statement_within};

use crate::size::{Size, leaf, nothing};
use crate::within::{size_at, sizes_at};
use mz_core::adjective::Adjective;
use mz_core::adjectives::Adjectives;
use mz_core::soft_type::SoftType;
use mz_core::statement::{Statement, StatementNode};
use std::alloc::AllocError;

fn adjective_within(a: &Adjective, sizes: &[Size], depth: u32) -> Size
    ensures { result ≡ adjective_within sizes.now depth a.now }
{
    sizes_at(&a.args, sizes, depth).above()
}

#[tactic(auto, using(crate::proofs::BesideLemmas::more_rules))]
fn adjectives_within(xs: &Adjectives, sizes: &[Size], depth: u32) -> Size
    ensures { result ≡ all_beside (map (adjective_within sizes.now depth) xs.now) }
{
    let mut out = nothing();
    for a in &xs.items {
        out = out.beside(adjective_within(a, sizes, depth));
    }
    out
}

/// How large a type below so many binders is, whose further indices are places for arguments of these sizes.
pub fn type_within(ty: &SoftType, sizes: &[Size], depth: u32) -> Size
    ensures { result ≡ type_within sizes.now depth ty.now }
{
    let radix = sizes_at(&ty.radix.args, sizes, depth).above();
    radix.beside(adjectives_within(&ty.adjectives, sizes, depth))
}

/// The same of a statement. More than 4,294,967,295 binders are as no memory.
#[cycle(statement_within)]
pub fn statement_within(s: &Statement, sizes: &[Size], depth: u32) -> Result<Size, AllocError>
    ensures { IfOk result (λ x. x ≡ statement_within sizes.now depth s.now) }
{
    match &s.node {
        StatementNode::Truth => Ok(leaf()),
        StatementNode::Eq(t, u) => {
            let x = size_at(t, sizes, depth);
            let y = size_at(u, sizes, depth);
            Ok(x.beside(y).above())
        }
        StatementNode::Atom(_, ts) => Ok(sizes_at(ts, sizes, depth).above()),
        StatementNode::Not(s) => {
            let x = statement_within(s, sizes, depth)?;
            Ok(x.above())
        }
        StatementNode::And(s, t) => {
            let x = statement_within(s, sizes, depth)?;
            let y = statement_within(t, sizes, depth)?;
            Ok(x.beside(y).above())
        }
        StatementNode::For(ty, s) => {
            let inner = depth.checked_add(1).ok_or(AllocError)?;
            let x = type_within(ty, sizes, depth);
            let y = statement_within(s, sizes, inner)?;
            Ok(x.beside(y).above())
        }
    }
}
