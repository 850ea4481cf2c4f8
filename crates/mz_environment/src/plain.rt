//! What may have a row or an unfolding.
ghost use Rattle.std.specs.Prelude.{◌≡◌, IfOk, length};
ghost use Rattle.mz_environment.specs.Rows.{is_empty, is_bare, is_mode, has_loci};
ghost use Rattle.mz_environment.specs.Unfoldings.{is_application};
ghost use Rattle.mz_ground.specs.Variables.{has_all_below};
ghost use Rattle.mz_ground.specs.declared.trigger.Trigger.TheVariants.{Term as TermTrigger, Atom as AtomTrigger};

use mz_core::hidden::is_of_any_object;
use mz_core::soft_type::SoftType;
use mz_core::soft_types::SoftTypes;
use mz_ground::trigger::Trigger;
use mz_items::loci::count_of;
use mz_logic::kind::Kind;
use mz_logic::sym::Sym;
use mz_logic::term::{Term, TermNode, Terms};
use std::alloc::{AllocError, Global};

/// Whether the type has no adjectives, and its radix has a literal.
pub fn is_bare(ty: &SoftType) -> bool
    ensures { result ≡ is_bare ty.now }
{
    ty.adjectives.items.is_empty() && !is_of_any_object(ty.radix.sym)
}

/// Whether the symbols of this kind are modes.
pub fn is_mode(k: Kind) -> bool
    ensures { result ≡ is_mode k }
{
    match k {
        Kind::Mode => true,
        _ => false,
    }
}

/// Whether the term is a symbol at arguments.
pub fn is_application(t: &Term) -> bool
    ensures { result ≡ is_application t.now }
{
    match &t.node {
        TermNode::App(_, _) => true,
        _ => false,
    }
}

/// Whether each of the loci occurs in the term.
pub fn term_has_loci(alloc: Global, loci: &SoftTypes, t: &Term) -> Result<bool, AllocError>
    ensures { IfOk result (λ b. b ≡ has_all_below (length loci.now) (TermTrigger t.now)) }
{
    let count = count_of(loci.items.len())?;
    let t = t.copy(alloc)?;
    Ok(Trigger::Term(t).has_all_below(count))
}

/// Whether each of the loci occurs in the arguments.
pub fn atom_has_loci(
    alloc: Global,
    loci: &SoftTypes,
    s: Sym,
    ts: &Terms,
) -> Result<bool, AllocError>
    ensures { IfOk result (λ b. b ≡ has_all_below (length loci.now) (AtomTrigger s ts.now)) }
{
    let count = count_of(loci.items.len())?;
    let ts = ts.copy(alloc)?;
    Ok(Trigger::Atom(s, ts).has_all_below(count))
}

/// Whether each of the loci occurs in the arguments of the type's radix.
pub fn has_loci(alloc: Global, loci: &SoftTypes, mode: &SoftType) -> Result<bool, AllocError>
    ensures { IfOk result (λ b. b ≡ has_loci loci.now mode.now) }
{
    atom_has_loci(alloc, loci, mode.radix.sym, &mode.radix.args)
}
