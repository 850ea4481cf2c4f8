//! The loci that a `let` of a block declares.
ghost use Rattle.std.specs.Prelude.{◌≡◌, IfOk};
ghost use Rattle.mz_let.specs.Lets.{Lets, with_loci};
ghost use Rattle.mz_parts.specs.Declarations.{DeclarationsRead};
ghost use Rattle.mz_resolve.specs.Answers.{OnRead};
ghost use Rattle.mz_taken.specs.Answers.{OnTaken, Leads};

use mz_names::variable::Variables;
use mz_parts::declarations::read_declarations;
use mz_resolve::resolve_fault::ResolveFault;
use mz_standing::standing::Standing;
use mz_taken::item_fault::{ItemFault, of_reading};
use mz_tree_part::notation::BlockLetTree;
use std::alloc::Global;

fn read_loci(
    alloc: Global,
    s: &mut Standing,
    least: u32,
    t: &BlockLetTree,
) -> Result<Variables, ResolveFault>
    ensures reads { OnRead result (λ o. DeclarationsRead s.old.environment s.old.context least s.old.left t.now.declarations o s.new.left) }
    ensures same { IfOk result (λ vs. s.new ≡ with_loci s.old vs s.new.left) }
{
    read_declarations(
        alloc,
        &s.environment,
        &mut s.context,
        least,
        &t.declarations,
        &mut s.left,
    )
}

/// Takes a `let` of a block in which constants below `least` may not be used: the loci that it declares are in force.
///
/// # Errors
/// The first refusal of its types, in the order of the text; `UnknownVariable` at an identifier without a type that isn't reserved; or
/// there was no memory.
pub fn take_let(
    alloc: Global,
    s: &mut Standing,
    least: u32,
    t: &BlockLetTree,
) -> Result<(), ItemFault>
    ensures { OnTaken result (Leads (Lets least s.old t.now) s.new) }
{
    match read_loci(alloc, s, least, t) {
        Ok(_loci) => Ok(()),
        Err(fault) => Err(of_reading(fault)),
    }
}
