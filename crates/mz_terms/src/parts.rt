//! The parts of a run: its operands, and its symbols with their ranks.
ghost use Rattle.std.specs.Prelude.{◌≡◌, ◌++◌, ◌∷◌, [], map, OnOk, IfOk};
ghost use Rattle.std.specs.Arc.{arc_value};
ghost use Rattle.std.specs.List.{list_any};
ghost use Rattle.mz_tree.specs.Views.{piece_of};
ghost use Rattle.mz_terms.specs.Parts.{has_argument, takes_arguments, is_operand, is_beside, symbol_part, symbol_neighbour, part_of, neighbour_of, parts_of};

use crate::neighbour::Neighbour;
use mz_base::text::Text;
use mz_core::notation::Notation;
use mz_environment::environment::Environment;
use mz_grouping::grouping::Part;
use mz_logic::kind::Kind;
use mz_tree::nodes::{PieceNode, TermNode};
use std::alloc::{AllocError, Global};
use std::sync::Arc;

fn has_argument(symbol: &Text, x: &Notation) -> bool
    ensures { result ≡ has_argument symbol.now x.now }
{
    x.pattern.symbol.as_slice() == symbol.as_slice()
        && x.pattern.closing.len() == 0
        && x.pattern.kind.code() == Kind::Functor.code()
        && !(x.pattern.left.len() == 0 && x.pattern.right.len() == 0)
}

#[tactic(auto, using(mz_choice::proofs::ResolveLemmas::has_rules))]
fn some_has_argument(symbol: &Text, xs: &[Arc<Notation>]) -> bool
    ensures { result ≡ list_any (has_argument symbol.now) (map arc_value xs.now) }
{
    let mut rest = xs;
    while let Some((x, others)) = rest.split_first() {
        if has_argument(symbol, x) {
            return true;
        }
        rest = others;
    }
    false
}

/// Whether some notation of the functor symbol has an argument.
#[tactic(auto, using(crate::proofs::PartLemmas::takes_rules))]
pub fn takes_arguments(env: &Environment, symbol: &Text) -> bool
    ensures { result ≡ takes_arguments env.now symbol.now }
{
    let xs = env.notations.of(symbol);
    let some = some_has_argument(symbol, xs);
    some
}

fn is_operand(before: Neighbour) -> bool
    ensures { result ≡ is_operand before }
{
    match before {
        Neighbour::Operand => true,
        Neighbour::Nullary => false,
        Neighbour::Other => false,
    }
}

fn is_beside(before: Neighbour) -> bool
    ensures { result ≡ is_beside before }
{
    match before {
        Neighbour::Operand => true,
        Neighbour::Nullary => true,
        Neighbour::Other => false,
    }
}

fn symbol_part(takes: bool, before: Neighbour, priority: u8) -> Part
    ensures { result ≡ symbol_part takes before priority }
{
    if takes {
        Part::Symbol(priority as u32, is_beside(before))
    } else {
        Part::Symbol(priority as u32 + 256, is_operand(before))
    }
}

fn symbol_neighbour(takes: bool) -> Neighbour
    ensures { result ≡ symbol_neighbour takes }
{
    if takes {
        Neighbour::Other
    } else {
        Neighbour::Nullary
    }
}

/// A piece's part, with what stands before it; then it stands before the next.
#[tactic(auto, using(mz_tree::proofs::Views::piece_rules))]
fn put_piece(
    env: &Environment,
    node: &PieceNode,
    before: &mut Neighbour,
    out: &mut Vec<Part>,
) -> Result<(), AllocError>
    ensures part { OnOk result (out.new.items ≡ out.old.items ++ part_of env.now before.old (piece_of node.now) ∷ []) }
    ensures next { OnOk result (before.new ≡ neighbour_of env.now (piece_of node.now)) }
{
    match node {
        PieceNode::Functor(w, priority) => {
            let takes = takes_arguments(env, &w.spelling);
            out.push(symbol_part(takes, *before, *priority))?;
            *before = symbol_neighbour(takes);
        }
        PieceNode::Operand(_) => {
            out.push(Part::Operand)?;
            *before = Neighbour::Operand;
        }
    }
    Ok(())
}

/// The parts of a run.
#[tactic(auto, using(crate::proofs::PartLemmas::run_rules))]
pub fn parts_of(alloc: Global, env: &Environment, node: &TermNode) -> Result<Vec<Part>, AllocError>
    ensures { IfOk result (λ parts. parts.items ≡ parts_of env.now (piece_of node.now.first ∷ map piece_of node.now.more.items)) }
{
    let mut out = Vec::new(alloc);
    let mut before = Neighbour::Other;
    put_piece(env, &node.first, &mut before, &mut out)?;
    let mut rest = node.more.as_slice();
    while let Some((piece, others)) = rest.split_first() {
        put_piece(env, piece, &mut before, &mut out)?;
        rest = others;
    }
    Ok(out)
}
