//! The two nodes that stand for a literal.
ghost use Rattle.std.specs.Prelude.{◌≡◌, ◌<◌, true, false, length, IfOk};
ghost use Rattle.mz_congruence.specs.Layout.{IsLayout};
ghost use Rattle.mz_logic.specs.declared.literal.Literal.TheVariants.{Atom, Eq};
ghost use Rattle.mz_congruence.specs.Nodes.{atom_place, disequal_place};
ghost use Rattle.mz_congruence.specs.Pairing.{PairOf, PairsOf};

use crate::graph::{Pair, Pairs};
use crate::lookup::{atom_place, equation_place};
use crate::numbering::Layout;
use mz_ground::ground_part::Ground;
use mz_logic::literal::Literal;
use mz_logic::literals::Literals;
use mz_logic::sym::Sym;
use mz_logic::term::{Term, Terms};
use std::alloc::{AllocError, Global};

fn atom_number(g: &Ground, layout: Layout, positive: bool, k: usize) -> usize
    requires layout { IsLayout g.now layout }
    requires number { k < length g.now.atoms }
    ensures { result ≡ atom_place g.now positive k }
{
    if positive {
        layout.positive + k
    } else {
        layout.negative + k
    }
}

/// The number of the node of a ground equation.
pub fn disequal_number(g: &Ground, layout: Layout, k: usize) -> usize
    requires layout { IsLayout g.now layout }
    requires number { k < length g.now.equations }
    ensures { result ≡ disequal_place g.now k }
{
    layout.disequal + k
}

#[tactic(auto, using(crate::proofs::PairLemmas::atom_pair_rules))]
fn atom_pair(
    g: &Ground,
    layout: Layout,
    args: &[usize],
    positive: bool,
    sym: Sym,
    us: &Terms,
) -> Option<Pair>
    requires { IsLayout g.now layout }
    ensures { PairOf g.now args.now (Atom positive sym us.now) result }
{
    match atom_place(g, args, sym, us) {
        Some(k) => Some(Pair {
            left: atom_number(g, layout, positive, k),
            right: layout.yes,
        }),
        None => None,
    }
}

#[tactic(auto, using(crate::proofs::PairLemmas::equation_pair_rules))]
fn equal_pair(g: &Ground, args: &[usize], t: &Term, u: &Term) -> Option<Pair>
    ensures { PairOf g.now args.now (Eq true t.now u.now) result }
{
    match equation_place(g, args, t, u) {
        Some(k) => {
            let e = g.equations.get(k);
            Some(Pair {
                left: e.left,
                right: e.right,
            })
        }
        None => None,
    }
}

#[tactic(auto, using(crate::proofs::PairLemmas::disequal_pair_rules))]
fn disequal_pair(g: &Ground, layout: Layout, args: &[usize], t: &Term, u: &Term) -> Option<Pair>
    requires { IsLayout g.now layout }
    ensures { PairOf g.now args.now (Eq false t.now u.now) result }
{
    match equation_place(g, args, t, u) {
        Some(k) => Some(Pair {
            left: disequal_number(g, layout, k),
            right: layout.yes,
        }),
        None => None,
    }
}

/// The two nodes that stand for a literal, where the terms at the places `args` stand for its indices from 0
/// on. There are none where its atom or equation isn't ground.
pub fn pair_of(g: &Ground, layout: Layout, args: &[usize], l: &Literal) -> Option<Pair>
    requires { IsLayout g.now layout }
    ensures { PairOf g.now args.now l.now result }
{
    match l {
        Literal::Atom {
            positive,
            sym,
            args: us,
        } => atom_pair(g, layout, args, *positive, *sym, us),
        Literal::Eq {
            positive,
            left,
            right,
        } => {
            if *positive {
                equal_pair(g, args, left, right)
            } else {
                disequal_pair(g, layout, args, left, right)
            }
        }
    }
}

/// The nodes that stand for literals, if each has its two.
#[tactic(auto, using(crate::proofs::PairLemmas::pairs_rules))]
pub fn pairs_of(
    alloc: Global,
    g: &Ground,
    layout: Layout,
    args: &[usize],
    ls: &Literals,
) -> Result<Option<Pairs>, AllocError>
    requires { IsLayout g.now layout }
    ensures { IfOk result (λ r. PairsOf g.now args.now ls.now r) }
{
    let mut out = Pairs::new(alloc);
    for k in 0..ls.len() {
        match pair_of(g, layout, args, ls.get(k)) {
            Some(p) => out.push(p)?,
            None => return Ok(None),
        }
    }
    Ok(Some(out))
}
