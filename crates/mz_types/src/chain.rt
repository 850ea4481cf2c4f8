//! The chain of a term.
ghost use Rattle.std.specs.Prelude.{◌≡◌, ◌≤◌, ◌<◌, ◌+◌, ◌-◌, ◌*◌, ◌↔◌, ◌++◌, ◌∷◌, [], suc, length, reverse, Contains, IfOk, OnOk, IsTrue, List, Option};
ghost use Rattle.mz_core.specs.declared.radix.Radix.{Radix};
ghost use Rattle.mz_ground.specs.declared.clause.Clause.{Clause};
ghost use Rattle.mz_environment.specs.declared.environment.Environment.{Environment};
ghost use Rattle.mz_logic.specs.Term.{Const, App, terms_of};
ghost use Rattle.mz_logic.specs.declared.kind.Kind.TheVariants.{Selector};
ghost use Rattle.mz_types.specs.RowTypes.{RowsAdd};
ghost use Rattle.mz_types.specs.Structures.{AggregateGives};
ghost use Rattle.mz_ground.specs.Instance.{term_nodes, args_nodes};
ghost use Rattle.mz_types.specs.Chain.{left_of, radix_nodes, most_nodes, IsLeftOut, is_structure_kind, has_no_radix, rows_of_letters, radix_if_any, plain, chain_end, Parents, Visited, Walks, Begins, IsChain};

use crate::radices::Radixes;
use crate::row_types::rows_give;
use crate::structure_types::{aggregate_gives, ancestors_give, first_gives};
use mz_context::context::Context;
use mz_context::letters::NamedLetters;
use mz_core::hidden::{object_mode, set_mode};
use mz_core::radix::Radix;
use mz_environment::environment::Environment;
use mz_environment::plain::is_mode;
use mz_environment::rows::Rows;
use mz_environment::rows_of::letter_rows;
use mz_ground::clause::Clause;
use mz_logic::kind::Kind;
use mz_logic::sym::Sym;
use mz_logic::term::{Term, TermNode, Terms};
use std::alloc::{AllocError, Global};

const MOST_RADICES: usize = 256;

const MOST_NODES: usize = 65536;

fn has(out: &[Radix], r: &Radix) -> bool
    ensures { IsTrue result ↔ Contains out.now r.now }
{
    out.iter().any(|s| s.equals(r))
}

/// What is left of so many nodes when those of a term are taken, or none where it has more.
#[cycle(nodes)]
#[tactic(auto, using(crate::proofs::NodeLemmas::node_rules))]
fn nodes_left(t: &Term, left: usize) -> Option<usize>
    ensures { result ≡ left_of (term_nodes t.now) left }
{
    if left == 0 {
        return None;
    }
    match &t.node {
        TermNode::Bound(_) => Some(left - 1),
        TermNode::Const(_) => Some(left - 1),
        TermNode::App(_, ts) => {
            let others = all_nodes_left(ts, left - 1);
            others
        }
    }
}

/// The same of terms.
#[cycle(nodes)]
#[tactic(auto, using(crate::proofs::NodeLemmas::list_rules))]
fn all_nodes_left(ts: &Terms, left: usize) -> Option<usize>
    ensures { result ≡ left_of (args_nodes (terms_of ts.now)) left }
{
    let mut rest = left;
    for t in &ts.items {
        match nodes_left(t, rest) {
            Some(less) => rest = less,
            None => return None,
        }
    }
    Some(rest)
}

/// Whether the radix has more nodes than the chain takes.
#[tactic(auto, using(crate::proofs::NodeLemmas::large_rules))]
fn is_too_large(r: &Radix) -> bool
    ensures { IsTrue result ↔ (most_nodes < radix_nodes r.now) }
{
    match all_nodes_left(&r.args, MOST_NODES - 1) {
        Some(_) => false,
        None => true,
    }
}

/// Whether the radix stands in the chain already, has too many nodes, or the chain is full.
#[tactic(auto, using(crate::proofs::ChainLemmas::left_rules))]
fn is_left_out(out: &[Radix], r: &Radix) -> bool
    ensures { IsTrue result ↔ IsLeftOut out.now r.now }
{
    if out.len() >= MOST_RADICES {
        return true;
    }
    if has(out, r) {
        return true;
    }
    let large = is_too_large(r);
    large
}

fn is_structure_kind(k: Kind) -> bool
    ensures { result ≡ is_structure_kind k }
{
    match k {
        Kind::Structure => true,
        _ => false,
    }
}

/// The parents of a radix, the one that is taken first last.
#[tactic(auto, using(crate::proofs::ChainLemmas::parent_rules))]
fn parents(
    alloc: Global,
    clauses: &[Clause],
    env: &Environment,
    ctx: &Context,
    r: &Radix,
) -> Result<Radixes, AllocError>
    ensures { IfOk result (λ xs. Parents clauses.now env.now ctx.now r.now (reverse xs)) }
{
    if is_mode(r.sym.kind) {
        let args = r.args.items.as_slice();
        let xs = rows_give(alloc, clauses, &ctx.constants, r.sym, args, &env.modes)?;
        return Ok(xs);
    }
    if is_structure_kind(r.sym.kind) {
        let xs = ancestors_give(alloc, clauses, &ctx.constants, &env.structures, r)?;
        return Ok(xs.reversed());
    }
    Ok(Radixes::new(alloc))
}

/// A radix in its turn: puts it into the chain, unless it is left out, and gives its parents, the one that is taken first
/// last.
#[tactic(auto, using(crate::proofs::ChainLemmas::visited_rules))]
fn visit(
    alloc: Global,
    clauses: &[Clause],
    env: &Environment,
    ctx: &Context,
    r: Radix,
    out: &mut Radixes,
) -> Result<Radixes, AllocError>
    ensures { IfOk result (λ xs. Visited clauses.now env.now ctx.now out.old r (reverse xs) out.new) }
{
    if is_left_out(out.items.as_slice(), &r) {
        return Ok(Radixes::new(alloc));
    }
    let xs = parents(alloc, clauses, env, ctx, &r)?;
    out.push(r)?;
    Ok(xs)
}

/// The radices in turn, each followed by its parents. They are given with the first one last.
#[tactic(auto, using(crate::proofs::ChainLemmas::walk_rules))]
fn walk(
    alloc: Global,
    clauses: &[Clause],
    env: &Environment,
    ctx: &Context,
    first: Radixes,
) -> Result<Radixes, AllocError>
    ensures { IfOk result (λ out. Walks clauses.now env.now ctx.now (reverse first) [] out) }
{
    let mut stack = first;
    let mut out = Radixes::new(alloc);
    while let Some(r) = stack.pop() {
        let xs = visit(alloc, clauses, env, ctx, r, &mut out)?;
        stack.append(xs)?;
    }
    Ok(out)
}

fn rows_of_letters(alloc: Global, letters: &NamedLetters) -> Result<Rows, AllocError>
    ensures { IfOk result (λ rs. rs ≡ rows_of_letters letters.now) }
{
    let mut out = Rows::new(alloc);
    for letter in &letters.items {
        let rows = letter_rows(alloc, &letter.letter)?;
        out.append(&rows)?;
    }
    Ok(out)
}

fn one_if_any(alloc: Global, o: Option<Radix>) -> Result<Radixes, AllocError>
    ensures { IfOk result (λ rs. rs ≡ radix_if_any o) }
{
    let mut out = Radixes::new(alloc);
    match o {
        Some(radix) => {
            out.push(radix)?;
            Ok(out)
        }
        None => Ok(out),
    }
}

/// The declared radix of a constant that is in force.
#[tactic(auto, using(crate::proofs::ChainLemmas::declared_rules))]
fn declared_radix(alloc: Global, ctx: &Context, n: u32) -> Result<Radixes, AllocError>
    ensures { IfOk result (λ xs. (cs : List Clause) (e : Environment) → Begins cs e ctx.now (Const n) (reverse xs)) }
{
    let mut out = Radixes::new(alloc);
    match ctx.constants.get(n) {
        Some(k) => {
            out.push(k.ty.radix.copy(alloc)?)?;
            Ok(out)
        }
        None => Ok(out),
    }
}

/// What the letters in force state of a symbol at these arguments.
fn by_letters(
    alloc: Global,
    clauses: &[Clause],
    ctx: &Context,
    s: Sym,
    args: &[Term],
) -> Result<Radixes, AllocError>
    ensures { IfOk result (λ xs. RowsAdd clauses.now ctx.now.constants s args.now (rows_of_letters ctx.now.letters) xs) }
{
    let rows = rows_of_letters(alloc, &ctx.letters)?;
    let xs = rows_give(alloc, clauses, &ctx.constants, s, args, &rows)?;
    Ok(xs)
}

/// The structure of an aggregate's symbol at these arguments, if there is one.
fn by_aggregate(
    alloc: Global,
    clauses: &[Clause],
    env: &Environment,
    ctx: &Context,
    s: Sym,
    ts: &Terms,
) -> Result<Radixes, AllocError>
    ensures { IfOk result (λ xs. (o : Option Radix) × AggregateGives clauses.now ctx.now.constants env.now.structures s ts.now o × (xs ≡ radix_if_any o)) }
{
    let o = aggregate_gives(alloc, clauses, &ctx.constants, &env.structures, s, ts)?;
    let xs = one_if_any(alloc, o)?;
    Ok(xs)
}

/// What the chain of an application begins with, the first one last.
#[cycle(chain)]
#[tactic(auto, using(crate::proofs::BeginLemmas::application_rules))]
fn application(
    alloc: Global,
    clauses: &[Clause],
    env: &Environment,
    ctx: &Context,
    s: Sym,
    ts: &Terms,
) -> Result<Radixes, AllocError>
    ensures { IfOk result (λ xs. Begins clauses.now env.now ctx.now (App s (terms_of ts.now)) (reverse xs)) }
{
    let args = ts.items.as_slice();
    match s.kind {
        Kind::Functor => {
            let xs = rows_give(alloc, clauses, &ctx.constants, s, args, &env.functors)?;
            Ok(xs)
        }
        Kind::LetterFunctor => {
            let xs = by_letters(alloc, clauses, ctx, s, args)?;
            Ok(xs)
        }
        Kind::Aggregate => {
            let xs = by_aggregate(alloc, clauses, env, ctx, s, ts)?;
            Ok(xs)
        }
        Kind::Selector => {
            let xs = selection(alloc, clauses, env, ctx, s, args)?;
            Ok(xs)
        }
        _ => Ok(Radixes::new(alloc)),
    }
}

/// What the chain of a selector's application begins with, the first one last.
#[cycle(chain)]
#[tactic(auto, using(crate::proofs::BeginLemmas::selection_rules))]
fn selection(
    alloc: Global,
    clauses: &[Clause],
    env: &Environment,
    ctx: &Context,
    s: Sym,
    args: &[Term],
) -> Result<Radixes, AllocError>
    ensures { IfOk result (λ xs. s.kind ≡ Selector → Begins clauses.now env.now ctx.now (App s (terms_of args.now)) (reverse xs)) }
{
    match args.split_first() {
        None => Ok(Radixes::new(alloc)),
        Some((t, others)) => {
            if others.len() > 0 {
                return Ok(Radixes::new(alloc));
            }
            let members = chain_by(alloc, clauses, env, ctx, t)?;
            let members = members.items.as_slice();
            let o = first_gives(
                alloc,
                clauses,
                &ctx.constants,
                &env.structures,
                s,
                t,
                members,
            )?;
            let xs = one_if_any(alloc, o)?;
            Ok(xs)
        }
    }
}

/// The chain of a term by typing clauses.
#[cycle(chain)]
#[tactic(auto, using(crate::proofs::ChainLemmas::told_chain))]
pub fn chain_by(
    alloc: Global,
    clauses: &[Clause],
    env: &Environment,
    ctx: &Context,
    t: &Term,
) -> Result<Radixes, AllocError>
    ensures { IfOk result (λ rs. IsChain clauses.now env.now ctx.now t.now rs) }
{
    let first = begin(alloc, clauses, env, ctx, t)?;
    let mut out = walk(alloc, clauses, env, ctx, first)?;
    push_plain(alloc, set_mode(), &mut out)?;
    push_plain(alloc, object_mode(), &mut out)?;
    Ok(out)
}

/// What the chain of a term begins with, the first one last.
#[cycle(chain)]
#[tactic(auto, using(crate::proofs::BeginLemmas::begin_rules))]
fn begin(
    alloc: Global,
    clauses: &[Clause],
    env: &Environment,
    ctx: &Context,
    t: &Term,
) -> Result<Radixes, AllocError>
    ensures { IfOk result (λ xs. Begins clauses.now env.now ctx.now t.now (reverse xs)) }
{
    match &t.node {
        TermNode::Bound(_) => Ok(Radixes::new(alloc)),
        TermNode::Const(n) => {
            let xs = declared_radix(alloc, ctx, *n)?;
            Ok(xs)
        }
        TermNode::App(s, ts) => {
            let xs = application(alloc, clauses, env, ctx, *s, ts)?;
            Ok(xs)
        }
    }
}

fn push_plain(alloc: Global, s: Sym, out: &mut Radixes) -> Result<(), AllocError>
    ensures { OnOk result (out.new ≡ out.old ++ plain s ∷ []) }
{
    out.push(Radix {
        sym: s,
        args: Terms::new(alloc),
    })?;
    Ok(())
}
