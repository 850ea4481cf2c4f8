//! The problem of a statement that is to be justified.
ghost use Rattle.std.specs.Prelude.{◌≡◌, ◌++◌, ◌∷◌, [], IfOk, OnOk, map, flat_map};
ghost use Rattle.mz_logic.specs.Literal.{literal_formula};
ghost use Rattle.mz_core.specs.TypeStatements.{literal_statement};
ghost use Rattle.mz_core.specs.StatementForms.{opposite};
ghost use Rattle.mz_core.specs.Parts.{parts};
ghost use Rattle.mz_core.specs.Erasure.{erase};
ghost use Rattle.mz_context.specs.Context.{numbers};
ghost use Rattle.mz_context.specs.Gather.{below};
ghost use Rattle.mz_context.specs.Occurring.{formula_constants};
ghost use Rattle.mz_problem.specs.Opened.{guards_from};
ghost use Rattle.mz_problem.specs.Asked.{occurs_in_some, known_in, formulas_of, parts_of, problem_of, AskedAt, Asks};

use crate::added::added;
use crate::opened::{guards_from, is_universal, open};
use mz_context::constants::Constants;
use mz_context::gather::{known_of_all, reached};
use mz_context::occurring::{in_order, push_formula};
use mz_core::erasure::erase;
use mz_core::parts::parts;
use mz_core::soft_types::SoftTypes;
use mz_core::statement::Statement;
use mz_core::statement_forms::opposite;
use mz_core::statements::Statements;
use mz_core::type_statements::literal_statements;
use mz_environment::unfoldings::Unfoldings;
use mz_ground::clause::Clause;
use mz_logic::formulas::Formulas;
use mz_logic::literals::Literals;
use mz_nf::problem::Problem;
use mz_thesis::fresh::constants_copy;
use std::alloc::{AllocError, Global};

fn push_erased(alloc: Global, ss: &[Statement], out: &mut Formulas) -> Result<(), AllocError>
    ensures { OnOk result (out.new ≡ out.old ++ map erase ss.now) }
{
    for s in ss {
        out.push(erase(alloc, s)?)?;
    }
    Ok(())
}

fn push_formulas(alloc: Global, ls: &Literals, out: &mut Formulas) -> Result<(), AllocError>
    ensures { OnOk result (out.new ≡ out.old ++ map literal_formula ls.now) }
{
    for l in &ls.items {
        out.push(l.formula(alloc)?)?;
    }
    Ok(())
}

fn append(out: &mut Statements, more: Statements) -> Result<(), AllocError>
    ensures { OnOk result (out.new ≡ out.old ++ more) }
{
    let mut rest = more;
    out.items.append(&mut rest.items)?;
    Ok(())
}

fn push_parts(alloc: Global, ss: &[Statement], out: &mut Statements) -> Result<(), AllocError>
    ensures { OnOk result (out.new ≡ out.old ++ flat_map parts ss.now) }
{
    for s in ss {
        let ps = parts(alloc, s)?;
        append(out, ps)?;
    }
    Ok(())
}

fn push_literals(alloc: Global, ls: &Literals, out: &mut Statements) -> Result<(), AllocError>
    ensures { OnOk result (out.new ≡ out.old ++ map literal_statement ls.now) }
{
    let ss = literal_statements(alloc, ls)?;
    append(out, ss)
}

fn formulas_of(alloc: Global, given: &Statements, s: &Statement) -> Result<Formulas, AllocError>
    ensures { IfOk result (λ fs. fs ≡ formulas_of given.now s.now) }
{
    let mut out = Formulas::new(alloc);
    push_erased(alloc, given.items.as_slice(), &mut out)?;
    out.push(erase(alloc, s)?)?;
    Ok(out)
}

/// The constants below `count` that occur in the formulas, as often and in the order in which they stand.
fn met_constants(alloc: Global, fs: &Formulas, count: u32) -> Result<Vec<u32>, AllocError>
    ensures { IfOk result (λ ns. ns.items ≡ flat_map (formula_constants count) fs.now) }
{
    let mut out = Vec::new(alloc);
    for f in &fs.items {
        push_formula(f, count, &mut out)?;
    }
    Ok(out)
}

/// The numbers below `count` of constants that occur in the formulas.
fn occurring(alloc: Global, fs: &Formulas, count: u32) -> Result<Vec<u32>, AllocError>
    ensures { IfOk result (λ cs. cs.items ≡ below (occurs_in_some fs.now) count) }
{
    let met = met_constants(alloc, fs, count)?;
    Ok(in_order(met))
}

fn numbers(constants: &Constants) -> Result<u32, AllocError>
    ensures { IfOk result (λ n. n ≡ numbers constants.now) }
{
    let count = constants.items.len();
    if count >= 4294967295 {
        return Err(AllocError);
    }
    Ok(count as u32 + 1)
}

fn known_in(alloc: Global, constants: &Constants, fs: &Formulas) -> Result<Literals, AllocError>
    ensures { IfOk result (λ ls. ls ≡ known_in constants.now fs.now) }
{
    let count = numbers(constants)?;
    let first = occurring(alloc, fs, count)?;
    let ns = reached(alloc, constants, first.as_slice())?;
    let ls = known_of_all(alloc, constants, ns.as_slice())?;
    Ok(ls)
}

fn parts_of(
    alloc: Global,
    given: &Statements,
    known: &Literals,
    fresh: &Literals,
    s: &Statement,
) -> Result<Statements, AllocError>
    ensures { IfOk result (λ ps. ps ≡ parts_of given.now known.now fresh.now s.now) }
{
    let mut out = Statements::new(alloc);
    push_parts(alloc, given.items.as_slice(), &mut out)?;
    push_literals(alloc, known, &mut out)?;
    push_literals(alloc, fresh, &mut out)?;
    let negated = Box::new(alloc, opposite(alloc, s.copy(alloc)?)?)?;
    let ps = parts(alloc, &negated)?;
    append(&mut out, ps)?;
    Ok(out)
}

fn problem_of(
    alloc: Global,
    given: &Statements,
    known: &Literals,
    added: &Statements,
    fresh: &Literals,
    s: &Statement,
) -> Result<Problem, AllocError>
    ensures { IfOk result (λ p. p ≡ problem_of given.now known.now added.now fresh.now s.now) }
{
    let mut premises = Formulas::new(alloc);
    push_erased(alloc, given.items.as_slice(), &mut premises)?;
    push_formulas(alloc, known, &mut premises)?;
    push_erased(alloc, added.items.as_slice(), &mut premises)?;
    push_formulas(alloc, fresh, &mut premises)?;
    let conclusion = erase(alloc, s)?;
    Ok(Problem {
        premises,
        conclusion,
    })
}

/// The problem, where what is known and the guards of the fresh constants are found and the statement is opened.
fn asked_at(
    alloc: Global,
    clauses: &[Clause],
    constants: &Constants,
    unfoldings: &Unfoldings,
    given: &Statements,
    known: &Literals,
    fresh: &Literals,
    s: &Statement,
) -> Result<Problem, AllocError>
    ensures { IfOk result (λ p. AskedAt clauses.now constants.now unfoldings.now given.now known.now fresh.now s.now p) }
{
    let parts = parts_of(alloc, given, known, fresh, s)?;
    let ds = added(
        alloc,
        clauses,
        constants,
        unfoldings,
        parts.items.as_slice(),
    )?;
    problem_of(alloc, given, known, &ds, fresh, s)
}

/// The problem of a statement with leading quantifiers.
#[tactic(auto, using(crate::proofs::AskedLemmas::told_opened))]
fn asked_opened(
    alloc: Global,
    clauses: &[Clause],
    constants: &Constants,
    unfoldings: &Unfoldings,
    given: &Statements,
    known: &Literals,
    s: &Statement,
) -> Result<Problem, AllocError>
    requires { known.now ≡ known_in constants.now (formulas_of given.now s.now) }
    ensures { IfOk result (λ p. Asks clauses.now constants.now unfoldings.now given.now s.now p) }
{
    let from = numbers(constants)?;
    let mut all = constants_copy(alloc, constants)?;
    let mut types = SoftTypes::new(alloc);
    let t = open(alloc, &mut all, &mut types, s)?;
    let fresh = guards_from(alloc, from, types.items.as_slice())?;
    asked_at(alloc, clauses, &all, unfoldings, given, known, &fresh, &t)
}

/// The problem of justifying the statement: by the statements that are given, the one just before and then the cited ones,
/// by what is known of the constants that occur, and by definientia. Leading quantifiers are opened.
#[tactic(auto, using(crate::proofs::AskedLemmas::told_as_it_is))]
pub fn asked(
    alloc: Global,
    clauses: &[Clause],
    constants: &Constants,
    unfoldings: &Unfoldings,
    given: &Statements,
    s: &Statement,
) -> Result<Problem, AllocError>
    ensures { IfOk result (λ p. Asks clauses.now constants.now unfoldings.now given.now s.now p) }
{
    let fs = formulas_of(alloc, given, s)?;
    let known = known_in(alloc, constants, &fs)?;
    if is_universal(s) {
        return asked_opened(alloc, clauses, constants, unfoldings, given, &known, s);
    }
    let fresh = Literals::new(alloc);
    asked_at(
        alloc, clauses, constants, unfoldings, given, &known, &fresh, s,
    )
}
