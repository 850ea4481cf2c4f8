//! Whether what an item owes and grants keeps the limits on nodes and depth.
ghost use Rattle.std.specs.Prelude.{◌≡◌, length, nat_le, IfOk};
ghost use Rattle.std.specs.List.{list_all};
ghost use Rattle.mz_cluster_items.specs.Items.{sequent_keeps};
ghost use Rattle.mz_defined.specs.Owing.{all_keep};
ghost use Rattle.mz_heading.specs.Cases.{case_count};
ghost use Rattle.mz_items.specs.Cases.{formula_cases, term_cases};
ghost use Rattle.mz_items.specs.Items.{owed_statements, granted_statements};
ghost use Rattle.mz_sizes.specs.Sizes.{statement_keeps};

use mz_core::formula_definiens::FormulaDefiniens;
use mz_core::item::Item;
use mz_core::statement::Statement;
use mz_core::term_definiens::TermDefiniens;
use mz_core::typed_sequent::TypedSequent;
use mz_items::granted::granted_statements;
use mz_items::owed::owed_statements;
use mz_sizes::keeps::statement_keeps;
use std::alloc::{AllocError, Global};

fn sequent_keeps(q: &TypedSequent) -> bool
    ensures { result ≡ sequent_keeps q.now }
{
    statement_keeps(&q.conclusion)
}

fn sequents_keep(qs: &[TypedSequent]) -> bool
    ensures { result ≡ list_all sequent_keeps qs.now }
{
    for q in qs {
        if !sequent_keeps(q) {
            return false;
        }
    }
    true
}

fn statements_keep(ss: &[Statement]) -> bool
    ensures { result ≡ list_all statement_keeps ss.now }
{
    for s in ss {
        if !statement_keeps(s) {
            return false;
        }
    }
    true
}

fn owed_keep(alloc: Global, x: &Item) -> Result<bool, AllocError>
    ensures { IfOk result (λ b. b ≡ list_all sequent_keeps (owed_statements x.now)) }
{
    let qs = owed_statements(alloc, x)?;
    Ok(sequents_keep(qs.items.as_slice()))
}

fn granted_keep(alloc: Global, x: &Item) -> Result<bool, AllocError>
    ensures { IfOk result (λ b. b ≡ list_all statement_keeps (granted_statements x.now)) }
{
    let ss = granted_statements(alloc, x)?;
    Ok(statements_keep(ss.items.as_slice()))
}

fn formula_case_count(d: &FormulaDefiniens) -> usize
    ensures { result ≡ length (formula_cases d.now) }
{
    match d {
        FormulaDefiniens::Plain(_) => 0,
        FormulaDefiniens::Cases(ks) => ks.items.len(),
        FormulaDefiniens::CasesOtherwise(ks, _) => ks.items.len(),
    }
}

fn term_case_count(d: &TermDefiniens) -> usize
    ensures { result ≡ length (term_cases d.now) }
{
    match d {
        TermDefiniens::Plain(_) => 0,
        TermDefiniens::Cases(ks) => ks.items.len(),
        TermDefiniens::CasesOtherwise(ks, _) => ks.items.len(),
    }
}

fn case_count(x: &Item) -> usize
    ensures { result ≡ case_count x.now }
{
    match x {
        Item::FunctorMeans(d) => formula_case_count(&d.definiens),
        Item::FunctorEquals(d) => term_case_count(&d.definiens),
        Item::Predicate(d) => formula_case_count(&d.definiens),
        Item::Attribute(d) => formula_case_count(&d.definiens),
        Item::ModeMeans(d) => formula_case_count(&d.definiens),
        Item::Axiom(_) => 0,
        Item::AxiomScheme(_) => 0,
        Item::Primitive(_) => 0,
        Item::Theorem(_) => 0,
        Item::Scheme(_) => 0,
        Item::Abbreviation(_) => 0,
        Item::Notation(_) => 0,
        Item::RedefinedFunctor(_) => 0,
        Item::RedefinedMode(_) => 0,
        Item::RedefinedPredicate(_) => 0,
        Item::RedefinedAttribute(_) => 0,
        Item::Property(_) => 0,
        Item::Existential(_) => 0,
        Item::Conditional(_) => 0,
        Item::Functorial(_) => 0,
        Item::Reduction(_) => 0,
        Item::Identification(_) => 0,
        Item::Structure(_) => 0,
        Item::SetTerm(_) => 0,
        Item::Choice(_) => 0,
    }
}

/// Whether an item has at most 32 cases. The pairs of more are deeper than 512 where they are joined, so they needn't be made.
fn has_few_cases(x: &Item) -> bool
    ensures { result ≡ nat_le (case_count x.now) 32 }
{
    case_count(x) <= 32
}

/// Whether an item of so many loci has at most 512 of them, and all that it owes and grants has at most 65,536 nodes and at most the depth
/// 512.
#[tactic(auto, using(crate::proofs::LimitLemmas::limit_rules))]
pub fn all_keep(alloc: Global, count: u32, x: &Item) -> Result<bool, AllocError>
    ensures { IfOk result (λ b. b ≡ all_keep count x.now) }
{
    if count > 512 {
        return Ok(false);
    }
    let few = has_few_cases(x);
    if !few {
        return Ok(false);
    }
    let granted = granted_keep(alloc, x)?;
    if !granted {
        return Ok(false);
    }
    owed_keep(alloc, x)
}
