//! A checker that accepts nothing, and one that accepts a theorem.
ghost use Rattle.std.specs.Prelude.{◌≡◌, IfOk};
ghost use Rattle.mz_item_tests.specs.Rejecting.{one_fault};
ghost use Rattle.mz_item_tests.specs.FirstTheorem.{each_is_itself, export_named};

use mz_axioms::built_in::built_in;
use mz_axioms::checker::{Checker, Semantics};
use mz_axioms::exports::Exports;
use mz_base::name::Name;
use mz_base::names::Names;
use mz_base::place::Place;
use mz_base::rule_code::RuleCode;
use mz_base::vocabularies::Vocabularies;
use mz_core::fault::{Fault, Faults};
use mz_core::hidden::object_type;
use mz_core::item::Item;
use mz_core::items::Items;
use mz_core::notations::Notations;
use mz_core::outcome::{Export, Outcome};
use mz_core::statement::Statement;
use mz_logic::term::Term;
use std::alloc::{AllocError, Global};
use std::sync::Wait;
use std::thread::Threads;

/// A checker that accepts nothing.
struct Rejecting;

impl Semantics for Rejecting {
    ghost use Rattle.mz_item_tests.specs.Rejecting.{IsRejected, rejected-once, rejected-name, rejected-sound};

    ghost is_outcome = { IsRejected };

    ghost one_outcome = { rejected-once };

    ghost answers_name = { rejected-name };

    ghost keeps_sound = { rejected-sound };
}

/// One fault at the start.
fn one_fault(alloc: Global) -> Result<Outcome, AllocError>
    ensures { IfOk result (λ o. o ≡ one_fault) }
{
    let mut faults = Faults::new(alloc);
    faults.push(Fault {
        place: Place { line: 1, column: 1 },
        code: RuleCode::NotBuilt,
        number: None,
    })?;
    Ok(Outcome::Rejected(faults))
}

impl Checker for Rejecting {
    fn check<R: Threads + Wait + Sync>(
        &self,
        _rt: &R,
        alloc: Global,
        _name: Name,
        _vocabularies: &Vocabularies,
        _exports: &Exports,
        _bytes: &[u8],
    ) -> Result<Outcome, AllocError> {
        one_fault(alloc)
    }
}

/// A checker that accepts each article with a byte, as the theorem that each object is itself.
struct FirstTheorem;

impl Semantics for FirstTheorem {
    ghost use Rattle.mz_item_tests.specs.FirstTheorem.{IsFirstTheorem, first_theorem-once, first_theorem-name, first_theorem-sound};

    ghost is_outcome = { IsFirstTheorem };

    ghost one_outcome = { first_theorem-once };

    ghost answers_name = { first_theorem-name };

    ghost keeps_sound = { first_theorem-sound };
}

/// `for x being object holds x = x`.
fn each_is_itself(alloc: Global) -> Result<Statement, AllocError>
    ensures { IfOk result (λ s. s ≡ each_is_itself) }
{
    let equal = Statement::equation(Term::bound(0), Term::bound(0));
    Statement::each(alloc, object_type(alloc), equal)
}

/// The export of this name with that theorem.
fn export_named(alloc: Global, name: Name) -> Result<Export, AllocError>
    ensures { IfOk result (λ e. e ≡ export_named name) }
{
    let mut items = Items::new(alloc);
    items.push(Item::Theorem(each_is_itself(alloc)?))?;
    Ok(Export {
        name,
        dependencies: Names::new(alloc),
        items,
        notations: Notations::new(alloc),
    })
}

impl Checker for FirstTheorem {
    fn check<R: Threads + Wait + Sync>(
        &self,
        _rt: &R,
        alloc: Global,
        name: Name,
        _vocabularies: &Vocabularies,
        _exports: &Exports,
        bytes: &[u8],
    ) -> Result<Outcome, AllocError> {
        match bytes {
            [] => one_fault(alloc),
            [_, ..] => {
                let export = export_named(alloc, name)?;
                Ok(Outcome::Accepted(export))
            }
        }
    }
}

#[test]
fn a_checker_that_accepts_nothing(rt: HostRuntime) {
    let exports = built_in(rt.alloc()).expect(&rt, "memory");
    let vocabularies = Vocabularies {
        items: Vec::new(rt.alloc()),
    };
    let outcome = Rejecting
        .check(
            &rt,
            rt.alloc(),
            Name::hidden(),
            &vocabularies,
            &exports,
            b"environ begin",
        )
        .expect(&rt, "memory");
    let count = match outcome {
        Outcome::Accepted(_export) => 0,
        Outcome::Rejected(faults) => faults.items.len(),
    };
    assert!(rt; count == 1);
}

#[test]
fn a_checker_of_one_theorem(rt: HostRuntime) {
    let exports = built_in(rt.alloc()).expect(&rt, "memory");
    let vocabularies = Vocabularies {
        items: Vec::new(rt.alloc()),
    };
    let outcome = FirstTheorem
        .check(
            &rt,
            rt.alloc(),
            Name::hidden(),
            &vocabularies,
            &exports,
            b"environ begin",
        )
        .expect(&rt, "memory");
    let count = match outcome {
        Outcome::Accepted(export) => export.items.items.len(),
        Outcome::Rejected(_faults) => 0,
    };
    assert!(rt; count == 1);
}
