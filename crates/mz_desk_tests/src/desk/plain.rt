//! A checker for tests.
ghost use Rattle.std.specs.Prelude.{◌≡◌, ◌∷◌, [], IfOk};
ghost use Rattle.mz_desk_tests.specs.Plain.{one_fault, dependencies_of, export_with};

use mz_axioms::checker::{Checker, Semantics};
use mz_axioms::exports::Exports;
use mz_base::name::Name;
use mz_base::names::Names;
use mz_base::place::Place;
use mz_base::rule_code::RuleCode;
use mz_base::vocabularies::Vocabularies;
use mz_core::fault::{Fault, Faults};
use mz_core::items::Items;
use mz_core::notations::Notations;
use mz_core::outcome::{Export, Outcome};
use std::alloc::{AllocError, Global};
use std::sync::Wait;
use std::thread::Threads;

/// A checker that accepts each text with a byte. The export has no items, and depends on HIDDEN where the
/// first byte is `+`.
#[derive(Clone, Copy, Debug)]
pub struct Plain;

impl Semantics for Plain {
    ghost use Rattle.mz_desk_tests.specs.Plain.{IsPlain};
    ghost use Rattle.mz_desk_tests.specs.PlainLaws.{plain-once, plain-name, plain-sound};

    ghost is_outcome = { IsPlain };

    ghost one_outcome = { plain-once };

    ghost answers_name = { plain-name };

    ghost keeps_sound = { plain-sound };
}

/// One fault at the start.
fn one_fault(alloc: Global) -> Result<Faults, AllocError>
    ensures { IfOk result (λ fs. fs ≡ one_fault ∷ []) }
{
    let mut faults = Faults::new(alloc);
    faults.push(Fault {
        place: Place { line: 1, column: 1 },
        code: RuleCode::NotBuilt,
        number: None,
    })?;
    Ok(faults)
}

/// HIDDEN where the byte is `+`, and else nothing.
#[tactic(auto, using(mz_axioms::proofs::BuiltInLemmas::name_rules))]
fn dependencies_of(alloc: Global, byte: u8) -> Result<Names, AllocError>
    ensures { IfOk result (λ ns. ns ≡ dependencies_of byte) }
{
    let mut names = Names::new(alloc);
    if byte == b'+' {
        names.push(Name::hidden())?;
    }
    Ok(names)
}

/// The export of this name without items.
fn export_with(alloc: Global, name: Name, dependencies: Names) -> Export
    ensures { result ≡ export_with name dependencies }
{
    Export {
        name,
        dependencies,
        items: Items::new(alloc),
        notations: Notations::new(alloc),
    }
}

impl Checker for Plain {
    fn check<R: Threads + Wait + Sync>(
        &self,
        _rt: &R,
        alloc: Global,
        name: Name,
        _vocabularies: &Vocabularies,
        _exports: &Exports,
        bytes: &[u8],
    ) -> Result<Outcome, AllocError> {
        match bytes.split_first() {
            None => {
                let faults = one_fault(alloc)?;
                Ok(Outcome::Rejected(faults))
            }
            Some((byte, _)) => {
                let dependencies = dependencies_of(alloc, *byte)?;
                Ok(Outcome::Accepted(export_with(alloc, name, dependencies)))
            }
        }
    }
}
