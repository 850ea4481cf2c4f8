//! What an item gives to an environment.
ghost use Rattle.std.specs.Prelude.{◌≡◌, ◌++◌, IfOk, OnOk};
ghost use Rattle.mz_items.specs.Exports.{notations_of};
ghost use Rattle.mz_environment.specs.Rows.{functor_rows, mode_rows};
ghost use Rattle.mz_environment.specs.Unfoldings.{unfoldings_of};
ghost use Rattle.mz_environment.specs.Cited.{statements_cited, schemes_cited};
ghost use Rattle.mz_clauses.specs.Clauses.{typing_clauses, further_clauses, equality_clauses};
ghost use Rattle.mz_environment.specs.Environment.{structures_of, sethoods_of, existentials_of, of_item, joined};

use crate::cited::{CitedSchemes, CitedStatements, schemes_cited, statements_cited};
use crate::environment::Environment;
use crate::existentials::Existentials;
use crate::join::{push_clauses, push_syms};
use crate::notation_table::{NotationTable, notation_table};
use crate::numbering::Numbering;
use crate::rows::Rows;
use crate::rows_of::{functor_rows, mode_rows};
use crate::structures::Structures;
use crate::syms::Syms;
use crate::unfoldings::Unfoldings;
use crate::unfoldings_of::unfoldings_of;
use mz_clauses::clauses_of::{equality_clauses, further_clauses, typing_clauses};
use mz_copies::registrations::existential_copy;
use mz_copies::structures::structure_copy;
use mz_core::item::Item;
use mz_core::property::PropertyForm;
use mz_ground::clauses::Clauses;
use mz_items::notations_of::notations_of;
use std::alloc::{AllocError, Global};

/// The structure that an item defines.
pub fn structures_of(alloc: Global, item: &Item) -> Result<Structures, AllocError>
    ensures { IfOk result (λ xs. xs ≡ structures_of item.now) }
{
    let mut out = Structures::new(alloc);
    match item {
        Item::Structure(s) => {
            out.push(structure_copy(alloc, s)?)?;
            Ok(out)
        }
        _ => Ok(out),
    }
}

/// The mode all of whose objects an item says to be in one set.
pub fn sethoods_of(alloc: Global, item: &Item) -> Result<Syms, AllocError>
    ensures { IfOk result (λ xs. xs ≡ sethoods_of item.now) }
{
    let mut out = Syms::new(alloc);
    match item {
        Item::Property(p) => match &p.form {
            PropertyForm::Sethood(s) => {
                out.push(*s)?;
                Ok(out)
            }
            _ => Ok(out),
        },
        _ => Ok(out),
    }
}

/// The existential registration that an item states.
pub fn existentials_of(alloc: Global, item: &Item) -> Result<Existentials, AllocError>
    ensures { IfOk result (λ xs. xs ≡ existentials_of item.now) }
{
    let mut out = Existentials::new(alloc);
    match item {
        Item::Existential(r) => {
            out.push(existential_copy(alloc, r)?)?;
            Ok(out)
        }
        _ => Ok(out),
    }
}

/// Puts the types of functors' applications that an item gives at the end.
fn put_functors(alloc: Global, out: &mut Rows, item: &Item) -> Result<(), AllocError>
    ensures { OnOk result (out.new ≡ out.old ++ functor_rows item.now) }
{
    let more = functor_rows(alloc, item)?;
    out.append(&more)
}

/// Puts the parents of modes that an item gives at the end.
fn put_modes(alloc: Global, out: &mut Rows, item: &Item) -> Result<(), AllocError>
    ensures { OnOk result (out.new ≡ out.old ++ mode_rows item.now) }
{
    let more = mode_rows(alloc, item)?;
    out.append(&more)
}

/// Puts the structure that an item gives at the end.
fn put_structures(alloc: Global, out: &mut Structures, item: &Item) -> Result<(), AllocError>
    ensures { OnOk result (out.new ≡ out.old ++ structures_of item.now) }
{
    let more = structures_of(alloc, item)?;
    out.append(&more)
}

/// Puts the unfolding that an item gives at the end.
fn put_unfoldings(alloc: Global, out: &mut Unfoldings, item: &Item) -> Result<(), AllocError>
    ensures { OnOk result (out.new ≡ out.old ++ unfoldings_of item.now) }
{
    let more = unfoldings_of(alloc, item)?;
    out.append(&more)
}

/// Puts the existential registration that an item gives at the end.
fn put_registrations(alloc: Global, out: &mut Existentials, item: &Item) -> Result<(), AllocError>
    ensures { OnOk result (out.new ≡ out.old ++ existentials_of item.now) }
{
    let more = existentials_of(alloc, item)?;
    out.append(&more)
}

/// Puts the mode with `sethood` that an item gives at the end.
fn put_sethoods(alloc: Global, out: &mut Syms, item: &Item) -> Result<(), AllocError>
    ensures { OnOk result (out.new ≡ out.old ++ sethoods_of item.now) }
{
    let more = sethoods_of(alloc, item)?;
    push_syms(out, &more)
}

/// Puts the notations of an item at the end.
fn put_notations(alloc: Global, out: &mut NotationTable, item: &Item) -> Result<(), AllocError>
    ensures { OnOk result (out.new ≡ out.old ++ notations_of item.now) }
{
    let more = notation_table(alloc, notations_of(alloc, item)?)?;
    out.append(&more)
}

/// Puts the typing clauses of an item at the end.
fn put_typing(alloc: Global, out: &mut Clauses, item: &Item) -> Result<(), AllocError>
    ensures { OnOk result (out.new ≡ out.old ++ typing_clauses item.now) }
{
    let more = typing_clauses(alloc, item)?;
    push_clauses(alloc, out, &more)
}

/// Puts the clauses of an item that `by` uses besides at the end.
fn put_further(alloc: Global, out: &mut Clauses, item: &Item) -> Result<(), AllocError>
    ensures { OnOk result (out.new ≡ out.old ++ further_clauses item.now) }
{
    let more = further_clauses(alloc, item)?;
    push_clauses(alloc, out, &more)
}

/// Puts the equality clauses of an item at the end.
fn put_equalities(alloc: Global, out: &mut Clauses, item: &Item) -> Result<(), AllocError>
    ensures { OnOk result (out.new ≡ out.old ++ equality_clauses item.now) }
{
    let more = equality_clauses(alloc, item)?;
    push_clauses(alloc, out, &more)
}

/// Puts the statements by which an item may be cited at the end.
fn put_statements(
    alloc: Global,
    out: &mut CitedStatements,
    at: Numbering,
    item: &Item,
) -> Result<(), AllocError>
    ensures { OnOk result (out.new ≡ out.old ++ statements_cited at item.now) }
{
    let more = statements_cited(alloc, at, item)?;
    out.append(&more)
}

/// Puts the scheme of an item at the end.
fn put_schemes(
    alloc: Global,
    out: &mut CitedSchemes,
    at: Numbering,
    item: &Item,
) -> Result<(), AllocError>
    ensures { OnOk result (out.new ≡ out.old ++ schemes_cited at item.now) }
{
    let more = schemes_cited(alloc, at, item)?;
    out.append(&more)
}

/// Puts all that an item gives, where it stands so in its article, behind what is there.
pub fn put_item(
    alloc: Global,
    out: &mut Environment,
    at: Numbering,
    item: &Item,
) -> Result<(), AllocError>
    ensures { OnOk result (out.new ≡ joined out.old (of_item at item.now)) }
{
    put_functors(alloc, &mut out.functors, item)?;
    put_modes(alloc, &mut out.modes, item)?;
    put_structures(alloc, &mut out.structures, item)?;
    put_sethoods(alloc, &mut out.sethoods, item)?;
    put_notations(alloc, &mut out.notations, item)?;
    put_typing(alloc, &mut out.typing, item)?;
    put_further(alloc, &mut out.further, item)?;
    put_equalities(alloc, &mut out.equalities, item)?;
    put_unfoldings(alloc, &mut out.steps, item)?;
    put_unfoldings(alloc, &mut out.expansions, item)?;
    put_registrations(alloc, &mut out.registrations, item)?;
    put_statements(alloc, &mut out.theorems, at, item)?;
    put_schemes(alloc, &mut out.schemes, at, item)
}
