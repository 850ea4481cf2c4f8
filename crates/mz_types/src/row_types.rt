//! The radices that rows give to a symbol at arguments.
ghost use Rattle.std.specs.Prelude.{◌≡◌, length, map, reverse, IfOk};
ghost use Rattle.std.specs.Arc.{arc_value};
ghost use Rattle.mz_types.specs.RowTypes.{radix_at, RowGives, RowAdds, RowsAdd};

use crate::radices::Radixes;
use mz_context::constants::Constants;
use mz_core::radix::Radix;
use mz_core::soft_type::SoftType;
use mz_environment::rows::{Row, Rows};
use mz_fits::fits::type_at;
use mz_fits::fixed::Fixed;
use mz_fits::matches::{accepted, all_match};
use mz_ground::clause::Clause;
use mz_logic::sym::Sym;
use mz_logic::term::{Term, Terms};
use std::alloc::{AllocError, Global};
use std::sync::Arc;

/// Terms in the other order.
pub fn reversed(ts: Terms) -> Terms
    ensures { result ≡ reverse ts }
{
    let mut out = ts;
    out.items.reverse();
    out
}

/// The radix of a type under loci, at values in the order of the loci.
#[tactic(auto, unfolding(crate::specs::RowTypes::radix_at))]
pub fn radix_at(alloc: Global, values: Terms, ty: &SoftType) -> Result<Radix, AllocError>
    ensures { IfOk result (λ r. r ≡ radix_at values ty.now) }
{
    let inside = reversed(values);
    let at = type_at(alloc, &inside, ty)?;
    Ok(at.radix)
}

fn loci_count(row: &Row) -> usize
    ensures { result ≡ length row.now.loci }
{
    row.loci.items.len()
}

fn formals_of(row: &Row) -> &[Term]
    ensures { result.now ≡ row.now.args }
{
    row.args.items.as_slice()
}

/// The radix of the row's type, where the arguments match and the guards of the loci fit.
#[tactic(auto, using(crate::proofs::RowLemmas::gives_rules))]
fn row_gives(
    alloc: Global,
    clauses: &[Clause],
    constants: &Constants,
    args: &[Term],
    row: &Row,
) -> Result<Option<Radix>, AllocError>
    ensures { IfOk result (λ o. RowGives clauses.now constants.now args.now row.now o) }
{
    let count = loci_count(row);
    let none = Fixed::none(alloc, count)?;
    let formals = formals_of(row);
    match all_match(alloc, clauses, constants, count, none, formals, args)? {
        None => Ok(None),
        Some(fixed) => match accepted(alloc, clauses, constants, &row.loci, &fixed)? {
            None => Ok(None),
            Some(values) => {
                let r = radix_at(alloc, values, &row.ty)?;
                Ok(Some(r))
            }
        },
    }
}

/// What a row gives to the symbol at the arguments.
#[tactic(auto, using(crate::proofs::RowLemmas::adds_rules))]
fn row_adds(
    alloc: Global,
    clauses: &[Clause],
    constants: &Constants,
    s: Sym,
    args: &[Term],
    row: &Row,
) -> Result<Radixes, AllocError>
    ensures { IfOk result (λ xs. RowAdds clauses.now constants.now s args.now row.now xs) }
{
    let mut out = Radixes::new(alloc);
    if !row.sym.is(s) {
        return Ok(out);
    }
    match row_gives(alloc, clauses, constants, args, row)? {
        None => Ok(out),
        Some(r) => {
            out.push(r)?;
            Ok(out)
        }
    }
}

/// What rows give to the symbol at the arguments, in the order of the rows.
fn rows_add(
    alloc: Global,
    clauses: &[Clause],
    constants: &Constants,
    s: Sym,
    args: &[Term],
    rows: &[Arc<Row>],
) -> Result<Radixes, AllocError>
    ensures { IfOk result (λ xs. RowsAdd clauses.now constants.now s args.now (map arc_value rows.now) xs) }
{
    let mut out = Radixes::new(alloc);
    for row in rows {
        let xs = row_adds(alloc, clauses, constants, s, args, row)?;
        out.append(xs)?;
    }
    Ok(out)
}

/// What those of the rows give that are of the symbol: the others give nothing.
#[tactic(auto, using(crate::proofs::RowLemmas::told_own))]
pub fn rows_give(
    alloc: Global,
    clauses: &[Clause],
    constants: &Constants,
    s: Sym,
    args: &[Term],
    rows: &Rows,
) -> Result<Radixes, AllocError>
    ensures { IfOk result (λ xs. RowsAdd clauses.now constants.now s args.now rows.now xs) }
{
    let own = rows.of(s);
    let xs = rows_add(alloc, clauses, constants, s, args, own)?;
    Ok(xs)
}
