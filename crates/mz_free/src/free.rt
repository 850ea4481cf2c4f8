//! The free reserved variables of a sentence.
ghost use Rattle.std.specs.Prelude.{◌≡◌, ◌++◌, [], IfOk, OnOk};
ghost use Rattle.std.specs.List.{filter};
ghost use Rattle.mz_names.specs.Names.{is_only_reserved, reserved_type};
ghost use Rattle.mz_tree.specs.Views.{formula_of};
ghost use Rattle.mz_free.specs.Free.{once_behind, free_names, if_typed, as_reserved, free_variables};

use crate::name_list::NameList;
use crate::occurrences::put_formula;
use mz_base::text::Text;
use mz_context::context::Context;
use mz_names::names::{is_only_reserved, reserved_type};
use mz_names::variable::{Variable, Variables};
use mz_tree::nodes::FormulaNode;
use std::alloc::{AllocError, Global};

fn only_reserved(
    alloc: Global,
    least: u32,
    ctx: &Context,
    names: &NameList,
) -> Result<NameList, AllocError>
    ensures { IfOk result (λ xs. xs ≡ filter (is_only_reserved least ctx.now) names.now) }
{
    let mut out = NameList::new(alloc);
    for x in &names.items {
        if is_only_reserved(least, ctx, x.as_slice()) {
            out.push(x.copy(alloc)?)?;
        }
    }
    Ok(out)
}

/// Each name once, where it stands first.
fn once(alloc: Global, names: &NameList) -> Result<NameList, AllocError>
    ensures { IfOk result (λ xs. xs ≡ once_behind [] names.now) }
{
    let mut out = NameList::new(alloc);
    for x in &names.items {
        out.push_new(alloc, x)?;
    }
    Ok(out)
}

/// The names that are read to reserved variables, in the order of their first occurrence.
fn free_names(
    alloc: Global,
    least: u32,
    ctx: &Context,
    f: &FormulaNode,
) -> Result<NameList, AllocError>
    ensures { IfOk result (λ xs. xs ≡ free_names least ctx.now (formula_of f.now)) }
{
    let mut all = NameList::new(alloc);
    put_formula(alloc, f, &mut all)?;
    let reserved = only_reserved(alloc, least, ctx, &all)?;
    let names = once(alloc, &reserved)?;
    Ok(names)
}

fn as_reserved(
    alloc: Global,
    least: u32,
    ctx: &Context,
    names: &NameList,
) -> Result<Variables, AllocError>
    ensures { IfOk result (λ vs. vs ≡ as_reserved least ctx.now names.now) }
{
    let mut out = Variables::new(alloc);
    for x in &names.items {
        put_reserved(alloc, least, ctx, x, &mut out)?;
    }
    Ok(out)
}

fn put_reserved(
    alloc: Global,
    least: u32,
    ctx: &Context,
    x: &Text,
    out: &mut Variables,
) -> Result<(), AllocError>
    ensures { OnOk result (out.new ≡ out.old ++ if_typed x.now (reserved_type least ctx.now x.now)) }
{
    match reserved_type(least, ctx, x.as_slice()) {
        Some(ty) => {
            let name = x.copy(alloc)?;
            let ty = ty.copy(alloc)?;
            out.push(Variable { name, ty })
        }
        None => Ok(()),
    }
}

/// The free reserved variables of the sentence with the types with which they were reserved, in the order of their first
/// occurrence. The constants of the types have at least the number.
pub fn free_variables(
    alloc: Global,
    least: u32,
    ctx: &Context,
    f: &FormulaNode,
) -> Result<Variables, AllocError>
    ensures { IfOk result (λ vs. vs ≡ free_variables least ctx.now (formula_of f.now)) }
{
    let names = free_names(alloc, least, ctx, f)?;
    let vs = as_reserved(alloc, least, ctx, &names)?;
    Ok(vs)
}
