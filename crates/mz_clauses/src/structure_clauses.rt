//! Clauses of structures.
ghost use Rattle.std.specs.Prelude.{◌≡◌, ◌++◌, ◌∷◌, [], IfOk, OnOk, flat_map, length, true};
ghost use Rattle.mz_logic.specs.Term.{Bound};
ghost use Rattle.mz_logic.specs.declared.literal.Literal.TheVariants.{Eq};
ghost use Rattle.mz_items.specs.StructureRows.{selected, selected_values, given_values};
ghost use Rattle.mz_clauses.specs.Guards.{guard_at_object};
ghost use Rattle.mz_clauses.specs.StructureClauses.{structure_arguments, structure_literal, strict_literal, field_guard, structure_parts, part_groups, given_guards, selection_equations, made_groups, aggregate_groups, strict_groups};

use crate::clause_groups::ClauseGroups;
use crate::groups::{one_group, one_literal};
use crate::guards::{guard_at_object, loci_guards, push_all, variable_count};
use mz_core::guard::{guard_literals, with_last};
use mz_core::soft_types::SoftTypes;
use mz_core::structure::{Field, Fields, Structure};
use mz_core::type_substitution::substitute_type;
use mz_ground::trigger::Trigger;
use mz_items::loci::{count_of, variables};
use mz_items::structure_rows::{
    aggregate, aggregate_of_selected, given_values, selected, selected_values,
};
use mz_logic::beyond::Beyond;
use mz_logic::literal::Literal;
use mz_logic::literals::Literals;
use mz_logic::term::{Term, Terms};
use std::alloc::{AllocError, Global};

fn structure_arguments(alloc: Global, by: u32, s: &Structure, t: &Term) -> Result<Terms, AllocError>
    ensures { IfOk result (λ ts. ts ≡ structure_arguments by s.now t.now) }
{
    let loci = variables(alloc, by, s.loci.items.len())?;
    with_last(alloc, &loci, t)
}

fn structure_literal(alloc: Global, by: u32, s: &Structure, t: &Term) -> Result<Literal, AllocError>
    ensures { IfOk result (λ l. l ≡ structure_literal by s.now t.now) }
{
    let args = structure_arguments(alloc, by, s, t)?;
    Ok(Literal::Atom {
        positive: true,
        sym: s.sym,
        args,
    })
}

fn strict_literal(alloc: Global, by: u32, s: &Structure, t: &Term) -> Result<Literal, AllocError>
    ensures { IfOk result (λ l. l ≡ strict_literal by s.now t.now) }
{
    let args = structure_arguments(alloc, by, s, t)?;
    Ok(Literal::Atom {
        positive: true,
        sym: s.strict,
        args,
    })
}

fn field_guard(alloc: Global, values: &Terms, f: &Field) -> Result<Literals, AllocError>
    ensures { IfOk result (λ ls. ls ≡ field_guard values.now f.now) }
{
    let ty = substitute_type(alloc, &f.ty, 0, values, Beyond::Lowered)?;
    let t = selected(alloc, &Term::bound(0), f)?;
    guard_literals(alloc, &ty, &t)
}

fn ancestor_guards(alloc: Global, xs: &SoftTypes) -> Result<Literals, AllocError>
    ensures { IfOk result (λ ls. ls ≡ flat_map guard_at_object xs.now) }
{
    let mut out = Literals::new(alloc);
    for x in &xs.items {
        push_all(&mut out, guard_at_object(alloc, x)?)?;
    }
    Ok(out)
}

fn field_guards(alloc: Global, values: &Terms, xs: &Fields) -> Result<Literals, AllocError>
    ensures { IfOk result (λ ls. ls ≡ flat_map (field_guard values.now) xs.now) }
{
    let mut out = Literals::new(alloc);
    for x in &xs.items {
        push_all(&mut out, field_guard(alloc, values, x)?)?;
    }
    Ok(out)
}

fn structure_parts(alloc: Global, s: &Structure) -> Result<Literals, AllocError>
    ensures { IfOk result (λ ls. ls ≡ structure_parts s.now) }
{
    let mut out = ancestor_guards(alloc, &s.ancestors)?;
    let values = selected_values(alloc, s)?;
    push_all(&mut out, field_guards(alloc, &values, &s.fields)?)?;
    Ok(out)
}

/// Where the guards of the loci hold, an object of the structure is of each ancestor, and each of its fields is
/// of the field's type.
pub fn part_groups(alloc: Global, s: &Structure) -> Result<ClauseGroups, AllocError>
    ensures { IfOk result (λ gs. gs ≡ part_groups s.now) }
{
    let y = Term::bound(0);
    let variables = variable_count(&s.loci, 1)?;
    let trigger = Trigger::Atom(s.sym, structure_arguments(alloc, 1, s, &y)?);
    let mut premises = loci_guards(alloc, &s.loci, 1)?;
    premises.push(structure_literal(alloc, 1, s, &y)?)?;
    let conclusions = structure_parts(alloc, s)?;
    one_group(alloc, variables, trigger, premises, conclusions)
}

#[tactic(auto, using(crate::proofs::StructureLemmas::given_rules))]
fn given_guards_of(
    alloc: Global,
    values: &Terms,
    fs: &Fields,
    zs: &Terms,
) -> Result<Literals, AllocError>
    ensures { IfOk result (λ ls. ls ≡ given_guards values.now fs.now zs.now) }
{
    let mut out = Literals::new(alloc);
    for i in 0..fs.items.len() {
        if i >= zs.items.len() {
            return Ok(out);
        }
        let ty = substitute_type(alloc, &fs.items[i].ty, 0, values, Beyond::Lowered)?;
        push_all(&mut out, guard_literals(alloc, &ty, &zs.items[i])?)?;
    }
    Ok(out)
}

fn selection_equation(alloc: Global, a: &Term, f: &Field, z: &Term) -> Result<Literal, AllocError>
    ensures { IfOk result (λ l. l ≡ Eq true (selected a.now f.now) z.now) }
{
    let left = selected(alloc, a, f)?;
    let right = z.copy(alloc)?;
    Ok(Literal::Eq {
        positive: true,
        left,
        right,
    })
}

#[tactic(auto, using(crate::proofs::StructureLemmas::selection_rules))]
fn push_selection_equations(
    alloc: Global,
    out: &mut Literals,
    a: &Term,
    fs: &Fields,
    zs: &Terms,
) -> Result<(), AllocError>
    ensures { OnOk result (out.new ≡ out.old ++ selection_equations a.now fs.now zs.now) }
{
    for i in 0..fs.items.len() {
        if i >= zs.items.len() {
            return Ok(());
        }
        out.push(selection_equation(alloc, a, &fs.items[i], &zs.items[i])?)?;
    }
    Ok(())
}

fn given_guards(
    alloc: Global,
    s: &Structure,
    count: u32,
    zs: &Terms,
    a: &Term,
) -> Result<Literals, AllocError>
    ensures { IfOk result (λ ls. ls ≡ given_guards (given_values s.now count a.now) s.now.fields zs.now) }
{
    let values = given_values(alloc, s, count, a)?;
    given_guards_of(alloc, &values, &s.fields, zs)
}

fn made_conclusions(
    alloc: Global,
    s: &Structure,
    count: u32,
    zs: &Terms,
    a: &Term,
) -> Result<Literals, AllocError>
    ensures { IfOk result (λ ls. ls ≡ structure_literal count s.now a.now ∷ strict_literal count s.now a.now ∷ selection_equations a.now s.now.fields zs.now) }
{
    let mut out = one_literal(alloc, structure_literal(alloc, count, s, a)?)?;
    out.push(strict_literal(alloc, count, s, a)?)?;
    push_selection_equations(alloc, &mut out, a, &s.fields, zs)?;
    Ok(out)
}

fn made_groups(
    alloc: Global,
    s: &Structure,
    count: u32,
    zs: &Terms,
    a: &Term,
) -> Result<ClauseGroups, AllocError>
    ensures { IfOk result (λ gs. gs ≡ made_groups s.now count zs.now a.now) }
{
    let variables = variable_count(&s.loci, count)?;
    let trigger = Trigger::Term(a.copy(alloc)?);
    let mut premises = loci_guards(alloc, &s.loci, count)?;
    push_all(&mut premises, given_guards(alloc, s, count, zs, a)?)?;
    let conclusions = made_conclusions(alloc, s, count, zs, a)?;
    one_group(alloc, variables, trigger, premises, conclusions)
}

/// Where the guards of the loci hold and each of as many objects as there are fields is of its field's type,
/// the aggregate of these is a strict object of the structure, which has them as its fields.
pub fn aggregate_groups(alloc: Global, s: &Structure) -> Result<ClauseGroups, AllocError>
    ensures { IfOk result (λ gs. gs ≡ aggregate_groups s.now) }
{
    let count = count_of(s.fields.items.len())?;
    let zs = variables(alloc, 0, s.fields.items.len())?;
    let a = aggregate(alloc, count, s, &zs)?;
    made_groups(alloc, s, count, &zs, &a)
}

/// Where the guards of the loci hold, a strict object of the structure is the aggregate of its fields.
pub fn strict_groups(alloc: Global, s: &Structure) -> Result<ClauseGroups, AllocError>
    ensures { IfOk result (λ gs. gs ≡ strict_groups s.now) }
{
    let y = Term::bound(0);
    let variables = variable_count(&s.loci, 1)?;
    let trigger = Trigger::Atom(s.strict, structure_arguments(alloc, 1, s, &y)?);
    let mut premises = loci_guards(alloc, &s.loci, 1)?;
    premises.push(structure_literal(alloc, 1, s, &y)?)?;
    premises.push(strict_literal(alloc, 1, s, &y)?)?;
    let right = aggregate_of_selected(alloc, s)?;
    let conclusions = one_literal(
        alloc,
        Literal::Eq {
            positive: true,
            left: y,
            right,
        },
    )?;
    one_group(alloc, variables, trigger, premises, conclusions)
}
