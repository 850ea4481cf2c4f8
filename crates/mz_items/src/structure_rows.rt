//! What structures grant, under their loci.
ghost use Rattle.std.specs.Prelude.{◌≡◌, ◌++◌, ◌∷◌, [], IfOk, OnOk, map, reverse};
ghost use Rattle.mz_logic.specs.Term.{Bound};
ghost use Rattle.mz_core.specs.Parts.{conjunction};
ghost use Rattle.mz_core.specs.Statement.{And};
ghost use Rattle.mz_core.specs.StatementForms.{implication};
ghost use Rattle.mz_core.specs.TypeStatements.{is_of_type_inside};
ghost use Rattle.mz_items.specs.StructureRows.{structure_atom, strict_atom, aggregate, selected, field_values, selected_values, given_values, field_fits, for_object, grant_of_ancestors, grant_of_fields, fit_each, select_each, for_objects, fitting, aggregate_has, grant_of_aggregate, grant_of_strict, structure_grants};

use crate::loci::{count_of, inward, variables};
use mz_core::guard::with_last;
use mz_core::hidden::object_type;
use mz_core::parts::conjunction;
use mz_core::soft_types::SoftTypes;
use mz_core::statement::{Statement, StatementNode};
use mz_core::statement_forms::implication;
use mz_core::statements::Statements;
use mz_core::structure::{Field, Fields, Structure};
use mz_core::type_statements::{is_of_type, is_of_type_inside};
use mz_core::type_substitution::substitute_type;
use mz_logic::beyond::Beyond;
use mz_logic::term::{Term, Terms};
use std::alloc::{AllocError, Global};

fn structure_atom(alloc: Global, by: u32, s: &Structure, t: &Term) -> Result<Statement, AllocError>
    ensures { IfOk result (λ f. f ≡ structure_atom by s.now t.now) }
{
    let loci = variables(alloc, by, s.loci.items.len())?;
    let args = with_last(alloc, &loci, t)?;
    Ok(Statement::atom(s.sym, args))
}

fn strict_atom(alloc: Global, by: u32, s: &Structure, t: &Term) -> Result<Statement, AllocError>
    ensures { IfOk result (λ f. f ≡ strict_atom by s.now t.now) }
{
    let loci = variables(alloc, by, s.loci.items.len())?;
    let args = with_last(alloc, &loci, t)?;
    Ok(Statement::atom(s.strict, args))
}

fn followed(alloc: Global, ts: Terms, us: &Terms) -> Result<Terms, AllocError>
    ensures { IfOk result (λ vs. vs ≡ ts ++ us.now) }
{
    let mut out = ts;
    for u in &us.items {
        out.push(u.copy(alloc)?)?;
    }
    Ok(out)
}

/// The aggregate of these values for the fields, under `by` more binders than the loci.
///
/// # Errors
/// `AllocError` for want of memory, or where an index is past 4,294,967,295.
pub fn aggregate(alloc: Global, by: u32, s: &Structure, ts: &Terms) -> Result<Term, AllocError>
    ensures { IfOk result (λ t. t ≡ aggregate by s.now ts.now) }
{
    let loci = variables(alloc, by, s.loci.items.len())?;
    let args = followed(alloc, loci, ts)?;
    Ok(Term::apply(s.aggregate, args))
}

/// The field of the object.
///
/// # Errors
/// `AllocError` for want of memory.
pub fn selected(alloc: Global, t: &Term, f: &Field) -> Result<Term, AllocError>
    ensures { IfOk result (λ u. u ≡ selected t.now f.now) }
{
    let mut args = Terms::new(alloc);
    args.push(t.copy(alloc)?)?;
    Ok(Term::apply(f.selector, args))
}

/// Each field of the object, in their order.
///
/// # Errors
/// `AllocError` for want of memory.
pub fn each_selected(alloc: Global, t: &Term, xs: &Fields) -> Result<Terms, AllocError>
    ensures { IfOk result (λ ys. ys ≡ map (selected t.now) xs.now) }
{
    let mut out = Vec::new(alloc);
    for x in &xs.items {
        out.push(selected(alloc, t, x)?)?;
    }
    Ok(Terms { items: out })
}

fn field_values(alloc: Global, ts: Terms, y: &Term, loci: &Terms) -> Result<Terms, AllocError>
    ensures { IfOk result (λ vs. vs ≡ field_values ts y.now loci.now) }
{
    let mut out = ts;
    out.push(y.copy(alloc)?)?;
    followed(alloc, out, loci)
}

/// Values for the indices of a field's type: each field of the object, the object, which is the innermost
/// variable, and the loci.
///
/// # Errors
/// `AllocError` for want of memory, or where an index is past 4,294,967,295.
pub fn selected_values(alloc: Global, s: &Structure) -> Result<Terms, AllocError>
    ensures { IfOk result (λ vs. vs ≡ selected_values s.now) }
{
    let y = Term::bound(0);
    let mut ts = each_selected(alloc, &y, &s.fields)?;
    ts.items.reverse();
    let loci = inward(alloc, 1, s.loci.items.len())?;
    field_values(alloc, ts, &y, &loci)
}

/// Values for the indices of a field's type: the `count` innermost variables, the object, and the loci.
///
/// # Errors
/// `AllocError` for want of memory, or where an index is past 4,294,967,295.
pub fn given_values(alloc: Global, s: &Structure, count: u32, a: &Term) -> Result<Terms, AllocError>
    ensures { IfOk result (λ vs. vs ≡ given_values s.now count a.now) }
{
    let zs = inward(alloc, 0, count as usize)?;
    let loci = inward(alloc, count, s.loci.items.len())?;
    field_values(alloc, zs, a, &loci)
}

fn field_fits(alloc: Global, values: &Terms, f: &Field) -> Result<Statement, AllocError>
    ensures { IfOk result (λ g. g ≡ field_fits values.now f.now) }
{
    let ty = substitute_type(alloc, &f.ty, 0, values, Beyond::Lowered)?;
    let t = selected(alloc, &Term::bound(0), f)?;
    is_of_type(alloc, &ty, &t)
}

fn each_field_fits(alloc: Global, values: &Terms, xs: &Fields) -> Result<Statements, AllocError>
    ensures { IfOk result (λ ys. ys ≡ map (field_fits values.now) xs.now) }
{
    let mut out = Vec::new(alloc);
    for x in &xs.items {
        out.push(field_fits(alloc, values, x)?)?;
    }
    Ok(Statements { items: out })
}

fn for_object(alloc: Global, f: Statement) -> Result<Statement, AllocError>
    ensures { IfOk result (λ g. g ≡ for_object f) }
{
    Statement::each(alloc, object_type(alloc), f)
}

fn each_ancestor(alloc: Global, xs: &SoftTypes) -> Result<Statements, AllocError>
    ensures { IfOk result (λ ys. ys ≡ map is_of_type_inside xs.now) }
{
    let mut out = Vec::new(alloc);
    for x in &xs.items {
        out.push(is_of_type_inside(alloc, x)?)?;
    }
    Ok(Statements { items: out })
}

fn each_has(alloc: Global, s: &Structure, fs: &Statements) -> Result<Statement, AllocError>
    ensures { IfOk result (λ f. f ≡ for_object (implication (structure_atom 1 s.now (Bound 0)) (conjunction fs.now))) }
{
    let f = structure_atom(alloc, 1, s, &Term::bound(0))?;
    let f = Box::new(alloc, f)?;
    let g = conjunction(alloc, fs)?;
    let f = implication(alloc, Box::into_inner(f), g)?;
    for_object(alloc, f)
}

/// An object of the structure is of each ancestor.
pub fn grant_of_ancestors(alloc: Global, s: &Structure) -> Result<Statement, AllocError>
    ensures { IfOk result (λ f. f ≡ grant_of_ancestors s.now) }
{
    let fs = each_ancestor(alloc, &s.ancestors)?;
    each_has(alloc, s, &fs)
}

/// Each field of an object of the structure is of its type.
pub fn grant_of_fields(alloc: Global, s: &Structure) -> Result<Statement, AllocError>
    ensures { IfOk result (λ f. f ≡ grant_of_fields s.now) }
{
    let values = selected_values(alloc, s)?;
    let fs = each_field_fits(alloc, &values, &s.fields)?;
    each_has(alloc, s, &fs)
}

fn push_fits(
    alloc: Global,
    out: &mut Statements,
    values: &Terms,
    fs: &[Field],
    zs: &[Term],
) -> Result<(), AllocError>
    ensures { OnOk result (out.new ≡ out.old ++ fit_each values.now fs.now zs.now) }
{
    match fs {
        [] => Ok(()),
        [f, fs @ ..] => match zs {
            [] => Ok(()),
            [z, zs @ ..] => {
                let ty = substitute_type(alloc, &f.ty, 0, values, Beyond::Lowered)?;
                out.push(is_of_type(alloc, &ty, z)?)?;
                push_fits(alloc, out, values, fs, zs)
            }
        },
    }
}

fn push_selections(
    alloc: Global,
    out: &mut Statements,
    a: &Term,
    fs: &[Field],
    zs: &[Term],
) -> Result<(), AllocError>
    ensures { OnOk result (out.new ≡ out.old ++ select_each a.now fs.now zs.now) }
{
    match fs {
        [] => Ok(()),
        [f, fs @ ..] => match zs {
            [] => Ok(()),
            [z, zs @ ..] => {
                let t = selected(alloc, a, f)?;
                let z = z.copy(alloc)?;
                out.push(Statement::equation(t, z))?;
                push_selections(alloc, out, a, fs, zs)
            }
        },
    }
}

fn fitting(
    alloc: Global,
    s: &Structure,
    count: u32,
    zs: &Terms,
    a: &Term,
) -> Result<Statement, AllocError>
    ensures { IfOk result (λ f. f ≡ fitting s.now count zs.now a.now) }
{
    let values = given_values(alloc, s, count, a)?;
    let mut fs = Statements::new(alloc);
    push_fits(
        alloc,
        &mut fs,
        &values,
        s.fields.items.as_slice(),
        zs.items.as_slice(),
    )?;
    conjunction(alloc, &fs)
}

fn aggregate_has(
    alloc: Global,
    s: &Structure,
    count: u32,
    zs: &Terms,
    a: &Term,
) -> Result<Statement, AllocError>
    ensures { IfOk result (λ f. f ≡ aggregate_has s.now count zs.now a.now) }
{
    let mut fs = Statements::new(alloc);
    fs.push(structure_atom(alloc, count, s, a)?)?;
    fs.push(strict_atom(alloc, count, s, a)?)?;
    push_selections(
        alloc,
        &mut fs,
        a,
        s.fields.items.as_slice(),
        zs.items.as_slice(),
    )?;
    conjunction(alloc, &fs)
}

fn for_objects(alloc: Global, count: u32, f: Statement) -> Result<Statement, AllocError>
    ensures { IfOk result (λ g. g ≡ for_objects count f) }
{
    let mut out = f;
    for k in 0..count {
        out = for_object(alloc, out)?;
    }
    Ok(out)
}

/// Objects of the fields' types make an object of the structure, which is strict and has these fields.
/// More than 4,294,967,295 fields are as no memory.
pub fn grant_of_aggregate(alloc: Global, s: &Structure) -> Result<Statement, AllocError>
    ensures { IfOk result (λ f. f ≡ grant_of_aggregate s.now) }
{
    let count = count_of(s.fields.items.len())?;
    let zs = variables(alloc, 0, s.fields.items.len())?;
    let a = Box::new(alloc, aggregate(alloc, count, s, &zs)?)?;
    let f = Box::new(alloc, fitting(alloc, s, count, &zs, &a)?)?;
    let g = aggregate_has(alloc, s, count, &zs, &a)?;
    let f = implication(alloc, Box::into_inner(f), g)?;
    for_objects(alloc, count, f)
}

fn strict_object(alloc: Global, s: &Structure) -> Result<Statement, AllocError>
    ensures { IfOk result (λ f. f ≡ And (structure_atom 1 s.now (Bound 0)) (strict_atom 1 s.now (Bound 0))) }
{
    let f = structure_atom(alloc, 1, s, &Term::bound(0))?;
    let f = Box::new(alloc, f)?;
    let g = strict_atom(alloc, 1, s, &Term::bound(0))?;
    let g = Box::new(alloc, g)?;
    Ok(Statement {
        node: StatementNode::And(f, g),
    })
}

/// The aggregate of the fields of the innermost variable, the only one.
///
/// # Errors
/// Those of [`aggregate`].
pub fn aggregate_of_selected(alloc: Global, s: &Structure) -> Result<Term, AllocError>
    ensures { IfOk result (λ t. t ≡ aggregate 1 s.now (map (selected (Bound 0)) s.now.fields)) }
{
    let ts = each_selected(alloc, &Term::bound(0), &s.fields)?;
    aggregate(alloc, 1, s, &ts)
}

/// A strict object of the structure is made of its fields.
pub fn grant_of_strict(alloc: Global, s: &Structure) -> Result<Statement, AllocError>
    ensures { IfOk result (λ f. f ≡ grant_of_strict s.now) }
{
    let f = Box::new(alloc, strict_object(alloc, s)?)?;
    let a = aggregate_of_selected(alloc, s)?;
    let g = Statement::equation(Term::bound(0), a);
    let f = implication(alloc, Box::into_inner(f), g)?;
    for_object(alloc, f)
}

/// The four grants.
pub fn structure_grants(alloc: Global, s: &Structure) -> Result<Statements, AllocError>
    ensures { IfOk result (λ ss. ss ≡ structure_grants s.now) }
{
    let mut out = Statements::new(alloc);
    out.push(grant_of_ancestors(alloc, s)?)?;
    out.push(grant_of_fields(alloc, s)?)?;
    out.push(grant_of_aggregate(alloc, s)?)?;
    out.push(grant_of_strict(alloc, s)?)?;
    Ok(out)
}
