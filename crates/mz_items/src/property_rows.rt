//! The statements of properties, under the loci.
ghost use Rattle.std.specs.Prelude.{◌≡◌, IfOk};
ghost use Rattle.mz_logic.specs.Term.{Bound};
ghost use Rattle.mz_core.specs.TypeShift.{shift_type};
ghost use Rattle.mz_items.specs.PropertyRows.{locus_value, locus_values, related, applied, applied_to, locus_type, for_one, for_both, reflexivity, irreflexivity, symmetry, asymmetry, connectedness, commutativity, idempotence, inner_guard, involutiveness, projectivity, property_statement};

use crate::loci::{count_of, mode_on};
use crate::set_term_rows::sethood;
use mz_core::guard::guard_literals;
use mz_core::hidden::object_type;
use mz_core::parts::where_all;
use mz_core::property::{Operation, PropertyForm, Relation, UnaryOperation};
use mz_core::soft_type::SoftType;
use mz_core::soft_types::SoftTypes;
use mz_core::statement::{Statement, StatementNode};
use mz_core::statement_forms::{disjunction, implication, opposite};
use mz_core::statements::Statements;
use mz_core::type_shift::shift_type;
use mz_core::type_statements::{literal_statement, literal_statements};
use mz_core::type_substitution::substitute_literal;
use mz_logic::beyond::Beyond;
use mz_logic::substitution::substitute;
use mz_logic::term::{Term, Terms};
use std::alloc::{AllocError, Global};

/// The indices of two loci and the values that they get.
#[derive(Clone, Copy)]
pub struct Placed<'a> {
    pub left: u32,
    pub t: &'a Term,
    pub right: u32,
    pub u: &'a Term,
}

fn locus_value(alloc: Global, by: u32, v: &Placed, index: u32) -> Result<Term, AllocError>
    ensures { IfOk result (λ t. t ≡ locus_value by v.now.left v.now.t.now v.now.right v.now.u.now index) }
{
    if index == v.left {
        v.t.copy(alloc)
    } else if index == v.right {
        v.u.copy(alloc)
    } else {
        let index = index.checked_add(by).ok_or(AllocError)?;
        Ok(Term::bound(index))
    }
}

/// Values for so many loci: the two that have one, and each other locus itself, under `by` more binders.
///
/// # Errors
/// `AllocError` for want of memory, or where an index is past 4,294,967,295.
pub fn locus_values(alloc: Global, by: u32, v: &Placed, count: u32) -> Result<Terms, AllocError>
    ensures { IfOk result (λ ts. ts ≡ locus_values by v.now.left v.now.t.now v.now.right v.now.u.now count) }
{
    let mut out = Terms::new(alloc);
    for k in 0..count {
        out.push(locus_value(alloc, by, v, k)?)?;
    }
    Ok(out)
}

/// Values for so many loci where the two are variables.
///
/// # Errors
/// Those of [`locus_values`].
pub fn values_at(
    alloc: Global,
    count: u32,
    by: u32,
    left: u32,
    t: u32,
    right: u32,
    u: u32,
) -> Result<Terms, AllocError>
    ensures { IfOk result (λ ts. ts ≡ locus_values by left (Bound t) right (Bound u) count) }
{
    let t = Term::bound(t);
    let u = Term::bound(u);
    let v = Placed {
        left,
        t: &t,
        right,
        u: &u,
    };
    locus_values(alloc, by, &v, count)
}

fn related(
    alloc: Global,
    count: u32,
    by: u32,
    r: &Relation,
    t: u32,
    u: u32,
) -> Result<Statement, AllocError>
    ensures { IfOk result (λ f. f ≡ related count by r.now (Bound t) (Bound u)) }
{
    let values = values_at(alloc, count, by, r.left, t, r.right, u)?;
    let l = substitute_literal(alloc, &r.literal, 0, &values, Beyond::Lowered)?;
    let l = Box::new(alloc, l)?;
    literal_statement(alloc, &l)
}

fn applied(
    alloc: Global,
    count: u32,
    by: u32,
    o: &Operation,
    t: u32,
    u: u32,
) -> Result<Term, AllocError>
    ensures { IfOk result (λ f. f ≡ applied count by o.now (Bound t) (Bound u)) }
{
    let values = values_at(alloc, count, by, o.left, t, o.right, u)?;
    substitute(alloc, &o.term, 0, &values, Beyond::Lowered)
}

fn applied_to(alloc: Global, count: u32, o: &UnaryOperation, t: &Term) -> Result<Term, AllocError>
    ensures { IfOk result (λ f. f ≡ applied_to count o.now t.now) }
{
    let v = Placed {
        left: o.place,
        t,
        right: o.place,
        u: t,
    };
    let values = locus_values(alloc, 1, &v, count)?;
    substitute(alloc, &o.term, 0, &values, Beyond::Lowered)
}

/// The type of the locus with this index, under all loci; `object` where there is none.
///
/// # Errors
/// `AllocError` for want of memory, or where an index is past 4,294,967,295.
#[tactic(auto, using(crate::proofs::LocusLemmas::locus_rules))]
pub fn locus_type(alloc: Global, loci: &SoftTypes, index: u32) -> Result<SoftType, AllocError>
    ensures { IfOk result (λ t. t ≡ locus_type loci.now index) }
{
    let count = loci.items.len();
    let by = index.checked_add(1).ok_or(AllocError)?;
    if (index as usize) < count {
        shift_type(alloc, &loci.items[count - 1 - index as usize], 0, by)
    } else {
        shift_type(alloc, &object_type(alloc), 0, by)
    }
}

fn for_one(
    alloc: Global,
    loci: &SoftTypes,
    place: u32,
    f: Statement,
) -> Result<Statement, AllocError>
    ensures { IfOk result (λ g. g ≡ for_one loci.now place f) }
{
    let f = Box::new(alloc, f)?;
    let ty = locus_type(alloc, loci, place)?;
    Ok(Statement {
        node: StatementNode::For(ty, f),
    })
}

fn inner_locus_type(alloc: Global, loci: &SoftTypes, index: u32) -> Result<SoftType, AllocError>
    ensures { IfOk result (λ t. t ≡ shift_type 0 1 (locus_type loci.now index)) }
{
    let ty = locus_type(alloc, loci, index)?;
    shift_type(alloc, &ty, 0, 1)
}

fn for_both(
    alloc: Global,
    loci: &SoftTypes,
    left: u32,
    right: u32,
    f: Statement,
) -> Result<Statement, AllocError>
    ensures { IfOk result (λ g. g ≡ for_both loci.now left right f) }
{
    let f = Box::new(alloc, f)?;
    let ty = inner_locus_type(alloc, loci, right)?;
    let f = Statement {
        node: StatementNode::For(ty, f),
    };
    for_one(alloc, loci, left, f)
}

fn reflexivity(alloc: Global, loci: &SoftTypes, r: &Relation) -> Result<Statement, AllocError>
    ensures { IfOk result (λ f. f ≡ reflexivity loci.now r.now) }
{
    let count = count_of(loci.items.len())?;
    let f = related(alloc, count, 1, r, 0, 0)?;
    for_one(alloc, loci, r.left, f)
}

fn irreflexivity(alloc: Global, loci: &SoftTypes, r: &Relation) -> Result<Statement, AllocError>
    ensures { IfOk result (λ f. f ≡ irreflexivity loci.now r.now) }
{
    let count = count_of(loci.items.len())?;
    let f = related(alloc, count, 1, r, 0, 0)?;
    let f = opposite(alloc, f)?;
    for_one(alloc, loci, r.left, f)
}

fn symmetry(alloc: Global, loci: &SoftTypes, r: &Relation) -> Result<Statement, AllocError>
    ensures { IfOk result (λ f. f ≡ symmetry loci.now r.now) }
{
    let count = count_of(loci.items.len())?;
    let f = Box::new(alloc, related(alloc, count, 2, r, 1, 0)?)?;
    let g = related(alloc, count, 2, r, 0, 1)?;
    let f = implication(alloc, Box::into_inner(f), g)?;
    for_both(alloc, loci, r.left, r.right, f)
}

fn asymmetry(alloc: Global, loci: &SoftTypes, r: &Relation) -> Result<Statement, AllocError>
    ensures { IfOk result (λ f. f ≡ asymmetry loci.now r.now) }
{
    let count = count_of(loci.items.len())?;
    let f = Box::new(alloc, related(alloc, count, 2, r, 1, 0)?)?;
    let g = related(alloc, count, 2, r, 0, 1)?;
    let g = opposite(alloc, g)?;
    let f = implication(alloc, Box::into_inner(f), g)?;
    for_both(alloc, loci, r.left, r.right, f)
}

fn connectedness(alloc: Global, loci: &SoftTypes, r: &Relation) -> Result<Statement, AllocError>
    ensures { IfOk result (λ f. f ≡ connectedness loci.now r.now) }
{
    let count = count_of(loci.items.len())?;
    let f = Box::new(alloc, related(alloc, count, 2, r, 1, 0)?)?;
    let g = related(alloc, count, 2, r, 0, 1)?;
    let f = disjunction(alloc, Box::into_inner(f), g)?;
    for_both(alloc, loci, r.left, r.right, f)
}

fn commutativity(alloc: Global, loci: &SoftTypes, o: &Operation) -> Result<Statement, AllocError>
    ensures { IfOk result (λ f. f ≡ commutativity loci.now o.now) }
{
    let count = count_of(loci.items.len())?;
    let t = applied(alloc, count, 2, o, 1, 0)?;
    let u = applied(alloc, count, 2, o, 0, 1)?;
    for_both(alloc, loci, o.left, o.right, Statement::equation(t, u))
}

fn idempotence(alloc: Global, loci: &SoftTypes, o: &Operation) -> Result<Statement, AllocError>
    ensures { IfOk result (λ f. f ≡ idempotence loci.now o.now) }
{
    let count = count_of(loci.items.len())?;
    let t = applied(alloc, count, 1, o, 0, 0)?;
    for_one(alloc, loci, o.left, Statement::equation(t, Term::bound(0)))
}

fn inner_guard(
    alloc: Global,
    loci: &SoftTypes,
    o: &UnaryOperation,
) -> Result<Statements, AllocError>
    ensures { IfOk result (λ fs. fs ≡ inner_guard loci.now o.now) }
{
    let count = count_of(loci.items.len())?;
    let ty = inner_locus_type(alloc, loci, o.place)?;
    let t = applied_to(alloc, count, o, &Term::bound(0))?;
    let ls = guard_literals(alloc, &ty, &t)?;
    literal_statements(alloc, &ls)
}

fn involutiveness(
    alloc: Global,
    loci: &SoftTypes,
    o: &UnaryOperation,
) -> Result<Statement, AllocError>
    ensures { IfOk result (λ f. f ≡ involutiveness loci.now o.now) }
{
    let count = count_of(loci.items.len())?;
    let fs = inner_guard(alloc, loci, o)?;
    let t = applied_to(alloc, count, o, &Term::bound(0))?;
    let u = applied_to(alloc, count, o, &t)?;
    let f = where_all(alloc, &fs, Statement::equation(u, Term::bound(0)))?;
    for_one(alloc, loci, o.place, f)
}

fn projectivity(
    alloc: Global,
    loci: &SoftTypes,
    o: &UnaryOperation,
) -> Result<Statement, AllocError>
    ensures { IfOk result (λ f. f ≡ projectivity loci.now o.now) }
{
    let count = count_of(loci.items.len())?;
    let fs = inner_guard(alloc, loci, o)?;
    let t = applied_to(alloc, count, o, &Term::bound(0))?;
    let u = applied_to(alloc, count, o, &t)?;
    let f = where_all(alloc, &fs, Statement::equation(u, t))?;
    for_one(alloc, loci, o.place, f)
}

/// The formula of a property, under its loci. More than 4,294,967,295 loci are as no memory.
pub fn property_statement(
    alloc: Global,
    loci: &SoftTypes,
    p: &PropertyForm,
) -> Result<Statement, AllocError>
    ensures { IfOk result (λ f. f ≡ property_statement loci.now p.now) }
{
    match p {
        PropertyForm::Reflexivity(r) => reflexivity(alloc, loci, r),
        PropertyForm::Irreflexivity(r) => irreflexivity(alloc, loci, r),
        PropertyForm::Symmetry(r) => symmetry(alloc, loci, r),
        PropertyForm::Asymmetry(r) => asymmetry(alloc, loci, r),
        PropertyForm::Connectedness(r) => connectedness(alloc, loci, r),
        PropertyForm::Commutativity(o) => commutativity(alloc, loci, o),
        PropertyForm::Idempotence(o) => idempotence(alloc, loci, o),
        PropertyForm::Involutiveness(o) => involutiveness(alloc, loci, o),
        PropertyForm::Projectivity(o) => projectivity(alloc, loci, o),
        PropertyForm::Sethood(s) => {
            let mode = mode_on(alloc, loci, *s)?;
            sethood(alloc, &mode)
        }
    }
}
