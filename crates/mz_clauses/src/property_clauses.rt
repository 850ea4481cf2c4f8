//! Clauses of properties. The variables are the loci.
ghost use Rattle.std.specs.Prelude.{◌≡◌, ◌++◌, ◌∷◌, [], IfOk, length, true};
ghost use Rattle.mz_logic.specs.Term.{Bound};
ghost use Rattle.mz_logic.specs.declared.literal.Literal.TheVariants.{Eq};
ghost use Rattle.mz_ground.specs.ClauseFormula.{complement};
ghost use Rattle.mz_items.specs.PropertyRows.{locus_values, locus_type};
ghost use Rattle.mz_clauses.specs.SameTypes.{same_type};
ghost use Rattle.mz_clauses.specs.PropertyClauses.{exchanged_values, exchanged_relation, exchanged_operation, operation_at, relation_groups, operation_groups, reflexivity_groups, irreflexivity_groups, symmetry_of_relation, symmetry_of_negation, if_same, symmetry_groups, asymmetry_groups, connectedness_groups, commutativity_groups, idempotence_groups, iterated_groups, property_groups};

use crate::clause_groups::ClauseGroups;
use crate::groups::{group_if_any, one_group, one_literal, push_groups};
use crate::guards::{loci_guards, push_all, variable_count};
use crate::same_types::same_type;
use crate::triggers::literal_trigger;
use mz_core::guard::guard_literals;
use mz_core::property::{Operation, PropertyForm, Relation, UnaryOperation};
use mz_core::soft_types::SoftTypes;
use mz_core::type_substitution::substitute_literal;
use mz_ground::trigger::Trigger;
use mz_items::property_rows::{Placed, locus_type, locus_values, values_at};
use mz_logic::beyond::Beyond;
use mz_logic::literal::Literal;
use mz_logic::literals::Literals;
use mz_logic::substitution::substitute;
use mz_logic::term::{Term, Terms};
use std::alloc::{AllocError, Global};

fn exchanged_values(
    alloc: Global,
    loci: &SoftTypes,
    left: u32,
    right: u32,
) -> Result<Terms, AllocError>
    ensures { IfOk result (λ ts. ts ≡ exchanged_values (length loci.now) left right) }
{
    let count = variable_count(loci, 0)?;
    values_at(alloc, count, 0, left, right, right, left)
}

fn exchanged_relation(alloc: Global, loci: &SoftTypes, r: &Relation) -> Result<Literal, AllocError>
    ensures { IfOk result (λ l. l ≡ exchanged_relation loci.now r.now) }
{
    let values = exchanged_values(alloc, loci, r.left, r.right)?;
    substitute_literal(alloc, &r.literal, 0, &values, Beyond::Lowered)
}

fn exchanged_operation(alloc: Global, loci: &SoftTypes, o: &Operation) -> Result<Term, AllocError>
    ensures { IfOk result (λ t. t ≡ exchanged_operation loci.now o.now) }
{
    let values = exchanged_values(alloc, loci, o.left, o.right)?;
    substitute(alloc, &o.term, 0, &values, Beyond::Lowered)
}

fn operation_at(
    alloc: Global,
    loci: &SoftTypes,
    o: &UnaryOperation,
    t: &Term,
) -> Result<Term, AllocError>
    ensures { IfOk result (λ u. u ≡ operation_at loci.now o.now t.now) }
{
    let count = variable_count(loci, 0)?;
    let v = Placed {
        left: o.place,
        t,
        right: o.place,
        u: t,
    };
    let values = locus_values(alloc, 0, &v, count)?;
    substitute(alloc, &o.term, 0, &values, Beyond::Lowered)
}

fn complement(alloc: Global, l: &Literal) -> Result<Literal, AllocError>
    ensures { IfOk result (λ k. k ≡ complement l.now) }
{
    match l {
        Literal::Atom {
            positive,
            sym,
            args,
        } => {
            let args = args.copy(alloc)?;
            Ok(Literal::Atom {
                positive: !*positive,
                sym: *sym,
                args,
            })
        }
        Literal::Eq {
            positive,
            left,
            right,
        } => {
            let left = left.copy(alloc)?;
            let right = right.copy(alloc)?;
            Ok(Literal::Eq {
                positive: !*positive,
                left,
                right,
            })
        }
    }
}

/// One clause of a predicate, whose trigger is the predicate's atom; an equation has none.
fn relation_groups(
    alloc: Global,
    loci: &SoftTypes,
    r: &Relation,
    more: Literals,
    conclusion: Literal,
) -> Result<ClauseGroups, AllocError>
    ensures { IfOk result (λ gs. gs ≡ relation_groups loci.now r.now more conclusion) }
{
    let conclusions = one_literal(alloc, conclusion)?;
    let variables = variable_count(loci, 0)?;
    let trigger = literal_trigger(alloc, &r.literal)?;
    let mut premises = loci_guards(alloc, loci, 0)?;
    push_all(&mut premises, more)?;
    group_if_any(alloc, variables, trigger, premises, conclusions)
}

/// One clause of a functor, whose trigger is the functor's term.
fn operation_groups(
    alloc: Global,
    loci: &SoftTypes,
    t: &Term,
    more: Literals,
    conclusion: Literal,
) -> Result<ClauseGroups, AllocError>
    ensures { IfOk result (λ gs. gs ≡ operation_groups loci.now t.now more conclusion) }
{
    let conclusions = one_literal(alloc, conclusion)?;
    let variables = variable_count(loci, 0)?;
    let trigger = Trigger::Term(t.copy(alloc)?);
    let mut premises = loci_guards(alloc, loci, 0)?;
    push_all(&mut premises, more)?;
    one_group(alloc, variables, trigger, premises, conclusions)
}

fn equal_variables(alloc: Global, left: u32, right: u32) -> Result<Literals, AllocError>
    ensures { IfOk result (λ ls. ls ≡ Eq true (Bound left) (Bound right) ∷ []) }
{
    one_literal(
        alloc,
        Literal::Eq {
            positive: true,
            left: Term::bound(left),
            right: Term::bound(right),
        },
    )
}

fn reflexivity_groups(
    alloc: Global,
    loci: &SoftTypes,
    r: &Relation,
) -> Result<ClauseGroups, AllocError>
    ensures { IfOk result (λ gs. gs ≡ reflexivity_groups loci.now r.now) }
{
    let more = equal_variables(alloc, r.left, r.right)?;
    let conclusion = r.literal.copy(alloc)?;
    relation_groups(alloc, loci, r, more, conclusion)
}

fn irreflexivity_groups(
    alloc: Global,
    loci: &SoftTypes,
    r: &Relation,
) -> Result<ClauseGroups, AllocError>
    ensures { IfOk result (λ gs. gs ≡ irreflexivity_groups loci.now r.now) }
{
    let more = equal_variables(alloc, r.left, r.right)?;
    let conclusion = complement(alloc, &r.literal)?;
    relation_groups(alloc, loci, r, more, conclusion)
}

fn symmetry_of_relation(
    alloc: Global,
    loci: &SoftTypes,
    r: &Relation,
) -> Result<ClauseGroups, AllocError>
    ensures { IfOk result (λ gs. gs ≡ symmetry_of_relation loci.now r.now) }
{
    let more = one_literal(alloc, r.literal.copy(alloc)?)?;
    let conclusion = exchanged_relation(alloc, loci, r)?;
    relation_groups(alloc, loci, r, more, conclusion)
}

fn negated_exchange(alloc: Global, loci: &SoftTypes, r: &Relation) -> Result<Literal, AllocError>
    ensures { IfOk result (λ l. l ≡ complement (exchanged_relation loci.now r.now)) }
{
    let l = Box::new(alloc, exchanged_relation(alloc, loci, r)?)?;
    complement(alloc, &l)
}

fn symmetry_of_negation(
    alloc: Global,
    loci: &SoftTypes,
    r: &Relation,
) -> Result<ClauseGroups, AllocError>
    ensures { IfOk result (λ gs. gs ≡ symmetry_of_negation loci.now r.now) }
{
    let more = one_literal(alloc, complement(alloc, &r.literal)?)?;
    let conclusion = negated_exchange(alloc, loci, r)?;
    relation_groups(alloc, loci, r, more, conclusion)
}

fn have_one_type(alloc: Global, loci: &SoftTypes, left: u32, right: u32) -> Result<bool, AllocError>
    ensures { IfOk result (λ b. b ≡ same_type (locus_type loci.now left) (locus_type loci.now right)) }
{
    let t = locus_type(alloc, loci, left)?;
    let u = locus_type(alloc, loci, right)?;
    Ok(same_type(&t, &u))
}

fn symmetry_groups(
    alloc: Global,
    loci: &SoftTypes,
    r: &Relation,
) -> Result<ClauseGroups, AllocError>
    ensures { IfOk result (λ gs. gs ≡ symmetry_groups loci.now r.now) }
{
    let mut out = symmetry_of_relation(alloc, loci, r)?;
    if have_one_type(alloc, loci, r.left, r.right)? {
        push_groups(&mut out, symmetry_of_negation(alloc, loci, r)?)?;
    }
    Ok(out)
}

fn asymmetry_groups(
    alloc: Global,
    loci: &SoftTypes,
    r: &Relation,
) -> Result<ClauseGroups, AllocError>
    ensures { IfOk result (λ gs. gs ≡ asymmetry_groups loci.now r.now) }
{
    let more = one_literal(alloc, r.literal.copy(alloc)?)?;
    let conclusion = negated_exchange(alloc, loci, r)?;
    relation_groups(alloc, loci, r, more, conclusion)
}

fn connectedness_groups(
    alloc: Global,
    loci: &SoftTypes,
    r: &Relation,
) -> Result<ClauseGroups, AllocError>
    ensures { IfOk result (λ gs. gs ≡ connectedness_groups loci.now r.now) }
{
    let more = one_literal(alloc, complement(alloc, &r.literal)?)?;
    let conclusion = exchanged_relation(alloc, loci, r)?;
    relation_groups(alloc, loci, r, more, conclusion)
}

fn equal_terms(alloc: Global, t: &Term, right: Term) -> Result<Literal, AllocError>
    ensures { IfOk result (λ l. l ≡ Eq true t.now right) }
{
    let left = t.copy(alloc)?;
    Ok(Literal::Eq {
        positive: true,
        left,
        right,
    })
}

fn commutativity_groups(
    alloc: Global,
    loci: &SoftTypes,
    o: &Operation,
) -> Result<ClauseGroups, AllocError>
    ensures { IfOk result (λ gs. gs ≡ commutativity_groups loci.now o.now) }
{
    let conclusion = equal_terms(alloc, &o.term, exchanged_operation(alloc, loci, o)?)?;
    operation_groups(alloc, loci, &o.term, Literals::new(alloc), conclusion)
}

fn idempotence_groups(
    alloc: Global,
    loci: &SoftTypes,
    o: &Operation,
) -> Result<ClauseGroups, AllocError>
    ensures { IfOk result (λ gs. gs ≡ idempotence_groups loci.now o.now) }
{
    let more = equal_variables(alloc, o.left, o.right)?;
    let conclusion = equal_terms(alloc, &o.term, Term::bound(o.left))?;
    operation_groups(alloc, loci, &o.term, more, conclusion)
}

fn iterated_groups(
    alloc: Global,
    loci: &SoftTypes,
    o: &UnaryOperation,
    t: Term,
) -> Result<ClauseGroups, AllocError>
    ensures { IfOk result (λ gs. gs ≡ iterated_groups loci.now o.now t) }
{
    let twice = operation_at(alloc, loci, o, &o.term)?;
    let ty = locus_type(alloc, loci, o.place)?;
    let more = guard_literals(alloc, &ty, &o.term)?;
    let conclusion = equal_terms(alloc, &twice, t)?;
    operation_groups(alloc, loci, &o.term, more, conclusion)
}

/// The clauses of a property. Where the two loci of a symmetric predicate have different types, there is none for
/// its negation, which would say more than the property.
pub fn property_groups(
    alloc: Global,
    loci: &SoftTypes,
    p: &PropertyForm,
) -> Result<ClauseGroups, AllocError>
    ensures { IfOk result (λ gs. gs ≡ property_groups loci.now p.now) }
{
    match p {
        PropertyForm::Reflexivity(r) => reflexivity_groups(alloc, loci, r),
        PropertyForm::Irreflexivity(r) => irreflexivity_groups(alloc, loci, r),
        PropertyForm::Symmetry(r) => symmetry_groups(alloc, loci, r),
        PropertyForm::Asymmetry(r) => asymmetry_groups(alloc, loci, r),
        PropertyForm::Connectedness(r) => connectedness_groups(alloc, loci, r),
        PropertyForm::Commutativity(o) => commutativity_groups(alloc, loci, o),
        PropertyForm::Idempotence(o) => idempotence_groups(alloc, loci, o),
        PropertyForm::Involutiveness(o) => { iterated_groups(alloc, loci, o, Term::bound(o.place)) }
        PropertyForm::Projectivity(o) => {
            let t = o.term.copy(alloc)?;
            iterated_groups(alloc, loci, o, t)
        }
        PropertyForm::Sethood(_) => Ok(ClauseGroups::new(alloc)),
    }
}
