//! Matching of terms with rows.
ghost use Rattle.std.specs.Prelude.{◌≡◌, ◌∷◌, ℕ, [], IfOk, flat_map, if◌then◌else◌};
ghost use Rattle.mz_logic.specs.Term.{terms_of, more, none, Bound, Const, App};
ghost use Rattle.mz_match.specs.Rows.{has_value};
ghost use Rattle.mz_match.specs.Evaluate.{evaluate_at};
ghost use Rattle.mz_match.specs.Matches.{bind, match_none, by_value, by_rows, at_value, match_term, match_args, match_rows, match_class, match_equal};
ghost use Rattle.mz_match.specs.Table.{rows_of};
ghost use Rattle.mz_match.specs.declared.row.Head.TheVariants.{Constant, Functor, Holds, Fails, Disequal};

use crate::assignment::Assignment;
use crate::assignments::Assignments;
use crate::evaluate::{evaluate, evaluate_at};
use crate::row::{Head, Row};
use crate::table::Table;
use crate::value::Value;
use mz_logic::sym::Sym;
use mz_logic::term::{Term, TermNode, Terms};
use std::alloc::{AllocError, Global};

#[tactic(auto, using(crate::proofs::BindLemmas::bind_rules))]
fn bind_one(alloc: Global, i: usize, v: usize, e: &Assignment) -> Result<Assignments, AllocError>
    ensures { IfOk result (λ r. r ≡ bind i v e.now) }
{
    if i >= e.slots.len() {
        return Ok(Assignments::new(alloc));
    }
    match e.slots[i] {
        None => {
            let bound = e.with(alloc, i, v)?;
            let out = Assignments::single(alloc, bound)?;
            Ok(out)
        }
        Some(w) => {
            if w == v {
                let same = e.copy(alloc)?;
                let out = Assignments::single(alloc, same)?;
                Ok(out)
            } else {
                Ok(Assignments::new(alloc))
            }
        }
    }
}

fn bind_each(alloc: Global, i: usize, v: usize, es: &Assignments) -> Result<Assignments, AllocError>
    ensures { IfOk result (λ r. r ≡ flat_map (bind i v) es.now) }
{
    let mut out = Assignments::new(alloc);
    for e in &es.items {
        out.append(bind_one(alloc, i, v, e)?)?;
    }
    Ok(out)
}

fn match_variable(
    alloc: Global,
    table: &Table,
    depth: usize,
    i: usize,
    v: usize,
    es: &Assignments,
) -> Result<Assignments, AllocError>
    ensures { IfOk result (λ r. r ≡ match_term table.now depth (Bound i) v es.now) }
{
    if i < depth {
        Ok(Assignments::new(alloc))
    } else {
        bind_each(alloc, i - depth, v, es)
    }
}

fn match_no_args(alloc: Global, vs: &[usize], es: &Assignments) -> Result<Assignments, AllocError>
    ensures { IfOk result (λ r. r ≡ match_none vs.now es.now) }
{
    if vs.is_empty() {
        es.copy(alloc)
    } else {
        Ok(Assignments::new(alloc))
    }
}

fn match_constant_row(
    alloc: Global,
    r: &Row,
    v: usize,
    es: &Assignments,
) -> Result<Assignments, AllocError>
    ensures { IfOk result (λ out. out ≡ (if has_value v r.now then match_none r.now.args.items es.now else [])) }
{
    if r.value == v {
        match_no_args(alloc, r.args.as_slice(), es)
    } else {
        Ok(Assignments::new(alloc))
    }
}

fn match_constant(
    alloc: Global,
    rows: &[Row],
    v: usize,
    es: &Assignments,
) -> Result<Assignments, AllocError>
    ensures { IfOk result (λ out. out ≡ flat_map (λ r. if has_value v r then match_none r.args.items es.now else []) rows.now) }
{
    let mut out = Assignments::new(alloc);
    for r in rows {
        out.append(match_constant_row(alloc, r, v, es)?)?;
    }
    Ok(out)
}

fn only(alloc: Global, e: &Assignment) -> Result<Assignments, AllocError>
    ensures { IfOk result (λ out. out ≡ e.now ∷ []) }
{
    let same = e.copy(alloc)?;
    let out = Assignments::single(alloc, same)?;
    Ok(out)
}

fn copied_if(alloc: Global, keep: bool, e: &Assignment) -> Result<Assignments, AllocError>
    ensures { IfOk result (λ out. out ≡ (if keep then e.now ∷ [] else [])) }
{
    if keep {
        let out = only(alloc, e)?;
        Ok(out)
    } else {
        Ok(Assignments::new(alloc))
    }
}

/// The assignments that extend one of `es` and at which the term, under `depth` further binders,
/// has the class.
#[cycle(matching)]
pub fn match_term(
    alloc: Global,
    table: &Table,
    depth: usize,
    t: &Term,
    v: usize,
    es: &Assignments,
) -> Result<Assignments, AllocError>
    ensures { IfOk result (λ r. r ≡ match_term table.now depth t.now v es.now) }
{
    match &t.node {
        TermNode::Bound(i) => match_variable(alloc, table, depth, *i as usize, v, es),
        TermNode::Const(n) => match_constant(alloc, table.rows(Head::Constant(*n)), v, es),
        TermNode::App(s, ts) => match_functor(alloc, table, depth, *s, ts, v, es),
    }
}

#[cycle(matching)]
fn match_functor(
    alloc: Global,
    table: &Table,
    depth: usize,
    s: Sym,
    ts: &Terms,
    v: usize,
    es: &Assignments,
) -> Result<Assignments, AllocError>
    ensures { IfOk result (λ out. out ≡ match_term table.now depth (App s (terms_of ts.now)) v es.now) }
{
    let mut out = Assignments::new(alloc);
    for e in &es.items {
        out.append(match_functor_at(alloc, table, depth, s, ts, v, e)?)?;
    }
    Ok(out)
}

/// The same for one assignment: by the class of the application where it is known, else by all rows.
#[cycle(matching)]
fn match_functor_at(
    alloc: Global,
    table: &Table,
    depth: usize,
    s: Sym,
    ts: &Terms,
    v: usize,
    e: &Assignment,
) -> Result<Assignments, AllocError>
    ensures { IfOk result (λ out. out ≡ by_value (evaluate_at table.now depth e.now (Functor s) [] (terms_of ts.now)) v e.now (flat_map (λ r. if has_value v r then match_args table.now depth (terms_of ts.now) r.args.items (e.now ∷ []) else []) (rows_of table.now (Functor s)))) }
{
    match evaluate_at(alloc, table, depth, Head::Functor(s), ts, e)? {
        Value::Unknown => {
            let these = only(alloc, e)?;
            match_functor_rows(alloc, table, depth, s, ts, v, &these)
        }
        Value::Nothing => Ok(Assignments::new(alloc)),
        Value::Class(class) => copied_if(alloc, class == v, e),
    }
}

#[cycle(matching)]
fn match_functor_rows(
    alloc: Global,
    table: &Table,
    depth: usize,
    s: Sym,
    ts: &Terms,
    v: usize,
    es: &Assignments,
) -> Result<Assignments, AllocError>
    ensures { IfOk result (λ out. out ≡ flat_map (λ r. if has_value v r then match_args table.now depth (terms_of ts.now) r.args.items es.now else []) (rows_of table.now (Functor s))) }
{
    let mut out = Assignments::new(alloc);
    for args in table.args_with(Head::Functor(s), v) {
        out.append(match_args(alloc, table, depth, ts, args.as_slice(), es)?)?;
    }
    Ok(out)
}

/// The assignments that extend one of `es` and at which the terms have the classes.
#[cycle(matching)]
pub fn match_args(
    alloc: Global,
    table: &Table,
    depth: usize,
    ts: &Terms,
    vs: &[usize],
    es: &Assignments,
) -> Result<Assignments, AllocError>
    ensures { IfOk result (λ out. out ≡ match_args table.now depth (terms_of ts.now) vs.now es.now) }
{
    let mut now = es.copy(alloc)?;
    for i in 0..ts.items.len() {
        if i >= vs.len() {
            return Ok(Assignments::new(alloc));
        }
        let next = match_term(alloc, table, depth, &ts.items[i], vs[i], &now)?;
        now = next;
    }
    if vs.len() > ts.items.len() {
        Ok(Assignments::new(alloc))
    } else {
        Ok(now)
    }
}

/// The assignments that extend one of `es` and at which a row with the head has the classes of the
/// terms.
pub fn match_rows(
    alloc: Global,
    table: &Table,
    h: Head,
    ts: &Terms,
    es: &Assignments,
) -> Result<Assignments, AllocError>
    ensures { IfOk result (λ out. out ≡ match_rows table.now h (terms_of ts.now) es.now) }
{
    let mut out = Assignments::new(alloc);
    for e in &es.items {
        out.append(match_rows_at(alloc, table, h, ts, e)?)?;
    }
    Ok(out)
}

/// The same for one assignment: by a look-up where all terms have a class, else by all rows.
fn match_rows_at(
    alloc: Global,
    table: &Table,
    h: Head,
    ts: &Terms,
    e: &Assignment,
) -> Result<Assignments, AllocError>
    ensures { IfOk result (λ out. out ≡ by_rows (evaluate_at table.now 0 e.now h [] (terms_of ts.now)) e.now (flat_map (λ r. match_args table.now 0 (terms_of ts.now) r.args.items (e.now ∷ [])) (rows_of table.now h))) }
{
    match evaluate_at(alloc, table, 0, h, ts, e)? {
        Value::Unknown => {
            let these = only(alloc, e)?;
            match_each_row(alloc, table, h, ts, &these)
        }
        Value::Nothing => Ok(Assignments::new(alloc)),
        Value::Class(_) => only(alloc, e),
    }
}

fn match_each_row(
    alloc: Global,
    table: &Table,
    h: Head,
    ts: &Terms,
    es: &Assignments,
) -> Result<Assignments, AllocError>
    ensures { IfOk result (λ out. out ≡ flat_map (λ r. match_args table.now 0 (terms_of ts.now) r.args.items es.now) (rows_of table.now h)) }
{
    let mut out = Assignments::new(alloc);
    for r in table.rows(h) {
        out.append(match_args(alloc, table, 0, ts, r.args.as_slice(), es)?)?;
    }
    Ok(out)
}

fn match_pair_row(
    alloc: Global,
    table: &Table,
    vs: &[usize],
    t: &Term,
    u: &Term,
    es: &Assignments,
) -> Result<Assignments, AllocError>
    ensures { IfOk result (λ out. out ≡ match_args table.now 0 (more t.now (more u.now none)) vs.now es.now) }
{
    match vs {
        [v, w] => {
            let left = match_term(alloc, table, 0, t, *v, es)?;
            match_term(alloc, table, 0, u, *w, &left)
        }
        _ => Ok(Assignments::new(alloc)),
    }
}

/// The assignments that extend one of `es` and at which the terms differ, in this order.
pub fn match_pairs(
    alloc: Global,
    table: &Table,
    t: &Term,
    u: &Term,
    es: &Assignments,
) -> Result<Assignments, AllocError>
    ensures { IfOk result (λ out. out ≡ match_rows table.now Disequal (more t.now (more u.now none)) es.now) }
{
    let mut out = Assignments::new(alloc);
    for e in &es.items {
        out.append(match_pair_at(alloc, table, t, u, e)?)?;
    }
    Ok(out)
}

/// The same for one assignment: by a look-up where both terms have a class, else by all rows.
fn match_pair_at(
    alloc: Global,
    table: &Table,
    t: &Term,
    u: &Term,
    e: &Assignment,
) -> Result<Assignments, AllocError>
    ensures { IfOk result (λ out. out ≡ by_rows (evaluate_at table.now 0 e.now Disequal [] (more t.now (more u.now none))) e.now (flat_map (λ r. match_args table.now 0 (more t.now (more u.now none)) r.args.items (e.now ∷ [])) (rows_of table.now Disequal))) }
{
    match evaluate_pair(alloc, table, t, u, e)? {
        Value::Unknown => {
            let these = only(alloc, e)?;
            match_each_pair(alloc, table, t, u, &these)
        }
        Value::Nothing => Ok(Assignments::new(alloc)),
        Value::Class(_) => only(alloc, e),
    }
}

/// What is known of the rows of failing equations whose sides are the classes of the terms.
fn evaluate_pair(
    alloc: Global,
    table: &Table,
    t: &Term,
    u: &Term,
    e: &Assignment,
) -> Result<Value, AllocError>
    ensures { IfOk result (λ k. k ≡ evaluate_at table.now 0 e.now Disequal [] (more t.now (more u.now none))) }
{
    let left = evaluate(alloc, table, 0, t, e)?;
    let right = evaluate(alloc, table, 0, u, e)?;
    match (left, right) {
        (Value::Class(v), Value::Class(w)) => Ok(table.value(Head::Disequal, &[v, w])),
        (Value::Class(_), other) => Ok(other),
        (other, _) => Ok(other),
    }
}

fn match_each_pair(
    alloc: Global,
    table: &Table,
    t: &Term,
    u: &Term,
    es: &Assignments,
) -> Result<Assignments, AllocError>
    ensures { IfOk result (λ out. out ≡ flat_map (λ r. match_args table.now 0 (more t.now (more u.now none)) r.args.items es.now) (rows_of table.now Disequal)) }
{
    let mut out = Assignments::new(alloc);
    for r in table.rows(Head::Disequal) {
        out.append(match_pair_row(alloc, table, r.args.as_slice(), t, u, es)?)?;
    }
    Ok(out)
}

fn match_constant_class(
    alloc: Global,
    table: &Table,
    depth: usize,
    t: &Term,
    n: u32,
    es: &Assignments,
) -> Result<Assignments, AllocError>
    ensures { IfOk result (λ out. out ≡ match_class table.now depth t.now (Const n) es.now) }
{
    let mut out = Assignments::new(alloc);
    for r in table.rows(Head::Constant(n)) {
        let these = match_no_args(alloc, r.args.as_slice(), es)?;
        out.append(match_term(alloc, table, depth, t, r.value, &these)?)?;
    }
    Ok(out)
}

fn match_functor_class(
    alloc: Global,
    table: &Table,
    depth: usize,
    t: &Term,
    s: Sym,
    us: &Terms,
    es: &Assignments,
) -> Result<Assignments, AllocError>
    ensures { IfOk result (λ out. out ≡ match_class table.now depth t.now (App s (terms_of us.now)) es.now) }
{
    let mut out = Assignments::new(alloc);
    for e in &es.items {
        out.append(match_class_at(alloc, table, depth, t, s, us, e)?)?;
    }
    Ok(out)
}

/// The same for one assignment: by the class of the application where it is known, else by all rows.
fn match_class_at(
    alloc: Global,
    table: &Table,
    depth: usize,
    t: &Term,
    s: Sym,
    us: &Terms,
    e: &Assignment,
) -> Result<Assignments, AllocError>
    ensures { IfOk result (λ out. out ≡ at_value table.now depth t.now (evaluate_at table.now depth e.now (Functor s) [] (terms_of us.now)) e.now (flat_map (λ r. match_term table.now depth t.now r.value (match_args table.now depth (terms_of us.now) r.args.items (e.now ∷ []))) (rows_of table.now (Functor s)))) }
{
    let known = evaluate_at(alloc, table, depth, Head::Functor(s), us, e)?;
    let these = only(alloc, e)?;
    match known {
        Value::Unknown => match_class_rows(alloc, table, depth, t, s, us, &these),
        Value::Nothing => Ok(Assignments::new(alloc)),
        Value::Class(class) => match_term(alloc, table, depth, t, class, &these),
    }
}

fn match_class_rows(
    alloc: Global,
    table: &Table,
    depth: usize,
    t: &Term,
    s: Sym,
    us: &Terms,
    es: &Assignments,
) -> Result<Assignments, AllocError>
    ensures { IfOk result (λ out. out ≡ flat_map (λ r. match_term table.now depth t.now r.value (match_args table.now depth (terms_of us.now) r.args.items es.now)) (rows_of table.now (Functor s))) }
{
    let mut out = Assignments::new(alloc);
    for r in table.rows(Head::Functor(s)) {
        let these = match_args(alloc, table, depth, us, r.args.as_slice(), es)?;
        out.append(match_term(alloc, table, depth, t, r.value, &these)?)?;
    }
    Ok(out)
}

/// The assignments that extend one of `es` and at which `t` has the class of `u`; none where `u` is
/// a variable.
pub fn match_class(
    alloc: Global,
    table: &Table,
    depth: usize,
    t: &Term,
    u: &Term,
    es: &Assignments,
) -> Result<Assignments, AllocError>
    ensures { IfOk result (λ out. out ≡ match_class table.now depth t.now u.now es.now) }
{
    match &u.node {
        TermNode::Bound(_) => Ok(Assignments::new(alloc)),
        TermNode::Const(n) => match_constant_class(alloc, table, depth, t, *n, es),
        TermNode::App(s, us) => match_functor_class(alloc, table, depth, t, *s, us, es),
    }
}

fn match_variables(
    alloc: Global,
    table: &Table,
    values: &[usize],
    i: u32,
    j: u32,
    es: &Assignments,
) -> Result<Assignments, AllocError>
    ensures { IfOk result (λ out. out ≡ flat_map (λ v. match_term table.now 0 (Bound j) v (match_term table.now 0 (Bound i) v es.now)) values.now) }
{
    let mut out = Assignments::new(alloc);
    for v in values {
        let these = match_variable(alloc, table, 0, i as usize, *v, es)?;
        out.append(match_variable(alloc, table, 0, j as usize, *v, &these)?)?;
    }
    Ok(out)
}

/// The assignments that extend one of `es` and at which both terms have one class, of two variables
/// one of `values`.
pub fn match_equal(
    alloc: Global,
    table: &Table,
    values: &[usize],
    t: &Term,
    u: &Term,
    es: &Assignments,
) -> Result<Assignments, AllocError>
    ensures { IfOk result (λ out. out ≡ match_equal table.now values.now t.now u.now es.now) }
{
    match (&t.node, &u.node) {
        (_, TermNode::Const(_)) => match_class(alloc, table, 0, t, u, es),
        (_, TermNode::App(_, _)) => match_class(alloc, table, 0, t, u, es),
        (TermNode::Bound(i), TermNode::Bound(j)) => match_variables(
            alloc, table, values, *i, *j, es,
        ),
        (TermNode::Const(_), TermNode::Bound(_)) => match_class(alloc, table, 0, u, t, es),
        (TermNode::App(_, _), TermNode::Bound(_)) => match_class(alloc, table, 0, u, t, es),
    }
}
