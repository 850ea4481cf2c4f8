//! The table of facts.
ghost use Rattle.std.specs.Prelude.{◌≡◌, ◌++◌, ◌∷◌, ◌<◌, [], Bool, List, ℕ, IfOk, OnOk, length, map, slice_index};
ghost use Rattle.mz_refute.specs.Entries.{Grown, HasEntries, term_entry, term_entries, atom_entries, equation_entries, sign_entry};
ghost use Rattle.mz_refute.specs.HoldsFacts.{entries_of};
ghost use Rattle.mz_match.specs.declared.row.Head.TheVariants.{Holds, Fails, Disequal};

use mz_ground::ground_atom::GroundAtom;
use mz_ground::ground_equation::GroundEquation;
use mz_ground::ground_part::Ground;
use mz_ground::ground_term::GroundTerm;
use mz_match::row::{Head, Row};
use mz_match::table::Table;
use std::alloc::{AllocError, Global};

fn class_of(classes: &[usize], place: usize) -> usize
    ensures { result ≡ slice_index classes.now place }
{
    if place < classes.len() {
        classes[place]
    } else {
        0
    }
}

fn classes_of(alloc: Global, classes: &[usize], places: &[usize]) -> Result<Vec<usize>, AllocError>
    ensures { IfOk result (λ v. v.items ≡ map (slice_index classes.now) places.now) }
{
    let mut out = Vec::new(alloc);
    for p in places {
        out.push(class_of(classes, *p))?;
    }
    Ok(out)
}

#[tactic(auto, using(crate::proofs::GrowLemmas::grow_rules))]
fn add_term(
    alloc: Global,
    table: &mut Table,
    classes: &[usize],
    e: &GroundTerm,
    value: usize,
) -> Result<(), AllocError>
    ensures { OnOk result (Grown table.old table.new (term_entry classes.now value e.now ∷ [])) }
{
    match e {
        GroundTerm::Const(n) => {
            let args = Vec::new(alloc);
            table.add(alloc, Head::Constant(*n), Row { args, value })?;
            Ok(())
        }
        GroundTerm::App { sym, args } => {
            let args = classes_of(alloc, classes, args.as_slice())?;
            table.add(alloc, Head::Functor(*sym), Row { args, value })?;
            Ok(())
        }
    }
}

#[tactic(auto, using(crate::proofs::GrowLemmas::turn_rules))]
fn add_terms(
    alloc: Global,
    table: &mut Table,
    ground: &Ground,
    classes: &[usize],
) -> Result<(), AllocError>
    requires { length classes.now ≡ length ground.now.terms }
    ensures { OnOk result (Grown table.old table.new (term_entries classes.now classes.now ground.now.terms)) }
{
    for i in 0..classes.len() {
        add_term(alloc, table, classes, ground.terms.get(i), classes[i])?;
    }
    Ok(())
}

#[tactic(auto, using(crate::proofs::GrowLemmas::grow_rules))]
fn add_fact(
    alloc: Global,
    table: &mut Table,
    classes: &[usize],
    flag: bool,
    head: Head,
    places: &[usize],
) -> Result<(), AllocError>
    ensures { OnOk result (Grown table.old table.new (sign_entry flag head (map (slice_index classes.now) places.now))) }
{
    if flag {
        let args = classes_of(alloc, classes, places)?;
        table.add(alloc, head, Row { args, value: 0 })?;
        Ok(())
    } else {
        Ok(())
    }
}

#[tactic(auto, using(crate::proofs::GrowLemmas::grow_rules))]
fn add_atom(
    alloc: Global,
    table: &mut Table,
    classes: &[usize],
    a: &GroundAtom,
    positive: bool,
    negative: bool,
) -> Result<(), AllocError>
    ensures { OnOk result (Grown table.old table.new (sign_entry positive (Holds a.now.sym) (map (slice_index classes.now) a.now.args) ++ sign_entry negative (Fails a.now.sym) (map (slice_index classes.now) a.now.args))) }
{
    add_fact(
        alloc,
        table,
        classes,
        positive,
        Head::Holds(a.sym),
        a.args.as_slice(),
    )?;
    add_fact(
        alloc,
        table,
        classes,
        negative,
        Head::Fails(a.sym),
        a.args.as_slice(),
    )?;
    Ok(())
}

#[tactic(auto, using(crate::proofs::GrowLemmas::turn_rules))]
fn add_atoms(
    alloc: Global,
    table: &mut Table,
    ground: &Ground,
    classes: &[usize],
    positive: &[bool],
    negative: &[bool],
) -> Result<(), AllocError>
    requires first { length positive.now ≡ length ground.now.atoms }
    requires second { length negative.now ≡ length ground.now.atoms }
    ensures { OnOk result (Grown table.old table.new (atom_entries classes.now positive.now negative.now ground.now.atoms)) }
{
    for i in 0..positive.len() {
        add_atom(
            alloc,
            table,
            classes,
            ground.atoms.get(i),
            positive[i],
            negative[i],
        )?;
    }
    Ok(())
}

fn add_equation(
    alloc: Global,
    table: &mut Table,
    classes: &[usize],
    e: &GroundEquation,
    disequal: bool,
) -> Result<(), AllocError>
    ensures { OnOk result (Grown table.old table.new (sign_entry disequal Disequal (slice_index classes.now e.now.left ∷ slice_index classes.now e.now.right ∷ []))) }
{
    add_fact(
        alloc,
        table,
        classes,
        disequal,
        Head::Disequal,
        &[e.left, e.right],
    )
}

#[tactic(auto, using(crate::proofs::GrowLemmas::turn_rules))]
fn add_equations(
    alloc: Global,
    table: &mut Table,
    ground: &Ground,
    classes: &[usize],
    disequal: &[bool],
) -> Result<(), AllocError>
    requires { length disequal.now ≡ length ground.now.equations }
    ensures { OnOk result (Grown table.old table.new (equation_entries classes.now disequal.now ground.now.equations)) }
{
    for i in 0..disequal.len() {
        add_equation(alloc, table, classes, ground.equations.get(i), disequal[i])?;
    }
    Ok(())
}

#[tactic(auto, using(crate::proofs::GrowLemmas::empty_rules))]
fn no_rows(alloc: Global) -> Table
    ensures { HasEntries result [] }
{
    Table::new(alloc)
}

/// The table of facts over a ground part: a class for each ground term; for each ground atom whether it
/// and whether its negation is a fact; for each ground equation whether its negation is one.
#[tactic(auto, using(crate::proofs::GrowLemmas::whole_rules))]
pub fn table_of(
    alloc: Global,
    ground: &Ground,
    classes: &[usize],
    positive: &[bool],
    negative: &[bool],
    disequal: &[bool],
) -> Result<Table, AllocError>
    requires classes { length classes.now ≡ length ground.now.terms }
    requires positive { length positive.now ≡ length ground.now.atoms }
    requires negative { length negative.now ≡ length ground.now.atoms }
    requires disequal { length disequal.now ≡ length ground.now.equations }
    ensures { IfOk result (λ t. HasEntries t (entries_of ground.now classes.now positive.now negative.now disequal.now)) }
{
    let mut table = no_rows(alloc);
    add_terms(alloc, &mut table, ground, classes)?;
    add_atoms(alloc, &mut table, ground, classes, positive, negative)?;
    add_equations(alloc, &mut table, ground, classes, disequal)?;
    Ok(table)
}
