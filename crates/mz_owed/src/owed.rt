//! The conditions that an item owes, and those that are still to be written.
ghost use Rattle.std.specs.Prelude.{◌≡◌, ◌++◌, ◌∷◌, [], flat_map, IfOk, OnOk, OnErr};
ghost use Rattle.std.specs.List.{filter, list_any};
ghost use Rattle.mz_owed.specs.Owed.{named, number_of, is_owed, owed_by, at_first, is_condition, is_other, covered_by, covered, written_by, written, missing, thesis_list, joint_thesis};

use mz_core::item::Item;
use mz_core::parts::conjunction;
use mz_core::statement::Statement;
use mz_core::statements::Statements;
use mz_items::condition::Condition;
use mz_items::theses::thesis_of;
use mz_tree_part::words::ConditionWord;
use std::alloc::{AllocError, Global};
use std::marker::Model;

/// Conditions, in the order of their numbers.
#[derive(Drop)]
pub struct Conditions {
    pub items: Vec<Condition>,
}

impl Model for Conditions {
    ghost use Rattle.std.specs.Prelude.{List};
    ghost use Rattle.std.specs.Coded.{coded_list};
    ghost use Rattle.mz_items.specs.declared.condition.Condition.{Condition};
    ghost use Rattle.mz_items.specs.contracts.condition.Condition.{the_row};

    ghost Value = { List Condition };

    ghost coded = { coded_list the_row.coded };

    ghost view = { λ a. a.items.items };
}

impl Conditions {
    /// None.
    pub fn new(alloc: Global) -> Conditions
        ensures { result ≡ [] }
    {
        Conditions {
            items: Vec::new(alloc),
        }
    }

    /// Puts one at the end.
    pub fn push(&mut self, c: Condition) -> Result<(), AllocError>
        ensures ok { OnOk result (self.new ≡ self.old ++ c ∷ []) }
        ensures err { OnErr result (self.new ≡ self.old) }
    {
        self.items.push(c)?;
        Ok(())
    }
}

/// The conditions that are owed and not written yet, and whether `correctness` was written.
#[derive(Drop)]
pub struct Owed {
    pub unwritten: Conditions,
    pub corrected: bool,
}

/// The condition that a word names; `correctness` names none.
fn named(w: ConditionWord) -> Option<Condition>
    ensures { result ≡ named w }
{
    match w {
        ConditionWord::Existence => Some(Condition::Existence),
        ConditionWord::Uniqueness => Some(Condition::Uniqueness),
        ConditionWord::Coherence => Some(Condition::Coherence),
        ConditionWord::Compatibility => Some(Condition::Compatibility),
        ConditionWord::Consistency => Some(Condition::Consistency),
        ConditionWord::Correctness => None,
        ConditionWord::Reducibility => Some(Condition::Reducibility),
    }
}

/// The number of what a word names.
pub fn number_of(w: ConditionWord) -> u64
    ensures { result ≡ number_of (named w) }
{
    match named(w) {
        None => 6,
        Some(c) => c.number(),
    }
}

fn is_owed(alloc: Global, x: &Item, c: Condition) -> Result<bool, AllocError>
    ensures { IfOk result (λ b. b ≡ is_owed x.now c) }
{
    let s = thesis_of(alloc, x, c)?;
    Ok(s.is_some())
}

#[tactic(auto, using(crate::proofs::OwedLemmas::filter_rules))]
fn push_owed(
    alloc: Global,
    out: &mut Conditions,
    x: &Item,
    cs: &[Condition],
) -> Result<(), AllocError>
    ensures { OnOk result (out.new ≡ out.old ++ filter (is_owed x.now) cs.now) }
{
    match cs {
        [] => Ok(()),
        [c, others @ ..] => {
            if is_owed(alloc, x, *c)? {
                out.push(*c)?;
                push_owed(alloc, out, x, others)
            } else {
                push_owed(alloc, out, x, others)
            }
        }
    }
}

fn owed_by(alloc: Global, x: &Item) -> Result<Conditions, AllocError>
    ensures { IfOk result (λ cs. cs ≡ owed_by x.now) }
{
    let cs = [
        Condition::Existence,
        Condition::Uniqueness,
        Condition::Coherence,
        Condition::Compatibility,
        Condition::Consistency,
        Condition::Reducibility,
    ];
    let mut out = Conditions::new(alloc);
    push_owed(alloc, &mut out, x, &cs)?;
    Ok(out)
}

/// The conditions that the item owes, none of which is written.
pub fn at_first(alloc: Global, x: &Item) -> Result<Owed, AllocError>
    ensures { IfOk result (λ o. o ≡ at_first x.now) }
{
    let unwritten = owed_by(alloc, x)?;
    Ok(Owed {
        unwritten,
        corrected: false,
    })
}

fn is_condition(c: Condition, d: Condition) -> bool
    ensures { result ≡ is_condition c d }
{
    c.number() == d.number()
}

fn has_condition(cs: &[Condition], c: Condition) -> bool
    ensures { result ≡ list_any (is_condition c) cs.now }
{
    cs.iter().any(|d| is_condition(c, *d))
}

fn copy_conditions(alloc: Global, cs: &[Condition]) -> Result<Conditions, AllocError>
    ensures { IfOk result (λ ds. ds ≡ cs.now) }
{
    let items = Vec::from_slice(alloc, cs)?;
    Ok(Conditions { items })
}

fn one(alloc: Global, c: Condition) -> Result<Conditions, AllocError>
    ensures { IfOk result (λ cs. cs ≡ c ∷ []) }
{
    let mut out = Conditions::new(alloc);
    out.push(c)?;
    Ok(out)
}

/// The conditions that a word covers: the one that it names, where that is owed and not written; `correctness`, where it wasn't written, all
/// that are not written.
pub fn covered(alloc: Global, o: &Owed, w: ConditionWord) -> Result<Conditions, AllocError>
    ensures { IfOk result (λ cs. cs ≡ covered o.now w) }
{
    match named(w) {
        None => {
            if o.corrected {
                Ok(Conditions::new(alloc))
            } else {
                copy_conditions(alloc, o.unwritten.items.as_slice())
            }
        }
        Some(c) => {
            if has_condition(o.unwritten.items.as_slice(), c) {
                one(alloc, c)
            } else {
                Ok(Conditions::new(alloc))
            }
        }
    }
}

#[tactic(auto, using(crate::proofs::OwedLemmas::filter_rules))]
fn push_others(out: &mut Conditions, c: Condition, cs: &[Condition]) -> Result<(), AllocError>
    ensures { OnOk result (out.new ≡ out.old ++ filter (is_other c) cs.now) }
{
    match cs {
        [] => Ok(()),
        [d, others @ ..] => {
            if !is_condition(c, *d) {
                out.push(*d)?;
                push_others(out, c, others)
            } else {
                push_others(out, c, others)
            }
        }
    }
}

fn without(alloc: Global, cs: &[Condition], c: Condition) -> Result<Conditions, AllocError>
    ensures { IfOk result (λ ds. ds ≡ filter (is_other c) cs.now) }
{
    let mut out = Conditions::new(alloc);
    push_others(&mut out, c, cs)?;
    Ok(out)
}

/// Marks a word as written: what it names isn't to be written any more; what `correctness` covers may be.
pub fn mark(alloc: Global, o: &mut Owed, w: ConditionWord) -> Result<(), AllocError>
    ensures { OnOk result (o.new ≡ written o.old w) }
{
    match named(w) {
        None => {
            o.corrected = true;
            Ok(())
        }
        Some(c) => {
            let rest = without(alloc, o.unwritten.items.as_slice(), c)?;
            o.unwritten = rest;
            Ok(())
        }
    }
}

/// The least condition that isn't written, where `correctness` isn't either.
#[tactic(auto, using(crate::proofs::OwedLemmas::missing_rules))]
pub fn missing(o: &Owed) -> Option<Condition>
    ensures { result ≡ missing o.now }
{
    if o.corrected {
        return None;
    }
    match o.unwritten.items.as_slice() {
        [] => None,
        [c, ..] => Some(*c),
    }
}

fn push_thesis(
    alloc: Global,
    out: &mut Statements,
    x: &Item,
    c: Condition,
) -> Result<(), AllocError>
    ensures { OnOk result (out.new ≡ out.old ++ thesis_list x.now c) }
{
    match thesis_of(alloc, x, c)? {
        None => Ok(()),
        Some(s) => out.push(s),
    }
}

fn push_theses(
    alloc: Global,
    out: &mut Statements,
    x: &Item,
    cs: &[Condition],
) -> Result<(), AllocError>
    ensures { OnOk result (out.new ≡ out.old ++ flat_map (thesis_list x.now) cs.now) }
{
    match cs {
        [] => Ok(()),
        [c, others @ ..] => {
            push_thesis(alloc, out, x, *c)?;
            push_theses(alloc, out, x, others)
        }
    }
}

/// What the conditions of the item state together, under its loci.
pub fn joint_thesis(alloc: Global, x: &Item, cs: &[Condition]) -> Result<Statement, AllocError>
    ensures { IfOk result (λ s. s ≡ joint_thesis x.now cs.now) }
{
    let mut out = Statements::new(alloc);
    push_theses(alloc, &mut out, x, cs)?;
    conjunction(alloc, &out)
}
