//! The rules over the nodes of a ground part.
ghost use Rattle.std.specs.Prelude.{◌≡◌, ◌<◌, ◌↔◌, ℕ, [], length, slice_get, Some, Contains, MatchOption, IfOk, OnOk};
ghost use Rattle.mz_ground.specs.Ground.{IsGround};
ghost use Rattle.mz_ground.specs.Growth.{IsNumbered};
ghost use Rattle.mz_ground.specs.declared.ground_equation.GroundEquation.{GroundEquation};
ghost use Rattle.mz_congruence.specs.declared.graph.Rule.{Rule};
ghost use Rattle.mz_congruence.specs.Codes.{IsRule};
ghost use Rattle.mz_congruence.specs.Layout.{IsLayout};
ghost use Rattle.mz_congruence.specs.Pairing.{AddsRules, AddsInstance, AreWholePlaces, Among, Below, IsLiteralRule, IsExchangeRule, IsPlaceRule, IsClauseRule, places_for};

use crate::graph::{Pair, Pairs, Rule, Rules};
use crate::numbering::Layout;
use crate::pairs_of::{disequal_number, pair_of, pairs_of};
use mz_ground::clause::Clause;
use mz_ground::expression_place::place_like;
use mz_ground::ground_equation::GroundEquation;
use mz_ground::ground_part::Ground;
use mz_ground::layer_ends::LayerEnd;
use mz_ground::trigger_places::TriggerPlaces;
use mz_logic::disjunct::Disjunct;
use mz_logic::literals::Literals;
use std::alloc::{AllocError, Global};

#[tactic(auto, using(crate::proofs::RuleLemmas::literal_rules))]
fn push_literal(
    alloc: Global,
    g: &Ground,
    layout: Layout,
    ls: &Literals,
    k: usize,
    rules: &mut Rules,
) -> Result<(), AllocError>
    requires layout { IsLayout g.now layout }
    requires number { k < length ls.now }
    ensures { OnOk result (AddsRules g.now (IsLiteralRule g.now ls.now k) rules.old rules.new) }
{
    let none: [usize; 0] = [];
    match pair_of(g, layout, &none, ls.get(k)) {
        Some(conclusion) => {
            rules.push(Rule {
                premises: Pairs::new(alloc),
                conclusion,
            })?;
            Ok(())
        }
        None => Ok(()),
    }
}

#[tactic(auto, using(crate::proofs::RuleLemmas::adds_rules))]
fn push_literals(
    alloc: Global,
    g: &Ground,
    layout: Layout,
    ls: &Literals,
    rules: &mut Rules,
) -> Result<(), AllocError>
    requires { IsLayout g.now layout }
    ensures { OnOk result (AddsRules g.now (Below (IsLiteralRule g.now ls.now) (length ls.now)) rules.old rules.new) }
{
    for k in 0..ls.len() {
        push_literal(alloc, g, layout, ls, k, rules)?;
    }
    Ok(())
}

#[tactic(auto, using(crate::proofs::RuleLemmas::reversed_rules))]
fn reversed_place(g: &Ground, e: &GroundEquation) -> Option<usize>
    ensures { MatchOption result ((m : ℕ) (f : GroundEquation) → slice_get g.now.equations m ≡ Some f → e.now.left ≡ f.right → e.now.right ≡ f.left → ⊥) (λ m. (f : GroundEquation) × (slice_get g.now.equations m ≡ Some f) × (e.now.left ≡ f.right) × (e.now.right ≡ f.left)) }
{
    let sides = GroundEquation {
        left: e.right,
        right: e.left,
    };
    g.equations.find(&sides)
}

#[tactic(auto, using(crate::proofs::RuleLemmas::exchange_rules))]
fn push_exchange(
    alloc: Global,
    g: &Ground,
    layout: Layout,
    k: usize,
    rules: &mut Rules,
) -> Result<(), AllocError>
    requires layout { IsLayout g.now layout }
    requires number { k < length g.now.equations }
    ensures { OnOk result (AddsRules g.now (IsExchangeRule g.now k) rules.old rules.new) }
{
    match reversed_place(g, g.equations.get(k)) {
        Some(m) => {
            rules.push(Rule {
                premises: Pairs::new(alloc),
                conclusion: Pair {
                    left: disequal_number(g, layout, k),
                    right: disequal_number(g, layout, m),
                },
            })?;
            Ok(())
        }
        None => Ok(()),
    }
}

#[tactic(auto, using(crate::proofs::RuleLemmas::adds_rules))]
fn push_exchanges(
    alloc: Global,
    g: &Ground,
    layout: Layout,
    rules: &mut Rules,
) -> Result<(), AllocError>
    requires { IsLayout g.now layout }
    ensures { OnOk result (AddsRules g.now (Below (IsExchangeRule g.now) (length g.now.equations)) rules.old rules.new) }
{
    for k in 0..g.equations.len() {
        push_exchange(alloc, g, layout, k, rules)?;
    }
    Ok(())
}

#[tactic(auto, using(crate::proofs::RuleLemmas::instance_rules))]
fn push_instance(
    alloc: Global,
    g: &Ground,
    layout: Layout,
    args: &[usize],
    c: &Clause,
    rules: &mut Rules,
) -> Result<(), AllocError>
    requires { IsLayout g.now layout }
    ensures { OnOk result (AddsInstance g.now args.now c.now rules.old rules.new) }
{
    match pairs_of(alloc, g, layout, args, &c.premises)? {
        Some(premises) => match pair_of(g, layout, args, &c.conclusion) {
            Some(conclusion) => {
                rules.push(Rule {
                    premises,
                    conclusion,
                })?;
                Ok(())
            }
            None => Ok(()),
        },
        None => Ok(()),
    }
}

#[tactic(auto, using(crate::proofs::RuleLemmas::place_rules))]
fn push_place(
    alloc: Global,
    g: &Ground,
    layout: Layout,
    c: &Clause,
    k: usize,
    rules: &mut Rules,
) -> Result<(), AllocError>
    requires layout { IsLayout g.now layout }
    requires numbered { IsNumbered g.now }
    requires number { k < places_for g.now c.now.trigger }
    ensures { OnOk result (AddsRules g.now (IsPlaceRule g.now c.now k) rules.old rules.new) }
{
    match g.matching(alloc, c, place_like(&c.trigger, k))? {
        Some(args) => push_instance(alloc, g, layout, args.as_slice(), c, rules),
        None => Ok(()),
    }
}

#[tactic(auto, using(crate::proofs::PlaceLemmas::places_rules))]
fn push_places(
    alloc: Global,
    g: &Ground,
    layout: Layout,
    c: &Clause,
    places: &[usize],
    rules: &mut Rules,
) -> Result<(), AllocError>
    requires layout { IsLayout g.now layout }
    requires numbered { IsNumbered g.now }
    requires within { (k : ℕ) → Contains places.now k → k < places_for g.now c.now.trigger }
    ensures { OnOk result (AddsRules g.now (Among (IsPlaceRule g.now c.now) places.now) rules.old rules.new) }
{
    for k in places {
        push_place(alloc, g, layout, c, *k, rules)?;
    }
    Ok(())
}

// The rules of a clause: its trigger is sought where its head stands.
#[tactic(auto, using(crate::proofs::PlaceLemmas::clause_rules))]
fn push_clause(
    alloc: Global,
    g: &Ground,
    layout: Layout,
    places: &TriggerPlaces,
    c: &Clause,
    rules: &mut Rules,
) -> Result<(), AllocError>
    requires layout { IsLayout g.now layout }
    requires numbered { IsNumbered g.now }
    requires places { AreWholePlaces g.now places.now }
    ensures { OnOk result (AddsRules g.now (Below (IsPlaceRule g.now c.now) (places_for g.now c.now.trigger)) rules.old rules.new) }
{
    push_places(alloc, g, layout, c, places.candidates(&c.trigger), rules)?;
    Ok(())
}

#[tactic(auto, using(crate::proofs::RuleLemmas::told_clause_at))]
fn push_clause_at(
    alloc: Global,
    g: &Ground,
    layout: Layout,
    places: &TriggerPlaces,
    clauses: &[Clause],
    k: usize,
    rules: &mut Rules,
) -> Result<(), AllocError>
    requires layout { IsLayout g.now layout }
    requires numbered { IsNumbered g.now }
    requires places { AreWholePlaces g.now places.now }
    requires number { k < length clauses.now }
    ensures { OnOk result (AddsRules g.now (IsClauseRule g.now clauses.now k) rules.old rules.new) }
{
    push_clause(alloc, g, layout, places, &clauses[k], rules)
}

#[tactic(auto, using(crate::proofs::PlaceLemmas::whole_rules))]
fn whole_places(alloc: Global, g: &Ground) -> Result<TriggerPlaces, AllocError>
    ensures { IfOk result (AreWholePlaces g.now) }
{
    let start = LayerEnd {
        terms: 0,
        atoms: 0,
        equations: 0,
    };
    let places = TriggerPlaces::of(alloc, g, start, g.end())?;
    Ok(places)
}

#[tactic(auto, using(crate::proofs::RuleLemmas::adds_rules))]
fn push_clauses(
    alloc: Global,
    g: &Ground,
    layout: Layout,
    clauses: &[Clause],
    rules: &mut Rules,
) -> Result<(), AllocError>
    requires layout { IsLayout g.now layout }
    requires numbered { IsNumbered g.now }
    ensures { OnOk result (AddsRules g.now (Below (IsClauseRule g.now clauses.now) (length clauses.now)) rules.old rules.new) }
{
    let places = whole_places(alloc, g)?;
    for k in 0..clauses.len() {
        push_clause_at(alloc, g, layout, &places, clauses, k, rules)?;
    }
    Ok(())
}

/// The rules over the nodes of the ground part of a disjunct under clauses.
#[tactic(auto, using(crate::proofs::RuleLemmas::all_rules))]
pub fn rules_of(
    alloc: Global,
    g: &Ground,
    layout: Layout,
    d: &Disjunct,
    clauses: &[Clause],
) -> Result<Rules, AllocError>
    requires layout { IsLayout g.now layout }
    requires part { IsGround d.now clauses.now g.now }
    ensures { IfOk result (λ rs. (r : Rule) → Contains rs r ↔ IsRule d.now clauses.now g.now r) }
{
    let mut rules = Rules::new(alloc);
    push_literals(alloc, g, layout, &d.literals, &mut rules)?;
    push_exchanges(alloc, g, layout, &mut rules)?;
    push_clauses(alloc, g, layout, clauses, &mut rules)?;
    Ok(rules)
}
