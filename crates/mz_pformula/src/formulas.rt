//! Formulas, in the order of the grammar.
ghost use Rattle.std.specs.Prelude.{◌≡◌};
ghost use Rattle.mz_forms.specs.Reading.{Reads};
ghost use Rattle.mz_tree.specs.Views.{conjunction_of, declarations_of, disjunction_of, quantified_of};
ghost use Rattle.mz_ptype.specs.Classes.{next_is};
ghost use Rattle.mz_patom.specs.Forms.{unit_in};
ghost use Rattle.mz_pformula.specs.Classes.{begins_unit, NotTaken};
ghost use Rattle.mz_pformula.specs.Forms.{
  conjunction_takes,
  disjunction_takes,
  formula_in,
  no_room_of,
  unit_takes,
  BoxesFormula,
  ReadsConjunction,
  ReadsDisjunction,
  ReadsFormula,
  ReadsRestOfConjunction,
  ReadsRestOfDisjunction,
  ReadsRestOfFormula,
  ReadsUnit,
};
ghost use Rattle.mz_pformula.specs.Quantified.{
  scope_of,
  such_scope,
  universal_scope,
  BoxesQuantified,
  ReadsExists,
  ReadsQuantified,
  ReadsScope,
  ReadsUniversal,
};
ghost use Rattle.mz_pformula.specs.Inside.{
  inside_form,
  inside_of,
  ReadsNegation,
  ReadsOpening,
  ReadsParenthesis,
  ReadsQuantifiedUnit,
};

use mz_base::place::Place;
use mz_forms::refusal::Refusal;
use mz_patom::atoms::{
    Opening, atom, behind_group, boxed, predicate, private, private_comes, term_comes,
};
use mz_pterm::reader::Reader;
use mz_pterm::sign::Sign;
use mz_ptype::declarations::declarations;
use mz_tree::chain::{Chain, Next};
use mz_tree::nodes::{
    ConjunctionNode, DeclarationsNode, DisjunctionNode, FormulaNode, QuantifiedNode, TermsNode,
    UnitNode,
};
use std::alloc::Global;

/// What stands in parentheses.
#[derive(Drop)]
pub enum Inside {
    Formula(Box<FormulaNode>),
    Terms(TermsNode),
}

/// What a universal quantifier is said of: `holds` and a formula, or a further quantified formula.
#[derive(Drop)]
pub enum Scope {
    Holds(Place, Box<FormulaNode>),
    Further(Box<QuantifiedNode>),
}

fn with_scope(place: Place, declared: DeclarationsNode, scope: Scope) -> QuantifiedNode
    ensures { quantified_of result ≡ universal_scope place (declarations_of declared) (scope_of scope) }
{
    match scope {
        Scope::Holds(holds, body) => QuantifiedNode::For(place, declared, holds, body),
        Scope::Further(further) => QuantifiedNode::ForFurther(place, declared, further),
    }
}

fn with_condition(
    place: Place,
    declared: DeclarationsNode,
    such: Place,
    condition: Box<FormulaNode>,
    scope: Scope,
) -> QuantifiedNode
    ensures { quantified_of result ≡ such_scope place (declarations_of declared) such (formula_in condition) (scope_of scope) }
{
    match scope {
        Scope::Holds(holds, body) => {
            QuantifiedNode::ForSuch(place, declared, such, condition, holds, body)
        }
        Scope::Further(further) => {
            QuantifiedNode::ForSuchFurther(place, declared, such, condition, further)
        }
    }
}

fn boxed_formula(alloc: Global, node: FormulaNode) -> Result<Box<FormulaNode>, Refusal>
    ensures { BoxesFormula node result }
{
    Ok(Box::new(alloc, node)?)
}

fn boxed_quantified(alloc: Global, node: QuantifiedNode) -> Result<Box<QuantifiedNode>, Refusal>
    ensures { BoxesQuantified node result }
{
    Ok(Box::new(alloc, node)?)
}

/// Whether a unit begins with the next token.
fn unit_comes(reader: &Reader<'_>) -> bool
    ensures { result ≡ next_is begins_unit reader.now.rest.now }
{
    if term_comes(reader) {
        return true;
    }
    let Some((next, _)) = reader.rest.split_first() else {
        return false;
    };
    matches!(
        Sign::of(next),
        Sign::Not | Sign::Contradiction | Sign::Thesis | Sign::For | Sign::Ex | Sign::Predicate
    )
}

/// Why no unit stands here, where none may nest any deeper.
fn no_room(reader: &Reader<'_>) -> Refusal
    ensures { result ≡ no_room_of (next_is begins_unit reader.now.rest.now) }
{
    if unit_comes(reader) {
        Refusal::TooDeep
    } else {
        Refusal::Refused
    }
}

/// A formula.
#[cycle(formulas)]
pub fn formula(
    reader: &mut Reader<'_>,
    field: bool,
    room: usize,
) -> Result<Box<FormulaNode>, Refusal>
    ensures { ReadsFormula field room reader.old.rest.now result reader.new.rest.now }
{
    let first = disjunction(reader, field, room)?;
    rest_of_formula(reader, first, field, room)
}

/// The formula that goes on with this disjunction. `implies` and `iff` don't chain.
#[cycle(formulas)]
fn rest_of_formula(
    reader: &mut Reader<'_>,
    first: DisjunctionNode,
    field: bool,
    room: usize,
) -> Result<Box<FormulaNode>, Refusal>
    requires { NotTaken (disjunction_takes (disjunction_of first)) reader.old.rest.now }
    ensures { ReadsRestOfFormula field room (disjunction_of first) reader.old.rest.now result reader.new.rest.now }
{
    if let Some(place) = reader.takes(Sign::Implies) {
        let second = disjunction(reader, field, room)?;
        return boxed_formula(reader.alloc, FormulaNode::Implies(first, place, second));
    }
    if let Some(place) = reader.takes(Sign::Iff) {
        let second = disjunction(reader, field, room)?;
        return boxed_formula(reader.alloc, FormulaNode::Iff(first, place, second));
    }
    boxed_formula(reader.alloc, FormulaNode::Plain(first))
}

/// Conjunctions with `or` between them.
#[cycle(formulas)]
fn disjunction(
    reader: &mut Reader<'_>,
    field: bool,
    room: usize,
) -> Result<DisjunctionNode, Refusal>
    ensures { ReadsDisjunction field room reader.old.rest.now result reader.new.rest.now }
{
    let first = conjunction(reader, field, room)?;
    rest_of_disjunction(reader, first, field, room)
}

/// The disjunction that goes on with this conjunction. Behind each `or` less room is left.
#[cycle(formulas)]
fn rest_of_disjunction(
    reader: &mut Reader<'_>,
    first: ConjunctionNode,
    field: bool,
    room: usize,
) -> Result<DisjunctionNode, Refusal>
    requires { NotTaken (conjunction_takes (conjunction_of first)) reader.old.rest.now }
    ensures { ReadsRestOfDisjunction field room (conjunction_of first) reader.old.rest.now result reader.new.rest.now }
{
    let mut more = Vec::new(reader.alloc);
    let mut left = room;
    'more: while let Some(sign) = reader.takes(Sign::Or) {
        if left == 0 {
            return Err(no_room(reader));
        }
        left -= 1;
        let tree = conjunction(reader, field, left)?;
        more.push(Next { sign, tree })?;
    }
    Ok(Chain { first, more })
}

/// Units with `&` between them.
#[cycle(formulas)]
fn conjunction(
    reader: &mut Reader<'_>,
    field: bool,
    room: usize,
) -> Result<ConjunctionNode, Refusal>
    ensures { ReadsConjunction field room reader.old.rest.now result reader.new.rest.now }
{
    let first = unit(reader, field, room)?;
    rest_of_conjunction(reader, first, field, room)
}

/// The conjunction that goes on with this unit. Behind each `&` less room is left.
#[cycle(formulas)]
fn rest_of_conjunction(
    reader: &mut Reader<'_>,
    first: Box<UnitNode>,
    field: bool,
    room: usize,
) -> Result<ConjunctionNode, Refusal>
    requires { NotTaken (unit_takes (unit_in first)) reader.old.rest.now }
    ensures { ReadsRestOfConjunction field room (unit_in first) reader.old.rest.now result reader.new.rest.now }
{
    let mut more = Vec::new(reader.alloc);
    let mut left = room;
    'more: while let Some(sign) = reader.takes(Sign::And) {
        if left == 0 {
            return Err(no_room(reader));
        }
        left -= 1;
        let tree = unit(reader, field, left)?;
        more.push(Next { sign, tree })?;
    }
    Ok(ConjunctionNode { first, more })
}

/// A formula without chains.
#[cycle(formulas)]
fn unit(reader: &mut Reader<'_>, field: bool, room: usize) -> Result<Box<UnitNode>, Refusal>
    ensures { ReadsUnit field room reader.old.rest.now result reader.new.rest.now }
{
    let opened = opening(reader, field, room)?;
    match opened {
        Opening::Unit(unit) => Ok(unit),
        Opening::Terms(_) => Err(Refusal::Refused),
    }
}

/// A unit, or terms behind which no predicate stands.
#[cycle(formulas)]
fn opening(reader: &mut Reader<'_>, field: bool, room: usize) -> Result<Opening, Refusal>
    ensures { ReadsOpening field room reader.old.rest.now result reader.new.rest.now }
{
    let Some((next, rest)) = reader.rest.split_first() else {
        return Err(Refusal::Refused);
    };
    match Sign::of(next) {
        Sign::Not => {
            let unit = negation(reader, field, room)?;
            Ok(Opening::Unit(unit))
        }
        Sign::For => quantified_unit(reader, field, room),
        Sign::Ex => quantified_unit(reader, field, room),
        Sign::Contradiction => {
            reader.rest = rest;
            let unit = boxed(reader.alloc, UnitNode::Contradiction(next.token.place))?;
            Ok(Opening::Unit(unit))
        }
        Sign::Thesis => {
            reader.rest = rest;
            let unit = boxed(reader.alloc, UnitNode::Thesis(next.token.place))?;
            Ok(Opening::Unit(unit))
        }
        Sign::Open => parenthesis(reader, field, room),
        Sign::Predicate => {
            let unit = predicate(reader, field, room)?;
            Ok(Opening::Unit(unit))
        }
        _ => {
            if private_comes(reader) {
                let unit = private(reader, field, room)?;
                return Ok(Opening::Unit(unit));
            }
            atom(reader, field, room)
        }
    }
}

/// A negated unit.
#[cycle(formulas)]
fn negation(reader: &mut Reader<'_>, field: bool, room: usize) -> Result<Box<UnitNode>, Refusal>
    ensures { ReadsNegation field room reader.old.rest.now result reader.new.rest.now }
{
    let place = reader.opens(Sign::Not, room)?;
    let body = unit(reader, field, room - 1)?;
    boxed(reader.alloc, UnitNode::Not(place, body))
}

/// A quantified formula as a unit.
#[cycle(formulas)]
fn quantified_unit(reader: &mut Reader<'_>, field: bool, room: usize) -> Result<Opening, Refusal>
    ensures { ReadsQuantifiedUnit field room reader.old.rest.now result reader.new.rest.now }
{
    let quantified = quantified(reader, field, room)?;
    let unit = boxed(reader.alloc, UnitNode::Quantified(quantified))?;
    Ok(Opening::Unit(unit))
}

/// A parenthesis, which opens a formula or terms.
#[cycle(formulas)]
fn parenthesis(reader: &mut Reader<'_>, field: bool, room: usize) -> Result<Opening, Refusal>
    ensures { ReadsParenthesis field room reader.old.rest.now result reader.new.rest.now }
{
    let open = reader.opens(Sign::Open, room)?;
    let inside = in_parentheses(reader, field, room - 1)?;
    let close = reader.expect(Sign::Close)?;
    match inside {
        Inside::Formula(formula) => {
            let unit = boxed(reader.alloc, UnitNode::Group(open, formula, close))?;
            Ok(Opening::Unit(unit))
        }
        Inside::Terms(group) => behind_group(reader, open, group, close, field, room),
    }
}

/// What stands in parentheses, as far as the one that closes.
#[cycle(formulas)]
fn in_parentheses(reader: &mut Reader<'_>, field: bool, room: usize) -> Result<Inside, Refusal>
    ensures { Reads (inside_form field) room inside_of reader.old.rest.now result reader.new.rest.now }
{
    let opened = opening(reader, field, room)?;
    match opened {
        Opening::Unit(unit) => {
            let conjoined = rest_of_conjunction(reader, unit, field, room)?;
            let disjoined = rest_of_disjunction(reader, conjoined, field, room)?;
            let formula = rest_of_formula(reader, disjoined, field, room)?;
            Ok(Inside::Formula(formula))
        }
        Opening::Terms(terms) => Ok(Inside::Terms(terms)),
    }
}

/// A formula behind `for` or `ex`.
#[cycle(formulas)]
fn quantified(
    reader: &mut Reader<'_>,
    field: bool,
    room: usize,
) -> Result<Box<QuantifiedNode>, Refusal>
    ensures { ReadsQuantified field room reader.old.rest.now result reader.new.rest.now }
{
    let Some((next, _)) = reader.rest.split_first() else {
        return Err(Refusal::Refused);
    };
    if Sign::of(next).is(Sign::Ex) {
        let place = reader.opens(Sign::Ex, room)?;
        let declared = declarations(reader, field, room - 1)?;
        return exists(reader, place, declared, field, room - 1);
    }
    let place = reader.opens(Sign::For, room)?;
    let declared = declarations(reader, field, room - 1)?;
    universal(reader, place, declared, field, room - 1)
}

/// Behind `ex` and its declarations.
#[cycle(formulas)]
fn exists(
    reader: &mut Reader<'_>,
    place: Place,
    declared: DeclarationsNode,
    field: bool,
    room: usize,
) -> Result<Box<QuantifiedNode>, Refusal>
    ensures { ReadsExists field room place (declarations_of declared) reader.old.rest.now result reader.new.rest.now }
{
    let such = reader.expect(Sign::St)?;
    let body = formula(reader, field, room)?;
    boxed_quantified(
        reader.alloc,
        QuantifiedNode::Exists(place, declared, such, body),
    )
}

/// Behind `for` and its declarations.
#[cycle(formulas)]
fn universal(
    reader: &mut Reader<'_>,
    place: Place,
    declared: DeclarationsNode,
    field: bool,
    room: usize,
) -> Result<Box<QuantifiedNode>, Refusal>
    ensures { ReadsUniversal field room place (declarations_of declared) reader.old.rest.now result reader.new.rest.now }
{
    match reader.takes(Sign::St) {
        Some(such) => {
            let condition = formula(reader, field, room)?;
            let scope = read_scope(reader, field, room)?;
            boxed_quantified(
                reader.alloc,
                with_condition(place, declared, such, condition, scope),
            )
        }
        None => {
            let scope = read_scope(reader, field, room)?;
            boxed_quantified(reader.alloc, with_scope(place, declared, scope))
        }
    }
}

/// `holds` and a formula, or a further quantifier.
#[cycle(formulas)]
fn read_scope(reader: &mut Reader<'_>, field: bool, room: usize) -> Result<Scope, Refusal>
    ensures { ReadsScope field room reader.old.rest.now result reader.new.rest.now }
{
    if let Some(holds) = reader.takes(Sign::Holds) {
        let body = formula(reader, field, room)?;
        return Ok(Scope::Holds(holds, body));
    }
    let further = quantified(reader, field, room)?;
    Ok(Scope::Further(further))
}
