//! Patterns of every kind.
ghost use Rattle.std.specs.Prelude.{◌≡◌, IfOk};
ghost use Rattle.mz_notations.specs.Patterns.{kind_of, symbol_of, closing_of, functor_place, symbol_place, loci_place, loci_or, functor_first, names_or, first_of};

use mz_base::place::Place;
use mz_base::text::Text;
use mz_logic::kind::Kind;
use mz_patterns::functors::{functor_closing, functor_symbol};
use mz_tree::lists::Separated;
use mz_tree_heading::patterns::{FunctorPatternTree, IdentifierTree, LociTree, PatternTree};
use std::alloc::{AllocError, Global};

/// What a pattern makes.
pub fn kind_of(t: &PatternTree) -> Kind
    ensures { result ≡ kind_of t.now }
{
    match t {
        PatternTree::Functor(_) => Kind::Functor,
        PatternTree::Predicate(_) => Kind::Predicate,
        PatternTree::Attribute(_) => Kind::Attribute,
        PatternTree::Mode(_) => Kind::Mode,
    }
}

/// The symbol of a pattern, of brackets the left one.
pub fn symbol_of(alloc: Global, t: &PatternTree) -> Result<Text, AllocError>
    ensures { IfOk result (λ w. w ≡ symbol_of t.now) }
{
    match t {
        PatternTree::Functor(t) => functor_symbol(alloc, t),
        PatternTree::Predicate(t) => t.symbol.spelling.copy(alloc),
        PatternTree::Attribute(t) => t.symbol.spelling.copy(alloc),
        PatternTree::Mode(t) => t.symbol.spelling.copy(alloc),
    }
}

/// The right bracket of a pattern, which is empty where it has none.
pub fn closing_of(alloc: Global, t: &PatternTree) -> Result<Text, AllocError>
    ensures { IfOk result (λ w. w ≡ closing_of t.now) }
{
    match t {
        PatternTree::Functor(t) => functor_closing(alloc, t),
        PatternTree::Predicate(_) => Ok(Text::new(alloc)),
        PatternTree::Attribute(_) => Ok(Text::new(alloc)),
        PatternTree::Mode(_) => Ok(Text::new(alloc)),
    }
}

/// The place of the symbol of a functor's pattern, of brackets that of the left one.
pub fn functor_place(t: &FunctorPatternTree) -> Place
    ensures { result ≡ functor_place t.now }
{
    match t {
        FunctorPatternTree::Symbol(t) => t.symbol.place,
        FunctorPatternTree::Brackets { left, .. } => left.place,
        FunctorPatternTree::Braces { left, .. } => *left,
        FunctorPatternTree::Squares { left, .. } => *left,
    }
}

/// The place of a pattern's symbol.
pub fn symbol_place(t: &PatternTree) -> Place
    ensures { result ≡ symbol_place t.now }
{
    match t {
        PatternTree::Functor(t) => functor_place(t),
        PatternTree::Predicate(t) => t.symbol.place,
        PatternTree::Attribute(t) => t.symbol.place,
        PatternTree::Mode(t) => t.symbol.place,
    }
}

fn loci_place(t: &LociTree) -> Place
    ensures { result ≡ loci_place t.now }
{
    match t {
        LociTree::One(w) => w.place,
        LociTree::Several { left, .. } => *left,
    }
}

fn loci_or(place: Place, t: &Option<LociTree>) -> Place
    ensures { result ≡ loci_or place t.now }
{
    match t {
        None => place,
        Some(t) => loci_place(t),
    }
}

/// The place of the first token of a functor's pattern.
pub fn functor_first(t: &FunctorPatternTree) -> Place
    ensures { result ≡ functor_first t.now }
{
    match t {
        FunctorPatternTree::Symbol(t) => loci_or(t.symbol.place, &t.left),
        FunctorPatternTree::Brackets { left, .. } => left.place,
        FunctorPatternTree::Braces { left, .. } => *left,
        FunctorPatternTree::Squares { left, .. } => *left,
    }
}

/// The place of the first identifier; the other place where there is none.
pub fn names_or(place: Place, ws: &Option<Separated<IdentifierTree>>) -> Place
    ensures { result ≡ names_or place ws.now }
{
    match ws {
        None => place,
        Some(ws) => ws.first.name.place,
    }
}

/// The place of a pattern's first token.
pub fn first_of(t: &PatternTree) -> Place
    ensures { result ≡ first_of t.now }
{
    match t {
        PatternTree::Functor(t) => functor_first(t),
        PatternTree::Predicate(t) => names_or(t.symbol.place, &t.left),
        PatternTree::Attribute(t) => t.subject.place,
        PatternTree::Mode(t) => t.symbol.place,
    }
}
