//! What may be cited of an item.
ghost use Rattle.std.specs.Prelude.{◌≡◌, ◌∷◌, [], IfOk, Some, true, false, ◌++◌, map, OnOk};
ghost use Rattle.mz_items.specs.Items.{definitional_theorem};
ghost use Rattle.mz_environment.specs.Cited.{theorem_of, scheme_of, is_some, statement_cited, scheme_cited, statements_cited, schemes_cited};
ghost use Rattle.std.specs.List.{filter};
ghost use Rattle.std.specs.Arc.{arc_value};
ghost use Rattle.mz_environment.specs.Keys.{scheme_of_article, of_article};

use crate::keys::ByArticle;
use crate::numbering::Numbering;
use mz_copies::schemes::scheme_copy;
use mz_core::item::Item;
use mz_core::redefinition::FunctorMeaning;
use mz_core::scheme::Scheme;
use mz_core::statement::Statement;
use mz_items::theses::definitional_theorem;
use mz_table::table::Table;
use std::alloc::{AllocError, Global};
use std::marker::Model;
use std::sync::Arc;

/// A scheme, with the number of its article's name and its own number there, from 1 in the order of the text.
pub struct CitedScheme {
    pub article: u64,
    pub number: u64,
    pub scheme: Scheme,
}

impl Drop for CitedScheme {
    fn drop(self) {
        let CitedScheme {
            article: _article,
            number: _number,
            scheme: _scheme,
        } = self;
    }
}

/// Schemes that may be cited, the latest one last, with those of each article apart.
pub struct CitedSchemes {
    table: Table<u64, CitedScheme, ByArticle>,
}

impl Drop for CitedSchemes {
    fn drop(self) {
        let CitedSchemes { table: _table } = self;
    }
}

impl Model for CitedSchemes {
    ghost use Rattle.std.specs.Prelude.{List};
    ghost use Rattle.std.specs.Coded.{coded_list};
    ghost use Rattle.mz_environment.specs.declared.cited.CitedScheme.{CitedScheme};
    ghost use Rattle.mz_environment.specs.contracts.cited.CitedScheme.{the_row};

    ghost Value = { List CitedScheme };

    ghost coded = { coded_list the_row.coded };

    ghost view = { λ a. a.table };
}

impl CitedSchemes {
    /// None.
    pub fn new(alloc: Global) -> CitedSchemes
        ensures { result ≡ [] }
    {
        CitedSchemes {
            table: Table::new(alloc),
        }
    }

    /// All of them, in their order.
    pub fn as_slice(&self) -> &[Arc<CitedScheme>]
        ensures { map arc_value result.now ≡ self.now }
    {
        self.table.as_slice()
    }

    /// The schemes of the article, in their order. The others aren't looked at.
    pub fn of(&self, article: u64) -> &[Arc<CitedScheme>]
        ensures { map arc_value result.now ≡ filter (scheme_of_article article) self.now }
    {
        self.table.of(&article)
    }

    /// Puts one at the end.
    pub fn push(&mut self, x: CitedScheme) -> Result<(), AllocError>
        ensures { OnOk result (self.new ≡ self.old ++ x ∷ []) }
    {
        self.table.push(x)
    }

    /// Puts others at the end, which are shared.
    pub fn append(&mut self, more: &CitedSchemes) -> Result<(), AllocError>
        ensures { OnOk result (self.new ≡ self.old ++ more.now) }
    {
        self.table.append_shared(&more.table)
    }
}

/// A theorem or a definitional theorem, with the number of its article's name and its own number there, from
/// 1: theorems and definitional theorems are numbered apart, in the order of the text.
pub struct CitedStatement {
    pub article: u64,
    pub is_definition: bool,
    pub number: u64,
    pub statement: Statement,
}

impl Drop for CitedStatement {
    fn drop(self) {
        let CitedStatement {
            article: _article,
            is_definition: _is_definition,
            number: _number,
            statement: _statement,
        } = self;
    }
}

/// Statements that may be cited, the latest one last, with those of each article apart.
pub struct CitedStatements {
    table: Table<u64, CitedStatement, ByArticle>,
}

impl Drop for CitedStatements {
    fn drop(self) {
        let CitedStatements { table: _table } = self;
    }
}

impl Model for CitedStatements {
    ghost use Rattle.std.specs.Prelude.{List};
    ghost use Rattle.std.specs.Coded.{coded_list};
    ghost use Rattle.mz_environment.specs.declared.cited.CitedStatement.{CitedStatement};
    ghost use Rattle.mz_environment.specs.contracts.cited.CitedStatement.{the_row};

    ghost Value = { List CitedStatement };

    ghost coded = { coded_list the_row.coded };

    ghost view = { λ a. a.table };
}

impl CitedStatements {
    /// None.
    pub fn new(alloc: Global) -> CitedStatements
        ensures { result ≡ [] }
    {
        CitedStatements {
            table: Table::new(alloc),
        }
    }

    /// All of them, in their order.
    pub fn as_slice(&self) -> &[Arc<CitedStatement>]
        ensures { map arc_value result.now ≡ self.now }
    {
        self.table.as_slice()
    }

    /// The statements of the article, in their order. The others aren't looked at.
    pub fn of(&self, article: u64) -> &[Arc<CitedStatement>]
        ensures { map arc_value result.now ≡ filter (of_article article) self.now }
    {
        self.table.of(&article)
    }

    /// Puts one at the end.
    pub fn push(&mut self, x: CitedStatement) -> Result<(), AllocError>
        ensures { OnOk result (self.new ≡ self.old ++ x ∷ []) }
    {
        self.table.push(x)
    }

    /// Puts others at the end, which are shared.
    pub fn append(&mut self, more: &CitedStatements) -> Result<(), AllocError>
        ensures { OnOk result (self.new ≡ self.old ++ more.now) }
    {
        self.table.append_shared(&more.table)
    }
}

/// Whether the item states a theorem.
pub fn is_theorem(item: &Item) -> bool
    ensures { result ≡ is_some (theorem_of item.now) }
{
    match item {
        Item::Axiom(_) => true,
        Item::Theorem(_) => true,
        _ => false,
    }
}

/// Whether the item states a scheme.
pub fn is_scheme(item: &Item) -> bool
    ensures { result ≡ is_some (scheme_of item.now) }
{
    match item {
        Item::AxiomScheme(_) => true,
        Item::Scheme(_) => true,
        _ => false,
    }
}

/// Whether the item has a definitional theorem.
pub fn has_definitional_theorem(item: &Item) -> bool
    ensures { result ≡ is_some (definitional_theorem item.now) }
{
    match item {
        Item::FunctorMeans(_) => true,
        Item::FunctorEquals(_) => true,
        Item::Predicate(_) => true,
        Item::Attribute(_) => true,
        Item::ModeMeans(_) => true,
        Item::RedefinedFunctor(d) => match &d.meaning {
            None => false,
            Some(FunctorMeaning::Means(_)) => true,
            Some(FunctorMeaning::Equals(_)) => true,
        },
        Item::RedefinedMode(d) => match &d.meaning {
            None => false,
            Some(_) => true,
        },
        Item::RedefinedPredicate(d) => match &d.meaning {
            None => false,
            Some(_) => true,
        },
        Item::RedefinedAttribute(d) => match &d.meaning {
            None => false,
            Some(_) => true,
        },
        _ => false,
    }
}

fn one_statement(
    alloc: Global,
    is_definition: bool,
    article: u64,
    above: u64,
    statement: Statement,
) -> Result<CitedStatements, AllocError>
    ensures { IfOk result (λ xs. xs ≡ statement_cited is_definition article above (Some statement)) }
{
    let number = above.checked_add(1).ok_or(AllocError)?;
    let mut out = CitedStatements::new(alloc);
    out.push(CitedStatement {
        article,
        is_definition,
        number,
        statement,
    })?;
    Ok(out)
}

fn one_scheme(
    alloc: Global,
    article: u64,
    above: u64,
    x: &Scheme,
) -> Result<CitedSchemes, AllocError>
    ensures { IfOk result (λ xs. xs ≡ scheme_cited article above (Some x.now)) }
{
    let number = above.checked_add(1).ok_or(AllocError)?;
    let scheme = scheme_copy(alloc, x)?;
    let mut out = CitedSchemes::new(alloc);
    out.push(CitedScheme {
        article,
        number,
        scheme,
    })?;
    Ok(out)
}

fn theorem_cited(alloc: Global, at: Numbering, item: &Item) -> Result<CitedStatements, AllocError>
    ensures { IfOk result (λ xs. xs ≡ statement_cited false at.article at.theorems (theorem_of item.now)) }
{
    match item {
        Item::Axiom(s) => one_statement(alloc, false, at.article, at.theorems, s.copy(alloc)?),
        Item::Theorem(s) => one_statement(alloc, false, at.article, at.theorems, s.copy(alloc)?),
        _ => Ok(CitedStatements::new(alloc)),
    }
}

fn definition_cited(
    alloc: Global,
    at: Numbering,
    item: &Item,
) -> Result<CitedStatements, AllocError>
    ensures { IfOk result (λ xs. xs ≡ statement_cited true at.article at.definitions (definitional_theorem item.now)) }
{
    let statement = definitional_theorem(alloc, item)?;
    match statement {
        None => Ok(CitedStatements::new(alloc)),
        Some(s) => one_statement(alloc, true, at.article, at.definitions, s),
    }
}

/// The theorem and the definitional theorem of an item, by which it may be cited.
pub fn statements_cited(
    alloc: Global,
    at: Numbering,
    item: &Item,
) -> Result<CitedStatements, AllocError>
    ensures { IfOk result (λ xs. xs ≡ statements_cited at item.now) }
{
    let mut out = theorem_cited(alloc, at, item)?;
    let more = definition_cited(alloc, at, item)?;
    out.append(&more)?;
    Ok(out)
}

/// The scheme that an item states.
pub fn schemes_cited(alloc: Global, at: Numbering, item: &Item) -> Result<CitedSchemes, AllocError>
    ensures { IfOk result (λ xs. xs ≡ schemes_cited at item.now) }
{
    match item {
        Item::AxiomScheme(s) => one_scheme(alloc, at.article, at.schemes, s),
        Item::Scheme(s) => one_scheme(alloc, at.article, at.schemes, s),
        _ => Ok(CitedSchemes::new(alloc)),
    }
}
