//! Contexts.
ghost use Rattle.std.specs.Prelude.{◌≡◌, ◌<◌, ◌≤◌, [], None, length, IfOk, OnOk, OnErr};
ghost use Rattle.mz_context.specs.Context.{next};
ghost use Rattle.mz_context.specs.Changes.{with_constant, without_constant, with_statement, mark_of, cut_back};

use crate::constants::{Constant, Constants};
use crate::labelled::LabelledStatements;
use crate::labelled_schemes::LabelledSchemes;
use crate::letters::NamedLetters;
use crate::private::{PrivateFunctors, PrivatePredicates};
use crate::reserved::ReservedVariables;
use mz_base::text::Text;
use mz_core::statement::Statement;
use mz_logic::term::{Term, Terms};
use std::alloc::{AllocError, Global};

/// How far the lists of a context reach at a place.
#[derive(Clone, Copy, Debug, PartialEq, Eq)]
pub struct Mark {
    pub constants: usize,
    pub reserved: usize,
    pub labelled: usize,
    pub functors: usize,
    pub predicates: usize,
    pub letters: usize,
}

/// How many symbols of each kind an article has made.
#[derive(Clone, Copy, Debug, PartialEq, Eq)]
pub struct SymbolCounts {
    pub modes: u32,
    pub structures: u32,
    pub attributes: u32,
    pub functors: u32,
    pub selectors: u32,
    pub aggregates: u32,
    pub predicates: u32,
    pub functor_letters: u32,
    pub predicate_letters: u32,
}

/// What is known at a place of an article: the number of its name, and how many symbols of each kind it has made; the
/// constants in force; the reserved variables; the labelled statements, and the statement just before, where there is
/// one; the labelled schemes, whose labels are a name space of their own; the private functors and predicates; the letters of the scheme around the place; what `thesis` is read to, where
/// it is known; what `it`, `$1` and so on, and the subject of a field's type stand for, each where it is known.
#[derive(Drop)]
pub struct Context {
    pub article: u64,
    pub counts: SymbolCounts,
    pub constants: Constants,
    pub reserved: ReservedVariables,
    pub labelled: LabelledStatements,
    pub previous: Option<Statement>,
    pub schemes: LabelledSchemes,
    pub functors: PrivateFunctors,
    pub predicates: PrivatePredicates,
    pub letters: NamedLetters,
    pub thesis: Option<Statement>,
    pub it: Option<Term>,
    pub arguments: Terms,
    pub subject: Option<Term>,
}

impl Context {
    /// The context at the start of an article.
    pub fn new(alloc: Global, article: u64, counts: SymbolCounts) -> Context
        ensures article { result.article ≡ article }
        ensures counts { result.counts ≡ counts }
        ensures constants { result.constants ≡ [] }
        ensures reserved { result.reserved ≡ [] }
        ensures labelled { result.labelled ≡ [] }
        ensures previous { result.previous ≡ None }
        ensures schemes { result.schemes ≡ [] }
        ensures functors { result.functors ≡ [] }
        ensures predicates { result.predicates ≡ [] }
        ensures letters { result.letters ≡ [] }
        ensures thesis { result.thesis ≡ None }
        ensures it { result.it ≡ None }
        ensures arguments { result.arguments ≡ [] }
        ensures subject { result.subject ≡ None }
    {
        Context {
            article,
            counts,
            constants: Constants::new(alloc),
            reserved: ReservedVariables::new(alloc),
            labelled: LabelledStatements::new(alloc),
            previous: None,
            schemes: LabelledSchemes::new(alloc),
            functors: PrivateFunctors::new(alloc),
            predicates: PrivatePredicates::new(alloc),
            letters: NamedLetters::new(alloc),
            thesis: None,
            it: None,
            arguments: Terms::new(alloc),
            subject: None,
        }
    }

    /// The number of the next constant: one above the greatest in force.
    pub fn next(&self) -> usize
        ensures { result ≡ next self.now }
    {
        self.constants.items.len() + 1
    }

    /// Puts a constant into force under the next number. More than 4,294,967,295 are as no memory.
    pub fn add(&mut self, k: Constant) -> Result<u32, AllocError>
        ensures number { IfOk result (λ n. n ≡ next self.old) }
        ensures ok { OnOk result (self.new ≡ with_constant self.old k) }
        ensures err { OnErr result (self.new ≡ self.old) }
    {
        let count = self.constants.items.len();
        if count >= 4294967295 {
            return Err(AllocError);
        }
        self.constants.push(k)?;
        Ok(count as u32 + 1)
    }

    /// Takes the constant with the number out of force.
    pub fn release(&mut self, number: u32)
        requires number { 0 < number }
        requires within { number ≤ length self.old.constants }
        ensures { self.new ≡ without_constant self.old number }
    {
        self.constants.release(number)
    }

    /// Makes the statement the one just before, and puts it under the label; an empty label is none.
    pub fn state(&mut self, alloc: Global, label: Text, s: Statement) -> Result<(), AllocError>
        ensures ok { OnOk result (self.new ≡ with_statement self.old label s) }
        ensures err { OnErr result (self.new ≡ self.old) }
    {
        self.labelled.push_if_any(alloc, label, &s)?;
        self.previous = Some(s);
        Ok(())
    }

    /// How far the lists reach.
    pub fn mark(&self) -> Mark
        ensures { result ≡ mark_of self.now }
    {
        Mark {
            constants: self.constants.items.len(),
            reserved: self.reserved.items.len(),
            labelled: self.labelled.items.len(),
            functors: self.functors.items.len(),
            predicates: self.predicates.items.len(),
            letters: self.letters.items.len(),
        }
    }

    /// Cuts the lists back to the mark. What `thesis`, `it` and the like stand for, and the statement just before,
    /// stay; so do labelled schemes, since a scheme stands in no block.
    pub fn restore(&mut self, m: Mark)
        ensures { self.new ≡ cut_back self.old m }
    {
        self.constants.cut_back(m.constants);
        self.reserved.items.truncate(m.reserved);
        self.labelled.items.truncate(m.labelled);
        self.functors.items.truncate(m.functors);
        self.predicates.items.truncate(m.predicates);
        self.letters.items.truncate(m.letters);
    }
}
