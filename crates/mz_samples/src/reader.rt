//! What is read of a text, word by word.
use crate::fault::SampleFault;
use crate::pieces::Builder;
use crate::symbols::{makes_terms, number, symbol};
use mz_logic::conjunction::implies;
use mz_logic::formula::Formula;
use mz_logic::formulas::Formulas;
use mz_logic::sym::Sym;
use mz_logic::term::{Term, Terms};
use std::alloc::Global;
use std::mem;

/// The first word in parentheses.
#[derive(Clone, Copy)]
enum Head {
    Equals,
    Not,
    And,
    Or,
    Implies,
    All,
    Symbol(Sym),
}

impl Head {
    fn of(word: &str) -> Option<Head> {
        match word {
            "=" => Some(Head::Equals),
            "not" => Some(Head::Not),
            "and" => Some(Head::And),
            "or" => Some(Head::Or),
            "implies" => Some(Head::Implies),
            "all" => Some(Head::All),
            _ => Some(Head::Symbol(symbol(word)?)),
        }
    }

    /// Whether so many terms and formulas may stand behind it.
    fn takes(self, terms: usize, formulas: usize) -> bool {
        match self {
            Head::Equals => terms == 2 && formulas == 0,
            Head::Not | Head::All => terms == 0 && formulas == 1,
            Head::And | Head::Or | Head::Implies => terms == 0 && formulas == 2,
            Head::Symbol(_) => formulas == 0,
        }
    }
}

/// What stands before an open parenthesis, and the first word behind it.
#[derive(Drop)]
struct Outer {
    terms: Terms,
    formulas: Formulas,
    head: Head,
}

/// The terms and formulas of a text as far as it is read, in the innermost parentheses that are open.
#[derive(Drop)]
pub struct Reader {
    pub terms: Terms,
    pub formulas: Formulas,
    outer: Vec<Outer>,
}

/// The last term of a list.
pub fn last_term(terms: &mut Terms) -> Result<Term, SampleFault> {
    terms.items.pop().ok_or(SampleFault::Text)
}

/// The last formula of a list.
pub fn last_formula(formulas: &mut Formulas) -> Result<Formula, SampleFault> {
    formulas.items.pop().ok_or(SampleFault::Text)
}

fn equation(terms: &mut Terms) -> Result<Formula, SampleFault> {
    let right = last_term(terms)?;
    let left = last_term(terms)?;
    Ok(Formula::equation(left, right))
}

/// `not (not F & not G)`.
fn disjunction(alloc: Global, f: Formula, g: Formula) -> Result<Formula, SampleFault> {
    let f = Formula::not(alloc, f)?;
    let g = Formula::not(alloc, g)?;
    let both = Formula::and(alloc, f, g)?;
    Ok(Formula::not(alloc, both)?)
}

fn connected(alloc: Global, head: Head, formulas: &mut Formulas) -> Result<Formula, SampleFault> {
    let g = last_formula(formulas)?;
    match head {
        Head::Not => Ok(Formula::not(alloc, g)?),
        Head::All => Ok(Formula::all(alloc, g)?),
        Head::And => Ok(Formula::and(alloc, last_formula(formulas)?, g)?),
        Head::Or => disjunction(alloc, last_formula(formulas)?, g),
        _ => Ok(implies(alloc, last_formula(formulas)?, g)?),
    }
}

impl Reader {
    /// A reader before the first word.
    pub fn new(alloc: Global) -> Reader {
        Reader {
            terms: Terms::new(alloc),
            formulas: Formulas::new(alloc),
            outer: Vec::new(alloc),
        }
    }

    fn apply(&mut self, sym: Sym, terms: Terms) -> Result<(), SampleFault> {
        if makes_terms(sym.kind) {
            self.terms.push(Term::apply(sym, terms))?;
        } else {
            self.formulas.push(Formula::atom(sym, terms))?;
        }
        Ok(())
    }
}

impl Builder for Reader {
    fn open(&mut self, alloc: Global, word: &str) -> Result<(), SampleFault> {
        let head = Head::of(word).ok_or(SampleFault::Text)?;
        let terms = mem::replace(&mut self.terms, Terms::new(alloc));
        let formulas = mem::replace(&mut self.formulas, Formulas::new(alloc));
        self.outer.push(Outer {
            terms,
            formulas,
            head,
        })?;
        Ok(())
    }

    fn close(&mut self, alloc: Global) -> Result<(), SampleFault> {
        let outer = self.outer.pop().ok_or(SampleFault::Text)?;
        let mut terms = mem::replace(&mut self.terms, outer.terms);
        let mut formulas = mem::replace(&mut self.formulas, outer.formulas);
        if !outer.head.takes(terms.len(), formulas.len()) {
            return Err(SampleFault::Text);
        }
        let f = match outer.head {
            Head::Symbol(sym) => return self.apply(sym, terms),
            Head::Equals => equation(&mut terms)?,
            head => connected(alloc, head, &mut formulas)?,
        };
        self.formulas.push(f)?;
        Ok(())
    }

    /// A word that stands alone: `bI`, `cI`, `true` or a symbol.
    fn word(&mut self, alloc: Global, word: &str) -> Result<(), SampleFault> {
        if word == "true" {
            self.formulas.push(Formula::truth())?;
            return Ok(());
        }
        if let Some(sym) = symbol(word) {
            return self.apply(sym, Terms::new(alloc));
        }
        let t = match word.as_bytes() {
            [b'b', digits @ ..] => Term::bound(number(digits).ok_or(SampleFault::Text)?),
            [b'c', digits @ ..] => Term::constant(number(digits).ok_or(SampleFault::Text)?),
            _ => return Err(SampleFault::Text),
        };
        self.terms.push(t)?;
        Ok(())
    }

    fn is_whole(&self) -> bool {
        self.outer.is_empty()
    }
}
