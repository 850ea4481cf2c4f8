//! What was read of the parts of a run.
ghost use Rattle.std.specs.Prelude.{◌≡◌, ◌∷◌, [], IfOk, OnOk};
ghost use Rattle.mz_terms.specs.Values.{top_if, rest_if, terms_in, first_in, put_terms, put_term, one_of, as_list};

use mz_base::place::Place;
use mz_logic::term::{Term, Terms};
use mz_names::refusal::Refusal;
use std::alloc::{AllocError, Global};
use std::marker::Model;

/// The terms of an operand, or of what a symbol is applied to, with the place of its first token. A list in parentheses has
/// several.
#[derive(Drop)]
pub struct RunValue {
    pub first: Place,
    pub terms: Terms,
}

/// Values, as contracts see them the one read last in front.
#[derive(Drop)]
pub struct Values {
    pub items: Vec<RunValue>,
}

impl Model for Values {
    ghost use Rattle.std.specs.Prelude.{List, reverse};
    ghost use Rattle.std.specs.Coded.{coded_list};
    ghost use Rattle.mz_terms.specs.declared.values.RunValue.{RunValue};
    ghost use Rattle.mz_terms.specs.contracts.values.RunValue.{the_row};

    ghost Value = { List RunValue };

    ghost coded = { coded_list the_row.coded };

    ghost view = { λ a. reverse a.items.items };
}

impl Values {
    /// None.
    pub fn new(alloc: Global) -> Values
        ensures { result ≡ [] }
    {
        Values {
            items: Vec::new(alloc),
        }
    }

    /// Puts one in front.
    #[tactic(auto, using(crate::proofs::ValueLemmas::value_rules))]
    pub fn push(&mut self, v: RunValue) -> Result<(), AllocError>
        ensures { OnOk result (self.new ≡ v ∷ self.old) }
    {
        self.items.push(v)?;
        Ok(())
    }

    /// Takes the one in front, where one is wanted.
    #[tactic(auto, using(crate::proofs::ValueLemmas::value_rules))]
    pub fn pop_if(&mut self, wanted: bool) -> Option<RunValue>
        ensures top { result ≡ top_if wanted self.old }
        ensures rest { self.new ≡ rest_if wanted self.old }
    {
        if wanted { self.items.pop() } else { None }
    }
}

/// The value's terms.
pub fn terms_in(alloc: Global, v: Option<RunValue>) -> Terms
    ensures { result ≡ terms_in v }
{
    match v {
        None => Terms::new(alloc),
        Some(v) => v.terms,
    }
}

/// The place of its first token.
pub fn first_in(place: Place, v: &Option<RunValue>) -> Place
    ensures { result ≡ first_in place v.now }
{
    match v {
        None => place,
        Some(v) => v.first,
    }
}

/// Terms put to the values, or the refusal.
pub fn put_terms(
    first: Place,
    vs: Values,
    o: Result<Terms, Refusal>,
) -> Result<Result<Values, Refusal>, AllocError>
    ensures { IfOk result (λ p. p ≡ put_terms first vs o) }
{
    match o {
        Err(r) => Ok(Err(r)),
        Ok(terms) => {
            let mut out = vs;
            out.push(RunValue { first, terms })?;
            Ok(Ok(out))
        }
    }
}

/// A term put to the values, or the refusal.
pub fn put_term(
    alloc: Global,
    first: Place,
    vs: Values,
    o: Result<Term, Refusal>,
) -> Result<Result<Values, Refusal>, AllocError>
    ensures { IfOk result (λ p. p ≡ put_term first vs o) }
{
    match o {
        Err(r) => Ok(Err(r)),
        Ok(t) => {
            let mut terms = Terms::new(alloc);
            terms.push(t)?;
            let mut out = vs;
            out.push(RunValue { first, terms })?;
            Ok(Ok(out))
        }
    }
}

/// The one term that was read; several in parentheses are none.
pub fn one_of(first: Place, ts: Terms) -> Result<Term, Refusal>
    ensures { result ≡ one_of first ts }
{
    let mut out = ts;
    if out.items.len() != 1 {
        return Err(Refusal::NoNotation(first));
    }
    match out.items.pop() {
        Some(t) => Ok(t),
        None => Err(Refusal::NoNotation(first)),
    }
}

/// The term as a list, or the refusal.
pub fn as_list(
    alloc: Global,
    o: Result<Term, Refusal>,
) -> Result<Result<Terms, Refusal>, AllocError>
    ensures { IfOk result (λ p. p ≡ as_list o) }
{
    match o {
        Err(r) => Ok(Err(r)),
        Ok(t) => {
            let mut ts = Terms::new(alloc);
            ts.push(t)?;
            Ok(Ok(ts))
        }
    }
}
