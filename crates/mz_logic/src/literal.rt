//! Literals.
ghost use Rattle.std.specs.Prelude.{◌≡◌, ◌↔◌, IfOk, IsTrue};
ghost use Rattle.mz_logic.specs.Literal.{signed, literal_formula};

use crate::formula::Formula;
use crate::sym::Sym;
use crate::term::{Term, Terms};
use std::alloc::{AllocError, Global};

/// An atom or an equation, or the negation of one where it is not positive.
#[derive(Drop)]
pub enum Literal {
    Atom {
        positive: bool,
        sym: Sym,
        args: Terms,
    },
    Eq {
        positive: bool,
        left: Term,
        right: Term,
    },
}

impl Literal {
    /// Whether the literals are equal.
    pub fn equals(&self, other: &Literal) -> bool
        ensures { IsTrue result ↔ (self.now ≡ other.now) }
    {
        match (self, other) {
            (
                Literal::Atom {
                    positive: p,
                    sym: r,
                    args: ts,
                },
                Literal::Atom {
                    positive: q,
                    sym: s,
                    args: us,
                },
            ) => *p == *q && r.is(*s) && ts.equals(us),
            (
                Literal::Eq {
                    positive: p,
                    left: t,
                    right: u,
                },
                Literal::Eq {
                    positive: q,
                    left: v,
                    right: w,
                },
            ) => *p == *q && t.equals(v) && u.equals(w),
            _ => false,
        }
    }

    /// An equal literal.
    pub fn copy(&self, alloc: Global) -> Result<Literal, AllocError>
        ensures { IfOk result (λ l. l ≡ self.now) }
    {
        match self {
            Literal::Atom {
                positive,
                sym,
                args,
            } => {
                let args = args.copy(alloc)?;
                Ok(Literal::Atom {
                    positive: *positive,
                    sym: *sym,
                    args,
                })
            }
            Literal::Eq {
                positive,
                left,
                right,
            } => {
                let left = left.copy(alloc)?;
                let right = right.copy(alloc)?;
                Ok(Literal::Eq {
                    positive: *positive,
                    left,
                    right,
                })
            }
        }
    }

    /// The literal as a formula.
    pub fn formula(&self, alloc: Global) -> Result<Formula, AllocError>
        ensures { IfOk result (λ f. f ≡ literal_formula self.now) }
    {
        match self {
            Literal::Atom {
                positive,
                sym,
                args,
            } => {
                let args = args.copy(alloc)?;
                signed(alloc, *positive, Formula::atom(*sym, args))
            }
            Literal::Eq {
                positive,
                left,
                right,
            } => {
                let left = left.copy(alloc)?;
                let right = right.copy(alloc)?;
                signed(alloc, *positive, Formula::equation(left, right))
            }
        }
    }
}

fn signed(alloc: Global, positive: bool, f: Formula) -> Result<Formula, AllocError>
    ensures { IfOk result (λ g. g ≡ signed positive f) }
{
    if positive {
        Ok(f)
    } else {
        Formula::not(alloc, f)
    }
}
