//! The symbols of HIDDEN that the rules speak of, and their types and atoms.
ghost use Rattle.std.specs.Prelude.{◌≡◌, [], ◌∷◌, IfOk};
ghost use Rattle.mz_core.specs.Hidden.{object_mode, set_mode, in_predicate, is_of_any_object, object_type, set_type, is_in};

use crate::adjectives::Adjectives;
use crate::radix::Radix;
use crate::soft_type::SoftType;
use crate::statement::Statement;
use mz_base::name::Name;
use mz_logic::kind::Kind;
use mz_logic::sym::Sym;
use mz_logic::term::{Term, Terms};
use std::alloc::{AllocError, Global};

/// The mode `object`.
pub fn object_mode() -> Sym
    ensures { result ≡ object_mode }
{
    Sym {
        article: Name::hidden().number(),
        kind: Kind::Mode,
        number: 1,
    }
}

/// The mode `set`.
pub fn set_mode() -> Sym
    ensures { result ≡ set_mode }
{
    Sym {
        article: Name::hidden().number(),
        kind: Kind::Mode,
        number: 2,
    }
}

/// The predicate `in`.
pub fn in_predicate() -> Sym
    ensures { result ≡ in_predicate }
{
    Sym {
        article: Name::hidden().number(),
        kind: Kind::Predicate,
        number: 1,
    }
}

/// Whether a radix of this symbol has no literal.
pub fn is_of_any_object(s: Sym) -> bool
    ensures { result ≡ is_of_any_object s }
{
    s.is(object_mode()) || s.is(set_mode())
}

/// The type `object`.
pub fn object_type(alloc: Global) -> SoftType
    ensures { result ≡ object_type }
{
    SoftType {
        adjectives: Adjectives::new(alloc),
        radix: Radix {
            sym: object_mode(),
            args: Terms::new(alloc),
        },
    }
}

/// The type `set`.
pub fn set_type(alloc: Global) -> SoftType
    ensures { result ≡ set_type }
{
    SoftType {
        adjectives: Adjectives::new(alloc),
        radix: Radix {
            sym: set_mode(),
            args: Terms::new(alloc),
        },
    }
}

/// `t in u`.
pub fn is_in(alloc: Global, t: Term, u: Term) -> Result<Statement, AllocError>
    ensures { IfOk result (λ s. s ≡ is_in t u) }
{
    let mut args = Terms::new(alloc);
    args.push(t)?;
    args.push(u)?;
    Ok(Statement::atom(in_predicate(), args))
}
