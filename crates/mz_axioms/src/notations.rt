//! The notations of HIDDEN.
ghost use Rattle.std.specs.Prelude.{◌≡◌, ◌∷◌, [], true, false, codes, map, IfOk};
ghost use Rattle.mz_logic.specs.Term.{Bound};
ghost use Rattle.mz_logic.specs.declared.literal.Literal.TheVariants as literal;
ghost use Rattle.mz_core.specs.Hidden.{in_predicate};
ghost use Rattle.mz_core.specs.Hidden.{object_type};
ghost use Rattle.mz_axioms.specs.BuiltIn.{mode_notation, predicate_notation, hidden_notations};

use mz_base::numbers::Numbers;
use mz_base::text::Text;
use mz_core::hidden::{in_predicate, object_type, set_type};
use mz_core::notation::{Meaning, Notation};
use mz_core::notations::Notations;
use mz_core::pattern::Pattern;
use mz_core::soft_type::SoftType;
use mz_core::soft_types::SoftTypes;
use mz_logic::kind::Kind;
use mz_logic::literal::Literal;
use mz_logic::term::{Term, Terms};
use std::alloc::{AllocError, Global};

fn mode_notation(alloc: Global, symbol: &[u8], ty: SoftType) -> Result<Notation, AllocError>
    ensures { IfOk result (λ n. n ≡ mode_notation symbol.now ty) }
{
    let pattern = Pattern {
        symbol: Text::from_slice(alloc, symbol)?,
        closing: Text::new(alloc),
        kind: Kind::Mode,
        loci: SoftTypes::new(alloc),
        left: Numbers::new(alloc),
        right: Numbers::new(alloc),
    };
    Ok(Notation {
        pattern,
        meaning: Meaning::OfType(ty),
    })
}

fn two_objects(alloc: Global) -> Result<SoftTypes, AllocError>
    ensures { IfOk result (λ tys. tys ≡ object_type ∷ object_type ∷ []) }
{
    let mut loci = SoftTypes::new(alloc);
    loci.push(object_type(alloc))?;
    loci.push(object_type(alloc))?;
    Ok(loci)
}

fn predicate_notation(alloc: Global, symbol: &[u8], l: Literal) -> Result<Notation, AllocError>
    ensures { IfOk result (λ n. n ≡ predicate_notation symbol.now l) }
{
    let l = Box::new(alloc, l)?;
    let pattern = Pattern {
        symbol: Text::from_slice(alloc, symbol)?,
        closing: Text::new(alloc),
        kind: Kind::Predicate,
        loci: two_objects(alloc)?,
        left: Numbers::from_slice(alloc, &[0])?,
        right: Numbers::from_slice(alloc, &[1])?,
    };
    Ok(Notation {
        pattern,
        meaning: Meaning::OfLiteral(Box::into_inner(l)),
    })
}

fn equation(positive: bool) -> Literal
    ensures { result ≡ literal.Eq positive (Bound 1) (Bound 0) }
{
    Literal::Eq {
        positive,
        left: Term::bound(1),
        right: Term::bound(0),
    }
}

fn membership(alloc: Global) -> Result<Literal, AllocError>
    ensures { IfOk result (λ l. l ≡ literal.Atom true in_predicate (Bound 1 ∷ Bound 0 ∷ [])) }
{
    let mut args = Terms::new(alloc);
    args.push(Term::bound(1))?;
    args.push(Term::bound(0))?;
    Ok(Literal::Atom {
        positive: true,
        sym: in_predicate(),
        args,
    })
}

/// The notations `object`, `set`, `=`, `<>` and `in`.
pub fn hidden_notations(alloc: Global) -> Result<Notations, AllocError>
    ensures { IfOk result (λ ns. ns ≡ hidden_notations) }
{
    let mut out = Notations::new(alloc);
    out.push(mode_notation(alloc, b"object", object_type(alloc))?)?;
    out.push(mode_notation(alloc, b"set", set_type(alloc))?)?;
    out.push(predicate_notation(alloc, b"=", equation(true))?)?;
    out.push(predicate_notation(alloc, b"<>", equation(false))?)?;
    out.push(predicate_notation(alloc, b"in", membership(alloc)?)?)?;
    Ok(out)
}
