//! What the entries of an environment are found by.
ghost use Rattle.std.specs.Prelude.{◌≡◌, nat_eq};
ghost use Rattle.std.specs.Str.{bytes_eq};
ghost use Rattle.mz_environment.specs.Keys.{sym_key, has_key, head_symbol, head_has};
ghost use Rattle.mz_environment.specs.KeyLaws.{respects_key, respects_head, respects_bytes, respects_number};

use crate::cited::{CitedScheme, CitedStatement};
use crate::rows::Row;
use crate::unfoldings::Unfolding;
use mz_core::notation::Notation;
use mz_core::registration::ExistentialRegistration;
use mz_core::structure::Structure;
use mz_ground::trigger::Trigger;
use mz_logic::sym::Sym;
use mz_logic::term::TermNode;
use mz_table::key_of::KeyOf;
use std::alloc::{AllocError, Global};

/// A symbol by its article, the place of its kind and its number.
pub type SymKey = ((u64, u8), u32);

/// Entries by their symbols.
#[derive(Drop)]
pub struct BySymbol;

/// Entries by the number of their article's name.
#[derive(Drop)]
pub struct ByArticle;

/// The parts of a symbol.
pub fn sym_key(s: Sym) -> SymKey
    ensures { result ≡ sym_key s }
{
    ((s.article, s.kind.code()), s.number)
}

impl KeyOf<SymKey, Row> for BySymbol {
    ghost has = { λ k x. has_key k x.sym };

    #[tactic(auto, using(crate::proofs::KeyLemmas::key_rules))]
    fn key(_alloc: Global, x: &Row) -> Result<SymKey, AllocError> {
        let key = sym_key(x.sym);
        Ok(key)
    }

    ghost respects = { λ k q e x. respects_key k q e x.sym };
}

impl KeyOf<SymKey, Structure> for BySymbol {
    ghost has = { λ k x. has_key k x.sym };

    #[tactic(auto, using(crate::proofs::KeyLemmas::key_rules))]
    fn key(_alloc: Global, x: &Structure) -> Result<SymKey, AllocError> {
        let key = sym_key(x.sym);
        Ok(key)
    }

    ghost respects = { λ k q e x. respects_key k q e x.sym };
}

impl KeyOf<SymKey, ExistentialRegistration> for BySymbol {
    ghost has = { λ k x. has_key k x.ty.radix.sym };

    #[tactic(auto, using(crate::proofs::KeyLemmas::key_rules))]
    fn key(_alloc: Global, x: &ExistentialRegistration) -> Result<SymKey, AllocError> {
        let key = sym_key(x.ty.radix.sym);
        Ok(key)
    }

    ghost respects = { λ k q e x. respects_key k q e x.ty.radix.sym };
}

/// The symbol of a head, if it has one: that of the application or of the atom.
fn head_symbol(r: &Trigger) -> Option<Sym>
    ensures { result ≡ head_symbol r.now }
{
    match r {
        Trigger::Term(t) => match &t.node {
            TermNode::Bound(_) => None,
            TermNode::Const(_) => None,
            TermNode::App(s, _) => Some(*s),
        },
        Trigger::Atom(s, _) => Some(*s),
    }
}

impl KeyOf<Option<SymKey>, Unfolding> for BySymbol {
    ghost has = { λ k x. head_has k (head_symbol x.head) };

    #[tactic(auto, using(crate::proofs::KeyLemmas::head_rules))]
    fn key(_alloc: Global, x: &Unfolding) -> Result<Option<SymKey>, AllocError> {
        match head_symbol(&x.head) {
            None => Ok(None),
            Some(s) => {
                let key = sym_key(s);
                Ok(Some(key))
            }
        }
    }

    ghost respects = { λ k q e x. respects_head k q e (head_symbol x.head) };
}

impl KeyOf<Vec<u8>, Notation> for BySymbol {
    ghost has = { λ k x. bytes_eq x.pattern.symbol k.items };

    #[tactic(auto, using(crate::proofs::KeyLemmas::bytes_rules))]
    fn key(alloc: Global, x: &Notation) -> Result<Vec<u8>, AllocError> {
        let key = Vec::from_slice(alloc, x.pattern.symbol.as_slice())?;
        Ok(key)
    }

    ghost respects = { λ k q e x. respects_bytes k.items q.items e x.pattern.symbol };
}

impl KeyOf<u64, CitedStatement> for ByArticle {
    ghost has = { λ k x. nat_eq x.article k };

    #[tactic(auto, using(crate::proofs::KeyLemmas::number_rules))]
    fn key(_alloc: Global, x: &CitedStatement) -> Result<u64, AllocError> {
        Ok(x.article)
    }

    ghost respects = { λ k q e x. respects_number k q e x.article };
}

impl KeyOf<u64, CitedScheme> for ByArticle {
    ghost has = { λ k x. nat_eq x.article k };

    #[tactic(auto, using(crate::proofs::KeyLemmas::number_rules))]
    fn key(_alloc: Global, x: &CitedScheme) -> Result<u64, AllocError> {
        Ok(x.article)
    }

    ghost respects = { λ k q e x. respects_number k q e x.article };
}
