//! Whether the constructors of a registration are let in.
ghost use Rattle.std.specs.Prelude.{◌≡◌};
ghost use Rattle.mz_env.specs.Symbols.{registration_in};
ghost use Rattle.mz_env.specs.Shares.{is_registration};

use crate::articles::Articles;
use crate::symbols::{adjectives_in, term_in, type_if_any_in, type_in, types_in};
use mz_core::item::Item;

/// Whether the item is a registration.
pub fn is_registration(item: &Item) -> bool
    ensures { result ≡ is_registration item.now }
{
    match item {
        Item::Existential(_) => true,
        Item::Conditional(_) => true,
        Item::Functorial(_) => true,
        Item::Reduction(_) => true,
        Item::Identification(_) => true,
        _ => false,
    }
}

/// Whether each constructor that the registration names is let in; another item names none.
pub fn registration_in(articles: &Articles, item: &Item) -> bool
    ensures { result ≡ registration_in articles.now item.now }
{
    match item {
        Item::Existential(r) => {
            types_in(articles, &r.loci)
                && adjectives_in(articles, &r.adjectives)
                && type_in(articles, &r.ty)
        }
        Item::Conditional(r) => {
            types_in(articles, &r.loci)
                && adjectives_in(articles, &r.from)
                && adjectives_in(articles, &r.to)
                && type_in(articles, &r.ty)
        }
        Item::Functorial(r) => {
            types_in(articles, &r.loci)
                && term_in(articles, &r.term)
                && adjectives_in(articles, &r.adjectives)
                && type_if_any_in(articles, &r.ty)
        }
        Item::Reduction(r) => {
            types_in(articles, &r.loci) && term_in(articles, &r.left) && term_in(articles, &r.right)
        }
        Item::Identification(r) => {
            types_in(articles, &r.loci) && term_in(articles, &r.left) && term_in(articles, &r.right)
        }
        _ => true,
    }
}
