//! Lists of numbers of ground atoms, by symbol.
ghost use Rattle.std.specs.Prelude.{◌≡◌, MatchOption, IfOk, OnOk, []};
ghost use Rattle.mz_logic.specs.declared.sym.Sym.{Sym};
ghost use Rattle.mz_congruence.specs.Signature.{sym_code};
ghost use Rattle.mz_classes.specs.SymLists.{sym_list, HasPlaces, HasList, HasOneMore};

use crate::number_lists::NumberLists;
use crate::numbers::Numbers;
use mz_congruence::signatures::Signatures;
use mz_logic::sym::Sym;
use std::alloc::{AllocError, Global};

/// Lists of numbers of ground atoms, by symbol: the place of each symbol's list, by its code, and the lists.
#[derive(Drop)]
pub struct SymLists {
    places: Signatures,
    lists: NumberLists,
}

fn key_of(sym: Sym) -> [usize; 4]
    ensures { result ≡ sym_code 0 sym }
{
    [
        0,
        sym.article as usize,
        sym.kind.code() as usize,
        sym.number as usize,
    ]
}

impl SymLists {
    /// No list.
    #[tactic(auto, using(crate::proofs::SymListLemmas::new_rules))]
    pub fn new(alloc: Global) -> SymLists
        ensures places { HasPlaces result }
        ensures empty { (s : Sym) → sym_list result s ≡ [] }
    {
        SymLists {
            places: Signatures::new(alloc),
            lists: NumberLists::new(alloc),
        }
    }

    /// The list of a symbol; there is none where it is empty.
    #[tactic(auto, using(crate::proofs::SymListLemmas::get_rules))]
    pub fn get(&self, sym: Sym) -> Option<&Numbers>
        ensures { MatchOption result (sym_list self.now sym ≡ []) (λ xs. xs.now ≡ sym_list self.now sym) }
    {
        match self.places.find(&key_of(sym)) {
            Some(place) => self.lists.get(place),
            None => None,
        }
    }

    /// Puts a number at the end of the list of a symbol.
    #[tactic(auto, using(crate::proofs::SymListLemmas::push_rules))]
    pub fn push(&mut self, alloc: Global, sym: Sym, number: u32) -> Result<(), AllocError>
        requires { HasPlaces self.old }
        ensures { OnOk result (HasOneMore self.old sym number self.new) }
    {
        let place = self.place(alloc, sym)?;
        self.lists.push(place, number)
    }

    // The place of the list of a symbol, which is made where there is none.
    #[tactic(auto, using(crate::proofs::SymListLemmas::place_rules))]
    fn place(&mut self, alloc: Global, sym: Sym) -> Result<usize, AllocError>
        requires { HasPlaces self.old }
        ensures { IfOk result (λ place. HasList self.old sym self.new place) }
    {
        let key = key_of(sym);
        match self.places.find(&key) {
            Some(place) => Ok(place),
            None => {
                let place = self.lists.len();
                let code = Vec::from_slice(alloc, &key)?;
                self.lists.add(alloc)?;
                self.places.insert(code, place)?;
                Ok(place)
            }
        }
    }
}
