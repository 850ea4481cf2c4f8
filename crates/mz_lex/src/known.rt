//! Symbols that are known.
ghost use Rattle.std.specs.Prelude.{◌≡◌, ◌++◌, ◌∷◌, [], false, length, IfOk};
ghost use Rattle.mz_voc.specs.Spelled.{value_of};
ghost use Rattle.mz_voc.specs.Vocabulary.{is_spelled};
ghost use Rattle.mz_lex.specs.Table.{letter_of, clashes};
ghost use Rattle.mz_lex.specs.Known.{differs};

use mz_base::symbol_kind::SymbolKind;
use mz_voc::spelled::Spelled;
use mz_voc::vocabulary::Entry;
use std::alloc::{AllocError, Global};
use std::marker::Model;

/// Symbols in the order in which they came, no two with one spelling. They are found by their spelling.
#[derive(Drop)]
pub struct Known {
    entries: Vec<Entry>,
    /// The kind of each spelling.
    kinds: Spelled<SymbolKind>,
}

impl Model for Known {
    ghost use Rattle.std.specs.Prelude.{List};
    ghost use Rattle.mz_voc.specs.declared.vocabulary.Entry.{Entry};
    ghost use Rattle.mz_lex.specs.Known.{HasKinds};

    ghost Value = { List Entry };

    ghost view = { λ k. k.entries.items };

    ghost invariant = { λ k. HasKinds k.entries.items k.kinds };
}

/// The letter of the kind.
fn letter_of(kind: SymbolKind) -> u8
    ensures { result ≡ letter_of kind }
{
    match kind {
        SymbolKind::Structure => b'G',
        SymbolKind::LeftBracket => b'K',
        SymbolKind::RightBracket => b'L',
        SymbolKind::Mode => b'M',
        SymbolKind::Functor => b'O',
        SymbolKind::Predicate => b'R',
        SymbolKind::Selector => b'U',
        SymbolKind::Attribute => b'V',
    }
}

/// The kind of the spelling.
fn kind_of(kinds: &Spelled<SymbolKind>, spelling: &[u8]) -> Option<SymbolKind>
    ensures { result ≡ value_of kinds.now spelling.now }
{
    kinds.get(spelling).copied()
}

/// Whether there is a kind, and it is another.
fn differs(known: Option<SymbolKind>, kind: SymbolKind) -> bool
    ensures { result ≡ differs known kind }
{
    match known {
        Some(other) => letter_of(other) != letter_of(kind),
        None => false,
    }
}

impl Known {
    /// No symbols.
    pub fn new(alloc: Global) -> Known
        ensures { result ≡ [] }
    {
        Known {
            entries: Vec::new(alloc),
            kinds: Spelled::new(alloc),
        }
    }

    /// The symbols, in order.
    pub fn as_slice(&self) -> &[Entry]
        ensures { result.now ≡ self.now }
    {
        self.entries.as_slice()
    }

    /// How many symbols there are.
    pub fn len(&self) -> usize
        ensures { result ≡ length self.now }
    {
        self.entries.len()
    }

    /// Whether a symbol has the spelling.
    pub fn is_spelled(&self, spelling: &[u8]) -> bool
        ensures { result ≡ is_spelled self.now spelling.now }
    {
        kind_of(&self.kinds, spelling).is_some()
    }

    /// Whether a symbol has the entry's spelling and another kind.
    pub fn clashes(&self, entry: &Entry) -> bool
        ensures { result ≡ clashes self.now entry.now }
    {
        differs(kind_of(&self.kinds, entry.spelling.as_slice()), entry.kind)
    }

    /// The symbols with one more behind them.
    ///
    /// # Errors
    /// `AllocError` where there wasn't enough memory.
    pub fn with(self, alloc: Global, entry: Entry) -> Result<Known, AllocError>
        requires { is_spelled self entry.spelling ≡ false }
        ensures { IfOk result (λ known. known ≡ self ++ entry ∷ []) }
    {
        let mut entries = self.entries;
        let mut kinds = self.kinds;
        kinds.insert(alloc, entry.spelling.as_slice(), entry.kind)?;
        entries.push(entry)?;
        Ok(Known { entries, kinds })
    }
}
