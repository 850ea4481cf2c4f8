//! Reading a vocabulary.
ghost use Rattle.std.specs.Prelude.{◌≡◌, ◌++◌, ◌∷◌, [], IfOk, IfErr, OnOk};
ghost use Rattle.std.specs.Option.{is_some};
ghost use Rattle.mz_voc.specs.Spelled.{value_of};
ghost use Rattle.mz_voc.specs.Vocabulary.{IsVocabulary, IsRefused, AreDistinct};

use crate::line::{Line, first_line, read_line, without_return};
use crate::spelled::Spelled;
use crate::voc_fault::VocFault;
use crate::vocabulary::{Entry, Vocabulary};
use std::alloc::{AllocError, Global};

/// Whether the entry's symbol stood on one of the lines.
fn stood_above(lines: &Spelled<u64>, entry: &Entry) -> bool
    ensures { result ≡ is_some (value_of lines.now entry.now.spelling) }
{
    lines.get(entry.spelling.as_slice()).is_some()
}

/// Adds an entry behind the others.
fn add(items: &mut Vec<Entry>, entry: Entry) -> Result<(), AllocError>
    ensures { OnOk result (items.new.items ≡ items.old.items ++ entry ∷ []) }
{
    items.push(entry)?;
    Ok(())
}

/// The entries of a vocabulary, one a line; an empty line is skipped (`docs/LANGUAGE.md`).
///
/// # Errors
/// The fault of the first line that has one: `BadEntry`, `BadPriority` or `Repeated`.
/// `Memory` where there wasn't enough memory.
pub fn read_voc(alloc: Global, bytes: &[u8]) -> Result<Vocabulary, VocFault>
    ensures entries { IfOk result (IsVocabulary bytes.now) }
    ensures distinct { IfOk result AreDistinct }
    ensures refused { IfErr result (IsRefused bytes.now) }
{
    let mut items = Vec::new(alloc);
    let mut lines = Spelled::new(alloc);
    let mut line = 0;
    let mut rest = bytes;
    while !rest.is_empty() {
        line += 1;
        let (first, others) = first_line(rest);
        match read_line(alloc, without_return(first))? {
            Line::Blank => {}
            Line::Good(entry) => {
                if stood_above(&lines, &entry) {
                    return Err(VocFault::Repeated { line });
                }
                lines.insert(alloc, entry.spelling.as_slice(), line)?;
                add(&mut items, entry)?;
            }
            Line::NoEntry => return Err(VocFault::BadEntry { line }),
            Line::NoPriority => return Err(VocFault::BadPriority { line }),
        }
        rest = others;
    }
    Ok(Vocabulary { items })
}

#[cfg(test)]
mod tests {
    use super::*;
    use mz_base::symbol_kind::SymbolKind;
    use std::mem::forget;

    /// The answer: how many entries, or the fault and its line.
    #[derive(Clone, Copy, Debug, PartialEq, Eq)]
    enum Answer {
        Entries(usize),
        BadEntry(u64),
        BadPriority(u64),
        Repeated(u64),
        Memory,
    }

    fn told(alloc: Global, bytes: &[u8]) -> Answer {
        match read_voc(alloc, bytes) {
            Ok(vocabulary) => Answer::Entries(vocabulary.items.len()),
            Err(VocFault::BadEntry { line }) => Answer::BadEntry(line),
            Err(VocFault::BadPriority { line }) => Answer::BadPriority(line),
            Err(VocFault::Repeated { line }) => Answer::Repeated(line),
            Err(VocFault::Memory(_)) => Answer::Memory,
        }
    }

    #[test]
    fn tells_the_first_fault(rt: HostRuntime) {
        let rows: [(&[u8], Answer); 34] = [
            (b"", Answer::Entries(0)),
            (b"\n\r\n", Answer::Entries(0)),
            (b"Rc=", Answer::Entries(1)),
            (b"Rc=\n", Answer::Entries(1)),
            (b"Ga\nKb\nLc\nMd\nOe\nRf\nUg\nVh\n", Answer::Entries(8)),
            (b"Rx\r\n\r\nRy\r", Answer::Entries(2)),
            (b"Rx\r\r\nRy", Answer::BadEntry(1)),
            (b"R", Answer::BadEntry(1)),
            (b"\nXa", Answer::BadEntry(2)),
            (b"ra", Answer::BadEntry(1)),
            (b"Rset", Answer::BadEntry(1)),
            (b"Robject", Answer::BadEntry(1)),
            (b"R=", Answer::BadEntry(1)),
            (b"R->", Answer::BadEntry(1)),
            (b"R$10", Answer::BadEntry(1)),
            (b"R$11", Answer::Entries(1)),
            (b"R12", Answer::BadEntry(1)),
            (b"R12'", Answer::Entries(1)),
            (b"Ra::b", Answer::BadEntry(1)),
            (b"Ra:", Answer::Entries(1)),
            (b"R\x7f", Answer::BadEntry(1)),
            (b"Rabcdefghijklmnopqrstuvwxyzabcdef", Answer::Entries(1)),
            (b"Rabcdefghijklmnopqrstuvwxyzabcdefg", Answer::BadEntry(1)),
            (b"O*\nO+ 256", Answer::BadPriority(2)),
            (b"O+ 255", Answer::Entries(1)),
            (b"O* ", Answer::BadPriority(1)),
            (b"O* x", Answer::BadPriority(1)),
            (b"O*  5", Answer::BadPriority(1)),
            (b"O* 0001", Answer::BadPriority(1)),
            (b"O* 1 ", Answer::BadPriority(1)),
            (b"R* 1", Answer::BadEntry(1)),
            (b"O 1", Answer::BadEntry(1)),
            (b"Rx\nRy\nOx", Answer::Repeated(3)),
            (b"Rx\nOx 999\nRx", Answer::BadPriority(2)),
        ];
        for (bytes, want) in rows {
            assert!(rt; told(rt.alloc(), bytes) == want, "at {bytes:?}");
        }
    }

    #[test]
    fn reads_entries(rt: HostRuntime) {
        let found = read_voc(rt.alloc(), b"O\\/\nO/\\ 066\nRc=\n");
        let vocabulary = found.expect(&rt, "a vocabulary");
        let rows: [(SymbolKind, &[u8], u8); 3] = [
            (SymbolKind::Functor, b"\\/", 64),
            (SymbolKind::Functor, b"/\\", 66),
            (SymbolKind::Predicate, b"c=", 64),
        ];
        assert!(rt; vocabulary.items.len() == 3);
        for (entry, (kind, spelling, priority)) in vocabulary.items.iter().zip(rows) {
            assert!(rt; entry.kind == kind);
            assert!(rt; entry.spelling.as_slice() == spelling);
            assert!(rt; entry.priority == priority);
        }
        forget(vocabulary);
    }
}
