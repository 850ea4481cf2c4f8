//! The symbols that an environment part names.
ghost use Rattle.std.specs.Prelude.{◌≡◌, ◌==◌, ◌++◌, ◌∷◌, [], ℕ, not, true, nat_eq, nat_lt, if◌then◌else◌, length, IfOk, IfErr, OnOk, map, find, Some, MatchResult, IsTrue};
ghost use Rattle.std.specs.List.{list_any};
ghost use Rattle.std.specs.Option.{option_copied};
ghost use Rattle.std.specs.HashSet.{contains};
ghost use Rattle.mz_voc.specs.Vocabulary.{IsVocabulary, IsRefused, AreDistinct};
ghost use Rattle.mz_lex.specs.BuiltIn.{built_in_lexemes};
ghost use Rattle.mz_lex.specs.Table.{is_vocabularies, names_under, vocabulary_names, each_once, is_hidden, text_in, text_named, clashes, any_clash, is_new, joined, most_symbols, Adds, AddsAll, IsFaultOf, symbol_priority, symbol_lexeme, IsTableOf, IsTableFault, IsTableRefused};

use crate::built_in::built_in_lexemes;
use crate::known::Known;
use crate::lexeme::Lexeme;
use crate::symbol_table::SymbolTable;
use crate::table_fault::TableFault;
use mz_base::head::{Directive, DirectiveKind, Head, PlacedName};
use mz_base::name::Name;
use mz_base::symbol_kind::SymbolKind;
use mz_base::text::Text;
use mz_base::token::TokenKind;
use mz_base::vocabularies::{Vocabularies, VocabularyText};
use mz_voc::read::read_voc;
use mz_voc::voc_fault::VocFault;
use mz_voc::vocabulary::Entry;
use std::alloc::{AllocError, Global};
use std::collections::HashSet;

/// The most symbols of an environment, the built-in ones not among them.
pub const MOST_SYMBOLS: usize = 4_096;

fn is_vocabularies(kind: DirectiveKind) -> bool
    ensures { result ≡ is_vocabularies kind }
{
    matches!(kind, DirectiveKind::Vocabularies)
}

/// The names of the directive where it names vocabularies.
fn names_under(directive: &Directive) -> &[PlacedName]
    ensures { result.now ≡ names_under directive.now }
{
    if is_vocabularies(directive.kind) {
        directive.names.items.as_slice()
    } else {
        &[]
    }
}

/// The names of vocabularies, in the order of the text.
fn vocabulary_names(alloc: Global, directives: &[Directive]) -> Result<Vec<PlacedName>, AllocError>
    ensures { IfOk result (λ ns. ns.items ≡ vocabulary_names directives.now) }
{
    let mut names = Vec::new(alloc);
    for directive in directives {
        names.extend_from_slice(names_under(directive))?;
    }
    Ok(names)
}

/// Notes the name, and tells whether it is noted for the first time.
fn note(seen: &mut HashSet<u64>, name: &PlacedName) -> Result<bool, AllocError>
    ensures first { IfOk result (λ first. first ≡ not (contains nat_eq seen.old name.now.name.number)) }
    ensures noted { OnOk result ((number : ℕ) → contains nat_eq seen.new number ≡ if nat_eq name.now.name.number number then true else contains nat_eq seen.old number) }
{
    Ok(seen.insert(name.name.number())?)
}

/// Each name once, where it stands first.
fn each_once(alloc: Global, names: &[PlacedName]) -> Result<Vec<PlacedName>, AllocError>
    ensures { IfOk result (λ ns. ns.items ≡ each_once names.now) }
{
    let mut seen = HashSet::new(alloc);
    let mut found = Vec::new(alloc);
    for name in names {
        let first = note(&mut seen, name)?;
        if first {
            found.push(*name)?;
        }
    }
    Ok(found)
}

fn is_hidden(name: &PlacedName) -> bool
    ensures { result ≡ is_hidden name.now }
{
    name.name == Name::hidden()
}

fn named<'a>(vocabularies: &'a [VocabularyText], name: Name) -> Option<&'a VocabularyText>
    ensures { option_copied result ≡ find (λ v. v.name.number == name.number) vocabularies.now }
{
    vocabularies
        .iter()
        .find(|v| v.name().number() == name.number())
}

/// The text of the first vocabulary of the name; the built-in names have none.
fn text_named<'a>(vocabularies: &'a [VocabularyText], name: &PlacedName) -> Option<&'a Text>
    ensures { option_copied result ≡ text_named vocabularies.now name.now }
{
    if name.name.is_built_in() {
        return None;
    }
    match named(vocabularies, name.name) {
        Some(vocabulary) => vocabulary.text(),
        None => None,
    }
}

fn any_clash(known: &Known, entries: &[Entry]) -> bool
    ensures { result ≡ any_clash known.now entries.now }
{
    entries.iter().any(|entry| known.clashes(entry))
}

fn is_new(known: &Known, entry: &Entry) -> bool
    ensures { result ≡ is_new known.now entry.now }
{
    !known.is_spelled(entry.spelling.as_slice())
}

/// Whether there are more symbols than an environment may have.
fn are_too_many(known: &Known) -> bool
    ensures { result ≡ nat_lt most_symbols (length known.now) }
{
    known.len() > MOST_SYMBOLS
}

fn copy_of(alloc: Global, entry: &Entry) -> Result<Entry, AllocError>
    ensures { IfOk result (λ e. e ≡ entry.now) }
{
    Ok(Entry {
        kind: entry.kind,
        spelling: entry.spelling.copy(alloc)?,
        priority: entry.priority,
    })
}

/// The known symbols, and behind them the entries that aren't known.
fn joined(alloc: Global, known: Known, entries: &[Entry]) -> Result<Known, AllocError>
    requires { AreDistinct entries.now }
    ensures { IfOk result (λ all. all ≡ joined known entries.now) }
{
    let mut all = known;
    for entry in entries {
        if is_new(&all, entry) {
            all = all.with(alloc, copy_of(alloc, entry)?)?;
        }
    }
    Ok(all)
}

/// The known symbols with those that the name adds.
fn add(
    alloc: Global,
    vocabularies: &[VocabularyText],
    name: &PlacedName,
    known: Known,
) -> Result<Known, TableFault>
    ensures adds { IfOk result (λ next. Adds vocabularies.now known name.now next) }
    ensures refused { IfErr result (IsFaultOf vocabularies.now known name.now) }
{
    if is_hidden(name) {
        return Ok(known);
    }
    let place = name.place;
    let Some(text) = text_named(vocabularies, name) else {
        return Err(TableFault::Absent { place });
    };
    match read_voc(alloc, text.as_slice()) {
        Ok(vocabulary) => {
            let entries = vocabulary.items.as_slice();
            if any_clash(&known, entries) {
                return Err(TableFault::TwoKinds { place });
            }
            let all = joined(alloc, known, entries)?;
            if are_too_many(&all) {
                return Err(TableFault::TooManySymbols { place });
            }
            Ok(all)
        }
        Err(VocFault::Memory(fault)) => Err(TableFault::Memory(fault)),
        Err(VocFault::BadEntry { line }) => Err(TableFault::Bad {
            place,
            fault: VocFault::BadEntry { line },
        }),
        Err(VocFault::BadPriority { line }) => Err(TableFault::Bad {
            place,
            fault: VocFault::BadPriority { line },
        }),
        Err(VocFault::Repeated { line }) => Err(TableFault::Bad {
            place,
            fault: VocFault::Repeated { line },
        }),
    }
}

/// The symbols that the names add.
fn add_all(
    alloc: Global,
    vocabularies: &[VocabularyText],
    names: &[PlacedName],
) -> Result<Known, TableFault>
    ensures adds { IfOk result (λ all. AddsAll vocabularies.now [] names.now all) }
    ensures refused { IfErr result (IsTableRefused vocabularies.now names.now) }
{
    let mut known = Known::new(alloc);
    for name in names {
        known = match add(alloc, vocabularies, name, known) {
            Ok(next) => next,
            Err(fault) => return Err(fault),
        };
    }
    Ok(known)
}

fn symbol_priority(kind: SymbolKind, priority: u8) -> u8
    ensures { result ≡ symbol_priority kind priority }
{
    match kind {
        SymbolKind::Functor => priority,
        _ => 0,
    }
}

fn symbol_lexeme(alloc: Global, entry: &Entry) -> Result<Lexeme, AllocError>
    ensures { IfOk result (λ l. l ≡ symbol_lexeme entry.now) }
{
    Ok(Lexeme {
        spelling: entry.spelling.copy(alloc)?,
        kind: TokenKind::Symbol(entry.kind),
        priority: symbol_priority(entry.kind, entry.priority),
    })
}

/// The built-in lexemes and those of the symbols.
fn all_lexemes(alloc: Global, symbols: &[Entry]) -> Result<Vec<Lexeme>, AllocError>
    ensures { IfOk result (λ ls. ls.items ≡ built_in_lexemes ++ map symbol_lexeme symbols.now) }
{
    let mut lexemes = built_in_lexemes(alloc)?;
    for symbol in symbols {
        lexemes.push(symbol_lexeme(alloc, symbol)?)?;
    }
    Ok(lexemes)
}

/// The table of an environment part: the built-in lexemes and the symbols of the vocabularies that it names
/// (`docs/LANGUAGE.md`). A symbol that several vocabularies have with the same kind has its first priority.
///
/// # Errors
/// The fault of the first name under `vocabularies` that fails, and for one name the first of `Absent`, `Bad`,
/// `TwoKinds` and `TooManySymbols`. `Memory` where there wasn't enough memory.
pub fn table(
    alloc: Global,
    vocabularies: &Vocabularies,
    head: &Head,
) -> Result<SymbolTable, TableFault>
    ensures table { IfOk result (IsTableOf vocabularies.now head.now) }
    ensures refused { IfErr result (IsTableFault vocabularies.now head.now) }
{
    let written = vocabulary_names(alloc, head.items.as_slice())?;
    let names = each_once(alloc, written.as_slice())?;
    let symbols = match add_all(alloc, vocabularies.items.as_slice(), names.as_slice()) {
        Ok(symbols) => symbols,
        Err(fault) => return Err(fault),
    };
    let lexemes = all_lexemes(alloc, symbols.as_slice())?;
    Ok(SymbolTable::new(alloc, lexemes)?)
}
