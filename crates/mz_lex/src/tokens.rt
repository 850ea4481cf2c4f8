//! The tokens of a text.
ghost use Rattle.std.specs.Prelude.{IfOk, IfErr};
ghost use Rattle.mz_lex.specs.BuiltIn.{built_in_lexemes};
ghost use Rattle.mz_lex.specs.Cut.{Switch, Whole, IsCut, IsStopped, OneCut, HeadFirst};

use crate::built_in::built_in_lexemes;
use crate::cut::cut;
use crate::lex_fault::LexFault;
use crate::piece::Part;
use crate::symbol_table::SymbolTable;
use mz_base::token::Tokens;
use std::alloc::Global;

/// The tokens of a text: at each token's start the longest of a lexeme and a word, and at equal length the lexeme.
/// Up to and including the first `begin` the lexemes are the built-in ones, and behind it those of the table
/// (`docs/LANGUAGE.md`).
///
/// # Errors
/// The first in the text of `BadByte`, `Pragma` and `TooManyTokens`. `Memory` where there wasn't enough memory.
pub fn tokens(alloc: Global, table: &SymbolTable, bytes: &[u8]) -> Result<Tokens, LexFault>
    ensures cut { IfOk result (λ ts. IsCut built_in_lexemes (Switch table.now) bytes.now ts.items (Whole ts.end)) }
    ensures stopped { IfErr result (IsStopped built_in_lexemes (Switch table.now) bytes.now) }
    ensures one { OneCut built_in_lexemes (Switch table.now) bytes.now }
    ensures head { HeadFirst built_in_lexemes table.now bytes.now }
{
    let built_in = SymbolTable::new(alloc, built_in_lexemes(alloc)?)?;
    cut(alloc, &built_in, table, bytes, Part::Head)
}
