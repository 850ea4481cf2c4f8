//! Tables of lexemes.
ghost use Rattle.std.specs.Prelude.{◌≡◌, length, min, IfOk};
ghost use Rattle.std.specs.Option.{option_copied};
ghost use Rattle.mz_lex.specs.SymbolTable.{FindsFirst, NoneLonger};
ghost use Rattle.mz_lex.specs.Longest.{IsLongestLexeme};
ghost use Rattle.mz_lex.specs.Tokens.{lexeme_of};

use crate::lexeme::{Lexeme, Longest};
use mz_base::token::TokenKind;
use mz_voc::spelled::Spelled;
use std::alloc::{AllocError, Global};
use std::marker::Model;

/// The lexemes that a text is cut into besides words: reserved words, special symbols and the symbols of an environment.
///
/// They are found by their spelling. The first lexeme of a spelling counts.
#[derive(Drop)]
pub struct SymbolTable {
    lexemes: Vec<Lexeme>,
    /// The position of the first lexeme of each spelling.
    positions: Spelled<usize>,
    /// How many bytes a lexeme has at most.
    most: usize,
}

impl Model for SymbolTable {
    ghost use Rattle.std.specs.Prelude.{List};
    ghost use Rattle.mz_lex.specs.declared.lexeme.Lexeme.{Lexeme};
    ghost use Rattle.mz_lex.specs.SymbolTable.{IsIndexed};

    ghost Value = { List Lexeme };

    ghost view = { λ t. t.lexemes.items };

    ghost invariant = { λ t. IsIndexed t.lexemes.items t.positions t.most };
}

const NO_LEXEME: Longest = Longest {
    length: 0,
    kind: TokenKind::Special,
    priority: 0,
};

/// The position of the first lexeme of each spelling.
fn positions_of(alloc: Global, lexemes: &[Lexeme]) -> Result<Spelled<usize>, AllocError>
    ensures { IfOk result (λ positions. FindsFirst lexemes.now positions lexemes.now) }
{
    let mut positions = Spelled::new(alloc);
    let mut position = lexemes.len();
    while position > 0 {
        position -= 1;
        let lexeme = &lexemes[position];
        positions.insert(alloc, lexeme.spelling.as_slice(), position)?;
    }
    Ok(positions)
}

/// How many bytes a lexeme has at most.
fn most_bytes(lexemes: &[Lexeme]) -> usize
    ensures { NoneLonger lexemes.now result }
{
    let mut most = 0;
    for lexeme in lexemes {
        most = most.max(lexeme.spelling.len());
    }
    most
}

/// How many bytes a lexeme at the start of the text may have.
fn most_here(most: usize, text: &[u8]) -> usize
    ensures { result ≡ min most (length text.now) }
{
    most.min(text.len())
}

impl SymbolTable {
    /// The table of these lexemes.
    ///
    /// # Errors
    /// `AllocError` where there wasn't enough memory.
    pub fn new(alloc: Global, lexemes: Vec<Lexeme>) -> Result<SymbolTable, AllocError>
        ensures { IfOk result (λ t. t ≡ lexemes.items) }
    {
        let positions = positions_of(alloc, lexemes.as_slice())?;
        let most = most_bytes(lexemes.as_slice());
        Ok(SymbolTable {
            lexemes,
            positions,
            most,
        })
    }

    /// The first lexeme of the spelling.
    fn lexeme(&self, spelling: &[u8]) -> Option<&Lexeme>
        ensures { option_copied result ≡ lexeme_of self.now spelling.now }
    {
        match self.positions.get(spelling) {
            Some(position) => self.lexemes.get(*position),
            None => None,
        }
    }

    /// The longest lexeme with which the text begins, the first of several.
    pub fn longest(&self, text: &[u8]) -> Longest
        ensures { IsLongestLexeme self.now text.now result }
    {
        let mut length = most_here(self.most, text);
        while length > 0 {
            if let Some(lexeme) = self.lexeme(&text[..length]) {
                return Longest {
                    length,
                    kind: lexeme.kind,
                    priority: lexeme.priority,
                };
            }
            length -= 1;
        }
        NO_LEXEME
    }
}
