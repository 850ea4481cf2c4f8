//! The lexemes of every text.
ghost use Rattle.std.specs.Prelude.{◌≡◌, ◌++◌, IfOk, OnOk, map};
ghost use Rattle.mz_lex.specs.BuiltIn.{built_in_lexemes, lexeme};
ghost use Rattle.mz_base.specs.declared.token.TokenKind.TheVariants.{Symbol};

use crate::lexeme::Lexeme;
use mz_base::symbol_kind::SymbolKind;
use mz_base::text::Text;
use mz_base::token::TokenKind;
use mz_base::words::{BUILT_IN_SYMBOLS, RESERVED_WORDS, SPECIAL_SYMBOLS};
use std::alloc::{AllocError, Global};

fn lexeme(alloc: Global, spelling: &[u8], kind: TokenKind) -> Result<Lexeme, AllocError>
    ensures { IfOk result (λ l. l ≡ lexeme kind spelling.now) }
{
    let spelling = Text::from_slice(alloc, spelling)?;
    Ok(Lexeme {
        spelling,
        kind,
        priority: 0,
    })
}

fn add_words(
    alloc: Global,
    lexemes: &mut Vec<Lexeme>,
    words: &[&[u8]],
    kind: TokenKind,
) -> Result<(), AllocError>
    ensures { OnOk result (lexemes.new.items ≡ lexemes.old.items ++ map (λ w. lexeme kind w.now) words.now) }
{
    for word in words {
        lexemes.push(lexeme(alloc, word, kind)?)?;
    }
    Ok(())
}

fn add_symbols(
    alloc: Global,
    lexemes: &mut Vec<Lexeme>,
    symbols: &[(&[u8], SymbolKind)],
) -> Result<(), AllocError>
    ensures { OnOk result (lexemes.new.items ≡ lexemes.old.items ++ map (λ s. lexeme (Symbol s.1) s.0.now) symbols.now) }
{
    for (spelling, kind) in symbols {
        lexemes.push(lexeme(alloc, spelling, TokenKind::Symbol(*kind))?)?;
    }
    Ok(())
}

/// The reserved words, the special symbols and the built-in symbols.
///
/// # Errors
/// `AllocError` where there wasn't enough memory.
#[tactic(auto, unfolding(crate::specs::BuiltIn::built_in_lexemes, mz_base::specs::Words::reserved_words, mz_base::specs::Words::special_symbols, mz_base::specs::Words::built_in_symbols))]
pub fn built_in_lexemes(alloc: Global) -> Result<Vec<Lexeme>, AllocError>
    ensures { IfOk result (λ ls. ls.items ≡ built_in_lexemes) }
{
    let mut lexemes = Vec::new(alloc);
    add_words(alloc, &mut lexemes, &RESERVED_WORDS, TokenKind::Reserved)?;
    add_words(alloc, &mut lexemes, &SPECIAL_SYMBOLS, TokenKind::Special)?;
    add_symbols(alloc, &mut lexemes, &BUILT_IN_SYMBOLS)?;
    Ok(lexemes)
}
