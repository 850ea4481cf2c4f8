//! The tokens that trees are spelled with.
ghost use Rattle.std.specs.Prelude.{◌≡◌, ◌++◌, ◌∷◌, [], IfOk, codes};
ghost use Rattle.mz_base.specs.declared.symbol_kind.SymbolKind.TheVariants as symbols;
ghost use Rattle.mz_tree.specs.Spelled.{marked, reserved, special, identifier, symbol, functor, mode, argument, list_comma, comma_token, being_token, non_of, reserved_if, numeral, equals_sign};

use mz_base::place::Place;
use mz_base::symbol_kind::SymbolKind;
use mz_base::text::Text;
use mz_base::token::{Mark, MarkedToken, Token, TokenKind};
use mz_tree::word::{Being, Comma, Word};
use std::alloc::{AllocError, Global};

fn emit(
    alloc: Global,
    out: &mut Vec<MarkedToken>,
    kind: TokenKind,
    place: Place,
    spelling: &[u8],
    mark: Mark,
) -> Result<(), AllocError>
    ensures { IfOk result (λ _. out.new.items ≡ out.old.items ++ marked kind place spelling.now 0 mark ∷ []) }
{
    let spelling = Text::from_slice(alloc, spelling)?;
    let token = Token {
        kind,
        place,
        spelling,
        priority: 0,
    };
    out.push(MarkedToken { token, mark })?;
    Ok(())
}

/// A reserved word.
pub fn emit_reserved(
    alloc: Global,
    out: &mut Vec<MarkedToken>,
    place: Place,
    word: &[u8],
) -> Result<(), AllocError>
    ensures { IfOk result (λ _. out.new.items ≡ out.old.items ++ reserved place word.now ∷ []) }
{
    emit(alloc, out, TokenKind::Reserved, place, word, Mark::NotComma)
}

/// A special symbol.
pub fn emit_special(
    alloc: Global,
    out: &mut Vec<MarkedToken>,
    place: Place,
    word: &[u8],
) -> Result<(), AllocError>
    ensures { IfOk result (λ _. out.new.items ≡ out.old.items ++ special place word.now ∷ []) }
{
    emit(alloc, out, TokenKind::Special, place, word, Mark::NotComma)
}

/// An identifier.
pub fn emit_identifier(
    alloc: Global,
    out: &mut Vec<MarkedToken>,
    word: &Word,
) -> Result<(), AllocError>
    ensures { IfOk result (λ _. out.new.items ≡ out.old.items ++ identifier word.now ∷ []) }
{
    emit(
        alloc,
        out,
        TokenKind::Identifier,
        word.place,
        word.spelling.as_slice(),
        Mark::NotComma,
    )
}

/// A symbol of a kind, without a priority.
pub fn emit_symbol(
    alloc: Global,
    out: &mut Vec<MarkedToken>,
    kind: SymbolKind,
    word: &Word,
) -> Result<(), AllocError>
    ensures { IfOk result (λ _. out.new.items ≡ out.old.items ++ symbol kind word.now ∷ []) }
{
    emit(
        alloc,
        out,
        TokenKind::Symbol(kind),
        word.place,
        word.spelling.as_slice(),
        Mark::NotComma,
    )
}

/// A functor symbol with its priority.
pub fn emit_functor(
    alloc: Global,
    out: &mut Vec<MarkedToken>,
    word: &Word,
    priority: u8,
) -> Result<(), AllocError>
    ensures { IfOk result (λ _. out.new.items ≡ out.old.items ++ functor word.now priority ∷ []) }
{
    let spelling = word.spelling.copy(alloc)?;
    let token = Token {
        kind: TokenKind::Symbol(SymbolKind::Functor),
        place: word.place,
        spelling,
        priority,
    };
    out.push(MarkedToken {
        token,
        mark: Mark::NotComma,
    })?;
    Ok(())
}

/// A symbol of a mode; the reserved word `set` serves as one.
pub fn emit_mode(alloc: Global, out: &mut Vec<MarkedToken>, word: &Word) -> Result<(), AllocError>
    ensures { IfOk result (λ _. out.new.items ≡ out.old.items ++ mode word.now ∷ []) }
{
    if word.spelling.as_slice() == b"set".as_slice() {
        emit(
            alloc,
            out,
            TokenKind::Reserved,
            word.place,
            word.spelling.as_slice(),
            Mark::NotComma,
        )
    } else {
        emit_symbol(alloc, out, SymbolKind::Mode, word)
    }
}

/// `$1` to `$10`.
pub fn emit_argument(
    alloc: Global,
    out: &mut Vec<MarkedToken>,
    place: Place,
    number: u8,
) -> Result<(), AllocError>
    ensures { IfOk result (λ _. out.new.items ≡ out.old.items ++ argument place number ∷ []) }
{
    if number == 10 {
        emit_special(alloc, out, place, b"$10")
    } else if number < 10 {
        emit_special(alloc, out, place, &[b'$', b'0' + number])
    } else {
        emit_special(alloc, out, place, b"$")
    }
}

/// A comma of a list.
pub fn emit_list_comma(
    alloc: Global,
    out: &mut Vec<MarkedToken>,
    place: Place,
) -> Result<(), AllocError>
    ensures { IfOk result (λ _. out.new.items ≡ out.old.items ++ list_comma place ∷ []) }
{
    emit(alloc, out, TokenKind::Special, place, b",", Mark::List)
}

/// A comma of either mark.
pub fn emit_comma(alloc: Global, out: &mut Vec<MarkedToken>, comma: Comma) -> Result<(), AllocError>
    ensures { IfOk result (λ _. out.new.items ≡ out.old.items ++ comma_token comma ∷ []) }
{
    if comma.dividing {
        emit(
            alloc,
            out,
            TokenKind::Special,
            comma.place,
            b",",
            Mark::Dividing,
        )
    } else {
        emit(
            alloc,
            out,
            TokenKind::Special,
            comma.place,
            b",",
            Mark::List,
        )
    }
}

/// `be` or `being`.
pub fn emit_being(alloc: Global, out: &mut Vec<MarkedToken>, being: Being) -> Result<(), AllocError>
    ensures { IfOk result (λ _. out.new.items ≡ out.old.items ++ being_token being ∷ []) }
{
    if being.long {
        emit_reserved(alloc, out, being.place, b"being")
    } else {
        emit_reserved(alloc, out, being.place, b"be")
    }
}

/// `non`, which may be left out.
pub fn emit_non(
    alloc: Global,
    out: &mut Vec<MarkedToken>,
    place: Option<Place>,
) -> Result<(), AllocError>
    ensures { IfOk result (λ _. out.new.items ≡ out.old.items ++ non_of place) }
{
    match place {
        Some(place) => emit_reserved(alloc, out, place, b"non"),
        None => Ok(()),
    }
}

/// An identifier with nothing between the brackets behind it.
pub fn emit_empty(
    alloc: Global,
    out: &mut Vec<MarkedToken>,
    name: &Word,
    left: Place,
    left_sign: &[u8],
    right: Place,
    right_sign: &[u8],
) -> Result<(), AllocError>
    ensures { IfOk result (λ _. out.new.items ≡ out.old.items ++ identifier name.now ∷ special left left_sign.now ∷ special right right_sign.now ∷ []) }
{
    emit_identifier(alloc, out, name)?;
    emit_special(alloc, out, left, left_sign)?;
    emit_special(alloc, out, right, right_sign)
}

/// `the` and a selector.
pub fn emit_selector(
    alloc: Global,
    out: &mut Vec<MarkedToken>,
    the: Place,
    selector: &Word,
) -> Result<(), AllocError>
    ensures { IfOk result (λ _. out.new.items ≡ out.old.items ++ reserved the (codes "the") ∷ symbol symbols.Selector selector.now ∷ []) }
{
    emit_reserved(alloc, out, the, b"the")?;
    emit_symbol(alloc, out, SymbolKind::Selector, selector)
}

/// `where x is`, which binds the variable of a set term.
pub fn emit_bound(
    alloc: Global,
    out: &mut Vec<MarkedToken>,
    first: Place,
    name: &Word,
    last: Place,
) -> Result<(), AllocError>
    ensures { IfOk result (λ _. out.new.items ≡ out.old.items ++ reserved first (codes "where") ∷ identifier name.now ∷ reserved last (codes "is") ∷ []) }
{
    emit_reserved(alloc, out, first, b"where")?;
    emit_identifier(alloc, out, name)?;
    emit_reserved(alloc, out, last, b"is")
}

/// A word that may be left out.
pub fn emit_reserved_if(
    alloc: Global,
    out: &mut Vec<MarkedToken>,
    place: Option<Place>,
    word: &[u8],
) -> Result<(), AllocError>
    ensures { IfOk result (λ _. out.new.items ≡ out.old.items ++ reserved_if place word.now) }
{
    match place {
        Some(place) => emit_reserved(alloc, out, place, word),
        None => Ok(()),
    }
}

/// A numeral.
pub fn emit_numeral(
    alloc: Global,
    out: &mut Vec<MarkedToken>,
    word: &Word,
) -> Result<(), AllocError>
    ensures { IfOk result (λ _. out.new.items ≡ out.old.items ++ numeral word.now ∷ []) }
{
    emit(
        alloc,
        out,
        TokenKind::Numeral,
        word.place,
        word.spelling.as_slice(),
        Mark::NotComma,
    )
}

/// `=`, which is a predicate symbol.
pub fn emit_equals_sign(
    alloc: Global,
    out: &mut Vec<MarkedToken>,
    place: Place,
) -> Result<(), AllocError>
    ensures { IfOk result (λ _. out.new.items ≡ out.old.items ++ equals_sign place ∷ []) }
{
    emit(
        alloc,
        out,
        TokenKind::Symbol(SymbolKind::Predicate),
        place,
        b"=",
        Mark::NotComma,
    )
}
