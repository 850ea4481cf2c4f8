//! What comes next in a reasoning.
ghost use Rattle.std.specs.Prelude.{◌≡◌, ◌↔◌, IsTrue};
ghost use Rattle.std.specs.Str.{bytes_eq};
ghost use Rattle.mz_ptype.specs.Classes.{next_is};
ghost use Rattle.mz_pformula.specs.Classes.{begins_unit};
ghost use Rattle.mz_pproof.specs.Classes.{begins_conclusion, begins_definition, begins_skeleton, begins_statement, begins_step, cases_next, comes, is_set, KeyComes};

use mz_base::token::MarkedToken;
use mz_patom::atoms::term_comes;
use mz_pjustification::keyword::Keyword;
use mz_pterm::reader::Reader;
use mz_pterm::sign::Sign;

/// Whether the next token has this keyword.
pub fn key_comes(reader: &Reader<'_>, word: Keyword) -> bool
    ensures { IsTrue result ↔ KeyComes word reader.now.rest.now }
{
    let Some((next, _)) = reader.rest.split_first() else {
        return false;
    };
    Keyword::of(next).is(word)
}

/// Whether these are the bytes of the word.
pub fn spells(spelling: &[u8], word: &[u8]) -> bool
    ensures { result ≡ bytes_eq spelling.now word.now }
{
    spelling == word
}

fn is_set(marked: &MarkedToken) -> bool
    ensures { result ≡ is_set marked.now }
{
    if !Sign::of(marked).is(Sign::Mode) {
        return false;
    }
    spells(marked.token.spelling.as_slice(), b"set")
}

/// Whether `deffunc`, `defpred` or `set` comes next.
pub fn definition_comes(reader: &Reader<'_>) -> bool
    ensures { result ≡ comes begins_definition reader.now.rest.now }
{
    let Some((next, _)) = reader.rest.split_first() else {
        return false;
    };
    if matches!(Keyword::of(next), Keyword::Deffunc | Keyword::Defpred) {
        return true;
    }
    is_set(next)
}

/// Whether a formula begins with the next token.
fn formula_comes(reader: &Reader<'_>) -> bool
    ensures { result ≡ next_is begins_unit reader.now.rest.now }
{
    if term_comes(reader) {
        return true;
    }
    let Some((next, _)) = reader.rest.split_first() else {
        return false;
    };
    matches!(
        Sign::of(next),
        Sign::Not | Sign::Contradiction | Sign::Thesis | Sign::For | Sign::Ex | Sign::Predicate
    )
}

/// Whether a statement begins with the next token.
pub fn statement_comes(reader: &Reader<'_>) -> bool
    ensures { result ≡ comes begins_statement reader.now.rest.now }
{
    let Some((next, _)) = reader.rest.split_first() else {
        return false;
    };
    if matches!(
        Keyword::of(next),
        Keyword::Then
            | Keyword::Now
            | Keyword::Consider
            | Keyword::Reconsider
            | Keyword::Deffunc
            | Keyword::Defpred
    ) {
        return true;
    }
    if is_set(next) {
        return true;
    }
    formula_comes(reader)
}

/// Whether a step comes next that needs no justification.
pub fn skeleton_comes(reader: &Reader<'_>) -> bool
    ensures { result ≡ comes begins_skeleton reader.now.rest.now }
{
    let Some((next, _)) = reader.rest.split_first() else {
        return false;
    };
    matches!(
        Keyword::of(next),
        Keyword::Let | Keyword::Assume | Keyword::Given | Keyword::Take
    )
}

/// Whether a conclusion comes next.
pub fn conclusion_comes(reader: &Reader<'_>) -> bool
    ensures { result ≡ comes begins_conclusion reader.now.rest.now }
{
    let Some((next, _)) = reader.rest.split_first() else {
        return false;
    };
    matches!(
        Keyword::of(next),
        Keyword::Thus | Keyword::Hence | Keyword::Hereby
    )
}

/// Whether a split into cases comes next, behind a `then` or without one.
pub fn cases_come(reader: &Reader<'_>) -> bool
    ensures { result ≡ cases_next reader.now.rest.now }
{
    let Some((next, rest)) = reader.rest.split_first() else {
        return false;
    };
    match Keyword::of(next) {
        Keyword::Per => true,
        Keyword::Then => {
            let Some((second, _)) = rest.split_first() else {
                return false;
            };
            matches!(Keyword::of(second), Keyword::Per)
        }
        _ => false,
    }
}

/// Whether a step begins with the next token.
pub fn step_comes(reader: &Reader<'_>) -> bool
    ensures { result ≡ comes begins_step reader.now.rest.now }
{
    if skeleton_comes(reader) {
        return true;
    }
    if conclusion_comes(reader) {
        return true;
    }
    let Some((next, _)) = reader.rest.split_first() else {
        return false;
    };
    if matches!(Keyword::of(next), Keyword::Per) {
        return true;
    }
    statement_comes(reader)
}
