//! References.
ghost use Rattle.std.specs.Prelude.{◌≡◌, ◌<◌, ◌≤◌, ℕ, OnOk, length};
ghost use Rattle.mz_base.specs.Name.{is_name};
ghost use Rattle.mz_forms.specs.Reading.{Reads};
ghost use Rattle.mz_pjustification.specs.Words.{next_among};
ghost use Rattle.mz_pjustification.specs.Forms.{
  begins_number,
  head_form,
  number_form,
  references_form,
  same_head,
  same_number,
  same_references,
  same_scheme,
  scheme_form,
  ReadsNumbers,
  ReadsReference,
};

use crate::keyword::Keyword;
use crate::words::{expect_key, expect_numeral, takes_key};
use mz_base::name::Name;
use mz_base::place::Place;
use mz_forms::refusal::Refusal;
use mz_pterm::reader::Reader;
use mz_pterm::sign::Sign;
use mz_ptype::declarations::takes_comma;
use mz_tree::chain::Next;
use mz_tree::lists::{Separated, Trees};
use mz_tree::word::{Comma, Word};
use mz_tree_proof::references::{NumberTree, ReferenceTree, SchemeReferenceTree};

/// Whether the word is a name, as of an article.
fn is_name(word: &Word) -> bool
    ensures { result ≡ is_name word.now.spelling }
{
    Name::read(word.spelling.as_slice()).is_ok()
}

/// The number of a theorem, or behind `def` of a definition.
fn number(reader: &mut Reader<'_>) -> Result<NumberTree, Refusal>
    ensures { (room : ℕ) → Reads number_form room same_number reader.old.rest.now result reader.new.rest.now }
{
    match takes_key(reader, Keyword::Def) {
        Some(def) => {
            let number = expect_numeral(reader)?;
            Ok(NumberTree::Definition { def, number })
        }
        None => {
            let number = expect_numeral(reader)?;
            Ok(NumberTree::Theorem(number))
        }
    }
}

/// Whether the number of a reference begins with the next token.
fn number_comes(reader: &Reader<'_>) -> bool
    ensures { result ≡ next_among begins_number reader.now.rest.now }
{
    let Some((next, _)) = reader.rest.split_first() else {
        return false;
    };
    matches!(Keyword::of(next), Keyword::Def | Keyword::Numeral)
}

/// What a reference begins with: a label, or a name with a colon and a number.
fn head(reader: &mut Reader<'_>) -> Result<(Word, Option<(Place, NumberTree)>), Refusal>
    ensures { (room : ℕ) → Reads head_form room same_head reader.old.rest.now result reader.new.rest.now }
{
    let name = reader.expect_name(Sign::Identifier)?;
    if !is_name(&name) {
        return Ok((name, None));
    }
    let Some(colon) = takes_key(reader, Keyword::Colon) else {
        return Ok((name, None));
    };
    let first = number(reader)?;
    Ok((name, Some((colon, first))))
}

/// The numbers that go on with this one, and the comma behind them, where a further reference has to follow it.
fn numbers(
    reader: &mut Reader<'_>,
    first: NumberTree,
) -> Result<(Separated<NumberTree>, Option<Comma>), Refusal>
    ensures reads { (room : ℕ) → ReadsNumbers room first reader.old.rest.now result reader.new.rest.now }
    ensures shorter { OnOk result (length reader.new.rest.now ≤ length reader.old.rest.now) }
{
    let mut more = Vec::new(reader.alloc);
    'more: while let Some(sign) = takes_comma(reader, false) {
        if !number_comes(reader) {
            let more = Trees { items: more };
            return Ok((Separated { first, more }, Some(sign)));
        }
        let tree = number(reader)?;
        more.push(Next { sign, tree })?;
    }
    let more = Trees { items: more };
    Ok((Separated { first, more }, None))
}

/// A reference, and the comma behind it, where a further one has to follow it.
fn reference(reader: &mut Reader<'_>) -> Result<(ReferenceTree, Option<Comma>), Refusal>
    ensures reads { (room : ℕ) → ReadsReference room reader.old.rest.now result reader.new.rest.now }
    ensures shorter { OnOk result (length reader.new.rest.now < length reader.old.rest.now) }
{
    let (article, numbered) = head(reader)?;
    let Some((colon, first)) = numbered else {
        let comma = takes_comma(reader, false);
        return Ok((ReferenceTree::Label(article), comma));
    };
    let (numbers, comma) = numbers(reader, first)?;
    let tree = ReferenceTree::Numbered {
        article,
        colon,
        numbers,
    };
    Ok((tree, comma))
}

/// References with commas between them. A number behind a comma goes on with the reference before it, where that has
/// numbers.
pub fn references(reader: &mut Reader<'_>) -> Result<Separated<ReferenceTree>, Refusal>
    ensures { (room : ℕ) → Reads references_form room same_references reader.old.rest.now result reader.new.rest.now }
{
    let (first, mut comma) = reference(reader)?;
    let mut more = Vec::new(reader.alloc);
    'more: while let Some(sign) = comma {
        let (tree, next) = reference(reader)?;
        more.push(Next { sign, tree })?;
        comma = next;
    }
    let more = Trees { items: more };
    Ok(Separated { first, more })
}

/// A reference to a scheme: a label, or a name with a colon, `sch` and a number.
pub fn scheme(reader: &mut Reader<'_>) -> Result<SchemeReferenceTree, Refusal>
    ensures { (room : ℕ) → Reads scheme_form room same_scheme reader.old.rest.now result reader.new.rest.now }
{
    let article = reader.expect_name(Sign::Identifier)?;
    if !is_name(&article) {
        return Ok(SchemeReferenceTree::Label(article));
    }
    let Some(colon) = takes_key(reader, Keyword::Colon) else {
        return Ok(SchemeReferenceTree::Label(article));
    };
    let sch = expect_key(reader, Keyword::Sch)?;
    let number = expect_numeral(reader)?;
    Ok(SchemeReferenceTree::Numbered {
        article,
        colon,
        sch,
        number,
    })
}
