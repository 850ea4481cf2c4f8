//! The marks of commas.
ghost use Rattle.std.specs.Prelude.{◌≡◌, IfOk, map, reverse};
ghost use Rattle.mz_marks.specs.Marks.{AreMarks};
ghost use Rattle.mz_marks.specs.PendingMark.{pending_marks};
ghost use Rattle.mz_marks.specs.TokenClass.{class_of};

use crate::pending_mark::{PendingMark, reserving_after};
use crate::suffix::Suffix;
use crate::token_class::{TokenClass, classes};
use mz_base::token::{Mark, Tokens};
use std::alloc::{AllocError, Global};
use std::marker::Model;

/// The marks of a list of tokens, one for each token, in order.
#[derive(Debug, Drop)]
pub struct Marks {
    pub items: Vec<Mark>,
}

impl Model for Marks {
    ghost use Rattle.std.specs.Prelude.{List};
    ghost use Rattle.mz_base.specs.declared.token.Mark.{Mark};

    ghost Value = { List Mark };

    ghost view = { λ a. a.items.items };
}

impl Marks {
    /// The marks of the tokens (`docs/LANGUAGE.md`).
    pub fn of(alloc: Global, tokens: &Tokens) -> Result<Marks, AllocError>
        ensures { IfOk result (λ marks. AreMarks (map class_of tokens.now.items) marks) }
    {
        let classes = classes(alloc, tokens.items.as_slice())?;
        let items = marks_of(alloc, classes.as_slice())?;
        Ok(Marks { items })
    }
}

/// What stands behind each token, the last one first.
fn pending_marks(alloc: Global, classes: &[TokenClass]) -> Result<Vec<PendingMark>, AllocError>
    ensures { IfOk result (λ v. v.items ≡ reverse (pending_marks classes.now)) }
{
    let mut suffix = Suffix::end(alloc);
    let mut out = Vec::new(alloc);
    let mut rest = classes;
    'back: while let Some((class, before)) = rest.split_last() {
        out.push(PendingMark::of(
            *class,
            suffix.begins,
            suffix.segment,
            suffix.reserve_segment,
        ))?;
        suffix.meet(*class)?;
        rest = before;
    }
    Ok(out)
}

fn marks_of(alloc: Global, classes: &[TokenClass]) -> Result<Vec<Mark>, AllocError>
    ensures { IfOk result (λ v. AreMarks classes.now v.items) }
{
    let mut pending_marks = pending_marks(alloc, classes)?;
    let mut marks = Vec::new(alloc);
    let mut reserving = false;
    let mut rest = classes;
    'on: while let Some((class, after)) = rest.split_first() {
        let Some(pending) = pending_marks.pop() else {
            return Ok(marks);
        };
        marks.push(pending.settled(reserving))?;
        reserving = reserving_after(reserving, *class);
        rest = after;
    }
    Ok(marks)
}

#[cfg(test)]
mod tests {
    use super::*;
    use mz_base::place::Place;
    use mz_base::symbol_kind::SymbolKind;
    use mz_base::text::Text;
    use mz_base::token::{Token, TokenKind};
    use std::process::Abort;

    /// What a word of the table is: `M`, `G`, `+` and `in` are symbols.
    fn kind_of(word: &[u8]) -> TokenKind {
        let reserved: [&[u8]; 15] = [
            b"let", b"be", b"being", b"reserve", b"for", b"of", b"over", b"st", b"set", b"the",
            b"it", b"not", b"if", b"equals", b"holds",
        ];
        for other in reserved {
            if other == word {
                return TokenKind::Reserved;
            }
        }
        if word == b"M".as_slice() {
            TokenKind::Symbol(SymbolKind::Mode)
        } else if word == b"G".as_slice() {
            TokenKind::Symbol(SymbolKind::Structure)
        } else if word == b"U".as_slice() {
            TokenKind::Symbol(SymbolKind::Selector)
        } else if word == b"+".as_slice() {
            TokenKind::Symbol(SymbolKind::Functor)
        } else if word == b"in".as_slice() {
            TokenKind::Symbol(SymbolKind::Predicate)
        } else if word == b"1".as_slice() {
            TokenKind::Numeral
        } else if !word.is_empty() && word[0].is_ascii_alphabetic() {
            TokenKind::Identifier
        } else {
            TokenKind::Special
        }
    }

    /// `L` or `D` for each comma of the words, which blanks separate.
    fn commas(rt: &impl Abort, alloc: Global, text: &[u8]) -> Text {
        let mut items = Vec::new(alloc);
        for word in text.split(|byte| *byte == b' ') {
            items
                .push(Token {
                    kind: kind_of(word),
                    place: Place::start(),
                    spelling: Text::from_slice(alloc, word).expect(rt, "memory"),
                    priority: 0,
                })
                .expect(rt, "memory");
        }
        let tokens = Tokens {
            items,
            end: Place::start(),
        };
        let marks = Marks::of(alloc, &tokens).expect(rt, "memory");
        let mut letters = Text::new(alloc);
        for mark in &marks.items {
            match mark {
                Mark::NotComma => {}
                Mark::List => letters.push(b'L').expect(rt, "memory"),
                Mark::Dividing => letters.push(b'D').expect(rt, "memory"),
            }
        }
        letters
    }

    #[test]
    fn commas_of_texts(rt: HostRuntime) {
        let rows: [(&[u8], &[u8]); 26] = [
            (b"{ a , b , P [ c ] }", b"DD"),
            (b"let x be M of a , y", b"L"),
            (b"let x be M of a , y ;", b"L"),
            (b"let x be M of a , y be M", b"D"),
            (b"reserve x for M of a , y for set", b"D"),
            (b"reserve x for M of a , y , z for set", b"DD"),
            (b"reserve x for set ; for y st a in b , c for d", b"L"),
            (b"st a in b , c for d being object", b"L"),
            (b"equals t if x in y , u if", b"L"),
            (b"a , not b", b"D"),
            (b"a ,", b"L"),
            (b"a , G", b"L"),
            (b"a , G (# b #)", b"L"),
            (b"a , G over b", b"D"),
            (b"a , 1", b"D"),
            (b"a , set", b"D"),
            (b"a , it", b"L"),
            (b"a , $10", b"L"),
            (b"a , the U of b", b"L"),
            (b"a , + b", b"L"),
            (b"x , y being set", b"D"),
            (b"F ( set ) -> set , H ( set ) -> set", b"D"),
            (b"a , H , J ( M of a , [ b ] ) -> set", b"DDL"),
            (b"a , F ( ( b ) ) -> c", b"D"),
            (b"a , F ( ( b ) -> c", b"L"),
            (b"a , F ( [ b ) -> c", b"D"),
        ];
        for (text, letters) in rows {
            let found = commas(&rt, rt.alloc(), text);
            assert!(rt; found.as_slice() == letters);
        }
    }
}
