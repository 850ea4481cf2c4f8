//! Texts and vocabularies at their limits, and a text that is read, with what it is.
use crate::front::texts::{READ, Told, exports, told};
use mz_base::text::Text;
use mz_base::vocabularies::Vocabularies;
use mz_front::front::{Front, end};
use mz_front::stages::front;
use mz_tree_item::article::{ArticlePartTree, ItemTree};
use std::alloc::Global;
use std::mem::forget;
use std::process::Abort;

/// The front, and so often the piece behind it.
fn repeated(rt: &impl Abort, alloc: Global, front: &[u8], piece: &[u8], times: usize) -> Text {
    let mut text = Text::from_slice(alloc, front).expect(rt, "memory");
    for _ in 0..times {
        text.extend_from_slice(piece).expect(rt, "memory");
    }
    text
}

const LARGE: [(&[u8], &[u8], usize, Told); 5] = [
    (b"environ begin", b";", 199_998, (1, 14, 14, 0)),
    (b"environ begin", b";", 199_999, (1, 200_012, 13, 0)),
    (b"environ begin theorem ", b"(", 128, (1, 151, 16, 0)),
    (b"environ begin theorem ", b"(", 129, (1, 151, 15, 0)),
    (b"environ begin ::", b"(", 200_000, READ),
];

#[test]
fn texts_at_their_limits(rt: HostRuntime) {
    let exports = exports(&rt, rt.alloc());
    for (front, piece, times, wanted) in &LARGE {
        let text = repeated(&rt, rt.alloc(), front, piece, *times);
        let fault = told(&rt, rt.alloc(), &exports, text.as_slice(), None, None);
        assert!(rt; fault == *wanted, "at {:?}", front);
        forget(text);
    }
    forget(exports);
}

/// A vocabulary of 4,096 predicates, each of three letters from `A` to `P`.
fn predicates(rt: &impl Abort, alloc: Global) -> Text {
    let mut text = Text::new(alloc);
    for a in b'A'..=b'P' {
        for b in b'A'..=b'P' {
            for c in b'A'..=b'P' {
                let line = [b'R', a, b, c, b'\n'];
                text.extend_from_slice(line.as_slice()).expect(rt, "memory");
            }
        }
    }
    text
}

const BESIDE_4096: [(&[u8], Told); 3] = [
    (b"RPPP", READ),
    (b"RPPQ", (1, 25, 26, 0)),
    (b"OPPQ\nOAAA", (1, 25, 25, 0)),
];

#[test]
fn symbols_at_their_limit(rt: HostRuntime) {
    let exports = exports(&rt, rt.alloc());
    let all = predicates(&rt, rt.alloc());
    let text = b"environ vocabularies V, W; begin";
    for (w, wanted) in &BESIDE_4096 {
        let fault = told(
            &rt,
            rt.alloc(),
            &exports,
            text,
            Some(all.as_slice()),
            Some(*w),
        );
        assert!(rt; fault == *wanted, "at {:?}", w);
    }
    forget(all);
    forget(exports);
}

/// The letter of a part: `b` of `begin`, `r` of `reserve`, `t` of a theorem, `s` of a statement, `?` of another item.
fn letter(part: &ArticlePartTree) -> u8 {
    match part {
        ArticlePartTree::Begin(_) => b'b',
        ArticlePartTree::Item(item) => match item {
            ItemTree::Reserve(_) => b'r',
            ItemTree::Theorem(_) => b't',
            ItemTree::Statement(_) => b's',
            _ => b'?',
        },
    }
}

/// Whether the parts are `reserve`, a further `begin`, a theorem and a statement.
fn has_these_parts(x: &Front) -> bool {
    for (part, wanted) in x.tree.parts.items.iter().zip([b'r', b'b', b't', b's']) {
        if letter(part) != wanted {
            return false;
        }
    }
    x.tree.parts.items.len() == 4
}

#[test]
fn what_a_text_is(rt: HostRuntime) {
    let exports = exports(&rt, rt.alloc());
    let none = Vocabularies {
        items: Vec::new(rt.alloc()),
    };
    let text =
        b"environ theorems TARSKI_0, P; requirements HIDDEN; begin reserve x for set; begin theorem x = x; x = x;";
    let x = front(rt.alloc(), &none, &exports, text).expect(&rt, "a text that is read");
    assert!(rt; x.head.items.len() == 2);
    assert!(rt; x.tree.directives.items.len() == 2);
    assert!(rt; has_these_parts(&x));
    assert!(rt; x.environment.theorems.as_slice().len() == 7);
    assert!(rt; x.environment.schemes.as_slice().is_empty());
    end(x);
    forget(exports);
}
