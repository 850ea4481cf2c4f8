//! The greatest corpus.
use crate::corpora::samples::{add, gathered, name_of, numbered};
use mz_io::file_kind::FileKind;
use mz_io::file_list::FileList;
use std::alloc::Global;
use std::process::Abort;

/// The text of an article that names the 32 behind it, as far as there are 512.
fn text_of<R: Abort>(rt: &R, alloc: Global, i: u32) -> String {
    if i < 480 {
        numbered(rt, alloc, "environ theorems", "M", i + 1, i + 33)
    } else if i < 511 {
        numbered(rt, alloc, "environ theorems", "M", i + 1, 512)
    } else {
        String::from_str(alloc, "environ begin").expect(rt, "memory")
    }
}

/// 512 articles, gathered by the name of the first, which is taken last.
#[test]
fn orders_512_articles(rt: HostRuntime) {
    let mut files = FileList::new(rt.alloc());
    for i in 0..512 {
        let name = format!(in rt.alloc(); "M{i:03}").expect(&rt, "memory");
        let text = text_of(&rt, rt.alloc(), i);
        add(
            &rt,
            rt.alloc(),
            &mut files,
            FileKind::Article,
            name.as_str(),
            text.as_bytes(),
        );
    }
    let corpus = gathered(&rt, rt.alloc(), files, 0, "M000").expect(&rt, "a corpus");
    assert!(rt; corpus.len() == 512);
    let ordering = corpus.order(rt.alloc()).expect(&rt, "memory");
    assert!(rt; ordering.order.len() == 512);
    assert!(rt; ordering.rest.is_empty());
    let order = ordering.order.as_slice();
    assert!(rt; order.first().copied() == Some(name_of(&rt, "M511")));
    assert!(rt; order.last().copied() == Some(name_of(&rt, "M000")));
}
