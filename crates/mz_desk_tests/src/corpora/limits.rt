//! The limits of gathering.
use crate::corpora::samples::{add, gathered, name_of, numbered};
use mz_corpus::gather_fault::GatherFault;
use mz_io::file_kind::FileKind;
use mz_io::file_list::FileList;

#[test]
fn a_text_is_too_long(rt: HostRuntime) {
    for (len, fits) in [(1_048_576, true), (1_048_577, false)] {
        let long = vec![in rt.alloc(); b' '; len].expect(&rt, "memory");
        let mut files = FileList::new(rt.alloc());
        add(
            &rt,
            rt.alloc(),
            &mut files,
            FileKind::Article,
            "A",
            long.as_slice(),
        );
        match gathered(&rt, rt.alloc(), files, 0, "A") {
            Ok(_) => assert!(rt; fits),
            Err(GatherFault::TooLong { name }) => {
                assert!(rt; !fits);
                assert!(rt; name == name_of(&rt, "A"));
            }
            Err(_) => panic!(rt; "another fault"),
        }
    }
}

/// Sixteen texts of 1,048,576 bytes are all that fits.
#[test]
fn all_texts_are_too_long(rt: HostRuntime) {
    let mut text = Vec::new(rt.alloc());
    text.extend_from_slice(b"environ begin ::")
        .expect(&rt, "memory");
    for _ in 0..1_048_560 {
        text.push(b'x').expect(&rt, "memory");
    }
    assert!(rt; text.len() == 1_048_576);
    for (line, more) in [
        ("A B C D E F G H I J K L M N O P", 0),
        ("A B C D E F G H I J K L M N O P Q", 13),
    ] {
        let mut files = FileList::new(rt.alloc());
        for name in "A B C D E F G H I J K L M N O P".split(' ') {
            add(
                &rt,
                rt.alloc(),
                &mut files,
                FileKind::Article,
                name,
                text.as_slice(),
            );
        }
        add(
            &rt,
            rt.alloc(),
            &mut files,
            FileKind::Article,
            "Q",
            b"environ begin",
        );
        match gathered(&rt, rt.alloc(), files, 0, line) {
            Ok(corpus) => {
                assert!(rt; more == 0);
                assert!(rt; corpus.len() == 16);
            }
            Err(GatherFault::TooMuchText { bytes }) => assert!(rt; bytes == 16_777_216 + more),
            Err(_) => panic!(rt; "another fault"),
        }
    }
}

/// With the article that names them 511 further ones are all that fits. It is taken last, though its name comes first.
#[test]
fn articles_are_too_many(rt: HostRuntime) {
    for (count, fits) in [(511, true), (512, false)] {
        let text = numbered(&rt, rt.alloc(), "environ theorems", "M", 0, count);
        let mut files = FileList::new(rt.alloc());
        add(
            &rt,
            rt.alloc(),
            &mut files,
            FileKind::Article,
            "A",
            text.as_bytes(),
        );
        match gathered(&rt, rt.alloc(), files, 0, "A") {
            Ok(corpus) => {
                assert!(rt; fits);
                assert!(rt; corpus.len() == 512);
                let ordering = corpus.order(rt.alloc()).expect(&rt, "memory");
                let last = ordering.order.as_slice().last().copied();
                assert!(rt; last == Some(name_of(&rt, "A")));
            }
            Err(GatherFault::TooManyArticles) => assert!(rt; !fits),
            Err(_) => panic!(rt; "another fault"),
        }
    }
}

/// 512 vocabularies are all that fits.
#[test]
fn vocabularies_are_too_many(rt: HostRuntime) {
    for (count, fits) in [(512, true), (513, false)] {
        let text = numbered(&rt, rt.alloc(), "environ vocabularies", "V", 0, count);
        let mut files = FileList::new(rt.alloc());
        add(
            &rt,
            rt.alloc(),
            &mut files,
            FileKind::Article,
            "A",
            text.as_bytes(),
        );
        match gathered(&rt, rt.alloc(), files, 0, "A") {
            Ok(corpus) => {
                assert!(rt; fits);
                assert!(rt; corpus.vocabularies().items.len() == 512);
            }
            Err(GatherFault::TooManyVocabularies) => assert!(rt; !fits),
            Err(_) => panic!(rt; "another fault"),
        }
    }
}
