//! What is gathered from a shelf, and in which order.
use crate::corpora::samples::{add, gathered, is_line, name_of};
use mz_corpus::corpus::Corpus;
use mz_corpus::gather_fault::GatherFault;
use mz_io::file_kind::FileKind;
use mz_io::file_list::FileList;
use std::alloc::Global;
use std::process::Abort;

fn are_names<R: Abort>(rt: &R, alloc: Global, corpus: &Corpus, line: &str) -> bool {
    let mut names = Vec::new(alloc);
    for article in corpus.articles() {
        names.push(article.name).expect(rt, "memory");
    }
    is_line(rt, alloc, names.as_slice(), line)
}

fn are_vocabularies<R: Abort>(rt: &R, alloc: Global, corpus: &Corpus, line: &str) -> bool {
    let mut names = Vec::new(alloc);
    for vocabulary in &corpus.vocabularies().items {
        names.push(vocabulary.name()).expect(rt, "memory");
    }
    is_line(rt, alloc, names.as_slice(), line)
}

/// Articles with these names and texts.
fn articles<R: Abort>(rt: &R, alloc: Global, rows: &[(&str, &str)]) -> FileList {
    let mut files = FileList::new(alloc);
    for (name, text) in rows {
        add(
            rt,
            alloc,
            &mut files,
            FileKind::Article,
            name,
            text.as_bytes(),
        );
    }
    files
}

/// Articles by their names and texts, the words, and the articles that are gathered, without vocabularies.
#[test]
fn gathers_in_turn(rt: HostRuntime) {
    let rows: [(&[(&str, &str)], &str, &str); 3] = [
        (
            &[
                ("A", "environ theorems B; begin"),
                ("B", "environ theorems A; begin"),
                ("C", "environ theorems A; begin"),
                ("D", "environ begin"),
            ],
            "A B C D",
            "A B C D",
        ),
        (
            &[
                ("B14", "environ theorems A14; begin"),
                ("A14", "environ begin"),
            ],
            "B14",
            "B14 A14",
        ),
        (&[], "NOFILE", "NOFILE"),
    ];
    for (row, line, expected) in rows {
        let files = articles(&rt, rt.alloc(), row);
        let corpus = gathered(&rt, rt.alloc(), files, 0, line).expect(&rt, "a corpus");
        assert!(rt; are_names(&rt, rt.alloc(), &corpus, expected));
        assert!(rt; are_vocabularies(&rt, rt.alloc(), &corpus, ""));
    }
}

/// Articles by their names and texts, the words, the articles that are gathered, and the vocabularies.
#[test]
fn gathers_vocabularies(rt: HostRuntime) {
    let rows: [(&[(&str, &str)], &str, &str, &str); 2] = [
        (
            &[(
                "B14",
                "environ vocabularies HIDDEN, TARSKI_0; theorems A14; begin",
            )],
            "B14 HIDDEN B14",
            "B14 A14",
            "",
        ),
        (
            &[
                (
                    "Z",
                    "environ vocabularies V, W; notations Y, X; theorems TARSKI_0, W; begin",
                ),
                ("Y", "environ vocabularies W, U; requirements V; begin"),
                ("X", "vocabularies T; begin"),
            ],
            "Z",
            "Z Y X W",
            "V W U",
        ),
    ];
    for (row, line, expected, vocabularies) in rows {
        let files = articles(&rt, rt.alloc(), row);
        let corpus = gathered(&rt, rt.alloc(), files, 0, line).expect(&rt, "a corpus");
        assert!(rt; are_names(&rt, rt.alloc(), &corpus, expected));
        assert!(rt; are_vocabularies(&rt, rt.alloc(), &corpus, vocabularies));
    }
}

/// Four articles are fetched, and the fetch with this number fails.
#[test]
fn a_failed_fetch_ends_it(rt: HostRuntime) {
    let rows = [
        ("DD", "environ theorems DB, DC; begin"),
        ("DB", "environ theorems DA; begin"),
        ("DC", "environ theorems DA; begin"),
        ("DA", "environ begin"),
    ];
    for (fail, read) in [(1, true), (2, true), (3, true), (4, true), (5, false)] {
        let files = articles(&rt, rt.alloc(), rows.as_slice());
        match gathered(&rt, rt.alloc(), files, fail, "DD") {
            Ok(corpus) => {
                assert!(rt; !read);
                assert!(rt; are_names(&rt, rt.alloc(), &corpus, "DD DB DC DA"));
            }
            Err(GatherFault::Read) => assert!(rt; read),
            Err(_) => panic!(rt; "another fault"),
        }
    }
}

/// The vocabulary V, which is too long, is fetched before the article B, whose fetch would be the third.
#[test]
fn vocabularies_come_before_the_next_article(rt: HostRuntime) {
    let long = vec![in rt.alloc(); b'\n'; 1_048_577].expect(&rt, "memory");
    for (fail, read) in [(1, true), (2, true), (3, false)] {
        let mut files = FileList::new(rt.alloc());
        add(
            &rt,
            rt.alloc(),
            &mut files,
            FileKind::Article,
            "A",
            b"environ vocabularies V; theorems B; begin",
        );
        add(
            &rt,
            rt.alloc(),
            &mut files,
            FileKind::Vocabulary,
            "V",
            long.as_slice(),
        );
        match gathered(&rt, rt.alloc(), files, fail, "A") {
            Err(GatherFault::TooLong { name }) => {
                assert!(rt; !read);
                assert!(rt; name == name_of(&rt, "V"));
            }
            Err(GatherFault::Read) => assert!(rt; read),
            _ => panic!(rt; "another answer"),
        }
    }
}
