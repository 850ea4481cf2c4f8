//! Corpora of a few articles and of many, their order and their dependencies.
use crate::corpora::samples::{is_line, name_of, names_of};
use mz_base::name::Name;
use mz_base::names::Names;
use mz_base::text::Text;
use mz_base::vocabularies::Vocabularies;
use mz_corpus::corpus::Corpus;
use mz_corpus::source::{Source, Sources};
use std::alloc::Global;
use std::process::Abort;
use std::sync::Arc;

fn source<R: Abort>(rt: &R, alloc: Global, name: Name, dependencies: Names) -> Source {
    let text = Text::from_slice(alloc, b"environ begin").expect(rt, "memory");
    let text = Arc::new(alloc, text).expect(rt, "memory");
    Source {
        name,
        text: Some(text),
        dependencies,
        vocabulary_names: Names::new(alloc),
    }
}

fn made<R: Abort>(rt: &R, alloc: Global, sources: &Sources) -> Option<Corpus> {
    let vocabularies = Vocabularies {
        items: Vec::new(alloc),
    };
    Corpus::new(alloc, sources, vocabularies).expect(rt, "memory")
}

fn corpus_of<R: Abort>(rt: &R, alloc: Global, rows: &[(&str, &str)]) -> Option<Corpus> {
    let mut sources = Sources::new(alloc);
    for (name, line) in rows {
        let source = source(rt, alloc, name_of(rt, name), names_of(rt, alloc, line));
        sources.push(source).expect(rt, "memory");
    }
    made(rt, alloc, &sources)
}

/// Articles with their dependencies, the order, and the rest.
#[test]
fn orders_articles(rt: HostRuntime) {
    let rows: [(&[(&str, &str)], &str, &str); 5] = [
        (
            &[("A", "B"), ("B", "A"), ("C", "A"), ("D", "")],
            "D",
            "A B C",
        ),
        (
            &[
                ("DD", "DC DB"),
                ("DC", "DA TARSKI_0"),
                ("DB", "DA"),
                ("DA", ""),
            ],
            "DA DB DC DD",
            "",
        ),
        (&[("A", "A")], "", "A"),
        (&[("B14", "A14"), ("A14", "")], "A14 B14", ""),
        (
            &[("C", "Z"), ("B", "C A"), ("A", "Z"), ("Z", ""), ("Y", "")],
            "Y Z A C B",
            "",
        ),
    ];
    for (row, order, rest) in rows {
        let corpus = corpus_of(&rt, rt.alloc(), row).expect(&rt, "a corpus");
        let ordering = corpus.order(rt.alloc()).expect(&rt, "memory");
        assert!(rt; is_line(&rt, rt.alloc(), ordering.order.as_slice(), order));
        assert!(rt; is_line(&rt, rt.alloc(), ordering.rest.as_slice(), rest));
    }
}

fn numbered_name<R: Abort>(rt: &R, alloc: Global, i: u32) -> Name {
    let word = format!(in alloc; "M{i:03}").expect(rt, "memory");
    name_of(rt, word.as_str())
}

/// Each of 64 articles depends on the 8 behind it, so the last one is taken first.
#[test]
fn orders_many_articles(rt: HostRuntime) {
    let mut sources = Sources::new(rt.alloc());
    for i in 0..64 {
        let mut dependencies = Names::new(rt.alloc());
        for j in i + 1..i + 9 {
            if j < 64 {
                let name = numbered_name(&rt, rt.alloc(), j);
                dependencies.push(name).expect(&rt, "memory");
            }
        }
        let name = numbered_name(&rt, rt.alloc(), i);
        let source = source(&rt, rt.alloc(), name, dependencies);
        sources.push(source).expect(&rt, "memory");
    }
    let corpus = made(&rt, rt.alloc(), &sources).expect(&rt, "a corpus");
    let ordering = corpus.order(rt.alloc()).expect(&rt, "memory");
    assert!(rt; ordering.order.len() == 64);
    assert!(rt; ordering.rest.is_empty());
    for (i, name) in ordering.order.items.iter().enumerate() {
        assert!(rt; i < 64);
        assert!(rt; *name == numbered_name(&rt, rt.alloc(), 63 - i as u32));
    }
}

#[test]
fn refuses_what_is_no_corpus(rt: HostRuntime) {
    let rows: [&[(&str, &str)]; 3] = [&[("A", ""), ("A", "")], &[("A", "B")], &[("TARSKI_0", "")]];
    for row in rows {
        assert!(rt; corpus_of(&rt, rt.alloc(), row).is_none());
    }
}

/// What each of the articles depends on, directly or by others, and whether it is cyclic.
#[test]
fn reaches_all_dependencies(rt: HostRuntime) {
    let rows = [
        ("A", "B TARSKI_0"),
        ("B", "A"),
        ("C", "A"),
        ("D", ""),
        ("E", "C D"),
    ];
    let corpus = corpus_of(&rt, rt.alloc(), rows.as_slice()).expect(&rt, "a corpus");
    for (row, reach, cyclic) in [
        (0, "A B", true),
        (1, "A B", true),
        (2, "A B", false),
        (3, "", false),
        (4, "A B C D", false),
    ] {
        assert!(rt; row < corpus.len());
        let article = corpus.get(row);
        assert!(rt; is_line(&rt, rt.alloc(), article.reach.as_slice(), reach));
        assert!(rt; article.is_cyclic() == cyclic);
    }
}
