//! Corpora of a few articles, read from texts. What is none stops the test.
use mz_base::name::Name;
use mz_base::names::Names;
use mz_base::text::Text;
use mz_base::vocabularies::{Vocabularies, VocabularyText};
use mz_corpus::corpus::Corpus;
use mz_corpus::source::{Source, Sources};
use std::alloc::Global;
use std::process::Abort;
use std::sync::Arc;

/// The name that is written so.
pub fn name_of<R: Abort>(rt: &R, word: &str) -> Name {
    Name::read(word.as_bytes()).expect(rt, "a name")
}

/// The text with these bytes; none where they are `-`.
fn text_of<R: Abort>(rt: &R, alloc: Global, bytes: &str) -> Option<Arc<Text>> {
    if bytes == "-" {
        return None;
    }
    let text = Text::from_slice(alloc, bytes.as_bytes()).expect(rt, "memory");
    Some(Arc::new(alloc, text).expect(rt, "memory"))
}

/// The vocabularies `NAME=TEXT`, absent where the text is `-`.
fn vocabularies_of<R: Abort>(rt: &R, alloc: Global, named: &str) -> Vocabularies {
    let mut items = Vec::new(alloc);
    for word in named.split_whitespace() {
        let (name, bytes) = word.split_once('=').expect(rt, "a vocabulary");
        let name = name_of(rt, name);
        let text = text_of(rt, alloc, bytes);
        items
            .push(VocabularyText { name, text })
            .expect(rt, "memory");
    }
    Vocabularies { items }
}

/// The names in front of the mark, one in each word.
fn names_of<R: Abort>(rt: &R, alloc: Global, words: &str, between: char, behind: char) -> Names {
    let mut names = Names::new(alloc);
    for word in words.split(between) {
        let name = match word.split_once(behind) {
            Some((name, _)) => name,
            None => word,
        };
        if !name.is_empty() {
            names.push(name_of(rt, name)).expect(rt, "memory");
        }
    }
    names
}

/// An article `NAME:DEPENDENCIES:TEXT` that names the vocabularies; missing where the text is `-`.
fn source_of<R: Abort>(rt: &R, alloc: Global, word: &str, named: &str) -> Source {
    let (name, rest) = word.split_once(':').expect(rt, "an article");
    let (dependencies, bytes) = rest.split_once(':').expect(rt, "an article");
    Source {
        name: name_of(rt, name),
        text: text_of(rt, alloc, bytes),
        dependencies: names_of(rt, alloc, dependencies, ',', ' '),
        vocabulary_names: names_of(rt, alloc, named, ' ', '='),
    }
}

/// The corpus of the articles, with blanks between; each names the vocabularies, which stand behind `/`.
pub fn corpus_of<R: Abort>(rt: &R, alloc: Global, line: &str) -> Arc<Corpus> {
    let (articles, named) = match line.split_once('/') {
        Some(parts) => parts,
        None => (line, ""),
    };
    let mut sources = Sources::new(alloc);
    for word in articles.split_whitespace() {
        let source = source_of(rt, alloc, word, named);
        sources.push(source).expect(rt, "memory");
    }
    let vocabularies = vocabularies_of(rt, alloc, named);
    let corpus = Corpus::new(alloc, &sources, vocabularies).expect(rt, "memory");
    Arc::new(alloc, corpus.expect(rt, "a corpus")).expect(rt, "memory")
}

/// DD rests on DB and DC, and these on DA. The rows are 0 for DD, 1 for DB, 2 for DC and 3 for DA.
pub fn diamond<R: Abort>(rt: &R, alloc: Global, text_of_db: &str) -> Arc<Corpus> {
    let line = format!(in alloc; "DD:DB,DC:d DB:DA:{text_of_db} DC:DA:c DA:TARSKI_0:a");
    let line = line.expect(rt, "memory");
    corpus_of(rt, alloc, line.as_str())
}
