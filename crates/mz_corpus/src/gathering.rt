//! What is gathered so far, and how it goes on.
ghost use Rattle.std.specs.Prelude.{◌≡◌, ◌≢◌, ◌<◌, ◌≤◌, ◌+◌, ◌++◌, ◌∷◌, [], ℕ, false, List, Some, Err, IfOk, OnOk, length};
ghost use Rattle.std.specs.Option.{option_map};
ghost use Rattle.std.specs.Arc.{arc_value};
ghost use Rattle.mz_io.specs.Count.{Rose};
ghost use Rattle.mz_io.specs.File.{lookup};
ghost use Rattle.mz_io.specs.declared.file.File.{File};
ghost use Rattle.mz_corpus.specs.Fit.{AreApart, IsFit};
ghost use Rattle.mz_corpus.specs.Orderly.{IsOrderly};
ghost use Rattle.mz_corpus.specs.declared.gather_fault.GatherFault.TheVariants.{Read};
ghost use Rattle.mz_corpus.specs.Rise.{IsCharged, Raises, IsPaid, Pays};
ghost use Rattle.mz_corpus.specs.Failed.{Gave, ComesToOne, ComesTo};
ghost use Rattle.mz_corpus.specs.Gather.{Gathered, IsFetched, HasDirectives, TakesArticle, Tells, OnRead, is_fetched, next_name, IsCorpusOf, IsBegun, with_vocabulary, with_vocabularies, with_source, queued};

use crate::corpus::Corpus;
use crate::directives::{dependencies_of, vocabulary_names_of};
use crate::gather_fault::GatherFault;
use crate::name_set::NameSet;
use crate::source::{Source, Sources};
use mz_base::head::Head;
use mz_base::name::Name;
use mz_base::names::Names;
use mz_base::text::Text;
use mz_base::vocabularies::{Vocabularies, VocabularyText};
use mz_io::fetch_fault::FetchFault;
use mz_io::file_kind::FileKind;
use mz_io::shelf::Shelf;
use mz_lex::head::head;
use mz_lex::head_fault::HeadFault;
use std::alloc::{AllocError, Global};
use std::marker::Model;
use std::sync::Arc;

/// The most bytes of all texts.
const TEXTS_LIMIT: usize = 16_777_216;

/// The most articles, and the most vocabularies.
const COUNT_LIMIT: usize = 512;

/// What is gathered so far: the queue of article names, what was fetched for those at its front, the vocabularies that
/// were fetched, and the sum of bytes of all texts.
#[derive(Drop)]
pub struct Gathering {
    queue: NameSet,
    sources: Sources,
    vocabularies: Vocabularies,
    bytes: usize,
}

impl Model for Gathering {
    ghost use Rattle.std.specs.Prelude.{◌≤◌};
    ghost use Rattle.mz_corpus.specs.Gather.{Gathered};

    ghost Value = { Gathered };

    ghost view = { λ a. record { queue = a.queue; sources = a.sources; vocabularies = a.vocabularies; bytes = a.bytes } };

    ghost invariant = { λ a. a.bytes ≤ 16777216 };
}

/// The text of a file, or that there is none, and the sum of bytes with it.
fn fetched<S: Shelf>(
    alloc: Global,
    shelf: &mut S,
    kind: FileKind,
    name: &Name,
    bytes: usize,
) -> Result<(Option<Text>, usize), GatherFault>
    requires { bytes ≤ 16777216 }
    ensures told { (files : List File) → S.contents shelf.old ≡ Some files → IsFetched (lookup files kind name.now) name.now bytes result }
    ensures charged { IsCharged (S.amount shelf.old) (S.amount shelf.new) bytes result }
    ensures amount { Raises (S.amount shelf.old) (S.amount shelf.new) result }
    ensures gave { IfOk result (λ r. Gave (S.amount shelf.old) (S.amount shelf.new) bytes r.1) }
    ensures still { OnRead result (S.amount shelf.new ≡ S.amount shelf.old) }
    ensures within { IfOk result (λ r. r.1 ≤ 16777216) }
    ensures unchanged { S.contents shelf.new ≡ S.contents shelf.old }
    ensures never_fall { S.faults shelf.old ≤ S.faults shelf.new }
    ensures read { OnRead result (Rose (S.faults shelf.old) (S.faults shelf.new)) }
{
    match shelf.fetch(alloc, kind, name) {
        Ok(None) => Ok((None, bytes)),
        Ok(Some(text)) => {
            let sum = bytes + text.len();
            if sum > TEXTS_LIMIT {
                return Err(GatherFault::TooMuchText { bytes: sum });
            }
            Ok((Some(text), sum))
        }
        Err(FetchFault::Failed) => Err(GatherFault::Read),
        Err(FetchFault::TooLong) => Err(GatherFault::TooLong { name: *name }),
        Err(FetchFault::Memory) => Err(GatherFault::Memory),
    }
}

/// The directives of the text's environment part; none where it can't be read.
fn text_head(alloc: Global, bytes: &[u8]) -> Result<Head, AllocError>
    ensures { IfOk result (HasDirectives (Some bytes.now)) }
{
    match head(alloc, bytes) {
        Ok(directives) => Ok(directives),
        Err(HeadFault::Memory(_)) => Err(AllocError),
        Err(_) => Ok(Head {
            items: Vec::new(alloc),
        }),
    }
}

/// The directives of the text's environment part; none where it can't be read, or where there is no text.
fn directives_of(alloc: Global, text: &Option<Text>) -> Result<Head, AllocError>
    ensures { IfOk result (HasDirectives text.now) }
{
    match text {
        Some(text) => text_head(alloc, text.as_slice()),
        None => Ok(Head {
            items: Vec::new(alloc),
        }),
    }
}

/// Queues the names, in turn, but for built-in names and those that are queued.
fn queue_names(queue: &mut NameSet, names: &Names) -> Result<(), AllocError>
    ensures { OnOk result (queue.new ≡ queued queue.old names.now) }
{
    for name in &names.items {
        queue.insert_fetched(*name)?;
    }
    Ok(())
}

/// Adds a vocabulary at the end.
fn add_vocabulary(
    vocabularies: &mut Vocabularies,
    name: Name,
    text: Option<Arc<Text>>,
) -> Result<(), AllocError>
    ensures { OnOk result (vocabularies.new ≡ vocabularies.old ++ record { name = name; text = option_map arc_value text } ∷ []) }
{
    vocabularies.items.push(VocabularyText { name, text })?;
    Ok(())
}

/// The text behind an `Arc`.
fn shared(alloc: Global, text: Option<Text>) -> Result<Option<Arc<Text>>, AllocError>
    ensures { IfOk result (λ s. option_map arc_value s ≡ text) }
{
    match text {
        Some(text) => {
            let text = Arc::new(alloc, text)?;
            Ok(Some(text))
        }
        None => Ok(None),
    }
}

impl Gathering {
    /// The queue of these names, in turn, each once and without built-in names, with nothing fetched.
    ///
    /// # Errors
    /// `TooManyArticles` where there are more than 512.
    pub fn begin(alloc: Global, names: &Names) -> Result<Gathering, GatherFault>
        ensures { IsBegun names.now result }
    {
        let mut queue = NameSet::new(alloc);
        for name in &names.items {
            queue.insert_fetched(*name)?;
        }
        if queue.len() > COUNT_LIMIT {
            return Err(GatherFault::TooManyArticles);
        }
        Ok(Gathering {
            queue,
            sources: Sources::new(alloc),
            vocabularies: Vocabularies {
                items: Vec::new(alloc),
            },
            bytes: 0,
        })
    }

    /// The first name of the queue whose text wasn't fetched yet.
    pub fn next(&self) -> Option<Name>
        ensures { result ≡ next_name self.now }
    {
        self.queue.as_slice().get(self.sources.len()).copied()
    }

    fn has_vocabulary(&self, name: &Name) -> bool
        ensures { result ≡ is_fetched self.now.vocabularies name.now }
    {
        has_vocabulary(self.vocabularies.items.as_slice(), name)
    }

    fn fetch_vocabulary<S: Shelf>(
        &mut self,
        alloc: Global,
        shelf: &mut S,
        name: &Name,
    ) -> Result<(), GatherFault>
        ensures told { (files : List File) → S.contents shelf.old ≡ Some files → Tells (λ r. r ≡ with_vocabulary files self.old name.now) result self.new }
        ensures gave { OnOk result (Gave (S.amount shelf.old) (S.amount shelf.new) self.old.bytes self.new.bytes) }
        ensures fails { OnRead result ((S.amount shelf.new ≡ S.amount shelf.old) × (is_fetched self.old.vocabularies name.now ≡ false) × (length self.old.vocabularies < 512)) }
        ensures paid { (names start spare : ℕ) → IsPaid names start (S.amount shelf.old) (spare + 1) self.old → Pays names start (S.amount shelf.new) spare self.new result }
        ensures amount { Raises (S.amount shelf.old) (S.amount shelf.new) result }
        ensures sources { self.new.sources ≡ self.old.sources }
        ensures queue { self.new.queue ≡ self.old.queue }
        ensures apart { OnOk result (AreApart self.old.vocabularies → AreApart self.new.vocabularies) }
        ensures unchanged { S.contents shelf.new ≡ S.contents shelf.old }
        ensures never_fall { S.faults shelf.old ≤ S.faults shelf.new }
        ensures read { OnRead result (Rose (S.faults shelf.old) (S.faults shelf.new)) }
    {
        if self.has_vocabulary(name) {
            return Ok(());
        }
        if self.vocabularies.items.len() >= COUNT_LIMIT {
            return Err(GatherFault::TooManyVocabularies);
        }
        let (text, bytes) = fetched(alloc, shelf, FileKind::Vocabulary, name, self.bytes)?;
        let text = shared(alloc, text)?;
        add_vocabulary(&mut self.vocabularies, *name, text)?;
        self.bytes = bytes;
        Ok(())
    }

    fn fetch_vocabularies<S: Shelf>(
        &mut self,
        alloc: Global,
        shelf: &mut S,
        names: &Names,
    ) -> Result<(), GatherFault>
        ensures told { (files : List File) → S.contents shelf.old ≡ Some files → Tells (λ r. r ≡ with_vocabularies files self.old names.now) result self.new }
        ensures gave { OnOk result (Gave (S.amount shelf.old) (S.amount shelf.new) self.old.bytes self.new.bytes) }
        ensures fails { (files : List File) → S.contents shelf.old ≡ Some files → OnRead result ((h : Gathered) × ComesToOne files self.old names.now h × Gave (S.amount shelf.old) (S.amount shelf.new) self.old.bytes h.bytes) }
        ensures paid { (handed start spare : ℕ) → IsPaid handed start (S.amount shelf.old) (spare + length names.now) self.old → Pays handed start (S.amount shelf.new) spare self.new result }
        ensures amount { Raises (S.amount shelf.old) (S.amount shelf.new) result }
        ensures sources { self.new.sources ≡ self.old.sources }
        ensures queue { self.new.queue ≡ self.old.queue }
        ensures apart { OnOk result (AreApart self.old.vocabularies → AreApart self.new.vocabularies) }
        ensures unchanged { S.contents shelf.new ≡ S.contents shelf.old }
        ensures never_fall { S.faults shelf.old ≤ S.faults shelf.new }
        ensures read { OnRead result (Rose (S.faults shelf.old) (S.faults shelf.new)) }
    {
        for name in names.as_slice() {
            match self.fetch_vocabulary(alloc, shelf, name) {
                Ok(()) => {}
                Err(fault) => return Err(fault),
            }
        }
        Ok(())
    }

    fn add_source(&mut self, source: Source) -> Result<(), GatherFault>
        ensures told { Tells (λ r. r ≡ with_source self.old source) result self.new }
        ensures added { OnOk result (self.new ≡ record self.old { queue = queued self.old.queue source.dependencies; sources = self.old.sources ++ source ∷ [] }) }
        ensures few { OnOk result (length self.new.queue ≤ 512) }
        ensures unread { result ≢ Err Read }
    {
        queue_names(&mut self.queue, &source.dependencies)?;
        if self.queue.len() > COUNT_LIMIT {
            return Err(GatherFault::TooManyArticles);
        }
        self.sources.push(source)?;
        Ok(())
    }

    /// Fetches the text of this name, which is the next one, and its vocabularies, and queues its direct dependencies.
    pub fn take<S: Shelf>(
        &mut self,
        alloc: Global,
        shelf: &mut S,
        name: Name,
    ) -> Result<(), GatherFault>
        ensures told { (files : List File) → S.contents shelf.old ≡ Some files → Tells (TakesArticle files self.old name) result self.new }
        ensures gave { OnOk result (Gave (S.amount shelf.old) (S.amount shelf.new) self.old.bytes self.new.bytes) }
        ensures fails { (files : List File) → S.contents shelf.old ≡ Some files → next_name self.old ≡ Some name → OnRead result ((h : Gathered) × ComesTo files self.old h × Gave (S.amount shelf.old) (S.amount shelf.new) self.old.bytes h.bytes) }
        ensures paid { (names start : ℕ) → IsPaid names start (S.amount shelf.old) 0 self.old → Pays names start (S.amount shelf.new) 0 self.new result }
        ensures amount { Raises (S.amount shelf.old) (S.amount shelf.new) result }
        ensures grows { OnOk result (length self.new.sources ≡ length self.old.sources + 1) }
        ensures few { OnOk result (length self.new.queue ≤ 512) }
        ensures kept { OnOk result (IsOrderly self.old → next_name self.old ≡ Some name → IsOrderly self.new) }
        ensures unchanged { S.contents shelf.new ≡ S.contents shelf.old }
        ensures never_fall { S.faults shelf.old ≤ S.faults shelf.new }
        ensures read { OnRead result (Rose (S.faults shelf.old) (S.faults shelf.new)) }
    {
        let (text, bytes) = fetched(alloc, shelf, FileKind::Article, &name, self.bytes)?;
        self.bytes = bytes;
        let head = directives_of(alloc, &text)?;
        let vocabulary_names = vocabulary_names_of(alloc, head.items.as_slice())?;
        let dependencies = dependencies_of(alloc, head.items.as_slice())?;
        let text = shared(alloc, text)?;
        self.fetch_vocabularies(alloc, shelf, &vocabulary_names)?;
        let source = Source {
            name,
            text,
            dependencies,
            vocabulary_names,
        };
        match self.add_source(source) {
            Ok(()) => Ok(()),
            Err(fault) => Err(fault),
        }
    }
}

impl Gathering {
    /// The corpus of what was gathered.
    pub fn into_corpus(self, alloc: Global) -> Result<Corpus, AllocError>
        requires { IsFit self.sources self.vocabularies }
        ensures { IfOk result (IsCorpusOf self) }
    {
        let Gathering {
            sources,
            vocabularies,
            ..
        } = self;
        Corpus::from_fit(alloc, &sources, vocabularies)
    }
}

fn has_vocabulary(vocabularies: &[VocabularyText], name: &Name) -> bool
    ensures { result ≡ is_fetched vocabularies.now name.now }
{
    vocabularies
        .iter()
        .any(|v| name.number() == v.name().number())
}
