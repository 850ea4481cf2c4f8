//! Names, texts and shelves of the tests.
use mz_base::name::Name;
use mz_base::names::Names;
use mz_base::numbers::Numbers;
use mz_base::text::Text;
use mz_corpus::corpus::Corpus;
use mz_corpus::gather::gather;
use mz_corpus::gather_fault::GatherFault;
use mz_io::file::File;
use mz_io::file_kind::FileKind;
use mz_io::file_list::FileList;
use mz_io::memory_shelf::MemoryShelf;
use std::alloc::Global;
use std::process::Abort;

/// The name that the word spells.
pub fn name_of<R: Abort>(rt: &R, word: &str) -> Name {
    Name::read(word.as_bytes()).expect(rt, "a name")
}

/// The names of a line, with spaces between.
pub fn names_of<R: Abort>(rt: &R, alloc: Global, line: &str) -> Names {
    let mut names = Names::new(alloc);
    for word in line.split(' ') {
        if !word.is_empty() {
            names.push(name_of(rt, word)).expect(rt, "memory");
        }
    }
    names
}

/// Whether these are the names of the line.
pub fn is_line<R: Abort>(rt: &R, alloc: Global, names: &[Name], line: &str) -> bool {
    names == names_of(rt, alloc, line).as_slice()
}

/// Adds a file to the list.
pub fn add<R: Abort>(
    rt: &R,
    alloc: Global,
    files: &mut FileList,
    kind: FileKind,
    name: &str,
    bytes: &[u8],
) {
    let bytes = Text::from_slice(alloc, bytes).expect(rt, "memory");
    let file = File {
        kind,
        name: name_of(rt, name),
        bytes,
    };
    files.push(file).expect(rt, "memory");
}

/// What is gathered from the files for the names of the line, where the call with this number fails.
pub fn gathered<R: Abort>(
    rt: &R,
    alloc: Global,
    files: FileList,
    fail: u64,
    line: &str,
) -> Result<Corpus, GatherFault> {
    let fail = Numbers::from_slice(alloc, &[fail]).expect(rt, "memory");
    let mut shelf = MemoryShelf::new(files, fail);
    gather(alloc, &mut shelf, &names_of(rt, alloc, line))
}

/// `HEAD PREFIX000, PREFIX001 ..`, with the numbers from `first` up to the one before `end`.
pub fn numbered<R: Abort>(
    rt: &R,
    alloc: Global,
    head: &str,
    prefix: &str,
    first: u32,
    end: u32,
) -> String {
    let mut text = String::from_str(alloc, head).expect(rt, "memory");
    for i in first..end {
        let comma = if i == first { "" } else { "," };
        let word = format!(in alloc; "{comma} {prefix}{i:03}").expect(rt, "memory");
        text.push_str(word.as_str()).expect(rt, "memory");
    }
    text.push_str("; begin").expect(rt, "memory");
    text
}
