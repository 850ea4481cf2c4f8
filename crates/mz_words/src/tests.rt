//! Words that are an order, and words that are none.
use crate::order::Order;
use crate::word_fault::WordFault;
use crate::words::read_words;
use mz_base::name::Name;
use std::alloc::Global;
use std::process::Abort;

// The words of a line, each divided from the next by a bar; an empty line has none.
fn words_of<R: Abort>(rt: &R, alloc: Global, line: &str) -> Vec<String> {
    let mut words = Vec::new(alloc);
    if line.is_empty() {
        return words;
    }
    for word in line.split('|') {
        let word = String::from_str(alloc, word).expect(rt, "memory");
        words.push(word).expect(rt, "memory");
    }
    words
}

// The numbers of the names, which are divided by a space.
fn numbers_of<R: Abort>(rt: &R, alloc: Global, names: &str) -> Vec<u64> {
    let mut numbers = Vec::new(alloc);
    for name in names.split(' ') {
        if !name.is_empty() {
            let name = Name::read(name.as_bytes()).expect(rt, "a name");
            numbers.push(name.number()).expect(rt, "memory");
        }
    }
    numbers
}

fn has_names(order: &Order, numbers: &[u64]) -> bool {
    let names = order.names.as_slice();
    names.len() == numbers.len()
        && names
            .iter()
            .zip(numbers)
            .all(|(name, number)| name.number() == *number)
}

// A line, the number of workers, whether the listing is wanted, how many articles are made, and the names.
type Row = (&'static str, u32, bool, Option<u32>, &'static str);

fn reads<R: Abort>(rt: &R, alloc: Global, rows: &[Row]) {
    for (line, workers, list, generate, names) in rows {
        let words = words_of(rt, alloc, line);
        match read_words(alloc, words.as_slice()) {
            Ok(order) => {
                assert!(rt; order.workers == *workers);
                assert!(rt; order.list == *list);
                assert!(rt; order.generate == *generate);
                let numbers = numbers_of(rt, alloc, names);
                assert!(rt; has_names(&order, numbers.as_slice()));
            }
            Err(_) => panic!(rt; "refused"),
        }
    }
}

fn refuses<R: Abort>(rt: &R, alloc: Global, lines: &[&str]) {
    for line in lines {
        let words = words_of(rt, alloc, line);
        let answer = read_words(alloc, words.as_slice());
        assert!(rt; matches!(answer, Err(WordFault::Usage)));
    }
}

#[test]
fn reads_names(rt: HostRuntime) {
    let rows: [Row; 7] = [
        ("A", 1, false, None, "A"),
        ("A|A|a", 1, false, None, "A"),
        ("A|B|a", 1, false, None, "A B"),
        ("B|A|B", 1, false, None, "B A"),
        ("NOFILE", 1, false, None, "NOFILE"),
        ("--|A|B", 1, false, None, "A B"),
        ("A|--|B|a", 1, false, None, "A B"),
    ];
    reads(&rt, rt.alloc(), rows.as_slice());
}

#[test]
fn reads_options(rt: HostRuntime) {
    let rows: [Row; 10] = [
        ("A|--list|B|--workers|0016", 16, true, None, "A B"),
        ("--workers=4|DD", 4, false, None, "DD"),
        ("--workers|4|--|A", 4, false, None, "A"),
        ("A|--workers|1|--", 1, false, None, "A"),
        ("--list|--workers=16|tarski_b", 16, true, None, "TARSKI_B"),
        ("--list|--|A", 1, true, None, "A"),
        ("--generate|200", 1, false, Some(200), ""),
        ("--generate=512|--workers|8", 8, false, Some(512), ""),
        ("--generate|1", 1, false, Some(1), ""),
        ("--generate=0007|--", 1, false, Some(7), ""),
    ];
    reads(&rt, rt.alloc(), rows.as_slice());
}

#[test]
fn refuses_words_that_are_no_names(rt: HostRuntime) {
    let lines = [
        "",
        "A|",
        "|A",
        "A B",
        "é",
        "A|é",
        "-|A",
        "-w|A",
        "-w4|A",
        "-é|A",
        "+1|A",
        "1A",
        "ABCDEFGHI",
        "HIDDEN",
        "tarski_0",
        "A|TARSKI_A",
    ];
    refuses(&rt, rt.alloc(), lines.as_slice());
}

#[test]
fn refuses_other_options(rt: HostRuntime) {
    let lines = [
        "--help",
        "--help|A",
        "--version",
        "-h|A",
        "--work|2|A",
        "-workers|2|A",
        "--é|A",
        "--=2|A",
        "--list=1|A",
        "--list|--list|A",
        "--list",
        "--list|--generate|3",
        "--|--list",
        "--|-|A",
        "A|--|--",
        "A|--|--workers|4",
    ];
    refuses(&rt, rt.alloc(), lines.as_slice());
}

#[test]
fn refuses_values(rt: HostRuntime) {
    let lines = [
        "--workers|0|A",
        "--workers|17|A",
        "--workers|2|--workers|2|A",
        "--workers=2|--workers|2|A",
        "--workers|--list|A",
        "--workers|--|A",
        "--workers|A",
        "--workers|A|A",
        "--workers|-1|A",
        "--workers|+4|A",
        "--workers|é|A",
        "--workers||A",
        "--workers=|A",
        "--workers==4|A",
        "--workers|00001|A",
        "A|--workers",
        "--workers|4",
        "--generate|0",
        "--generate|513",
        "--generate|3|A",
        "--generate|3|--generate=3",
        "--generate|--workers|3",
    ];
    refuses(&rt, rt.alloc(), lines.as_slice());
}
