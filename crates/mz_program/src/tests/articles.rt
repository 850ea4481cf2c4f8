//! Runs over one article, with their reports worked out by hand.
use crate::run::run;
use crate::tests::shared::{add_file, repeated};
use mz_base::name::Name;
use mz_base::numbers::Numbers;
use mz_base::status::Status;
use mz_base::text::Text;
use mz_io::file::File;
use mz_io::file_kind::FileKind;
use mz_io::file_list::FileList;
use mz_io::gate::OpenGate;
use mz_io::memory_shelf::MemoryShelf;
use mz_io::memory_sink::MemorySink;
use std::alloc::Global;
use std::mem::forget;
use std::process::Abort;
use std::sync::Wait;
use std::thread::Threads;

/// A text of one byte more than the limit writes nothing; at the limit it is read.
#[test]
fn long_texts_are_refused(rt: HostRuntime) {
    let early =
        "A rejected 1 faults\n  1:1048577 16 ends early\ntotal 0 accepted, 1 rejected, 0 blocked, 0 cyclic, 0 missing\n";
    let rows = [
        (1_048_576, early, Status::Rejected),
        (1_048_577, "", Status::TooLarge),
    ];
    for (length, report, status) in rows {
        let text = repeated(&rt, rt.alloc(), b"", b" ", length);
        let mut shelf = shelf_of(&rt, rt.alloc(), text.as_slice());
        let answer = check_shelf(&rt, rt.alloc(), &mut shelf, report);
        forget(shelf);
        forget(text);
        assert!(rt; answer == status, "at {length}");
    }
}

/// A shelf with the article A alone.
fn shelf_of(rt: &impl Abort, alloc: Global, text: &[u8]) -> MemoryShelf {
    let name = Name::read(b"A").expect(rt, "a name");
    let mut files = FileList::new(alloc);
    let bytes = Text::from_slice(alloc, text).expect(rt, "memory");
    let kind = FileKind::Article;
    files.push(File { kind, name, bytes }).expect(rt, "memory");
    MemoryShelf::new(files, Numbers::new(alloc))
}

/// A run over the shelf's article A writes this report; how it ends.
fn check_shelf<R: Abort + Threads + Wait + Sync>(
    rt: &R,
    alloc: Global,
    shelf: &mut MemoryShelf,
    report: &str,
) -> Status {
    let mut words = Vec::new(alloc);
    words
        .push(String::from_str(alloc, "A").expect(rt, "memory"))
        .expect(rt, "memory");
    let mut out = MemorySink::new(alloc, 4096, Numbers::new(alloc)).expect(rt, "memory");
    let status = run(rt, alloc, words, shelf, &mut out, &OpenGate);
    let same = out.bytes() == report.as_bytes();
    forget(out);
    assert!(rt; same, "{report}");
    status
}

/// A run over the text, as the article A, writes this report.
fn check_report<R: Abort + Threads + Wait + Sync>(
    rt: &R,
    alloc: Global,
    text: &[u8],
    report: &str,
) {
    let mut shelf = shelf_of(rt, alloc, text);
    check_shelf(rt, alloc, &mut shelf, report);
    forget(shelf);
}

/// A run over the text rejects it with the one fault of this line.
fn check_fault<R: Abort + Threads + Wait + Sync>(rt: &R, alloc: Global, text: &[u8], line: &str) {
    let report = format!(in alloc;
        "A rejected 1 faults\n  {line}\ntotal 0 accepted, 1 rejected, 0 blocked, 0 cyclic, 0 missing\n"
    ).expect(rt, "memory");
    check_report(rt, alloc, text, &report);
    forget(report);
}

/// A run over the text accepts it with so many theorems.
fn check_accepted<R: Abort + Threads + Wait + Sync>(
    rt: &R,
    alloc: Global,
    text: &[u8],
    theorems: u32,
) {
    let report = format!(in alloc;
        "A accepted {theorems} theorems, 0 definitions, 0 registrations, 0 schemes\ntotal 1 accepted, 0 rejected, 0 blocked, 0 cyclic, 0 missing\n"
    ).expect(rt, "memory");
    check_report(rt, alloc, text, &report);
    forget(report);
}

const ACCEPTED_TEXTS: [(&[u8], u32); 16] = [
    (b"environ begin :: the end", 0),
    (b"environ begin :: \xC8", 0),
    (b"environ begin begin", 0),
    (
        b"environ begin begin theorem for x being object holds x = x; begin",
        1,
    ),
    (
        b"environ begin theorem for a,b,c,d,e,f,g,h,i being object holds h=h;",
        1,
    ),
    (
        b"environ begin theorem for x,x being object holds x = x;",
        1,
    ),
    (
        b"environ begin theorem for 12' being object holds 12' = 12';",
        1,
    ),
    (
        b"environ begin theorem for x being object holds x=x;theorem for y being object holds y=y;",
        2,
    ),
    (b"environ begin theorem for x be set holds x = x;", 1),
    (
        b"environ begin theorem B: for x being object holds x = x; theorem for x being object holds x = x by B,A:1;",
        2,
    ),
    (
        b"environ begin theorem for Xc,Y being object st Xc=Y holds Y = Xc;",
        1,
    ),
    (
        b"environ theorems TARSKI_0; begin theorem for x being object ex z being set st for a being object holds a in z iff a = x or a = x by TARSKI_0:3;",
        1,
    ),
    (
        b"environ begin theorem for x,y being object st x in y or y in x holds x = x proof let x,y be object; assume A: x in y or y in x; thus thesis by A,A,A,A,A,A,A,A,A,A; end;",
        1,
    ),
    (
        b"environ begin theorem for x,y being object st x in y holds y = y & x in y proof let x,y be object; assume A: x in y; thus y = y; thus thesis by A; end;",
        1,
    ),
    (
        b"environ begin reserve X,Y for set; theorem X = Y implies Y = X proof assume X = Y; hence Y = X; end;",
        1,
    ),
    (
        b"environ begin consider c being object such that B: c = c; c = c by B; theorem ex x being object st x = x;",
        1,
    ),
];

#[test]
fn texts_are_accepted(rt: HostRuntime) {
    for (text, theorems) in &ACCEPTED_TEXTS {
        check_accepted(&rt, rt.alloc(), text, *theorems);
    }
}

/// The environment part, vocabularies that there aren't, and the tokens.
const TOKEN_FAULTS: [(&[u8], &str); 18] = [
    (b"", "1:1 16 ends early"),
    (b"environ", "1:8 16 ends early"),
    (b"environ theorems A ", "1:20 16 ends early"),
    (b"begin environ", "1:1 14 unexpected token"),
    (b"environ theorems A,; begin", "1:20 14 unexpected token"),
    (
        b"environ theorems object; begin",
        "1:18 14 unexpected token",
    ),
    (
        b"environ equalities A; begin",
        "1:9 30 directive of profile 2",
    ),
    (b"foo \x01", "1:5 11 bad byte"),
    (b"foo \x01 begin theorem", "1:5 11 bad byte"),
    (b"environ ::$C1\nbegin", "1:9 12 pragma"),
    (b"environ begin \xC8", "1:15 11 bad byte"),
    (b"environ begin theorem ::$C1", "1:23 12 pragma"),
    (
        b"environ vocabularies NOVOC; begin",
        "1:22 21 vocabulary missing",
    ),
    (
        b"environ vocabularies NOVOC; begin \xC8",
        "1:22 21 vocabulary missing",
    ),
    (
        b"environ vocabularies TARSKI_0; begin",
        "1:22 21 vocabulary missing",
    ),
    (
        b"environ requirements ARITHM; begin",
        "1:22 28 unknown requirement",
    ),
    (
        b"environ requirements HIDDEN; theorems TARSKI_A; begin theorem",
        "1:62 16 ends early",
    ),
    (
        b"environ theorems TARSKI_0; requirements ARITHM; begin theorem (",
        "1:64 16 ends early",
    ),
];

#[test]
fn faults_of_tokens_come_in_their_order(rt: HostRuntime) {
    for (text, line) in &TOKEN_FAULTS {
        check_fault(&rt, rt.alloc(), text, line);
    }
}

/// The grammar, items that aren't built, and the reading.
const ITEM_FAULTS: [(&[u8], &str); 26] = [
    (
        b"environ begin theorem for x being object holds x = x proof let x",
        "1:65 16 ends early",
    ),
    (
        b"environ begin definition let X,Y be set; pred X c= Y means X = Y; end;",
        "1:49 14 unexpected token",
    ),
    (
        b"environ begin theorem { x, P[y] } = x;",
        "1:26 14 unexpected token",
    ),
    (b"environ begin theorem { x,", "1:27 16 ends early"),
    (b"environ begin end;", "1:15 14 unexpected token"),
    (
        b"environ begin theorem for being object holds x = x;",
        "1:27 14 unexpected token",
    ),
    (
        b"environ begin theorem for x y being object holds x = x;",
        "1:29 14 unexpected token",
    ),
    (
        b"environ begin theorem for in being object holds in = in;",
        "1:27 14 unexpected token",
    ),
    (
        b"environ begin theorem for 12 being object holds 12 = 12;",
        "1:27 14 unexpected token",
    ),
    (
        b"environ begin theorem for x being object holds x = x",
        "1:53 16 ends early",
    ),
    (
        b"environ begin theorem for x being object holds x = x;;",
        "1:54 14 unexpected token",
    ),
    (
        b"environ begin theorem contradiction; theorem (",
        "1:47 16 ends early",
    ),
    (
        b"environ begin definition let X,Y be set; redefine pred X = Y means X in Y; end;",
        "1:42 10 not built",
    ),
    (
        b"environ begin\ntheorem for x,y being object holds x = y;\nscheme S { P[object] } : for x being object holds Q[x];",
        "3:51 33 unknown variable",
    ),
    (
        b"environ begin theorem for x being object holds x = x from S(A);",
        "1:59 43 unknown label",
    ),
    (b"environ begin theorem contradiction;", "1:36 61 open 1"),
    (
        b"environ begin theorem for x being object holds y = y;",
        "1:48 33 unknown variable",
    ),
    (
        b"environ begin theorem for x being object holds x = y;",
        "1:52 33 unknown variable",
    ),
    (
        b"environ begin theorem for a,b,c being object st a in b,c for d being object holds a = a;",
        "1:51 32 no notation",
    ),
    (
        b"environ begin theorem for x being set holds x is strict;",
        "1:50 31 unknown symbol",
    ),
    (
        b"environ begin theorem for x,y being object holds x = x & x = y;",
        "1:63 61 open 2",
    ),
    (
        b"environ begin theorem for x being object holds x = x by A;",
        "1:57 43 unknown label",
    ),
    (
        b"environ begin\ntheorem for x,y being object st x in y holds y = y & x in y\nproof let x,y be object; assume A: x in y;\nthus y = y;\nend;",
        "5:1 42 thesis left",
    ),
    (
        b"environ begin\ntheorem for x being object holds x = x\nproof let x be object; thus x in x; end;",
        "3:24 41 step does not fit",
    ),
    (
        b"environ begin\ntheorem for x,y being object st x in y or y in x holds x = x\nproof let x,y be object; assume A: x in y or y in x;\nthus thesis by A,A,A,A,A,A,A,A,A,A,A;\nend;",
        "4:13 62 too many disjuncts 2048",
    ),
    (
        b"environ begin\ntheorem for X,a,b,c,d,e,f,g,h being object st a in X & b in X & c in X & d in X & e in X & f in X & g in X & h in X\n & (for p,q,r,s,t,u,v,w being object st p in X & q in X & r in X & s in X & t in X & u in X & v in X & w in X holds p = q)\nholds a = b;",
        "4:12 65 too much work 16777216",
    ),
];

#[test]
fn faults_of_items_come_in_their_order(rt: HostRuntime) {
    for (text, line) in &ITEM_FAULTS {
        check_fault(&rt, rt.alloc(), text, line);
    }
}

/// Each step that stays open has its fault, in the order of the text.
#[test]
fn open_steps_are_all_told(rt: HostRuntime) {
    check_report(
        &rt,
        rt.alloc(),
        b"environ begin\ntheorem for x,y being object holds x = y;\ntheorem for x,y being object st x in y holds y in x\nproof let x,y be object; assume A: x in y;\nx = y;\nhence y in x by A; end;\ntheorem for x,y being object holds x in y;",
        "A rejected 3 faults\n  2:41 61 open 1\n  5:6 61 open 1\n  7:42 61 open 1\ntotal 0 accepted, 1 rejected, 0 blocked, 0 cyclic, 0 missing\n",
    );
}

/// The one fault of an article over the vocabulary V: V's bytes, the article's, and the line of the fault.
const VOCABULARY_FAULTS: [(&[u8], &[u8], &str); 5] = [
    (
        b"O*\nO+ 256",
        b"environ vocabularies V; begin",
        "1:22 23 bad priority 2",
    ),
    (
        b"R=",
        b"environ vocabularies V; begin",
        "1:22 22 bad vocabulary entry 1",
    ),
    (
        b"Rx\nRx",
        b"environ vocabularies V; begin \xC8",
        "1:22 24 symbol repeated 2",
    ),
    (
        b"Rc=",
        b"environ vocabularies V; begin theorem for X,Y being set holds X c= Y;",
        "1:65 31 unknown symbol",
    ),
    (
        b"Rc=",
        b"environ vocabularies V; begin definition let X,Y be set; redefine pred X = Y means X in Y; end;",
        "1:58 10 not built",
    ),
];

fn check_with_vocabulary<R: Abort + Threads + Wait + Sync>(
    rt: &R,
    alloc: Global,
    vocabulary: &[u8],
    text: &[u8],
    line: &str,
) {
    let report = format!(in alloc;
        "A rejected 1 faults\n  {line}\ntotal 0 accepted, 1 rejected, 0 blocked, 0 cyclic, 0 missing\n"
    ).expect(rt, "memory");
    let mut files = FileList::new(alloc);
    add_file(
        rt,
        alloc,
        &mut files,
        FileKind::Vocabulary,
        b"V",
        vocabulary,
    );
    add_file(rt, alloc, &mut files, FileKind::Article, b"A", text);
    let mut shelf = MemoryShelf::new(files, Numbers::new(alloc));
    check_shelf(rt, alloc, &mut shelf, &report);
    forget(shelf);
    forget(report);
}

#[test]
fn vocabularies_are_fetched_and_read(rt: HostRuntime) {
    for (vocabulary, text, line) in &VOCABULARY_FAULTS {
        check_with_vocabulary(&rt, rt.alloc(), vocabulary, text, line);
    }
}

/// Sixteen vocabularies of 1,048,576 bytes and the article's own text pass the limit of all texts.
#[test]
fn large_texts_are_refused_together(rt: HostRuntime) {
    let alloc = rt.alloc();
    let mut files = FileList::new(alloc);
    let long = repeated(&rt, alloc, b"", b"\n", 1_048_576);
    for name in [
        b"VA", b"VB", b"VC", b"VD", b"VE", b"VF", b"VG", b"VH", b"VI", b"VJ", b"VK", b"VL", b"VM",
        b"VN", b"VO", b"VP",
    ] {
        add_file(
            &rt,
            alloc,
            &mut files,
            FileKind::Vocabulary,
            name,
            long.as_slice(),
        );
    }
    let text = b"environ vocabularies VA,VB,VC,VD,VE,VF,VG,VH,VI,VJ,VK,VL,VM,VN,VO,VP; begin";
    add_file(&rt, alloc, &mut files, FileKind::Article, b"A", text);
    let mut shelf = MemoryShelf::new(files, Numbers::new(alloc));
    let status = check_shelf(&rt, alloc, &mut shelf, "");
    forget(shelf);
    forget(long);
    assert!(rt; status == Status::TooLarge);
}

const DEEP_FAULTS: [(&[u8], &[u8], usize, &str); 3] = [
    (b"environ begin theorem ", b"(", 129, "1:151 15 too deep"),
    (b"environ begin theorem ", b"(", 128, "1:151 16 ends early"),
    (
        b"environ begin theorem ",
        b"not ",
        1000,
        "1:535 15 too deep",
    ),
];

#[test]
fn deep_texts_have_exact_places(rt: HostRuntime) {
    for (front, piece, times, line) in &DEEP_FAULTS {
        let text = repeated(&rt, rt.alloc(), front, piece, *times);
        check_fault(&rt, rt.alloc(), text.as_slice(), line);
        forget(text);
    }
}

#[test]
fn a_text_of_200001_tokens_is_refused(rt: HostRuntime) {
    let text = repeated(&rt, rt.alloc(), b"environ begin", b";", 199_999);
    check_fault(
        &rt,
        rt.alloc(),
        text.as_slice(),
        "1:200012 13 too many tokens",
    );
    forget(text);
}

#[test]
fn a_text_of_200000_tokens_is_parsed(rt: HostRuntime) {
    let text = repeated(&rt, rt.alloc(), b"environ begin", b";", 199_998);
    check_fault(&rt, rt.alloc(), text.as_slice(), "1:14 14 unexpected token");
    forget(text);
}

/// Two hundred theorems one behind the other.
#[test]
fn many_theorems_are_accepted(rt: HostRuntime) {
    let text = repeated(
        &rt,
        rt.alloc(),
        b"environ begin ",
        b"theorem for x being object holds x = x; ",
        200,
    );
    check_accepted(&rt, rt.alloc(), text.as_slice(), 200);
    forget(text);
}

/// Twenty thousand obligations, and one more.
#[test]
fn obligations_are_limited(rt: HostRuntime) {
    let front = b"environ begin reserve x for object;";
    let most = repeated(&rt, rt.alloc(), front, b"\nx=x;", 20_000);
    check_accepted(&rt, rt.alloc(), most.as_slice(), 0);
    let more = repeated(&rt, rt.alloc(), front, b"\nx=x;", 20_001);
    check_fault(
        &rt,
        rt.alloc(),
        more.as_slice(),
        "20002:4 44 too many obligations",
    );
    forget(most);
    forget(more);
}
