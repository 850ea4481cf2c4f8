//! Texts with the tokens, heads, tables and refusals that they have.
use mz_base::head::DirectiveKind;
use mz_base::name::Name;
use mz_base::place::Place;
use mz_base::symbol_kind::SymbolKind;
use mz_base::text::Text;
use mz_base::token::{Token, TokenKind};
use mz_base::vocabularies::{Vocabularies, VocabularyText};
use mz_lex::built_in::built_in_lexemes;
use mz_lex::head::head;
use mz_lex::head_fault::HeadFault;
use mz_lex::lex_fault::LexFault;
use mz_lex::symbol_table::SymbolTable;
use mz_lex::table::table;
use mz_lex::table_fault::TableFault;
use mz_lex::tokens::tokens;
use mz_voc::voc_fault::VocFault;
use std::alloc::Global;
use std::process::Abort;
use std::sync::Arc;

/// An answer: that there is one, or a refusal with its place.
#[derive(Clone, Copy, Debug, PartialEq, Eq)]
enum Answer {
    Fine(usize),
    BadByte(u64, u64),
    TooManyTokens(u64, u64),
    Pragma(u64, u64),
    Unexpected(u64, u64),
    EndsEarly(u64, u64),
    Profile2(u64, u64),
    Absent(u64, u64),
    BadEntry(u64, u64, u64),
    BadPriority(u64, u64, u64),
    Repeated(u64, u64, u64),
    TwoKinds(u64, u64),
    TooManySymbols(u64, u64),
    Memory,
}

fn vocabulary(rt: &impl Abort, alloc: Global, name: &[u8], bytes: &[u8]) -> VocabularyText {
    let text = Text::from_slice(alloc, bytes).expect(rt, "memory");
    VocabularyText {
        name: Name::read(name).expect(rt, "a name"),
        text: Some(Arc::new(alloc, text).expect(rt, "memory")),
    }
}

/// The vocabularies with these names and bytes.
fn vocabularies(rt: &impl Abort, alloc: Global, rows: &[(&[u8], &[u8])]) -> Vocabularies {
    let mut items = Vec::new(alloc);
    for (name, bytes) in rows {
        items
            .push(vocabulary(rt, alloc, name, bytes))
            .expect(rt, "memory");
    }
    Vocabularies { items }
}

/// The table of a text that names the vocabularies A and B, with these bytes.
fn table_of(rt: &impl Abort, alloc: Global, a: &[u8], b: &[u8], text: &[u8]) -> SymbolTable {
    let vocabularies = vocabularies(rt, alloc, &[(b"A", a), (b"B", b)]);
    let part = head(alloc, text).expect(rt, "an environment part");
    table(alloc, &vocabularies, &part).expect(rt, "a table")
}

fn tokens_answer(rt: &impl Abort, alloc: Global, symbols: &[u8], text: &[u8]) -> Answer {
    let table = table_of(rt, alloc, symbols, b"", b"environ vocabularies A; begin");
    match tokens(alloc, &table, text) {
        Ok(tokens) => Answer::Fine(tokens.items.len()),
        Err(LexFault::BadByte { place }) => Answer::BadByte(place.line, place.column),
        Err(LexFault::TooManyTokens { place }) => Answer::TooManyTokens(place.line, place.column),
        Err(LexFault::Pragma { place }) => Answer::Pragma(place.line, place.column),
        Err(LexFault::Memory(_)) => Answer::Memory,
    }
}

fn head_answer(alloc: Global, text: &[u8]) -> Answer {
    match head(alloc, text) {
        Ok(part) => Answer::Fine(part.items.len()),
        Err(HeadFault::BadByte { place }) => Answer::BadByte(place.line, place.column),
        Err(HeadFault::TooManyTokens { place }) => Answer::TooManyTokens(place.line, place.column),
        Err(HeadFault::Pragma { place }) => Answer::Pragma(place.line, place.column),
        Err(HeadFault::Unexpected { place }) => Answer::Unexpected(place.line, place.column),
        Err(HeadFault::EndsEarly { place }) => Answer::EndsEarly(place.line, place.column),
        Err(HeadFault::Profile2 { place }) => Answer::Profile2(place.line, place.column),
        Err(HeadFault::Memory(_)) => Answer::Memory,
    }
}

fn bad(place: Place, fault: &VocFault) -> Answer {
    match fault {
        VocFault::BadEntry { line } => Answer::BadEntry(place.line, place.column, *line),
        VocFault::BadPriority { line } => Answer::BadPriority(place.line, place.column, *line),
        VocFault::Repeated { line } => Answer::Repeated(place.line, place.column, *line),
        VocFault::Memory(_) => Answer::Memory,
    }
}

fn table_answer(rt: &impl Abort, alloc: Global, a: &[u8], b: &[u8], text: &[u8]) -> Answer {
    let mut vocabularies = vocabularies(rt, alloc, &[(b"A", a), (b"B", b)]);
    for (name, bytes) in [("TARSKI_0", "Rq"), ("HIDDEN", "::")] {
        let built_in = vocabulary(rt, alloc, name.as_bytes(), bytes.as_bytes());
        vocabularies.items.push(built_in).expect(rt, "memory");
    }
    let part = head(alloc, text).expect(rt, "an environment part");
    match table(alloc, &vocabularies, &part) {
        Ok(_) => Answer::Fine(0),
        Err(TableFault::Absent { place }) => Answer::Absent(place.line, place.column),
        Err(TableFault::Bad { place, fault }) => bad(place, &fault),
        Err(TableFault::TwoKinds { place }) => Answer::TwoKinds(place.line, place.column),
        Err(TableFault::TooManySymbols { place }) => {
            Answer::TooManySymbols(place.line, place.column)
        }
        Err(TableFault::Memory(_)) => Answer::Memory,
    }
}

/// A text with the number of semicolons behind it.
fn with_semicolons(rt: &impl Abort, alloc: Global, text: &[u8], count: usize) -> Vec<u8> {
    let mut bytes = Vec::from_slice(alloc, text).expect(rt, "memory");
    for _ in 0..count {
        bytes.push(b';').expect(rt, "memory");
    }
    bytes
}

/// A vocabulary of so many attributes, each of three letters.
fn attributes(rt: &impl Abort, alloc: Global, count: usize) -> Vec<u8> {
    let mut bytes = Vec::new(alloc);
    let mut left = count;
    for a in b'a'..=b'z' {
        for b in b'a'..=b'z' {
            for c in b'A'..=b'Z' {
                if left > 0 {
                    left -= 1;
                    let line = [b'V', a, b, c, b'\n'];
                    bytes
                        .extend_from_slice(line.as_slice())
                        .expect(rt, "memory");
                }
            }
        }
    }
    bytes
}

#[test]
fn cuts_each_built_in_spelling(rt: HostRuntime) {
    let words =
        b"and antonym are as assume asymmetry attr be begin being by canceled case cases cluster coherence commutativity compatibility connectedness consider consistency constructors contradiction correctness def deffunc definition definitions defpred do does end environ equalities equals ex exactly existence expansions for from func given hence hereby holds idempotence identify if iff implies involutiveness irreflexivity is it let means mode non not notation notations now of or otherwise over per pred projectivity proof provided qua reconsider redefine reduce reducibility reflexivity registration registrations requirements reserve sch scheme schemes set sethood st struct such suppose symmetry synonym take that the then theorem theorems thesis thus to transitivity uniqueness vocabularies where with";
    let specials = b", ; : ( ) [ ] { } & -> .= (# #) $1 $2 $3 $4 $5 $6 $7 $8 $9 $10";
    let rows: [(&[u8], TokenKind, usize); 2] = [
        (words.as_slice(), TokenKind::Reserved, 107),
        (specials.as_slice(), TokenKind::Special, 24),
    ];
    let alloc = rt.alloc();
    let built_in = built_in_lexemes(alloc).expect(&rt, "memory");
    let table = SymbolTable::new(alloc, built_in).expect(&rt, "memory");
    for (text, kind, count) in rows {
        let tokens = tokens(alloc, &table, text).expect(&rt, "tokens");
        assert!(rt; tokens.items.len() == count);
        for token in &tokens.items {
            assert!(rt; token.kind == kind);
        }
    }
}

/// The letter of a kind: that of a vocabulary for symbols, and a small one for the others.
fn letter(kind: TokenKind) -> u8 {
    match kind {
        TokenKind::Reserved => b'w',
        TokenKind::Special => b's',
        TokenKind::Identifier => b'i',
        TokenKind::Numeral => b'n',
        TokenKind::Symbol(SymbolKind::Structure) => b'G',
        TokenKind::Symbol(SymbolKind::LeftBracket) => b'K',
        TokenKind::Symbol(SymbolKind::RightBracket) => b'L',
        TokenKind::Symbol(SymbolKind::Mode) => b'M',
        TokenKind::Symbol(SymbolKind::Functor) => b'O',
        TokenKind::Symbol(SymbolKind::Predicate) => b'R',
        TokenKind::Symbol(SymbolKind::Selector) => b'U',
        TokenKind::Symbol(SymbolKind::Attribute) => b'V',
    }
}

/// The tokens from the one at `from` on, each with its letter and its place.
fn listed(rt: &impl Abort, alloc: Global, tokens: &[Token], from: usize) -> Vec<u8> {
    let mut bytes = Vec::new(alloc);
    for (at, token) in tokens.iter().enumerate() {
        if at >= from {
            bytes
                .extend_from_slice(token.spelling.as_slice())
                .expect(rt, "memory");
            bytes.push(b' ').expect(rt, "memory");
            bytes.push(letter(token.kind)).expect(rt, "memory");
            let place = format!(in alloc; "{}:{} ", token.place.line, token.place.column);
            let place = place.expect(rt, "memory");
            bytes
                .extend_from_slice(place.as_bytes())
                .expect(rt, "memory");
        }
    }
    bytes
}

/// A vocabulary, a text, from which token on it is looked at, and these tokens.
type Row = (&'static [u8], &'static [u8], usize, &'static [u8]);

/// Texts without an environment part, or whose environment part is looked at.
const IN_FRONT: [Row; 9] = [
    (b"Rfoo", b"foo", 0, b"foo i1:1 "),
    (b"", b"a::b", 0, b"a i1:1 "),
    (b"", b"$11", 0, b"$1 s1:1 1 n1:3 "),
    (b"", b"12' 1A 12 '", 0, b"12' i1:1 1A i1:5 12 n1:8 ' i1:11 "),
    (b"", b"a\r\nb :: c\n d", 0, b"a i1:1 b i2:1 d i3:2 "),
    (
        b"",
        b"(#x#) ([",
        0,
        b"(# s1:1 x i1:3 #) s1:4 ( s1:7 [ s1:8 ",
    ),
    (
        b"",
        b"in<>=strict",
        0,
        b"in R1:1 <> R1:3 = R1:5 strict V1:6 ",
    ),
    (
        b"RV",
        b"V; begin V",
        0,
        b"V i1:1 ; s1:2 begin w1:4 V R1:10 ",
    ),
    (
        b"RV;",
        b"V; begin V;",
        0,
        b"V i1:1 ; s1:2 begin w1:4 V; R1:10 ",
    ),
];

/// Texts that are looked at behind their `begin`.
const BEHIND: [Row; 9] = [
    (
        b"Rc=",
        b"environ begin Xc=Y",
        2,
        b"Xc i1:15 = R1:17 Y i1:18 ",
    ),
    (
        b"Rc=",
        b"environ begin X c= Y",
        2,
        b"X i1:15 c= R1:17 Y i1:20 ",
    ),
    (
        b"Ka:",
        b"environ begin a::b",
        2,
        b"a: K1:15 : s1:17 b i1:18 ",
    ),
    (b"Vse", b"environ begin set se", 2, b"set w1:15 se V1:19 "),
    (b"V+\nV++", b"environ begin +++", 2, b"++ V1:15 + V1:17 "),
    (
        b"Vfoo",
        b"environ begin foo foo1",
        2,
        b"foo V1:15 foo1 i1:19 ",
    ),
    (
        b"Rbegin;",
        b"environ begin; begin;",
        1,
        b"begin w1:9 ; s1:14 begin; R1:16 ",
    ),
    (
        b"Ka:",
        b"a:: b\nbegin a::b",
        0,
        b"a i1:1 begin w2:1 a: K2:7 : s2:9 b i2:10 ",
    ),
    (
        b"Uthes",
        b"environ begin is\tthes thesis",
        2,
        b"is w1:15 thes U1:18 thesis w1:23 ",
    ),
];

/// An article of one theorem, and a definition with and without its symbol.
const ARTICLES: [Row; 3] = [
    (
        b"Rc=",
        b"environ vocabularies SUBV; begin theorem for Xc,Y being object st Xc=Y holds Y = Xc;",
        5,
        b"theorem w1:34 for w1:42 Xc i1:46 , s1:48 Y i1:49 being w1:51 object M1:57 st w1:64 Xc i1:67 = R1:69 Y i1:70 holds w1:72 Y i1:78 = R1:80 Xc i1:82 ; s1:84 ",
    ),
    (
        b"",
        b"environ begin definition let X,Y be set; pred X c= Y means X = Y; end;",
        9,
        b"; s1:40 pred w1:42 X i1:47 c i1:49 = R1:50 Y i1:52 means w1:54 X i1:60 = R1:62 Y i1:64 ; s1:65 end w1:67 ; s1:70 ",
    ),
    (
        b"Rc=",
        b"environ vocabularies SUBV; begin definition let X,Y be set; pred X c= Y means X = Y; end;",
        12,
        b"; s1:59 pred w1:61 X i1:66 c= R1:68 Y i1:71 means w1:73 X i1:79 = R1:81 Y i1:83 ; s1:84 end w1:86 ; s1:89 ",
    ),
];

/// The first row whose text is cut into other tokens.
fn first_wrong(rt: &impl Abort, alloc: Global, rows: &[Row]) -> Option<usize> {
    for (at, row) in rows.iter().enumerate() {
        let (symbols, text, from, want) = *row;
        let table = table_of(rt, alloc, symbols, b"", b"environ vocabularies A; begin");
        let tokens = tokens(alloc, &table, text).expect(rt, "tokens");
        let found = listed(rt, alloc, tokens.items.as_slice(), from);
        if found.as_slice() != want {
            return Some(at);
        }
    }
    None
}

#[test]
fn cuts_the_environment_part(rt: HostRuntime) {
    assert!(rt; first_wrong(&rt, rt.alloc(), &IN_FRONT) == None);
}

#[test]
fn cuts_what_stands_behind(rt: HostRuntime) {
    assert!(rt; first_wrong(&rt, rt.alloc(), &BEHIND) == None);
}

#[test]
fn cuts_articles(rt: HostRuntime) {
    assert!(rt; first_wrong(&rt, rt.alloc(), &ARTICLES) == None);
}

#[test]
fn tells_where_the_cut_stops(rt: HostRuntime) {
    let most = with_semicolons(&rt, rt.alloc(), b"environ begin", 199_998);
    let more = with_semicolons(&rt, rt.alloc(), b"environ begin", 199_999);
    let rows: [(&[u8], Answer); 12] = [
        (b"", Answer::Fine(0)),
        (b":: the end", Answer::Fine(0)),
        (b"environ begin ::\xc8", Answer::Fine(2)),
        (b"environ begin \xc8", Answer::BadByte(1, 15)),
        (b"environ ::$C1\nbegin", Answer::Pragma(1, 9)),
        (b"a ::$\n ::$C", Answer::Pragma(2, 2)),
        (b"$0", Answer::BadByte(1, 1)),
        (b"a .", Answer::BadByte(1, 3)),
        (b"\n-", Answer::BadByte(2, 1)),
        (b"<", Answer::BadByte(1, 1)),
        (most.as_slice(), Answer::Fine(200_000)),
        (more.as_slice(), Answer::TooManyTokens(1, 200_012)),
    ];
    for (text, want) in rows {
        assert!(rt; tokens_answer(&rt, rt.alloc(), b"", text) == want);
    }
}

#[test]
fn reads_heads(rt: HostRuntime) {
    let rows: [(&[u8], Answer); 16] = [
        (b"environ begin", Answer::Fine(0)),
        (b"environ begin \xc8", Answer::Fine(0)),
        (b"environ theorems SET; begin", Answer::Fine(1)),
        (
            b"environ vocabularies A,b; theorems C; begin begin",
            Answer::Fine(2),
        ),
        (b"", Answer::EndsEarly(1, 1)),
        (b"environ", Answer::EndsEarly(1, 8)),
        (b"environ theorems A ", Answer::EndsEarly(1, 20)),
        (b"begin", Answer::Unexpected(1, 1)),
        (b"environ theorems A,; begin", Answer::Unexpected(1, 20)),
        (b"environ theorems object; begin", Answer::Unexpected(1, 18)),
        (b"environ theorems equalities", Answer::Unexpected(1, 18)),
        (
            b"environ theorems ABCDEFGHI; begin",
            Answer::Unexpected(1, 18),
        ),
        (b"environ theorems begin", Answer::Unexpected(1, 18)),
        (b"environ equalities A; begin", Answer::Profile2(1, 9)),
        (b"foo \x01", Answer::BadByte(1, 5)),
        (b"environ ::$C1\nbegin", Answer::Pragma(1, 9)),
    ];
    for (text, want) in rows {
        assert!(rt; head_answer(rt.alloc(), text) == want, "at {text:?}");
    }
}

#[test]
fn reads_directives(rt: HostRuntime) {
    let part = head(rt.alloc(), b"environ vocabularies A,b; theorems C; begin");
    let part = part.expect(&rt, "an environment part");
    assert!(rt; part.items.len() == 2);
    assert!(rt; part.items[0].kind == DirectiveKind::Vocabularies);
    assert!(rt; part.items[0].place == Place { line: 1, column: 9 });
    assert!(rt; part.items[0].names.items.len() == 2);
    assert!(rt; part.items[0].names.items[1].name == Name::read(b"B").expect(&rt, "a name"));
    assert!(rt;
        part.items[0].names.items[1].place
            == Place {
                line: 1,
                column: 24
            }
    );
    assert!(rt; part.items[1].kind == DirectiveKind::Theorems);
}

#[test]
fn joins_vocabularies(rt: HostRuntime) {
    let most = attributes(&rt, rt.alloc(), 4_096);
    let both = b"environ vocabularies A, B; begin";
    let again = b"environ vocabularies A, B, A; begin";
    let hidden = b"environ vocabularies HIDDEN; theorems C; begin";
    let rows: [(&[u8], &[u8], &[u8], Answer); 6] = [
        (b"", b"", hidden, Answer::Fine(0)),
        (b"Rx", b"Ox", both, Answer::TwoKinds(1, 25)),
        (b"Rx", b"Rx", both, Answer::Fine(0)),
        (b"Rx\nOy", b"Gz", again, Answer::Fine(0)),
        (most.as_slice(), b"VaaA", both, Answer::Fine(0)),
        (
            most.as_slice(),
            b"Vaaa",
            both,
            Answer::TooManySymbols(1, 25),
        ),
    ];
    for (a, b, text, want) in rows {
        assert!(rt; table_answer(&rt, rt.alloc(), a, b, text) == want);
    }
}

#[test]
fn tells_the_first_vocabulary_that_fails(rt: HostRuntime) {
    let both = b"environ vocabularies A, B; begin";
    let one = b"environ vocabularies A; begin";
    let no_text = b"environ vocabularies NOVOC; begin";
    let built_in = b"environ vocabularies TARSKI_0; begin";
    let rows: [(&[u8], &[u8], &[u8], Answer); 5] = [
        (b"O*\nO+ 256", b"", one, Answer::BadPriority(1, 22, 2)),
        (b"", b"R=", both, Answer::BadEntry(1, 25, 1)),
        (b"", b"Rx\nRx", both, Answer::Repeated(1, 25, 2)),
        (b"", b"", no_text, Answer::Absent(1, 22)),
        (b"", b"", built_in, Answer::Absent(1, 22)),
    ];
    for (a, b, text, want) in rows {
        assert!(rt; table_answer(&rt, rt.alloc(), a, b, text) == want);
    }
}

#[test]
fn keeps_the_first_priority(rt: HostRuntime) {
    let both = b"environ vocabularies A, B; begin";
    let joined = table_of(&rt, rt.alloc(), b"O+ 10\nR~", b"O+ 20", both);
    let tokens = tokens(rt.alloc(), &joined, b"environ begin + ~").expect(&rt, "tokens");
    assert!(rt; tokens.items.get(2).expect(&rt, "a token").priority == 10);
    assert!(rt; tokens.items.last().expect(&rt, "a token").priority == 0);
}
