//! An article that is cut after each of its bytes: each part has an outcome, whose place lies in it or just after its end.
use crate::articles::rows::SUBSETS;
use mz_base::place::Place;
use mz_base::vocabularies::Vocabularies;
use mz_lex::head::head;
use mz_lex::head_fault::HeadFault;
use mz_lex::lex_fault::LexFault;
use mz_lex::symbol_table::SymbolTable;
use mz_lex::table::table;
use mz_lex::tokens::tokens;
use mz_parser_samples::places::stands_in;
use mz_parser_samples::texts::vocabulary;
use mz_pitem::parse::article;
use mz_pterm::parse::ParseFault;
use std::alloc::Global;
use std::mem::forget;
use std::process::Abort;

/// What a text comes to.
#[derive(Clone, Copy, Debug, PartialEq, Eq)]
enum Outcome {
    Read,
    Refused(Place),
    Memory,
}

fn of_head(fault: &HeadFault) -> Outcome {
    match fault {
        HeadFault::BadByte { place } => Outcome::Refused(*place),
        HeadFault::TooManyTokens { place } => Outcome::Refused(*place),
        HeadFault::Pragma { place } => Outcome::Refused(*place),
        HeadFault::Unexpected { place } => Outcome::Refused(*place),
        HeadFault::EndsEarly { place } => Outcome::Refused(*place),
        HeadFault::Profile2 { place } => Outcome::Refused(*place),
        HeadFault::Memory(_) => Outcome::Memory,
    }
}

fn of_tokens(fault: &LexFault) -> Outcome {
    match fault {
        LexFault::BadByte { place } => Outcome::Refused(*place),
        LexFault::TooManyTokens { place } => Outcome::Refused(*place),
        LexFault::Pragma { place } => Outcome::Refused(*place),
        LexFault::Memory(_) => Outcome::Memory,
    }
}

fn of_parse(fault: &ParseFault) -> Outcome {
    match fault {
        ParseFault::Unexpected { place } => Outcome::Refused(*place),
        ParseFault::TooDeep { place } => Outcome::Refused(*place),
        ParseFault::EndsEarly { place } => Outcome::Refused(*place),
        ParseFault::Memory => Outcome::Memory,
    }
}

/// What the text comes to behind its environment part.
fn behind_head(alloc: Global, symbols: &SymbolTable, text: &[u8]) -> Outcome {
    match tokens(alloc, symbols, text) {
        Err(fault) => of_tokens(&fault),
        Ok(all) => match article(alloc, &all) {
            Err(fault) => of_parse(&fault),
            Ok(tree) => {
                forget(tree);
                Outcome::Read
            }
        },
    }
}

fn comes_to(rt: &impl Abort, alloc: Global, all: &Vocabularies, text: &[u8]) -> Outcome {
    match head(alloc, text) {
        Err(fault) => of_head(&fault),
        Ok(environment) => {
            let symbols = table(alloc, all, &environment).expect(rt, "a table");
            let found = behind_head(alloc, &symbols, text);
            forget(symbols);
            forget(environment);
            found
        }
    }
}

/// Whether the text comes to something whose place stands in it.
fn is_placed(rt: &impl Abort, alloc: Global, all: &Vocabularies, text: &[u8]) -> bool {
    match comes_to(rt, alloc, all, text) {
        Outcome::Read => true,
        Outcome::Refused(place) => stands_in(text, place),
        Outcome::Memory => false,
    }
}

fn check(rt: &impl Abort, alloc: Global, all: &Vocabularies, len: usize) {
    assert!(rt; len <= SUBSETS.len());
    let found = is_placed(rt, alloc, all, &SUBSETS[..len]);
    assert!(rt; found, "{len}");
}

#[test]
fn each_part_of_an_article_has_an_outcome(rt: HostRuntime) {
    let all = vocabulary(rt.alloc(), b"A", b"Rc=").expect(&rt, "a vocabulary");
    for len in 0..=SUBSETS.len() {
        check(&rt, rt.alloc(), &all, len);
    }
    forget(all);
}
