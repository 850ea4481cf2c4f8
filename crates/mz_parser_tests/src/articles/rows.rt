//! Articles, read from their bytes to the tree.
use mz_base::token::Tokens;
use mz_parser_samples::answer::{Answer, refused, taken};
use mz_parser_samples::spelled::spelled;
use mz_parser_samples::texts::article_tokens;
use mz_pexpr::marked_tokens::marked_tokens;
use mz_pitem::parse::article;
use std::alloc::Global;
use std::mem::forget;
use std::process::Abort;

/// Subsets: a predicate with its reflexivity, that it is transitive and antisymmetric.
pub const SUBSETS: &[u8] =
    b"environ vocabularies A; theorems TARSKI_0;\nbegin\nreserve X,Y,Z for set;\ndefinition let X,Y be set;\n pred X c= Y means :Def1: for x being object st x in X holds x in Y;\n reflexivity;\nend;\ntheorem X c= Y & Y c= Z implies X c= Z\nproof assume A1: X c= Y & Y c= Z;\n let x be object; assume x in X;\n then x in Y by A1,Def1;\n hence x in Z by A1,Def1;\nend;\ntheorem X c= Y & Y c= X implies X = Y\nproof assume A1: X c= Y & Y c= X;\n then for x being object holds x in X iff x in Y by Def1;\n hence X = Y by TARSKI_0:2;\nend;\n";

/// What the parser answers to the tokens: how many the tree is spelled by, or the place of the refusal.
fn answered(rt: &impl Abort, alloc: Global, tokens: &Tokens) -> Answer {
    let all = marked_tokens(alloc, tokens).expect(rt, "memory");
    match article(alloc, tokens) {
        Ok(tree) => {
            let spelled = spelled(alloc, &tree).expect(rt, "memory");
            forget(tree);
            let answer = taken(spelled.as_slice(), all.as_slice(), 0, all.len());
            forget(spelled);
            forget(all);
            answer
        }
        Err(fault) => refused(&fault),
    }
}

/// The symbols of the vocabulary, the article, and the answer.
type Row = (&'static [u8], &'static [u8], Answer);

fn check(rt: &impl Abort, alloc: Global, row: Row, number: usize) {
    let (symbols, text, wanted) = row;
    let tokens = article_tokens(alloc, symbols, text).expect(rt, "tokens");
    let found = answered(rt, alloc, &tokens);
    forget(tokens);
    assert!(rt; found == wanted, "{number}");
}

const ROWS: [Row; 8] = [
    (b"Rc=", b"environ begin", Answer::Until(2)),
    (b"Rc=", b"environ begin begin", Answer::Until(3)),
    (b"Rc=", SUBSETS, Answer::Until(155)),
    (
        b"Rc=",
        b"environ vocabularies A; begin definition let X,Y be set; pred X c= Y means X = Y; end;",
        Answer::Until(24),
    ),
    (
        b"Rc=",
        b"environ begin definition let X,Y be set; pred X c= Y means X = Y; end;",
        Answer::Unexpected(49),
    ),
    (
        b"Rc=",
        b"environ begin theorem for a,b,c being object st a in b,c for d being object holds a = a;",
        Answer::Until(26),
    ),
    (
        b"Rc=",
        b"environ begin theorem { x, P[y] } = x;",
        Answer::Unexpected(26),
    ),
    (b"Rc=", b"environ begin theorem { x,", Answer::EndsEarly(27)),
];

#[test]
fn articles(rt: HostRuntime) {
    for i in 0..ROWS.len() {
        check(&rt, rt.alloc(), ROWS[i], i);
    }
}
