//! From the bytes of a text to its tree and its environment.
ghost use Rattle.std.specs.Prelude.{Ok};
ghost use Rattle.mz_front.specs.Front.{ReadsHead, NamesLexemes, CutsTokens, SpellsTree, LetsIn, HasTree, IsFront, OnTold};

use crate::front::Front;
use crate::front_fault::FrontFault;
use crate::told::{answered, env_told, parse_told, table_told};
use mz_axioms::exports::Exports;
use mz_base::head::Head;
use mz_base::token::Tokens;
use mz_base::vocabularies::Vocabularies;
use mz_env::accommodate::accommodate;
use mz_environment::environment::Environment;
use mz_first::fault_of::{head_told, lex_told};
use mz_lex::head::head;
use mz_lex::symbol_table::SymbolTable;
use mz_lex::table::table;
use mz_lex::tokens::tokens;
use mz_pitem::parse::article;
use mz_tree_item::article::{ArticleTree, end};
use std::alloc::Global;

/// The environment part.
#[tactic(auto, using(crate::proofs::StageLemmas::head_answered))]
fn read_head(alloc: Global, bytes: &[u8]) -> Result<Head, FrontFault>
    ensures { OnTold result (ReadsHead bytes.now) }
{
    match head(alloc, bytes) {
        Ok(head) => Ok(head),
        Err(refusal) => Err(answered(head_told(&refusal))),
    }
}

/// The symbols that it names.
#[tactic(auto, using(crate::proofs::StageLemmas::table_answered))]
fn named_symbols(
    alloc: Global,
    vocabularies: &Vocabularies,
    head: &Head,
) -> Result<SymbolTable, FrontFault>
    ensures { OnTold result (NamesLexemes vocabularies.now head.now) }
{
    match table(alloc, vocabularies, head) {
        Ok(table) => Ok(table),
        Err(refusal) => Err(answered(table_told(&refusal))),
    }
}

/// The tokens of the text.
#[tactic(auto, using(crate::proofs::StageLemmas::tokens_answered))]
fn cut_text(alloc: Global, table: &SymbolTable, bytes: &[u8]) -> Result<Tokens, FrontFault>
    ensures { OnTold result (CutsTokens table.now bytes.now) }
{
    match tokens(alloc, table, bytes) {
        Ok(tokens) => Ok(tokens),
        Err(refusal) => Err(answered(lex_told(&refusal))),
    }
}

/// The tree that they spell.
#[tactic(auto, using(crate::proofs::StageLemmas::tree_answered))]
fn spelled_tree(alloc: Global, tokens: &Tokens) -> Result<ArticleTree, FrontFault>
    ensures { OnTold result (SpellsTree tokens.now) }
{
    match article(alloc, tokens) {
        Ok(tree) => Ok(tree),
        Err(refusal) => Err(answered(parse_told(&refusal))),
    }
}

/// What the environment part lets in.
#[tactic(auto, using(crate::proofs::StageLemmas::environment_answered))]
fn let_in(alloc: Global, exports: &Exports, head: &Head) -> Result<Environment, FrontFault>
    ensures { OnTold result (LetsIn exports.now head.now) }
{
    match accommodate(alloc, head, exports) {
        Ok(environment) => Ok(environment),
        Err(refusal) => Err(answered(env_told(&refusal))),
    }
}

/// The tree of the text with this environment part.
#[tactic(auto, using(crate::proofs::StageLemmas::tree_rules))]
fn tree_of(
    alloc: Global,
    vocabularies: &Vocabularies,
    bytes: &[u8],
    head: &Head,
) -> Result<ArticleTree, FrontFault>
    ensures { OnTold result (HasTree vocabularies.now bytes.now head.now) }
{
    let table = match named_symbols(alloc, vocabularies, head) {
        Ok(table) => table,
        Err(fault) => return Err(fault),
    };
    let tokens = match cut_text(alloc, &table, bytes) {
        Ok(tokens) => tokens,
        Err(fault) => return Err(fault),
    };
    spelled_tree(alloc, &tokens)
}

/// What the text with this environment part is.
#[tactic(auto, using(crate::proofs::StageLemmas::environment_rules))]
fn with_environment(
    alloc: Global,
    vocabularies: &Vocabularies,
    exports: &Exports,
    bytes: &[u8],
    head: Head,
    tree: ArticleTree,
) -> Result<Front, FrontFault>
    requires read { ReadsHead bytes.now (Ok head) }
    requires has { HasTree vocabularies.now bytes.now head (Ok tree) }
    ensures { OnTold result (IsFront vocabularies.now exports.now bytes.now) }
{
    match let_in(alloc, exports, &head) {
        Ok(environment) => Ok(Front {
            head,
            tree,
            environment,
        }),
        Err(fault) => {
            end(tree);
            Err(fault)
        }
    }
}

/// What the text with this environment part is.
#[tactic(auto, using(crate::proofs::StageLemmas::head_rules))]
fn with_head(
    alloc: Global,
    vocabularies: &Vocabularies,
    exports: &Exports,
    bytes: &[u8],
    head: Head,
) -> Result<Front, FrontFault>
    requires { ReadsHead bytes.now (Ok head) }
    ensures { OnTold result (IsFront vocabularies.now exports.now bytes.now) }
{
    match tree_of(alloc, vocabularies, bytes, &head) {
        Ok(tree) => with_environment(alloc, vocabularies, exports, bytes, head, tree),
        Err(fault) => Err(fault),
    }
}

/// What a text is before its items are read: its environment part, its tree, and what the environment part lets in of the
/// exports, by the rules of `docs/LANGUAGE.md`.
///
/// # Errors
/// `Refused` with the first of these faults, as `docs/FAULTS.md` tells it, in this order: that of the environment part
/// (codes 11 to 13 of its cut, and where it has none 14, 16 and 30 of its grammar), that of the first vocabulary that fails
/// (21 to 26), the first of the tokens (11 to 13), that of the grammar (14 to 16), and that of the first name of a directive
/// that can't let in what it names (27 to 29). `Memory` where there wasn't enough memory.
#[tactic(auto, using(crate::proofs::StageLemmas::front_rules))]
pub fn front(
    alloc: Global,
    vocabularies: &Vocabularies,
    exports: &Exports,
    bytes: &[u8],
) -> Result<Front, FrontFault>
    ensures { OnTold result (IsFront vocabularies.now exports.now bytes.now) }
{
    match read_head(alloc, bytes) {
        Ok(head) => with_head(alloc, vocabularies, exports, bytes, head),
        Err(fault) => Err(fault),
    }
}
