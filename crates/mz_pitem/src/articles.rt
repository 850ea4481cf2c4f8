//! Articles, from the tokens of a reader.
ghost use Rattle.std.specs.Prelude.{◌≡◌, ℕ};
ghost use Rattle.mz_forms.specs.Reading.{Reads};
ghost use Rattle.mz_ppattern.specs.Optional.{next_has, plainly};
ghost use Rattle.mz_pitem.specs.Classes.{begins_article_part, begins_directive};
ghost use Rattle.mz_pitem.specs.Forms.{article_form, article_part_form, article_parts_form, directives_form};

use crate::items::{item, item_comes};
use mz_forms::refusal::Refusal;
use mz_ppart::directives::{directive, directive_of};
use mz_ppattern::words::{expect_word, word_comes};
use mz_pproof::look::statement_comes;
use mz_pterm::reader::Reader;
use mz_tree::lists::Trees;
use mz_tree_item::article::{ArticlePartTree, ArticleTree};
use mz_tree_part::directive::DirectiveTree;

/// Whether the word of a directive comes next.
fn directive_comes(reader: &Reader<'_>) -> bool
    ensures { result ≡ next_has begins_directive reader.now.rest.now }
{
    let Some((next, _)) = reader.rest.split_first() else {
        return false;
    };
    directive_of(next).is_some()
}

/// Any number of directives.
fn directives(reader: &mut Reader<'_>) -> Result<Trees<DirectiveTree>, Refusal>
    ensures { (room : ℕ) → Reads directives_form room plainly reader.old.rest.now result reader.new.rest.now }
{
    let mut items = Vec::new(reader.alloc);
    'list: while directive_comes(reader) {
        let next = directive(reader)?;
        items.push(next)?;
    }
    Ok(Trees { items })
}

/// A part of an article behind its directives: `begin`, or an item.
fn article_part(reader: &mut Reader<'_>, room: usize) -> Result<ArticlePartTree, Refusal>
    ensures { Reads article_part_form room plainly reader.old.rest.now result reader.new.rest.now }
{
    if word_comes(reader, b"begin") {
        let begin = expect_word(reader, b"begin")?;
        return Ok(ArticlePartTree::Begin(begin));
    }
    let tree = item(reader, room)?;
    Ok(ArticlePartTree::Item(tree))
}

/// Whether a part of an article begins with the next token.
fn article_part_comes(reader: &Reader<'_>) -> bool
    ensures { result ≡ next_has begins_article_part reader.now.rest.now }
{
    if word_comes(reader, b"begin") {
        return true;
    }
    if item_comes(reader).is_some() {
        return true;
    }
    statement_comes(reader)
}

/// Any number of parts of an article.
fn article_parts(reader: &mut Reader<'_>, room: usize) -> Result<Trees<ArticlePartTree>, Refusal>
    ensures { Reads article_parts_form room plainly reader.old.rest.now result reader.new.rest.now }
{
    let mut items = Vec::new(reader.alloc);
    'list: while article_part_comes(reader) {
        let next = article_part(reader, room)?;
        items.push(next)?;
    }
    Ok(Trees { items })
}

/// An article, as far as it goes on. `room` says how many constructs may be opened within one another.
pub fn article(reader: &mut Reader<'_>, room: usize) -> Result<ArticleTree, Refusal>
    ensures { Reads article_form room plainly reader.old.rest.now result reader.new.rest.now }
{
    let environ = expect_word(reader, b"environ")?;
    let directives = directives(reader)?;
    let begin = expect_word(reader, b"begin")?;
    let parts = article_parts(reader, room)?;
    Ok(ArticleTree {
        environ,
        directives,
        begin,
        parts,
    })
}
