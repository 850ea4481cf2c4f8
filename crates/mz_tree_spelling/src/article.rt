//! Articles and their items.
ghost use Rattle.std.specs.Prelude.{◌≡◌, ◌++◌, IfOk};
ghost use Rattle.mz_tree_item.specs.Spell.{spell_item, spell_article, spell_article_part};

use crate::tree::Spell;
use mz_base::token::MarkedToken;
use mz_expression_spelling::emit::emit_reserved;
use mz_tree_item::article::{ArticlePartTree, ArticleTree, ItemTree};
use std::alloc::{AllocError, Global};

impl Spell for ItemTree {
    ghost spelled = { spell_item };

    fn spell(&self, alloc: Global, out: &mut Vec<MarkedToken>) -> Result<(), AllocError> {
        match self {
            ItemTree::Reserve(item) => item.spell(alloc, out),
            ItemTree::Theorem(item) => item.spell(alloc, out),
            ItemTree::Scheme(item) => item.spell(alloc, out),
            ItemTree::Definition(item) => item.spell(alloc, out),
            ItemTree::Notation(item) => item.spell(alloc, out),
            ItemTree::Registration(item) => item.spell(alloc, out),
            ItemTree::Statement(item) => item.spell(alloc, out),
        }
    }
}

impl Spell for ArticlePartTree {
    ghost spelled = { spell_article_part };

    fn spell(&self, alloc: Global, out: &mut Vec<MarkedToken>) -> Result<(), AllocError> {
        match self {
            ArticlePartTree::Begin(begin) => emit_reserved(alloc, out, *begin, b"begin"),
            ArticlePartTree::Item(item) => item.spell(alloc, out),
        }
    }
}

impl Spell for ArticleTree {
    ghost spelled = { spell_article };

    fn spell(&self, alloc: Global, out: &mut Vec<MarkedToken>) -> Result<(), AllocError> {
        emit_reserved(alloc, out, self.environ, b"environ")?;
        self.directives.spell(alloc, out)?;
        emit_reserved(alloc, out, self.begin, b"begin")?;
        self.parts.spell(alloc, out)
    }
}
