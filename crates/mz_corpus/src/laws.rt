//! Laws of gatherings, of orders and of articles that depend on themselves.
ghost use Rattle.std.specs.Prelude.{◌≡◌, ◌↔◌, List, Contains, true};
ghost use Rattle.mz_base.specs.declared.name.Name.{Name};
ghost use Rattle.mz_io.specs.declared.file.File.{File};
ghost use Rattle.mz_corpus.specs.Article.{Article as ArticleValue, is_cyclic};
ghost use Rattle.mz_corpus.specs.Corpus.{Corpus, IsCorpus, DependsOn, links_of};
ghost use Rattle.mz_corpus.specs.Gather.{Gathered, GatherResult, Gathers, IsCorpusOf};
ghost use Rattle.mz_corpus.specs.Order.{IsOrder};
ghost use Rattle.mz_corpus.specs.declared.ordering.Ordering.{Ordering};

use crate::article::Article;

/// Articles have one order at most.
pub fn order_law(articles: &[Article])
    ensures { (o p : Ordering) → IsOrder articles.now o → IsOrder articles.now p → o ≡ p }
{
    let _articles = articles;
}

/// Names have one gathering at most from the same files, and what is gathered has one corpus at most.
pub fn gathering_law()
    ensures gathering { (files : List File) (names : List Name) (r q : GatherResult) → Gathers files names r → Gathers files names q → r ≡ q }
    ensures corpus { (g : Gathered) (c d : Corpus) → IsCorpus c → IsCorpus d → IsCorpusOf g c → IsCorpusOf g d → c ≡ d }
{}

/// An article of a corpus is cyclic exactly where it depends on itself, directly or by others, and a cyclic one is in the
/// rest.
pub fn cyclic_law()
    ensures depends { (c : Corpus) (a : ArticleValue) → IsCorpus c → Contains c.articles a → (is_cyclic a ≡ true) ↔ DependsOn (links_of c.articles) a.direct a.name }
    ensures rest { (c : Corpus) (a : ArticleValue) (o : Ordering) → IsCorpus c → Contains c.articles a → IsOrder c.articles o → is_cyclic a ≡ true → Contains o.rest a.name }
{}
