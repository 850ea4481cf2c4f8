//! Corpora of what was fetched.
ghost use Rattle.std.specs.Prelude.{◌≡◌, map, IfOk, Contains};
ghost use Rattle.std.specs.Option.{option_map};
ghost use Rattle.std.specs.Arc.{arc_value};
ghost use Rattle.mz_corpus.specs.Article.{source_of};
ghost use Rattle.mz_corpus.specs.Corpus.{IsArticle};
ghost use Rattle.mz_corpus.specs.Fit.{AreApart, IsFit, IsFitSource, IsMade, source_names};
ghost use Rattle.mz_corpus.specs.Link.{Link as LinkValue};
ghost use Rattle.mz_corpus.specs.Made.{AreArticles, IsArticleOf};
ghost use Rattle.mz_corpus.specs.Reach.{direct_of, link_of_source, AreKnown};

use crate::article::Article;
use crate::corpus::Corpus;
use crate::fit::is_fit;
use crate::found::found_in;
use crate::link::{Links, direct_of, links_of, reach};
use crate::source::{Source, Sources};
use mz_base::text::Text;
use mz_base::vocabularies::Vocabularies;
use std::alloc::{AllocError, Global};
use std::sync::Arc;

fn shared(text: &Option<Arc<Text>>) -> Result<Option<Arc<Text>>, AllocError>
    ensures { IfOk result (λ t. option_map arc_value t ≡ option_map arc_value text.now) }
{
    match text {
        Some(text) => {
            let text = Arc::clone(text)?;
            Ok(Some(text))
        }
        None => Ok(None),
    }
}

/// The article for which this was fetched.
fn article_of(
    alloc: Global,
    source: &Source,
    links: &Links,
    vocabularies: &Vocabularies,
) -> Result<Article, AllocError>
    requires known { AreKnown links.now (direct_of source.now.dependencies) }
    requires all_known { (l : LinkValue) → Contains links.now l → AreKnown links.now l.direct }
    requires fit { IsFitSource (map (λ l. l.name) links.now) source.now }
    requires apart { AreApart vocabularies.now }
    ensures { IfOk result (IsArticleOf links.now vocabularies.now source.now) }
{
    let direct = direct_of(alloc, &source.dependencies)?;
    let reach = reach(alloc, links, &direct)?;
    let vocabularies = found_in(alloc, vocabularies, &source.vocabulary_names)?;
    let text = shared(&source.text)?;
    let dependencies = source.dependencies.copy(alloc)?;
    let vocabulary_names = source.vocabulary_names.copy(alloc)?;
    Ok(Article {
        name: source.name,
        text,
        dependencies,
        vocabulary_names,
        direct,
        reach,
        vocabularies,
    })
}

fn articles_of(
    alloc: Global,
    sources: &Sources,
    links: &Links,
    vocabularies: &Vocabularies,
) -> Result<Vec<Article>, AllocError>
    requires links { links.now ≡ map link_of_source sources.now }
    requires fit { IsFit sources.now vocabularies.now }
    ensures { IfOk result (λ articles. AreArticles links.now vocabularies.now sources.now articles.items) }
{
    let mut articles = Vec::new(alloc);
    for source in &sources.items {
        let article = article_of(alloc, source, links, vocabularies)?;
        articles.push(article)?;
    }
    Ok(articles)
}

impl Corpus {
    /// The corpus for which this was fetched.
    pub fn from_fit(
        alloc: Global,
        sources: &Sources,
        vocabularies: Vocabularies,
    ) -> Result<Corpus, AllocError>
        requires { IsFit sources.now vocabularies }
        ensures { IfOk result (λ c. (map source_of c.articles ≡ sources.now) × (c.vocabularies ≡ vocabularies)) }
    {
        let links = links_of(alloc, sources)?;
        let articles = articles_of(alloc, sources, &links, &vocabularies)?;
        Ok(Corpus {
            articles,
            vocabularies,
        })
    }

    /// The corpus for which this was fetched; none exactly where there are more than 512 articles, two of them or two
    /// vocabularies have one name, one is built in, a dependency is neither built in nor one of them, or an article without a
    /// text names something.
    pub fn new(
        alloc: Global,
        sources: &Sources,
        vocabularies: Vocabularies,
    ) -> Result<Option<Corpus>, AllocError>
        ensures { IfOk result (IsMade sources.now vocabularies) }
    {
        let fit = is_fit(alloc, sources, &vocabularies)?;
        if !fit {
            return Ok(None);
        }
        let corpus = Corpus::from_fit(alloc, sources, vocabularies)?;
        Ok(Some(corpus))
    }
}
