//! The law of parses of articles.
ghost use Rattle.mz_parse_laws.specs.Article.{OneParse};

/// What parses of the same tokens give is the same, where there was memory.
pub fn one_parse_law()
    ensures { OneParse }
{}
