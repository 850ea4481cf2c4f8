//! The checker of the program.
use mz_checker::article_checker::ArticleChecker;
use mz_defs::defining::Defining;
use mz_regs::registering::Registering;
use mz_structs::structuring::Structuring;

/// It checks articles with items of every kind.
pub type ProgramChecker = ArticleChecker<Defining, Registering, Structuring>;
