//! Where the reading of an article's items stands.
use mz_context::context::Context;
use mz_core::items::Items;
use mz_core::outcome::Left;
use mz_environment::environment::Environment;
use mz_environment::numbering::Numbering;
use mz_ground::clauses::Clauses;

/// Where the reading of an article's items stands: what may be used there, what was let in and what the article has stated
/// above; the clauses that `by` uses, in the order in which they came; how many theorems and so on stand above; what is known
/// there; the items that were read; and what the article has left of its limits.
#[derive(Drop)]
pub struct Standing {
    pub environment: Environment,
    pub clauses: Clauses,
    pub numbering: Numbering,
    pub context: Context,
    pub items: Items,
    pub left: Left,
}
