//! What a text is before its items are read.
use mz_base::head::Head;
use mz_environment::environment::Environment;
use mz_tree_item::article::{ArticleTree, end as end_tree};

/// The environment part of an article, its tree, and what the environment part lets in.
pub struct Front {
    pub head: Head,
    pub tree: ArticleTree,
    pub environment: Environment,
}

/// Lets go of it. It is a call, so that the drops of all that stands there are proved once, here and in the crate of trees.
pub fn end(front: Front) {
    let Front {
        head: _head,
        tree,
        environment: _environment,
    } = front;
    end_tree(tree);
}
