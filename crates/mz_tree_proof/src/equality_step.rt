//! The further sides of an iterative equality.
use crate::references::SimpleTree;
use mz_base::place::Place;
use mz_tree::expressions::TermTree;

/// A further side of an iterative equality.
pub struct EqualityStepTree {
    pub sign: Place,
    pub term: TermTree,
    pub simple: SimpleTree,
}

impl Drop for EqualityStepTree {
    fn drop(self) {
        let EqualityStepTree {
            sign: _sign,
            term: _term,
            simple: _simple,
        } = self;
    }
}
