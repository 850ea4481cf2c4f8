//! Where a worker may be held.

/// What a worker passes between its claim of an article and its check. It promises nothing.
pub trait Gate: Sync {
    /// Called with the number of the article's row, from 0.
    fn enter(&self, article: u32);
}

/// A gate that does nothing.
#[derive(Clone, Copy, Debug)]
pub struct OpenGate;

impl Gate for OpenGate {
    fn enter(&self, _article: u32) {}
}
