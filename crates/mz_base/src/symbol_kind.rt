//! The kinds of symbols.

/// The kind of a symbol, one for each kind letter of a vocabulary (`docs/LANGUAGE.md`).
#[derive(Clone, Copy, Debug, PartialEq, Eq)]
pub enum SymbolKind {
    /// `G`
    Structure,
    /// `K`
    LeftBracket,
    /// `L`
    RightBracket,
    /// `M`
    Mode,
    /// `O`
    Functor,
    /// `R`
    Predicate,
    /// `U`
    Selector,
    /// `V`
    Attribute,
}
