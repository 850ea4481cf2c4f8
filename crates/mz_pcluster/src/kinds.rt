//! Which cluster the tokens behind `cluster` begin, as far as the first two of them tell.
ghost use Rattle.std.specs.Prelude.{◌≡◌};
ghost use Rattle.mz_pcluster.specs.Classes.{cluster_kind, second_kind};

use mz_base::token::MarkedToken;
use mz_ppattern::words::is_arrow;
use mz_pterm::reader::Reader;
use mz_pterm::sign::Sign;

/// What stands behind `cluster`.
#[derive(Clone, Copy, Debug, PartialEq, Eq)]
pub enum ClusterKind {
    /// `->`
    Arrow,
    /// Adjectives, of which the first has no terms in parentheses.
    Adjectives,
    /// Terms in parentheses, behind which an attribute decides for adjectives.
    Group,
    /// A term without parentheses at its start.
    Term,
}

/// Which cluster begins with an identifier, by the token behind it.
fn second_kind(rest: &[MarkedToken]) -> ClusterKind
    ensures { result ≡ second_kind rest.now }
{
    let Some((next, _)) = rest.split_first() else {
        return ClusterKind::Term;
    };
    match Sign::of(next) {
        Sign::Attribute => ClusterKind::Adjectives,
        _ => ClusterKind::Term,
    }
}

/// Which cluster the next tokens begin.
pub fn cluster_kind(reader: &Reader<'_>) -> ClusterKind
    ensures { result ≡ cluster_kind reader.now.rest.now }
{
    let Some((next, rest)) = reader.rest.split_first() else {
        return ClusterKind::Term;
    };
    if is_arrow(next) {
        return ClusterKind::Arrow;
    }
    match Sign::of(next) {
        Sign::Non => ClusterKind::Adjectives,
        Sign::Attribute => ClusterKind::Adjectives,
        Sign::Identifier => second_kind(rest),
        Sign::Open => ClusterKind::Group,
        _ => ClusterKind::Term,
    }
}
