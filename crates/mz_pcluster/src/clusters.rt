//! Clusters.
ghost use Rattle.std.specs.Prelude.{◌≡◌};
ghost use Rattle.mz_forms.specs.Reading.{Reads};
ghost use Rattle.mz_ppattern.specs.Optional.{plainly};
ghost use Rattle.mz_pcluster.specs.Forms.{cluster_form, cluster_of, conditional_of, registered_form, with_adjectives, ReadsAdjectives, ReadsTerm};

use crate::groups::group;
use crate::kinds::{ClusterKind, cluster_kind};
use crate::parts::{BehindTree, ImpliedTree, RegisteredTree, assigned, behind, implied};
use mz_base::place::Place;
use mz_forms::refusal::Refusal;
use mz_ppattern::words::expect_word;
use mz_pterm::reader::Reader;
use mz_ptype::adjectives::adjectives;
use mz_tree::expressions::{AdjectivesTree, TermTree};
use mz_tree_part::cluster::{ClusterTree, ConditionalTree, ExistentialTree, FunctorialTree};

/// The conditional cluster of these parts.
fn conditional(
    cluster: Place,
    premises: Option<AdjectivesTree>,
    implied: ImpliedTree,
) -> ConditionalTree
    ensures { result ≡ conditional_of cluster premises implied }
{
    ConditionalTree {
        cluster,
        premises,
        arrow: implied.arrow,
        adjectives: implied.adjectives,
        for_type: implied.for_type,
        semicolon: implied.semicolon,
    }
}

/// The cluster that begins with these adjectives.
fn with_adjectives(cluster: Place, adjectives: AdjectivesTree, behind: BehindTree) -> ClusterTree
    ensures { result ≡ with_adjectives cluster adjectives behind }
{
    match behind {
        BehindTree::Type(ty, semicolon) => ClusterTree::Existential(ExistentialTree {
            cluster,
            adjectives,
            for_: None,
            ty,
            semicolon,
        }),
        BehindTree::For(for_type, semicolon) => ClusterTree::Existential(ExistentialTree {
            cluster,
            adjectives,
            for_: Some(for_type.for_),
            ty: for_type.ty,
            semicolon,
        }),
        BehindTree::Implied(implied) => {
            ClusterTree::Conditional(conditional(cluster, Some(adjectives), implied))
        }
    }
}

/// The cluster of what stands behind its word.
fn cluster_of(cluster: Place, registered: RegisteredTree) -> ClusterTree
    ensures { result ≡ cluster_of cluster registered }
{
    match registered {
        RegisteredTree::Implied(implied) => {
            ClusterTree::Conditional(conditional(cluster, None, implied))
        }
        RegisteredTree::Adjectives(adjectives, behind) => with_adjectives(
            cluster, adjectives, behind,
        ),
        RegisteredTree::Term(term, assigned) => ClusterTree::Functorial(FunctorialTree {
            cluster,
            term,
            arrow: assigned.arrow,
            adjectives: assigned.adjectives,
            for_type: assigned.for_type,
            semicolon: assigned.semicolon,
        }),
    }
}

/// Adjectives, and what stands behind them.
fn of_adjectives(reader: &mut Reader<'_>, room: usize) -> Result<RegisteredTree, Refusal>
    ensures { ReadsAdjectives room reader.old.rest.now result reader.new.rest.now }
{
    let (first, more) = adjectives(reader, false, room)?;
    let behind = behind(reader, room)?;
    Ok(RegisteredTree::Adjectives(AdjectivesTree::from_nodes(first, more), behind))
}

/// A term, and what stands behind it.
fn of_term(reader: &mut Reader<'_>, room: usize) -> Result<RegisteredTree, Refusal>
    ensures { ReadsTerm room reader.old.rest.now result reader.new.rest.now }
{
    let node = reader.term(false, room)?;
    let assigned = assigned(reader, room)?;
    Ok(RegisteredTree::Term(TermTree::from_node(node), assigned))
}

/// What stands behind `cluster`.
fn registered(reader: &mut Reader<'_>, room: usize) -> Result<RegisteredTree, Refusal>
    ensures { Reads registered_form room plainly reader.old.rest.now result reader.new.rest.now }
{
    match cluster_kind(reader) {
        ClusterKind::Arrow => {
            let implied = implied(reader, room)?;
            Ok(RegisteredTree::Implied(implied))
        }
        ClusterKind::Adjectives => of_adjectives(reader, room),
        ClusterKind::Group => group(reader, room),
        ClusterKind::Term => of_term(reader, room),
    }
}

/// A cluster. `room` says how many constructs may still be opened within one another.
pub fn cluster(reader: &mut Reader<'_>, room: usize) -> Result<ClusterTree, Refusal>
    ensures { Reads cluster_form room plainly reader.old.rest.now result reader.new.rest.now }
{
    let cluster = expect_word(reader, b"cluster")?;
    let registered = registered(reader, room)?;
    Ok(cluster_of(cluster, registered))
}
