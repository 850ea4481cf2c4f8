//! How an article stands.
ghost use Rattle.std.specs.Prelude.{◌≡◌, ◌↔◌, IsTrue};
ghost use Rattle.mz_rows.specs.declared.standing.RowState.TheVariants.{Claimed};
ghost use Rattle.mz_rows.specs.Standing.{standing_state, is_settled_state, is_waiting_state, is_claimed_state, is_accepted_state};

use mz_base::name::Name;
use mz_core::outcome::Export;
use std::sync::Arc;

/// How an article stands: all but the first two are settled.
#[derive(Clone, Copy, Debug, PartialEq, Eq)]
pub enum RowState {
    Waiting,
    /// By the worker with this number.
    Claimed(u32),
    Accepted,
    Rejected,
    /// By the first of its direct dependencies, in the order of names, that isn't accepted.
    Blocked(Name),
    Cyclic,
    Missing,
}

/// The same, with the export of an accepted article.
#[derive(Drop)]
pub enum Standing {
    Waiting,
    Claimed(u32),
    Accepted(Arc<Export>),
    Rejected,
    Blocked(Name),
    Cyclic,
    Missing,
}

impl RowState {
    /// Whether the row is settled.
    pub fn is_settled(self) -> bool
        ensures { result ≡ is_settled_state self }
    {
        match self {
            RowState::Waiting => false,
            RowState::Claimed(_) => false,
            _ => true,
        }
    }

    /// Whether the row waits.
    pub fn is_waiting(self) -> bool
        ensures { result ≡ is_waiting_state self }
    {
        matches!(self, RowState::Waiting)
    }

    /// Whether the row is claimed.
    pub fn is_claimed(self) -> bool
        ensures { result ≡ is_claimed_state self }
    {
        matches!(self, RowState::Claimed(_))
    }

    /// Whether the row is claimed by this worker.
    pub fn is_claimed_by(self, worker: u32) -> bool
        ensures { IsTrue result ↔ (self ≡ Claimed worker) }
    {
        match self {
            RowState::Claimed(other) => other == worker,
            _ => false,
        }
    }

    /// Whether the row is accepted.
    pub fn is_accepted(self) -> bool
        ensures { result ≡ is_accepted_state self }
    {
        matches!(self, RowState::Accepted)
    }
}

impl Standing {
    /// The state, without the export.
    pub fn state(&self) -> RowState
        ensures { result ≡ standing_state self.now }
    {
        match self {
            Standing::Waiting => RowState::Waiting,
            Standing::Claimed(worker) => RowState::Claimed(*worker),
            Standing::Accepted(_) => RowState::Accepted,
            Standing::Rejected => RowState::Rejected,
            Standing::Blocked(name) => RowState::Blocked(*name),
            Standing::Cyclic => RowState::Cyclic,
            Standing::Missing => RowState::Missing,
        }
    }
}
