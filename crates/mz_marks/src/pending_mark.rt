//! What the tokens behind a comma say of its mark.
ghost use Rattle.std.specs.Prelude.{◌≡◌};
ghost use Rattle.mz_marks.specs.PendingMark.{settled, reserving_after, mark_with, pending_mark_with};

use crate::token_class::TokenClass;
use mz_base::token::Mark;

/// What the tokens behind a token say of its mark.
#[derive(Clone, Copy, Debug, PartialEq, Eq)]
pub enum PendingMark {
    NotComma,
    List,
    Dividing,
    /// It divides where it stands in a `reserve`, and else goes on a list.
    DividingInReserve,
}

impl PendingMark {
    /// What stands behind a token: whether a term may begin there, whether a new segment follows, and whether one does
    /// in a `reserve`.
    pub fn of(class: TokenClass, begins: bool, segment: bool, reserve_segment: bool) -> PendingMark
        ensures { result ≡ pending_mark_with class begins segment reserve_segment }
    {
        match class {
            TokenClass::Comma => {
                if !begins {
                    PendingMark::Dividing
                } else if segment {
                    PendingMark::Dividing
                } else if reserve_segment {
                    PendingMark::DividingInReserve
                } else {
                    PendingMark::List
                }
            }
            _ => PendingMark::NotComma,
        }
    }

    /// The mark, given whether the token stands in a `reserve`.
    pub fn settled(self, reserving: bool) -> Mark
        ensures { result ≡ settled reserving self }
    {
        match self {
            PendingMark::NotComma => Mark::NotComma,
            PendingMark::List => Mark::List,
            PendingMark::Dividing => Mark::Dividing,
            PendingMark::DividingInReserve => {
                if reserving {
                    Mark::Dividing
                } else {
                    Mark::List
                }
            }
        }
    }
}

/// Whether the tokens behind this one stand in a `reserve`.
pub fn reserving_after(reserving: bool, class: TokenClass) -> bool
    ensures { result ≡ reserving_after reserving class }
{
    match class {
        TokenClass::Reserve => true,
        TokenClass::Semicolon => false,
        _ => reserving,
    }
}
