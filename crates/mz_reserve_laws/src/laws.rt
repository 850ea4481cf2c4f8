//! The law of reservations, the contract of a function that does nothing.
ghost use Rattle.mz_reserve_laws.specs.Laws.{OneReservationLaw};

/// The context behind reservations, and what the article has left behind them, is determined.
pub fn one_reservation_law()
    ensures { OneReservationLaw }
{}
