//! What holds of contexts of an article's own level, as the contract of a function that does nothing.
ghost use Rattle.mz_level_laws.specs.Level.{StartLaw, ReadingLaw, ReservationLaw, SentenceLaw, ClosedLaw};

/// The context at the start of an article is one of them, what is read in one stands there, and each change and each reservation
/// keeps it one. What a sentence of which no constant may be used is read to has none and no loose index, and what has none stands
/// in each context.
pub fn level_law()
    ensures start { StartLaw }
    ensures reading { ReadingLaw }
    ensures reservation { ReservationLaw }
    ensures sentence { SentenceLaw }
    ensures closed { ClosedLaw }
{}
