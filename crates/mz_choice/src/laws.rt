//! Laws of the choice, each the contract of a function that does nothing.
ghost use Rattle.mz_choice.specs.Laws.{OneMemberLaw, OneReadingLaw, OneChosenLaw, OneResolutionLaw};

/// What the first member of a chain that matches fixes is determined.
pub fn one_member_law()
    ensures { OneMemberLaw }
{}

/// What arguments read to by a notation is determined.
pub fn one_reading_law()
    ensures { OneReadingLaw }
{}

/// What an applied symbol reads to by the latest candidate that passes is determined.
pub fn one_chosen_law()
    ensures { OneChosenLaw }
{}

/// What it reads to, or why it reads to nothing, is determined.
pub fn one_resolution_law()
    ensures { OneResolutionLaw }
{}
