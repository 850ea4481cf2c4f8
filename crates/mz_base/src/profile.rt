//! The profile of refutation, and types that stand for it.

/// How much one refutation may use: with `One` the universals of a disjunct are refuted one by one; with `Two` they give each other
/// literals first (`docs/LANGUAGE.md`).
#[derive(Clone, Copy, Debug, PartialEq, Eq)]
pub enum Profile {
    One,
    Two,
}

/// A type that stands for a profile, so that what depends on the profile is a function of the type.
pub trait AtProfile: Sync {
    /// The profile.
    const PROFILE: Profile;
}

/// The type that stands for the first profile.
#[derive(Clone, Copy, Debug)]
pub struct AtOne;

impl AtProfile for AtOne {
    const PROFILE: Profile = Profile::One;
}

/// The type that stands for the second profile.
#[derive(Clone, Copy, Debug)]
pub struct AtTwo;

impl AtProfile for AtTwo {
    const PROFILE: Profile = Profile::Two;
}
