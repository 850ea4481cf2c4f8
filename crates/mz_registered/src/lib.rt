//! What comes of headings and blocks of registrations.
#![tactic(auto)]
