//! What a parser answers.
use mz_base::token::MarkedToken;
use mz_pterm::parse::ParseFault;

/// An answer: the number of tokens of the tree, or a refusal with its column, and with its line where it isn't the first.
#[derive(Clone, Copy, Debug, PartialEq, Eq)]
pub enum Answer {
    Until(usize),
    Unexpected(u64),
    UnexpectedBelow(u64, u64),
    TooDeep(u64),
    EndsEarly(u64),
    EndsEarlyBelow(u64, u64),
    Memory,
    /// There are too few tokens.
    TooFew,
    /// The tree is of another form, or it, its copy or its first place isn't that of the tokens that were taken.
    Misspelled,
}

/// The answer where a parse refuses.
pub fn refused(fault: &ParseFault) -> Answer {
    match fault {
        ParseFault::Unexpected { place } if place.line == 1 => Answer::Unexpected(place.column),
        ParseFault::Unexpected { place } => Answer::UnexpectedBelow(place.line, place.column),
        ParseFault::TooDeep { place } => Answer::TooDeep(place.column),
        ParseFault::EndsEarly { place } if place.line == 1 => Answer::EndsEarly(place.column),
        ParseFault::EndsEarly { place } => Answer::EndsEarlyBelow(place.line, place.column),
        ParseFault::Memory => Answer::Memory,
    }
}

fn is_same(left: &MarkedToken, right: &MarkedToken) -> bool {
    left.mark == right.mark
        && left.token.kind == right.token.kind
        && left.token.place == right.token.place
        && left.token.spelling.as_slice() == right.token.spelling.as_slice()
        && left.token.priority == right.token.priority
}

/// Whether the tokens are the same, with their marks and places.
pub fn are_same(left: &[MarkedToken], right: &[MarkedToken]) -> bool {
    left.len() == right.len()
        && left
            .iter()
            .zip(right.iter())
            .all(|(left, right)| is_same(left, right))
}

/// The answer where the tokens from the one number up to the other were taken, and the tree has this spelling.
pub fn taken(spelled: &[MarkedToken], tokens: &[MarkedToken], from: usize, until: usize) -> Answer {
    if until < from || until > tokens.len() {
        return Answer::Misspelled;
    }
    if are_same(spelled, &tokens[from..until]) {
        Answer::Until(until - from)
    } else {
        Answer::Misspelled
    }
}
