//! Workers over small corpora, by a checker that waits and fails where a test wants it.
mod events;
mod meeting;
mod memory;
mod scripted;
mod shared;
mod threads;
