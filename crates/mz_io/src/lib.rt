//! The outside: where texts come from, where the report goes, and where workers may be held.
#![tactic(auto)]

pub mod fetch_fault;
pub mod file;
pub mod file_kind;
pub mod file_list;
pub mod folder_shelf;
pub mod gate;
pub mod memory_shelf;
pub mod memory_sink;
pub mod quiet_shelf;
pub mod shelf;
pub mod sink;
pub mod stream_sink;
