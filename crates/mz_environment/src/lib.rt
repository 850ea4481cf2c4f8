//! What a step and a reading may use of other articles and of what stands above.
#![tactic(auto)]

pub mod cited;
pub mod environment;
pub mod existentials;
pub mod join;
pub mod keys;
pub mod notation_table;
pub mod numbering;
pub mod plain;
pub mod rows;
pub mod rows_of;
pub mod shares;
pub mod structures;
pub mod syms;
pub mod unfoldings;
pub mod unfoldings_of;
