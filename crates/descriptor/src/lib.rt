// Descriptors: what an entry of a table says, and what its permissions allow.
#![tactic(auto)]

pub mod entry;
pub mod permission;
pub mod turn;
