// Both stages of an access: stage 1 over stage 2, its checks, and the access.
#![tactic(auto)]

pub mod both;
pub mod prepared;
pub mod range;
pub mod stage1;
