// The table walk of one stage, and stage 2's translation: what they take and give, and their code.
#![tactic(auto)]

pub mod check;
pub mod end;
pub mod prepared;
pub mod stage2;
pub mod start;
pub mod stop;
pub mod table;
