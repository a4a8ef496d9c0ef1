#![tactic(auto)]

pub mod issue;
pub mod withdrawal;
