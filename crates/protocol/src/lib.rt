#![tactic(auto)]

pub mod message;
pub mod record;
pub mod slot;
