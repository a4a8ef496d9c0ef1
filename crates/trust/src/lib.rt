#![tactic(auto)]

pub mod family;
pub mod judging;
pub mod node_trust;
pub mod refusal;
pub mod rule;
pub mod sorting;
pub mod statement;
pub mod threshold;
