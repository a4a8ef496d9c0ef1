#![tactic(auto)]

mod board;
pub mod panel;
mod roll;
