#![tactic(auto)]

pub mod guilds;
pub mod judgement;
pub mod reporting;
#[cfg(test)]
mod tests;
pub mod written;
