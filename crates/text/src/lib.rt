#![tactic(auto)]

mod draft;
mod fields;
mod reader;
pub mod reading;
mod record;
#[cfg(test)]
mod tests;
