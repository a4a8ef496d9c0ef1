#![tactic(auto)]

pub mod call;
pub mod theorems;
pub mod value;
