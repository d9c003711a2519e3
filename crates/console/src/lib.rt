//! What the program answers to a line.
#![tactic(auto)]

pub mod answer;
mod help;
pub mod session;
