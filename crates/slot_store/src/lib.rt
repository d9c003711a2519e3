//! A store that gives each entry a slot of its own.
#![tactic(auto)]

mod search;
pub mod slots;
