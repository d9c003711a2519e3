//! Pictures of what a policy keeps.
#![tactic(auto)]

pub mod picture;
