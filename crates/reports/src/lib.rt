//! What a policy keeps, worked out for people.
#![tactic(auto)]

pub mod mark;
pub mod reason;
pub mod stretch;
