//! The values that every layer speaks of: moments, objects, block numbers and refusals.
#![tactic(auto)]

pub mod block;
pub mod bytes;
pub mod moment;
pub mod object;
pub mod refusal;
