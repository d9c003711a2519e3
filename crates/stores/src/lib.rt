//! The interface of stores: numbered blocks, kept until they are dropped.
#![tactic(auto)]

pub mod admission;
pub mod store;
