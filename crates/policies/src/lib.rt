//! Retention policies: which moments of a project's history are kept.
#![tactic(auto)]

pub mod all;
pub mod halving;
pub mod policy;
pub mod retention;
pub mod window;
