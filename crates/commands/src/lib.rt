//! Lines of text as commands.
#![tactic(auto)]

pub mod arguments;
pub mod command;
pub mod fault;
pub mod setting;
pub mod words;
