//! Names of files and directories: the rule of their bytes, their packed form, and their order.
#![tactic(auto)]

pub mod name;
pub mod name_rule;
pub mod packed_name;
