//! How a numbered block stands in bytes: five header bytes, four for the number, most significant
//! first, and one for the length, and the block directly behind them.
#![tactic(auto)]

pub mod capacity;
pub mod entry;
pub mod parts;
