//! A store that packs its entries end to end.
#![tactic(auto)]

pub mod log;
mod moves;
mod walk;
