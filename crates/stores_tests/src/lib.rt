//! Tests of the stores: scripts of calls with their answers, and the bytes that they leave.
#![tactic(auto)]

#[cfg(test)]
mod both_stores;
pub mod lent;
#[cfg(test)]
mod log_bytes;
#[cfg(test)]
mod memory;
pub mod owner;
#[cfg(test)]
mod owners;
#[cfg(test)]
mod refusals;
#[cfg(test)]
mod script;
#[cfg(test)]
mod sizes;
#[cfg(test)]
mod slot_bytes;
