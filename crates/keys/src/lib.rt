//! What histories are about: keys in an order, and versions of what each key leads to.
#![tactic(auto)]

pub mod key;
pub mod name_key;
pub mod offset;
pub mod order;
pub mod version;
