//! Tests of values and keys, on examples and at the edges.
#![tactic(auto)]

#[cfg(test)]
mod key_order;
#[cfg(test)]
mod name_values;
#[cfg(test)]
mod numbers;
