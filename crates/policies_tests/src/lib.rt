//! Tests of the policies, on examples and at the edges.
#![tactic(auto)]

#[cfg(test)]
mod edges;
#[cfg(test)]
mod examples;
#[cfg(test)]
mod walks;
