//! Tests of the command language: what each kind of line is answered.
#![tactic(auto)]

#[cfg(test)]
mod answers;
#[cfg(test)]
mod dialogue;
#[cfg(test)]
mod faults;
#[cfg(test)]
mod refusals;
