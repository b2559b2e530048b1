//! Tests of types: assignability, unions, what tests leave, how types print, members, orders; in a crate of their own.
#![tactic(auto)]

#[cfg(test)]
mod members;
#[cfg(test)]
mod notation;
#[cfg(test)]
mod orders;
#[cfg(test)]
mod types;
#[cfg(test)]
mod unions;
