//! Tests of the grammar and of abstract trees: lines, blocks and sources with what they are, in a crate of their own.
#![tactic(auto)]

#[cfg(test)]
mod lowering_tests;
#[cfg(test)]
mod parser_tests;
#[cfg(test)]
mod part_tests;
