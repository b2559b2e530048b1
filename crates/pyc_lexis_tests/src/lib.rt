//! Tests of the lexis and of texts, in a crate of their own: a crate with tests is proved a second time with them.
#![tactic(auto)]

#[cfg(test)]
mod lexis;
#[cfg(test)]
mod texts;
