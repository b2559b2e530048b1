//! Tests in which one growth of memory is refused: what a call leaves behind, and what comes of the calls after it. By
//! themselves they meet no refusal: `scripts/gate/tests.py` refuses each growth in turn.
#![tactic(auto)]

#[cfg(test)]
mod checking;
#[cfg(test)]
mod commands;
#[cfg(test)]
mod files;
#[cfg(test)]
mod interning;
#[cfg(test)]
mod rows;
#[cfg(test)]
mod spending;
#[cfg(test)]
mod worlds;
