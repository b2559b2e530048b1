//! The table of reads: what imports, classes, functions and targets ask of the files of a workspace, a law for each
//! row; and that units ask files alone, nothing of a builtin class, of a fixed module or above the root. All laws are
//! proved for all answers.
#![tactic(auto)]

pub mod annotations;
pub mod bodies;
pub mod classes;
pub mod files;
pub mod functions;
pub mod imports;
pub mod targets;
pub mod units;
