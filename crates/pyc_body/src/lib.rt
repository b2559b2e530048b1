//! What is found in a file: its messages, unit by unit, with those that no ignore comment suppresses.
#![tactic(auto)]

mod checker;
pub mod laws;
mod meter;
mod numbering;
mod suppressing;
mod unit_reading;

pub use checker::Checker;
pub use meter::Meter;
pub use numbering::{FileUnit, numbered_units};
pub use pyc_recorder::Checked;
pub use pyc_units::{Unit, UnitId, count_units, file_units, unit_definitions};
pub use suppressing::unsuppressed;
