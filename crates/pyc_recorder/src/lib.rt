//! The examiner of files: it performs readings over a world, and keeps which keys were asked, what was answered and
//! what was reported.
#![tactic(auto)]

mod asked_key;
mod checked;
mod copies;
mod kept;
pub mod laws;
mod recorder;
mod unit_trace;

pub use checked::Checked;
pub use recorder::{OverFiles, Recorder};
pub use unit_trace::UnitTrace;
