//! The messages of a file, in order, each line, code and text once; those that no ignore comment suppresses; and the
//! report on checked files.
#![tactic(auto)]

mod checked;
pub mod laws;
mod message;
mod name_texts;
mod ordering;
mod printed;
mod reporting;
mod suppressing;

pub use checked::{Found, Report};
pub use message::{Code, Message, MessageKind, ObligationKind};
pub use name_texts::push_names;
pub use ordering::in_order;
pub use reporting::report;
pub use suppressing::{drop_suppressed, is_suppressed};
