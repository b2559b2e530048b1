//! What readings of expressions have in common: orders and members that are asked, whether one type is assignable to
//! another by what was asked, what is reported where it is not, and readings of which nothing is reported.
#![tactic(auto)]

mod asking;
mod judging;
pub mod laws;
mod owing;
mod quiet;
mod reader;
mod value;

pub use asking::{ask_member, is_unknown_class};
pub use judging::{
    AskTypes, KnownMros, ask_class, ask_types, ask_written, is_assignable, judge_assignable,
    known_orders,
};
pub use owing::{AsObligation, require, require_row};
pub use pyc_reading::{ask_name, report_error, report_note};
pub use quiet::quieten;
pub use reader::InferType;
pub use value::{SpecialForm, Value};
