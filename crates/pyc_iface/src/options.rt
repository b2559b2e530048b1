//! The options of a session.

/// How often the program may read its input in one session.
pub const TURNS: u64 = 1_000_000_000;

/// What a session is run with.
#[derive(Clone, Copy, Debug, PartialEq, Eq)]
pub struct Options {
    /// Whether missing imports are left out of the reports.
    pub ignore_missing: bool,
    /// Whether the bodies of functions without annotations are checked.
    pub check_untyped: bool,
    /// How often the input may be read.
    pub turns: u64,
}
