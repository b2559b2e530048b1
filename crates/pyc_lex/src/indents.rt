//! The stack of indents.

ghost use Rattle.std.specs.Prelude.{◌≡◌, ◌<◌, ◌≤◌, ◌+◌, ◌*◌, ◌^◌, length};

/// The width of the blanks at a line's front.
#[derive(Clone, Copy, Debug, PartialEq, Eq)]
pub(crate) struct Columns {
    /// With tabs to the next multiple of 8; a row of tabs may pass a `usize`.
    pub wide: u128,
    /// With tabs of one column.
    pub narrow: usize,
}

impl Columns {
    ghost use Rattle.pyc_lex.specs.Indents as spec;

    /// No blanks.
    pub const NONE: Columns = Columns { wide: 0, narrow: 0 };

    /// The columns after one more blank.
    fn past(self, byte: u8) -> Columns
        requires wide { self.wide + 8 < 2 ^ 128 }
        requires narrow { self.narrow + 1 < 2 ^ 64 }
        ensures value { result ≡ spec.columns_past self byte }
        ensures wide { result.wide ≤ self.wide + 8 }
        ensures narrow { result.narrow ≤ self.narrow + 1 }
    {
        match byte {
            b'\t' => Columns {
                wide: (self.wide / 8 + 1) * 8,
                narrow: self.narrow + 1,
            },
            b'\x0c' => Columns::NONE,
            _ => Columns {
                wide: self.wide + 1,
                narrow: self.narrow + 1,
            },
        }
    }

    /// The columns after some blanks.
    pub fn after(self, blanks: &[u8]) -> Columns
        requires wide { self.wide + 8 * length blanks.now < 2 ^ 128 }
        requires narrow { self.narrow + length blanks.now < 2 ^ 64 }
        ensures value { result ≡ spec.columns_after self blanks.now }
        ensures wide { result.wide ≤ self.wide + 8 * length blanks.now }
        ensures narrow { result.narrow ≤ self.narrow + length blanks.now }
    {
        let mut columns = self;
        for byte in blanks {
            columns = columns.past(*byte);
        }
        columns
    }

    /// Whether both measures compare alike.
    pub fn compares_alike(self, other: Columns) -> bool
        ensures { result ≡ spec.compare_alike self other }
    {
        (self.wide < other.wide) == (self.narrow < other.narrow)
            && (other.wide < self.wide) == (other.narrow < self.narrow)
    }
}
