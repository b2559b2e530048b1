//! The reasons for which a command is refused.

ghost use Rattle.std.specs.Prelude.{◌≡◌};

/// Why a command is refused.
#[derive(Clone, Copy, Debug, PartialEq, Eq)]
pub enum Refusal {
    /// 1: the line is no command.
    Command,
    /// 2: no file may have this path.
    Path,
    /// 3: a file of this path is present.
    Present,
    /// 4: no file of this path is present.
    Absent,
    /// 5: a file has at most 1,048,576 bytes.
    Large,
    /// 6: the session holds as many files as it may.
    Many,
    /// 7: another file names the same module.
    Module,
    /// 8: the input ended inside the bytes of a file.
    Truncated,
    /// 9: memory was refused.
    Memory,
    /// 10: the source hands over no bytes.
    Unreadable,
}

impl Refusal {
    ghost use Rattle.pyc_session.specs.Refusal.{refusal_text};

    /// The reply that reports it, with its line end.
    pub fn text(self) -> &'static str
        ensures { result.now ≡ refusal_text self }
    {
        match self {
            Refusal::Command => "refused 1 command\n",
            Refusal::Path => "refused 2 path\n",
            Refusal::Present => "refused 3 present\n",
            Refusal::Absent => "refused 4 absent\n",
            Refusal::Large => "refused 5 large\n",
            Refusal::Many => "refused 6 many\n",
            Refusal::Module => "refused 7 module\n",
            Refusal::Truncated => "refused 8 truncated\n",
            Refusal::Memory => "refused 9 memory\n",
            Refusal::Unreadable => "refused 10 unreadable\n",
        }
    }
}
