//! Replies to commands.

ghost use Rattle.std.specs.Prelude.{◌≡◌, None, Some};

use pyc_report::Report;
use pyc_session::{End, Status};

/// What is written for one command.
#[derive(Drop)]
pub enum Reply {
    /// A line that is known beforehand, with its line end.
    Line(&'static str),
    /// The report of a check, which its status follows.
    Checked(Report),
    /// The counts of the last check.
    Counts(Status),
}

/// The answer to one command: its reply, and how the session ends if it does.
#[derive(Drop)]
pub struct Answer {
    pub reply: Reply,
    pub end: Option<End>,
}

impl Answer {
    ghost use Rattle.pyc_daemon.specs.Replies.{reply_bytes, status_text};

    /// A line, after which the session goes on.
    pub fn line(text: &'static str) -> Self
        ensures reply { reply_bytes result.reply ≡ text.now }
        ensures end { result.end ≡ None }
    {
        Answer {
            reply: Reply::Line(text),
            end: None,
        }
    }

    /// A line, after which the session ends.
    pub fn last(text: &'static str, end: End) -> Self
        ensures reply { reply_bytes result.reply ≡ text.now }
        ensures end { result.end ≡ Some end }
    {
        Answer {
            reply: Reply::Line(text),
            end: Some(end),
        }
    }

    /// The counts of the last check, after which the session goes on.
    pub fn counts(status: Status) -> Self
        ensures reply { reply_bytes result.reply ≡ status_text status }
        ensures end { result.end ≡ None }
    {
        Answer {
            reply: Reply::Counts(status),
            end: None,
        }
    }
}
