//! What was found in files, with the report of it.

use pyc_report::{Found, Message, MessageKind, ObligationKind, report};
use std::alloc::{AllocError, Global};
use std::test::Fail;

const INCOMPATIBLE: &str =
    "Incompatible types in assignment (expression has type \"str\", variable has type \"int\")";

/// A message: its place, its kind and its text. The only error is that memory runs out.
fn message(
    alloc: Global,
    line: usize,
    column: usize,
    kind: MessageKind,
    text: &str,
) -> Result<Message, AllocError> {
    Ok(Message {
        line,
        column,
        kind,
        text: String::from_str(alloc, text)?,
    })
}

/// Messages, each of its line, its column, its kind and its text. The only error is that memory runs out.
fn messages(
    alloc: Global,
    rows: &[(usize, usize, MessageKind, &str)],
) -> Result<Vec<Message>, AllocError> {
    let mut messages = Vec::new(alloc);
    for (line, column, kind, text) in rows {
        messages.push(message(alloc, *line, *column, *kind, text)?)?;
    }
    Ok(messages)
}

/// These messages, borrowed. The only error is that memory runs out.
fn borrowed(alloc: Global, messages: &[Message]) -> Result<Vec<&Message>, AllocError> {
    let mut all = Vec::new(alloc);
    for message in messages {
        all.push(message)?;
    }
    Ok(all)
}

/// The error of a file with one.
const ONE_ERROR: &[(usize, usize, MessageKind, &str)] = &[(
    1,
    10,
    MessageKind::FailedObligation(ObligationKind::Assignment),
    INCOMPATIBLE,
)];

#[test]
fn one_error_in_one_file(rt: HostRuntime) -> Result<(), Fail> {
    let messages = messages(rt.alloc(), ONE_ERROR)?;
    let found = Found {
        path: "a.py",
        messages: borrowed(rt.alloc(), &messages)?,
    };
    let report = report(rt.alloc(), &[found])?;
    assert_eq!(rt;
        report.text.as_str(),
        "a.py:1: error: Incompatible types in assignment (expression has type \"str\", variable has type \"int\")  [assignment]\nFound 1 error in 1 file (checked 1 source file)\n"
    );
    assert!(rt; !report.clean);
    Ok(())
}
