//! 64 brackets and 64 indents, and one more.

use pyc_lex::{LexFault, scan};
use std::alloc::Global;
use std::test::Fail;

/// So many of a text, one after another.
fn repeated(alloc: Global, text: &str, count: usize) -> Result<String, Fail> {
    let mut repeated = String::new(alloc);
    for _turn in 0..count {
        repeated.push_str(text)?;
    }
    Ok(repeated)
}

/// So many headers, each deeper than the one before, with `y` below the last.
fn nested(alloc: Global, blank: &str, levels: usize) -> Result<String, Fail> {
    let mut source = String::new(alloc);
    for level in 0..levels {
        source.push_str(repeated(alloc, blank, level)?.as_str())?;
        source.push_str("if x:\n")?;
    }
    source.push_str(repeated(alloc, blank, levels)?.as_str())?;
    source.push_str("y\n")?;
    Ok(source)
}

/// Brackets that open and that close, how many of each, and the first fault.
const BRACKETS: &[(&str, &str, usize, Option<LexFault>)] = &[
    ("(", ")", 64, None),
    ("[", "]", 64, None),
    ("{", "}", 64, None),
    ("([", "])", 32, None),
    ("(\n", "\n)", 64, None),
    ("()", "[]", 65, None),
    ("(", ")", 65, Some(LexFault::Deep(1))),
    ("[", "]", 65, Some(LexFault::Deep(1))),
    ("{", "", 65, Some(LexFault::Deep(1))),
    ("([", "])", 33, Some(LexFault::Deep(1))),
    ("(\n", "\n)", 65, Some(LexFault::Deep(65))),
    ("(", "", 64, Some(LexFault::Bracket(1))),
    ("(\n", "", 64, Some(LexFault::Bracket(64))),
];

/// The first fault of so many brackets that open, and as many that close.
fn bracket_fault(
    alloc: Global,
    open: &str,
    close: &str,
    count: usize,
) -> Result<Option<LexFault>, Fail> {
    let mut source = repeated(alloc, open, count)?;
    source.push_str(repeated(alloc, close, count)?.as_str())?;
    Ok(scan(alloc, source.as_bytes()).err())
}

#[test]
fn brackets_at_the_limit(rt: HostRuntime) -> Result<(), Fail> {
    for (open, close, count, want) in BRACKETS {
        assert_eq!(rt; bracket_fault(rt.alloc(), open, close, *count)?, *want);
    }
    Ok(())
}

/// Blanks, how many levels they indent, and the indent of the last line or the first fault.
const INDENTS: &[(&str, usize, Result<usize, LexFault>)] = &[
    (" ", 64, Ok(64)),
    ("\t", 64, Ok(64)),
    (" ", 65, Err(LexFault::Deep(66))),
    ("\t", 65, Err(LexFault::Deep(66))),
];

/// The indent of the last line of so many headers with `y` below them, or the first fault.
fn deepest(alloc: Global, blank: &str, levels: usize) -> Result<Result<usize, LexFault>, Fail> {
    let source = nested(alloc, blank, levels)?;
    Ok(match scan(alloc, source.as_bytes()) {
        Ok(lines) => Ok(lines.lines.last().ok_or("no line")?.indent),
        Err(fault) => Err(fault),
    })
}

#[test]
fn indents_at_the_limit(rt: HostRuntime) -> Result<(), Fail> {
    for (blank, levels, want) in INDENTS {
        assert_eq!(rt; deepest(rt.alloc(), blank, *levels)?, *want);
    }
    Ok(())
}
