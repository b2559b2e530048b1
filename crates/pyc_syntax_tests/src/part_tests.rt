//! Sources of many lines: how many statements stand before another decides where a part of a module that is lowered by
//! itself would end, and changes nothing.

use pyc_ast::Outcome;
use pyc_lower::read;
use std::alloc::Global;
use std::fmt::Write;
use std::ops::Range;
use std::test::Fail;

/// How many lines stand before a source: with some of these, each of its lines is the first after a part.
const BEFORE: Range<usize> = 20..41;

/// So many lines, then a source, then lines again.
fn surrounded(alloc: Global, before: usize, source: &str, after: &str) -> Result<String, Fail> {
    let mut whole = String::new(alloc);
    for _ in 0..before {
        whole.push_str("a\n")?;
    }
    whole.push_str(source)?;
    for _ in 0..40 {
        whole.push_str("a\n")?;
    }
    whole.push_str(after)?;
    Ok(whole)
}

/// The lines at which the statements begin that stand after the first lines, down to those after the source, or the
/// line and the text of the first fault, each line counted from the first of the source.
fn shown(alloc: Global, source: &str, before: usize) -> Result<String, Fail> {
    let mut shown = String::new(alloc);
    match read(alloc, source.as_bytes())? {
        Outcome::Tree(module) => {
            let last = module.statements.len() - 40;
            for statement in &module.statements[before..last] {
                write!(shown, "{} ", statement.at.line as usize - before)?;
            }
        }
        Outcome::Fault(fault) => write!(shown, "{} {}", fault.line - before, fault.text)?,
    }
    Ok(shown)
}

/// Sources, what stands 40 lines after them, and what is read there.
const SOURCES: &[(&str, &str, &str)] = &[
    (
        "if a:\n    b\nelif c:\n    d\nelse:\n    e\nf\n",
        "",
        "1 7 ",
    ),
    ("for a in b:\n    c\nelse:\n    d\n", "", "1 "),
    ("while a: b\nelse: c\nwith d:\n\n    e\n", "", "1 3 "),
    (
        "try:\n    a\nexcept b:\n    c\nexcept:\n    c\nelse:\n    d\nfinally:\n    e\n",
        "",
        "1 ",
    ),
    (
        "@a\n\n@b\n# c\ndef f():\n    return\n@c\nclass D: d\n",
        "",
        "5 8 ",
    ),
    ("a; b\nc = (\nd,\n)\ne\n", "", "1 1 2 5 "),
    ("else: a\n", "", "1 Unexpected or missing block"),
    (
        "if a:\n    b\nelse:\nc\n",
        "",
        "3 Unexpected or missing block",
    ),
    ("a\n  b\n", "", "2 Unexpected or missing block"),
    // a line without a tree comes before all faults of blocks
    ("else: a\n", "= b\n", "42 Invalid syntax"),
    ("a = = b\n", "= b\n", "1 Invalid syntax"),
    // and a lexical fault before these
    ("a = = b\nelse: a\n", "$\n", "43 Invalid character"),
];

#[test]
fn lines_before_change_nothing(rt: HostRuntime) -> Result<(), Fail> {
    for (source, after, want) in SOURCES {
        for before in BEFORE {
            let whole = surrounded(rt.alloc(), before, source, after)?;
            let found = shown(rt.alloc(), &whole, before)?;
            assert_eq!(rt; found.as_str(), *want, "{before} {source}");
        }
    }
    Ok(())
}
