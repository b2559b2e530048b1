//! Lines that are of the language.

use super::refusal;
use pyc_parse::What;
use std::alloc::Global;
use std::test::Fail;

/// Simple statements.
pub(super) const STATEMENTS: &[&str] = &[
    "x",
    "x = 1",
    "x = y = 1",
    "x: int",
    "x: int = 1",
    "(x): int = 1",
    "x.y[0]: int = 1",
    "x += 1",
    "x **= y",
    "x = yield",
    "x = yield y, z",
    "yield from x",
    "x = (yield)",
    "return",
    "return x, *y",
    "raise",
    "raise x",
    "raise x from y",
    "assert x",
    "assert x, y",
    "del x",
    "del x, (y, [z]), *w",
    "pass",
    "break",
    "continue",
    "global x, y",
    "nonlocal x",
    "import a.b as c, d",
    "from . import a",
    "from ... import a as b",
    "from .a.b import c, d",
    "from a import (b, c as d,)",
    "x = 1; y = 2;",
];

/// Headers of compound statements, and lines that begin with a soft keyword.
pub(super) const HEADERS: &[&str] = &[
    "if x: y = 1; z = 2",
    "elif x:",
    "else: pass",
    "while x:",
    "for x, *y in z:",
    "for x in *y, z:",
    "async for x in y:",
    "try: pass",
    "except:",
    "except E as e:",
    "except (A, B):",
    "finally:",
    "with a:",
    "with a as b, c as (d, e):",
    "with (a as b, c,):",
    "with (a), b:",
    "async with a: pass",
    "def f():",
    "def f(a, b: int = 1, *c: int, d=2, **e) -> int: return 1",
    "def f(a=1, b): pass",
    "def f(*, a): pass",
    "async def f(a,): pass",
    "class C:",
    "class C(A, k=1, **d): pass",
    "@a.b(c)",
    "match = 1",
    "type = case",
];

/// Expressions.
pub(super) const EXPRESSIONS: &[&str] = &[
    "match[x]",
    "a or b and not c",
    "a < b <= c != d",
    "a is not b",
    "a not in b",
    "a | b ^ c & d << e + f * -g ** -h",
    "await a ** b",
    "a if b else c if d else e",
    "lambda: 0",
    "lambda a, *b, c=1, **d: a",
    "lambda *, a: a",
    "a.b.c(d)[e]",
    "f(a, *b, c=d, *e, **g)",
    "f(x for x in y if z)",
    "f((x for x in y), z)",
    "[]",
    "()",
    "{}",
    "(a,)",
    "[a, *b]",
    "{a, *b}",
    "{a: b, **c}",
    "[a for b in c async for d in e if f]",
    "{a: b for c, d in e}",
    "x[:]",
    "x[a:b, ::c, d]",
    "x[a,]",
    "'a' 'b' f'c'",
    "b'a' rb'b'",
    "...",
    "None is True",
    "a = *b, c",
    "1 if (yield) else 2",
];

/// What is wrong with an assignment of so many of a text and a number, or nothing.
fn refusal_of(alloc: Global, text: &str, count: usize) -> Result<Option<What>, Fail> {
    let mut source = String::new(alloc);
    source.push_str("x = ")?;
    for _turn in 0..count {
        source.push_str(text)?;
    }
    source.push_str("1")?;
    refusal(alloc, source.as_str())
}

/// Texts that make a tree one node higher.
const UNITS: &[&str] = &["-", "not ", "2 ** ", "lambda: ", "a if b else "];

/// How often a text stands there, with what is wrong with the line.
const HEIGHTS: &[(usize, Option<What>)] = &[
    (900, None),
    (997, None),
    (998, Some(What::Line)),
    (2000, Some(What::Line)),
];

#[test]
fn trees_are_at_most_1000_nodes_high(rt: HostRuntime) -> Result<(), Fail> {
    // the line, the assignment and the last operand are one node each
    for unit in UNITS {
        for (count, want) in HEIGHTS {
            assert_eq!(rt; refusal_of(rt.alloc(), unit, *count)?, *want);
        }
    }
    Ok(())
}
