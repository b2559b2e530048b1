//! Brackets that match nothing or are left open, dedents to no entry, and tabs against spaces.

use pyc_lex::LexFault;

pub(super) const CASES: &[(&[u8], LexFault)] = &[
    (b")", LexFault::Bracket(1)),
    (b"]", LexFault::Bracket(1)),
    (b"}", LexFault::Bracket(1)),
    (b"())", LexFault::Bracket(1)),
    (b"(]", LexFault::Bracket(1)),
    (b"(}", LexFault::Bracket(1)),
    (b"[)", LexFault::Bracket(1)),
    (b"[}", LexFault::Bracket(1)),
    (b"{)", LexFault::Bracket(1)),
    (b"{]", LexFault::Bracket(1)),
    (b"([)]", LexFault::Bracket(1)),
    (b"x\n)", LexFault::Bracket(2)),
    (b"(\n\n]", LexFault::Bracket(3)),
    // one left open, at the line of the innermost
    (b"(", LexFault::Bracket(1)),
    (b"[", LexFault::Bracket(1)),
    (b"{", LexFault::Bracket(1)),
    (b"(\n[\n", LexFault::Bracket(2)),
    (b"((\n)", LexFault::Bracket(1)),
    (b"(\n[]\n{\n'a'\n", LexFault::Bracket(3)),
    (b"x = [1,\ny = 2\n", LexFault::Bracket(1)),
    (b"def f(\n  x", LexFault::Bracket(1)),
    (b"x\n\n(", LexFault::Bracket(3)),
    // reported last of all
    (b"( $", LexFault::BadCharacter(1)),
    (b"(\n'a", LexFault::OpenString(2)),
    (b"(\n)\n)", LexFault::Bracket(3)),
    (b"( )) $", LexFault::Bracket(1)),
    // a dedent to no entry
    (
        b" def perm(l):\nfor i in range(len(l)):\n    s = l[:i] + l[i+1:]\n        p = perm(l[:i] + l[i+1:])\n        for x in p:\n                r.append(l[i:i+1] + x)\n            return r\n",
        LexFault::Dedent(7),
    ),
    (b"if x:\n    y\n  z", LexFault::Dedent(3)),
    (b"  x\n y", LexFault::Dedent(2)),
    (b"if x:\n  if y:\n      z\n    w", LexFault::Dedent(4)),
    (b"if x:\n    y\n\n# a\n  z", LexFault::Dedent(5)),
    (b"if x:\n    y\n   \\\n    z", LexFault::Dedent(4)),
    // before what else is wrong with the line
    (b"if x:\n    y\n  $", LexFault::Dedent(3)),
    (b"if x:\n    y\n  'a", LexFault::Dedent(3)),
    (b"if x:\n    y\n  )", LexFault::Dedent(3)),
    (b"if x:\n        y\n\t$", LexFault::Tabs(3)),
    // tabs against spaces
    (b"if x:\n        y\n\tz", LexFault::Tabs(3)),
    (b"if x:\n\ty\n        z", LexFault::Tabs(3)),
    (b"if x:\n    y\n\tz", LexFault::Tabs(3)),
    (b"if x:\n  if y:\n\tz", LexFault::Tabs(3)),
    (b"if x:\n\ty\n  z", LexFault::Tabs(3)),
    (b"\tx\n        y", LexFault::Tabs(2)),
    // against the entry that the line goes back to
    (b"if x:\n        if y:\n        \tz\n\tw", LexFault::Tabs(4)),
    (b"if x:\n\tif y:\n\t\tz\n        w", LexFault::Tabs(4)),
    // before a dedent to no entry
    (b"if x:\n\t\ty\n     z", LexFault::Tabs(3)),
];
