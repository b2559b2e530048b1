//! Ignore comments in every spelling, and comments that are none.

pub(super) const CASES: &[(&str, &str)] = &[
    // before the first logical line a bare one suppresses the file
    ("# type: ignore\nx", "0 [2:1 Name(Other) x];#1;!"),
    ("# type: ignore", "#1;!"),
    ("\n \t# a\n  # type: ignore\n", "#3;!"),
    (
        "#!/bin/python\n\n# type: ignore # why\nx",
        "0 [4:1 Name(Other) x];#3;!",
    ),
    ("\u{feff}# type: ignore\nx", "0 [2:1 Name(Other) x];#1;!"),
    ("# type: ignore\rx", "0 [2:1 Name(Other) x];#1;!"),
    ("# type: ignore\r\nx", "0 [2:1 Name(Other) x];#1;!"),
    (
        "# type: ignore\n# type: ignore\nx # type: ignore",
        "0 [3:1 Name(Other) x];#1;#2;#3;!",
    ),
    // one with codes does not, nor one in or after the first logical line
    ("# type: ignore[a]\nx", "0 [2:1 Name(Other) x];#1 a;"),
    (
        "# type: ignore[a]\n# type: ignore\nx",
        "0 [3:1 Name(Other) x];#1 a;#2;!",
    ),
    ("x # type: ignore", "0 [1:1 Name(Other) x];#1;"),
    ("x\n# type: ignore", "0 [1:1 Name(Other) x];#2;"),
    (
        "(\n# type: ignore\n)",
        "0 [1:1 Open(Round) (][3:1 Close(Round) )];#2;",
    ),
    (
        "(# type: ignore[a]\n) # type: ignore\n",
        "0 [1:1 Open(Round) (][2:1 Close(Round) )];#1 a;#2;",
    ),
    ("x \\\n # type: ignore\n", "0 [1:1 Name(Other) x];#2;"),
    // the spaces may be more or none
    ("x #type:ignore", "0 [1:1 Name(Other) x];#1;"),
    ("x #  type:   ignore   ", "0 [1:1 Name(Other) x];#1;"),
    ("x# type: ignore", "0 [1:1 Name(Other) x];#1;"),
    ("x\t\u{c}# type: ignore\t", "0 [1:1 Name(Other) x];#1;"),
    // what may follow
    ("x # type: ignore why", "0 [1:1 Name(Other) x];#1;"),
    ("x # type: ignore# why", "0 [1:1 Name(Other) x];#1;"),
    ("x # type: ignore\twhy", "0 [1:1 Name(Other) x];#1;"),
    ("x # type: ignore [a]", "0 [1:1 Name(Other) x];#1;"),
    (
        "x # type: ignore # type: ignore[a]",
        "0 [1:1 Name(Other) x];#1;",
    ),
    ("x # type: ignore[a] why", "0 [1:1 Name(Other) x];#1 a;"),
    ("x # type: ignore[a]# why", "0 [1:1 Name(Other) x];#1 a;"),
    ("x # type: ignore[a]\t", "0 [1:1 Name(Other) x];#1 a;"),
    // codes
    (
        "x # type: ignore[attr-defined]",
        "0 [1:1 Name(Other) x];#1 attr-defined;",
    ),
    ("x # type: ignore[a,b,c]", "0 [1:1 Name(Other) x];#1 a b c;"),
    ("x # type: ignore[ a , b ]", "0 [1:1 Name(Other) x];#1 a b;"),
    (
        "x #type:ignore[no-redef,  misc]",
        "0 [1:1 Name(Other) x];#1 no-redef misc;",
    ),
    ("x # type: ignore[a b]", "0 [1:1 Name(Other) x];#1 a b;"),
    ("é # type: ignore[é\t]", "0 [1:1 Name(Other) é];#1 é\t;"),
    // no ignore
    ("x # type: ignored", "0 [1:1 Name(Other) x];"),
    ("x # type: ignore-a", "0 [1:1 Name(Other) x];"),
    ("x # type: ignore.", "0 [1:1 Name(Other) x];"),
    ("x # type: ignore,", "0 [1:1 Name(Other) x];"),
    ("x # type: ignore(a)", "0 [1:1 Name(Other) x];"),
    ("x # type: ignore\u{c}", "0 [1:1 Name(Other) x];"),
    ("x # type: ignore\u{a0}", "0 [1:1 Name(Other) x];"),
    ("x # Type: ignore", "0 [1:1 Name(Other) x];"),
    ("x # type : ignore", "0 [1:1 Name(Other) x];"),
    ("x # type ignore", "0 [1:1 Name(Other) x];"),
    ("x # type: Ignore", "0 [1:1 Name(Other) x];"),
    ("x # type:", "0 [1:1 Name(Other) x];"),
    ("x #", "0 [1:1 Name(Other) x];"),
    ("x #\ttype: ignore", "0 [1:1 Name(Other) x];"),
    ("x # type:\tignore", "0 [1:1 Name(Other) x];"),
    ("x ## type: ignore", "0 [1:1 Name(Other) x];"),
    ("x # a # type: ignore", "0 [1:1 Name(Other) x];"),
    ("x # mytype: ignore", "0 [1:1 Name(Other) x];"),
    ("x # type: ignore[]", "0 [1:1 Name(Other) x];"),
    ("x # type: ignore[ ]", "0 [1:1 Name(Other) x];"),
    ("x # type: ignore[a,]", "0 [1:1 Name(Other) x];"),
    ("x # type: ignore[,a]", "0 [1:1 Name(Other) x];"),
    ("x # type: ignore[a,,b]", "0 [1:1 Name(Other) x];"),
    ("x # type: ignore[a, ,b]", "0 [1:1 Name(Other) x];"),
    ("x # type: ignore[a", "0 [1:1 Name(Other) x];"),
    ("x # type: ignore[", "0 [1:1 Name(Other) x];"),
    ("x # type: ignore[a]b", "0 [1:1 Name(Other) x];"),
    ("x # type: ignore[a][b]", "0 [1:1 Name(Other) x];"),
    ("x # type: ignore[[a]]", "0 [1:1 Name(Other) x];"),
    ("x # type: ignore[a#b]", "0 [1:1 Name(Other) x];"),
    ("# type: ignored\nx", "0 [2:1 Name(Other) x];"),
    ("# type: int\nx", "0 [2:1 Name(Other) x];"),
    // no comment
    (
        "'# type: ignore'",
        "0 [1:1 String(Plain) '# type: ignore'];",
    ),
    (
        "'''\n# type: ignore\n'''",
        "0 [1:1 String(Plain) '''\n# type: ignore\n'''];",
    ),
    (
        "f'{x} # type: ignore[a]'",
        "0 [1:1 String(Format) f'{x} # type: ignore[a]'];",
    ),
];
