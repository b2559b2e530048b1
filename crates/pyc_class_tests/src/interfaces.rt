//! Files, with whether they have the same interface.

use crate::sources::interface_of;
use pyc_interfaces::same_interface;
use std::alloc::{AllocError, Global};
use std::test::Fail;

/// Whether files of two paths and sources have the same interface, asked both ways.
fn is_same(
    alloc: Global,
    file: (&str, &str),
    other: (&str, &str),
) -> Result<(bool, bool), AllocError> {
    let file = interface_of(alloc, file.0, file.1)?;
    let other = interface_of(alloc, other.0, other.1)?;
    Ok((same_interface(&file, &other), same_interface(&other, &file)))
}

/// Sources of one interface: bodies of functions, comments, lines, values and defaults change nothing of it.
const SAME: &[(&str, &str)] = &[
    ("", "# a comment\n\n"),
    ("x: int = 1\n", "# a comment\n\n\nx: int = 2\n"),
    ("x: int\n", "print(1)\nx: int  # a comment\nx\n"),
    ("x = 1\n", "\nx = 20\n"),
    ("x = f(1)\n", "x = g()\n"),
    ("x = [1]\n", "x = (lambda: 1)\n"),
    ("x: tuple[()]\ny: f(1)\n", "x: tuple[()]\n\ny: g(2)\n"),
    (
        "@f(1)\n@g.h\ndef k(): ...\n",
        "@f(2)\n\n@g.h\ndef k(): ...\n",
    ),
    ("class A(f(1), x=g()): ...\n", "class A(f(2), x=h()): ...\n"),
    (
        "import a.b, c as d\nfrom .m import n as k\n",
        "import a.b\nimport c as d\nfrom .m import n as k\n",
    ),
    (
        "def f(x: int = 1, *, y: str) -> bool:\n    return x == 1\n",
        "def f(x: int = 22, *, y: str) -> bool:\n    z = y\n    # a comment\n    return False\n",
    ),
    (
        "def f(x: Callable[[int], list[str]]) -> 'A | None': ...\n",
        "\n\ndef f(\n    x: Callable[[int], list[str]],\n) -> 'A | None':\n    return None\n",
    ),
    (
        "@known\nclass A(B, m.C[int], metaclass=M):\n    x: int\n    @property\n    def y(self) -> dict[str, int]: ...\n",
        "x\n@known\nclass A(B, m.C[int], metaclass=M):\n    'a text'\n    x: int = 3\n    @property\n    def y(self) -> dict[str, int]:\n        return {}\n",
    ),
    (
        "class A:\n    def __init__(self, x: int) -> None:\n        self.x = x\n        self.y = f(1)\n        self.z: str = 'a'\n",
        "class A:\n    def __init__(self, x: int) -> None:\n        if x:\n            self.x = x\n        self.y = f(2)\n        self.z: str = 'b'\n        x = 3\n",
    ),
];

/// Sources of two interfaces.
const OTHERS: &[(&str, &str)] = &[
    ("x: int\n", "x: str\n"),
    ("x: int\n", "x = 1\n"),
    ("x: list[int]\n", "x: list[str]\n"),
    ("x: a.b\n", "x: a.c\n"),
    ("x: int | None\n", "x: int | str\n"),
    (
        "x: Callable[[int], str]\n",
        "x: Callable[[int, int], str]\n",
    ),
    ("x: 'int'\n", "x: 'str'\n"),
    ("x = 1\n", "x = 'a'\n"),
    ("x = 1\n", "x = f(1)\n"),
    ("x = y\n", "x = z\n"),
    ("x: int\n", "y: int\n"),
    ("x: int\n", "x: int\ny: int\n"),
    ("x: int\ny: int\n", "y: int\nx: int\n"),
    ("x: int\n", "x: int int\n"),
    ("import a\n", "import b\n"),
    ("import a as b\n", "import a.c as b\n"),
    ("import a\n", "import a as a\n"),
    ("from a import b\n", "from a import b as b\n"),
    ("from a import b\n", "from .a import b\n"),
    ("from a import b\n", "from a import c as b\n"),
    ("def f(): ...\n", "async def f(): ...\n"),
    ("def f(x: int): ...\n", "def f(x: str): ...\n"),
    ("def f(x: int): ...\n", "def f(x): ...\n"),
    ("def f(x: int): ...\n", "def f(x: int = 1): ...\n"),
    ("def f(x: int): ...\n", "def f(y: int): ...\n"),
    ("def f(x: int): ...\n", "def f(*x: int): ...\n"),
    ("def f() -> int: ...\n", "def f() -> str: ...\n"),
    ("def f() -> int: ...\n", "def f(): ...\n"),
    ("def f(): ...\n", "@known\ndef f(): ...\n"),
    ("@known\ndef f(): ...\n", "@known()\ndef f(): ...\n"),
    ("class A(B): ...\n", "class A(C): ...\n"),
    ("class A(B): ...\n", "class A: ...\n"),
    ("class A(B, C): ...\n", "class A(C, B): ...\n"),
    ("class A(*B): ...\n", "class A(B): ...\n"),
    ("class A: x: int\n", "class A: x: str\n"),
    ("class A: ...\n", "class A:\n    def f(self): ...\n"),
    (
        "class A:\n    @property\n    def f(self) -> int: ...\n",
        "class A:\n    @staticmethod\n    def f(self) -> int: ...\n",
    ),
    (
        "class A:\n    def f(self) -> None: ...\n",
        "class A:\n    def f(self) -> None:\n        self.x = 1\n",
    ),
    (
        "class A:\n    def f(self, x: int) -> None:\n        self.x = x\n",
        "class A:\n    def f(self, x: int) -> None:\n        self.x = 1\n",
    ),
];

/// Files of two paths and one source.
const PATHS: &[(&str, &str, bool)] = &[
    ("a.py", "a.py", true),
    ("a.py", "b.py", false),
    ("a.py", "a/__init__.py", false),
    ("a/b.py", "b.py", false),
    ("a.py", "a.pyi", false),
    ("a.pyi", "a.pyi", true),
];

/// What answers never look at is no part of an interface.
#[test]
fn bodies_and_lines_are_no_part(rt: HostRuntime) -> Result<(), Fail> {
    for (source, other) in SAME {
        assert_eq!(rt;
            is_same(rt.alloc(), ("m.py", source), ("m.py", other))?,
            (true, true),
            "{other}"
        );
    }
    Ok(())
}

/// What answers look at is a part of an interface.
#[test]
fn declarations_are_parts(rt: HostRuntime) -> Result<(), Fail> {
    for (source, other) in OTHERS {
        assert_eq!(rt;
            is_same(rt.alloc(), ("m.py", source), ("m.py", other))?,
            (false, false),
            "{other}"
        );
        assert_eq!(rt;
            is_same(rt.alloc(), ("m.py", source), ("m.py", source))?,
            (true, true),
            "{source}"
        );
    }
    Ok(())
}

/// The module and whether it is a package are parts of an interface.
#[test]
fn modules_are_parts(rt: HostRuntime) -> Result<(), Fail> {
    for (path, other, same) in PATHS {
        assert_eq!(rt;
            is_same(rt.alloc(), (path, "x: int\n"), (other, "x: int\n"))?,
            (*same, *same),
            "{other}"
        );
    }
    Ok(())
}
