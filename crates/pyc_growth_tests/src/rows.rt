//! Rows of commands, each given to one daemon, with the reports of fresh sessions and the numbers of units that are
//! examined.

use crate::commands::{Command, Row, is_given_again};
use std::alloc::Global;
use std::process::Abort;
use std::test::Fail;

/// The report on one file without an error, and on two.
const ONE_CLEAN: &str = "Success: no issues found in 1 source file\n";

const TWO_CLEAN: &str = "Success: no issues found in 2 source files\n";

/// The report on no file.
const NONE_CLEAN: &str = "Success: no issues found in 0 source files\n";

/// The report on `a.py` alone, which imports `b`.
const NO_B: &str =
    "a.py:1: error: Cannot find implementation or library stub for module named \"b\"  [import-not-found]\nFound 1 error in 1 file (checked 1 source file)\n";

/// The report on `b.py` alone, which imports `a`.
const NO_A: &str =
    "b.py:1: error: Cannot find implementation or library stub for module named \"a\"  [import-not-found]\nFound 1 error in 1 file (checked 1 source file)\n";

/// A call, and functions with results of one type and of another.
const CALL: &str = "from b import f\nx: int = f()\n";

const ONE: &str = "def f() -> int:\n    return 1\n";

const TWO: &str = "def f() -> int:\n    return 2\n";

const TEXT: &str = "def f() -> str:\n    return \"s\"\n";

const NOT_INT: &str =
    "a.py:2: error: Incompatible types in assignment (expression has type \"str\", variable has type \"int\")  [assignment]\nFound 1 error in 1 file (checked 2 source files)\n";

/// The type of a result changes.
const RESULT_CHANGES: Row = Row {
    paths: ["a.py", "b.py"],
    commands: &[
        Command::Add(0, CALL),
        Command::Add(1, ONE),
        Command::Check,
        Command::Change(1, TWO),
        Command::Check,
        Command::Change(1, TEXT),
        Command::Check,
    ],
    reports: &[
        (["", ""], 0, NONE_CLEAN),
        ([CALL, ""], 2, NO_B),
        (["", ONE], 3, ONE_CLEAN),
        (["", TWO], 3, ONE_CLEAN),
        (["", TEXT], 3, ONE_CLEAN),
        ([CALL, ONE], 5, TWO_CLEAN),
        ([CALL, TWO], 5, TWO_CLEAN),
        ([CALL, TEXT], 5, NOT_INT),
    ],
    // `a.py` has a header and a body, `b.py` these and a function. The header of `a.py` reads whether the name is
    // there, its body reads the type of the name.
    counts: &[
        (["", ""], [CALL, ""], 2),
        (["", ""], ["", ONE], 3),
        (["", ""], [CALL, ONE], 5),
        (["", ""], [CALL, TWO], 5),
        ([CALL, ONE], [CALL, TWO], 3),
        ([CALL, ONE], [CALL, TEXT], 4),
        ([CALL, TWO], [CALL, TEXT], 4),
        ([CALL, TEXT], [CALL, TWO], 4),
        (["", ONE], ["", TWO], 3),
        (["", TWO], ["", TEXT], 3),
        (["", TEXT], [CALL, TEXT], 2),
        ([CALL, ""], [CALL, TEXT], 5),
    ],
};

/// A module that is missing, and its file.
const IMPORT: &str = "import lib\n";

const LIB: &str = "k: int = 1\n";

const NO_LIB: &str =
    "a.py:1: error: Cannot find implementation or library stub for module named \"lib\"  [import-not-found]\nFound 1 error in 1 file (checked 1 source file)\n";

/// The file of a missing module comes. The source hands over both files.
const MODULE_COMES: Row = Row {
    paths: ["a.py", "lib.py"],
    commands: &[
        Command::Update(0, IMPORT),
        Command::Check,
        Command::Update(1, LIB),
        Command::Check,
    ],
    reports: &[
        (["", ""], 0, NONE_CLEAN),
        ([IMPORT, ""], 2, NO_LIB),
        (["", LIB], 2, ONE_CLEAN),
        ([IMPORT, LIB], 4, TWO_CLEAN),
    ],
    // the header of `a.py` reads whether the module is there
    counts: &[
        (["", ""], [IMPORT, ""], 2),
        (["", ""], ["", LIB], 2),
        (["", ""], [IMPORT, LIB], 4),
        ([IMPORT, ""], [IMPORT, LIB], 3),
        (["", LIB], [IMPORT, LIB], 2),
    ],
};

/// A file that has no tree.
const FAULT: &str = "def (\n";

const NO_TREE: &str =
    "b.py:1: error: Unmatched bracket  [syntax]\nFound 1 error in 1 file (checked 2 source files)\n";

/// A file is changed and changed back between two checks.
const CHANGED_BACK: Row = Row {
    paths: ["a.py", "b.py"],
    commands: &[
        Command::Add(0, CALL),
        Command::Add(1, ONE),
        Command::Check,
        Command::Change(1, FAULT),
        Command::Change(1, ONE),
        Command::Check,
    ],
    reports: &[
        (["", ""], 0, NONE_CLEAN),
        ([CALL, ""], 2, NO_B),
        (["", ONE], 3, ONE_CLEAN),
        ([CALL, ONE], 5, TWO_CLEAN),
        ([CALL, FAULT], 3, NO_TREE),
    ],
    // a file without a tree has a header alone
    counts: &[
        (["", ""], [CALL, ""], 2),
        (["", ""], ["", ONE], 3),
        (["", ""], [CALL, ONE], 5),
        (["", ONE], [CALL, ONE], 2),
        ([CALL, ""], [CALL, ONE], 5),
        ([CALL, ONE], [CALL, FAULT], 3),
        ([CALL, FAULT], [CALL, ONE], 5),
    ],
};

/// Two files that import a name of one another, and one that declares it.
const FROM_B: &str = "from b import x\n";

const FROM_A: &str = "from a import x\n";

const DECLARED: &str = "x: int = 1\n";

const RING: &str =
    "a.py:1: error: Cannot resolve name \"x\" (possible cyclic definition)  [misc]\nb.py:1: error: Cannot resolve name \"x\" (possible cyclic definition)  [misc]\nFound 2 errors in 2 files (checked 2 source files)\n";

/// A ring of two files is opened.
const RING_OPENS: Row = Row {
    paths: ["a.py", "b.py"],
    commands: &[
        Command::Add(0, FROM_B),
        Command::Add(1, FROM_A),
        Command::Check,
        Command::Change(1, DECLARED),
        Command::Check,
    ],
    reports: &[
        (["", ""], 0, NONE_CLEAN),
        ([FROM_B, ""], 2, NO_B),
        (["", FROM_A], 2, NO_A),
        (["", DECLARED], 2, ONE_CLEAN),
        ([FROM_B, FROM_A], 4, RING),
        ([FROM_B, DECLARED], 4, TWO_CLEAN),
    ],
    // the header of `a.py` reads whether the name is there, and its body reads nothing
    counts: &[
        (["", ""], [FROM_B, ""], 2),
        (["", ""], ["", FROM_A], 2),
        (["", ""], [FROM_B, FROM_A], 4),
        (["", ""], [FROM_B, DECLARED], 4),
        (["", FROM_A], ["", DECLARED], 2),
        (["", DECLARED], [FROM_B, DECLARED], 2),
        ([FROM_B, ""], [FROM_B, DECLARED], 3),
        ([FROM_B, FROM_A], [FROM_B, DECLARED], 3),
    ],
};

/// A class, with a parameter of one type and of another, and one that overrides its method.
const BASE: &str = "class B:\n    def f(self, n: int) -> int:\n        return 1\n";

const MENDED: &str = "class B:\n    def f(self, n: str) -> int:\n        return 1\n";

const OVERRIDE: &str =
    "from a import B\nclass C(B):\n    def f(self, n: str) -> int:\n        return 1\n";

const NO_OVERRIDE: &str =
    "b.py:3: error: Argument 1 of \"f\" is incompatible with supertype \"B\"; supertype defines the argument type as \"int\"  [override]\nFound 1 error in 1 file (checked 2 source files)\n";

/// The method of a base class changes so that an override of it is right.
const OVERRIDE_IS_MENDED: Row = Row {
    paths: ["a.py", "b.py"],
    commands: &[
        Command::Add(0, BASE),
        Command::Add(1, OVERRIDE),
        Command::Check,
        Command::Change(0, MENDED),
        Command::Check,
    ],
    reports: &[
        (["", ""], 0, NONE_CLEAN),
        ([BASE, ""], 4, ONE_CLEAN),
        ([MENDED, ""], 4, ONE_CLEAN),
        (["", OVERRIDE], 4, NO_A),
        ([BASE, OVERRIDE], 8, NO_OVERRIDE),
        ([MENDED, OVERRIDE], 8, TWO_CLEAN),
    ],
    // Each file has a header, a body, a class and a method. The header of `b.py` reads whether the class is there, its
    // class reads what the name stands for, the order of the class, and its method.
    counts: &[
        (["", ""], [BASE, ""], 4),
        (["", ""], ["", OVERRIDE], 4),
        (["", ""], [BASE, OVERRIDE], 8),
        (["", ""], [MENDED, OVERRIDE], 8),
        ([BASE, ""], [MENDED, ""], 4),
        ([MENDED, ""], [MENDED, OVERRIDE], 4),
        (["", OVERRIDE], [MENDED, OVERRIDE], 6),
        ([BASE, OVERRIDE], [MENDED, OVERRIDE], 5),
    ],
};

/// A class without a method and with one, and a class with that method over it.
const PLAIN: &str = "class B:\n    x: int = 1\n";

const WITH_METHOD: &str =
    "class B:\n    x: int = 1\n    def f(self) -> str:\n        return \"s\"\n";

const OTHER_RESULT: &str =
    "from a import B\nclass C(B):\n    def f(self) -> int:\n        return 1\n";

const NO_RESULT: &str =
    "b.py:3: error: Return type \"int\" of \"f\" incompatible with return type \"str\" in supertype \"B\"  [override]\nFound 1 error in 1 file (checked 2 source files)\n";

/// A base class gains a method, which its subclass then overrides.
const BASE_GAINS: Row = Row {
    paths: ["a.py", "b.py"],
    commands: &[
        Command::Add(0, PLAIN),
        Command::Add(1, OTHER_RESULT),
        Command::Check,
        Command::Change(0, WITH_METHOD),
        Command::Check,
    ],
    reports: &[
        (["", ""], 0, NONE_CLEAN),
        ([PLAIN, ""], 3, ONE_CLEAN),
        ([WITH_METHOD, ""], 4, ONE_CLEAN),
        (["", OTHER_RESULT], 4, NO_A),
        ([PLAIN, OTHER_RESULT], 7, TWO_CLEAN),
        ([WITH_METHOD, OTHER_RESULT], 8, NO_RESULT),
    ],
    // the class of `b.py` reads whether the other one has the method
    counts: &[
        (["", ""], [PLAIN, ""], 3),
        (["", ""], ["", OTHER_RESULT], 4),
        (["", ""], [PLAIN, OTHER_RESULT], 7),
        (["", ""], [WITH_METHOD, OTHER_RESULT], 8),
        ([PLAIN, ""], [WITH_METHOD, ""], 4),
        ([WITH_METHOD, ""], [WITH_METHOD, OTHER_RESULT], 4),
        (["", OTHER_RESULT], [WITH_METHOD, OTHER_RESULT], 6),
        ([PLAIN, OTHER_RESULT], [WITH_METHOD, OTHER_RESULT], 5),
    ],
};

/// A file with an error, and a stub beside it.
const WRONG: &str = "x: int = \"a\"\n";

const STUB: &str = "x: int\n";

const NO_INT: &str =
    "a.py:1: error: Incompatible types in assignment (expression has type \"str\", variable has type \"int\")  [assignment]\nFound 1 error in 1 file (checked 1 source file)\n";

/// A stub comes beside a file, and goes.
const STUB_COMES: Row = Row {
    paths: ["a.py", "a.pyi"],
    commands: &[
        Command::Add(0, WRONG),
        Command::Check,
        Command::Add(1, STUB),
        Command::Check,
        Command::Remove(1),
        Command::Check,
    ],
    reports: &[
        (["", ""], 0, NONE_CLEAN),
        ([WRONG, ""], 2, NO_INT),
        (["", STUB], 2, ONE_CLEAN),
        ([WRONG, STUB], 2, ONE_CLEAN),
    ],
    // a file that was not taken is new, unless its stub came and went since the last completed check
    counts: &[
        (["", ""], [WRONG, ""], 2),
        (["", ""], ["", STUB], 2),
        (["", ""], [WRONG, STUB], 2),
        ([WRONG, ""], [WRONG, STUB], 2),
        ([WRONG, STUB], [WRONG, ""], 2),
        (["", STUB], ["", ""], 0),
    ],
};

/// A function has another value, and then another type.
// growths: 1 to 1700
pub(crate) fn result_changes(rt: &impl Abort, alloc: Global, spent: usize) -> Result<bool, Fail> {
    is_given_again(rt, alloc, spent, &RESULT_CHANGES)
}

/// An import without a module, whose file then comes.
// growths: 1 to 1300
pub(crate) fn module_comes(rt: &impl Abort, alloc: Global, spent: usize) -> Result<bool, Fail> {
    is_given_again(rt, alloc, spent, &MODULE_COMES)
}

/// A change that is taken back before the next check.
// growths: 1 to 1050
pub(crate) fn changed_back(rt: &impl Abort, alloc: Global, spent: usize) -> Result<bool, Fail> {
    is_given_again(rt, alloc, spent, &CHANGED_BACK)
}

/// A ring of two files, of which one then declares the name.
// growths: 1 to 1350
pub(crate) fn ring_opens(rt: &impl Abort, alloc: Global, spent: usize) -> Result<bool, Fail> {
    is_given_again(rt, alloc, spent, &RING_OPENS)
}

/// A wrong override, which the base class then allows.
// growths: 1 to 2100
pub(crate) fn override_is_mended(
    rt: &impl Abort,
    alloc: Global,
    spent: usize,
) -> Result<bool, Fail> {
    is_given_again(rt, alloc, spent, &OVERRIDE_IS_MENDED)
}

/// A method that is no override until the base class gains it.
// growths: 1 to 2000
pub(crate) fn base_gains(rt: &impl Abort, alloc: Global, spent: usize) -> Result<bool, Fail> {
    is_given_again(rt, alloc, spent, &BASE_GAINS)
}

/// A stub that comes beside a file, and goes again.
// growths: 1 to 1750
pub(crate) fn stub_comes(rt: &impl Abort, alloc: Global, spent: usize) -> Result<bool, Fail> {
    is_given_again(rt, alloc, spent, &STUB_COMES)
}

/// The rows.
const ROWS: &[Row] = &[
    RESULT_CHANGES,
    MODULE_COMES,
    CHANGED_BACK,
    RING_OPENS,
    OVERRIDE_IS_MENDED,
    BASE_GAINS,
    STUB_COMES,
];

#[test]
fn rows_without_a_refusal(rt: HostRuntime) -> Result<(), Fail> {
    for row in ROWS {
        assert!(rt; !is_given_again(&rt, rt.alloc(), 0, row)?);
    }
    Ok(())
}
