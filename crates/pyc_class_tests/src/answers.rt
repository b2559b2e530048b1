//! Answers of two worlds, with whether they are one.

use crate::sources::{class_of, world_of};
use pyc_ast::Text;
use pyc_iface::{Key, MemberName};
use pyc_known_answers::is_same;
use pyc_names::{ModuleName, QualifiedName};
use std::alloc::{AllocError, Global};
use std::test::Fail;

/// Whether the answers to each of four keys are one where `m` has these two sources: whether it has `x`, what `x` is,
/// the order of `C`, and what `C` has under `x`.
fn are_same(alloc: Global, source: &str, other: &str) -> Result<Vec<bool>, AllocError> {
    let world = world_of(alloc, &[("m.py", source)])?;
    let changed = world_of(alloc, &[("m.py", other)])?;
    let mut reported = Vec::new(alloc);
    for key in &keys(alloc)? {
        let answer = world.ask(alloc, key)?;
        reported.push(is_same(&answer, &changed.ask(alloc, key)?))?;
    }
    Ok(reported)
}

/// The four keys.
fn keys(alloc: Global) -> Result<Vec<Key>, AllocError> {
    let mut keys = Vec::new(alloc);
    keys.push(Key::HasName(name_in_m(alloc)?))?;
    keys.push(Key::Name(name_in_m(alloc)?))?;
    keys.push(Key::Class(class_of(alloc, "m", "C")?))?;
    let class = class_of(alloc, "m", "C")?;
    let name = Text::new(alloc, "x")?;
    keys.push(Key::Member(MemberName { class, name }))?;
    Ok(keys)
}

/// The name `x` of `m`.
fn name_in_m(alloc: Global) -> Result<QualifiedName, AllocError> {
    Ok(QualifiedName {
        module_path: ModuleName::of_path(alloc, "m.py")?,
        name: Text::new(alloc, "x")?,
    })
}

/// Sources, and which of the four answers stay as they are from the one to the other.
const CHANGES: &[(&str, &str, [bool; 4])] = &[
    (
        "x: int\nclass C: ...\n",
        "x: int\n\nclass C: ...\n",
        [true, true, true, true],
    ),
    ("x: int\n", "x: str\n", [true, false, true, true]),
    (
        "x: list[int]\n",
        "x: list[str]\n",
        [true, false, true, true],
    ),
    (
        "x: int\n",
        "def x() -> int: ...\n",
        [true, false, true, true],
    ),
    ("x: int\n", "y: int\n", [false, false, true, true]),
    (
        "class C: ...\n",
        "class C(int): ...\n",
        [true, true, false, true],
    ),
    (
        "class C: ...\n",
        "class C(C): ...\n",
        [true, true, false, true],
    ),
    (
        "class C: ...\n",
        "class C:\n    def __call__(self): ...\n",
        [true, true, false, true],
    ),
    (
        "class C: ...\n",
        "class C:\n    x: int\n",
        [true, true, true, false],
    ),
    (
        "class C:\n    x: int\n",
        "class C:\n    x: str\n",
        [true, true, true, false],
    ),
    (
        "class C:\n    def x(self): ...\n",
        "class C:\n    @staticmethod\n    def x(self): ...\n",
        [true, true, true, false],
    ),
];

/// Answers are one just where they say one thing.
#[test]
fn answers_are_one(rt: HostRuntime) -> Result<(), Fail> {
    for (source, other, same) in CHANGES {
        assert_eq!(rt;
            are_same(rt.alloc(), source, other)?.as_slice(),
            same.as_slice(),
            "{other}"
        );
    }
    Ok(())
}
