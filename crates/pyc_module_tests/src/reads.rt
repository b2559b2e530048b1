//! Sources with the reads of one of their units.

use crate::sources::file_of;
use pyc_ast::Text;
use pyc_body::{Checker, Meter, numbered_units};
use pyc_iface::{Key, Options, PlainWorld};
use pyc_keys::ReadSet;
use pyc_known_answers::World;
use pyc_names::QualifiedName;
use std::alloc::{AllocError, Global};
use std::rc::Rc;
use std::slice;
use std::test::Fail;

/// What each file of the tests is looked at with.
const OPTIONS: Options = Options {
    ignore_missing: false,
    check_untyped: false,
    turns: 1_000_000,
};

/// Sources of `a.py`, each with the number of a unit and the keys that are asked there, in turn.
const READS: &[(&[u8], usize, &str)] = &[
    (b"from b import x\n", 0, "has b x; has a x; "),
    (b"import b\nimport b\n", 0, "module b; "),
    (b"import typing\n", 0, ""),
    (b"x = = 1\n", 0, ""),
    (b"def f(): ...\nf\nf\n", 1, "name a f; "),
    (b"class A: ...\n", 2, "class A; "),
    (
        b"def f(): ...\nfrom a import f\n",
        0,
        "has a f; export a f; ",
    ),
    (b"import a\na.a\n", 1, "name a a; export a a; "),
    (b"import a\na.x\n", 1, "name a a; name a x; "),
    (
        b"def f() -> None:\n    from a import f\n",
        2,
        "has a f; export a f; name a f; ",
    ),
    (
        b"def f() -> None:\n    from a import x\n",
        2,
        "has a x; name a x; ",
    ),
    (
        b"class A: ...\nclass B(A):\n    x = 1\n    __init__ = 1\n",
        3,
        "name a A; class A; class B; member B x; member B __init__; member A x; ",
    ),
];

/// Writes names with a space before each.
fn push_names(names: &[Text], shown: &mut String) -> Result<(), AllocError> {
    for name in names {
        shown.push_str(" ")?;
        shown.push_str(name.as_str())?;
    }
    Ok(())
}

/// Writes a name of a module.
fn push_qualified(name: &QualifiedName, shown: &mut String) -> Result<(), AllocError> {
    push_names(name.module_path.parts(), shown)?;
    push_names(slice::from_ref(&name.name), shown)
}

/// Writes a key: what is asked, and of which names.
fn push_key(key: &Key, shown: &mut String) -> Result<(), AllocError> {
    match key {
        Key::HasModule(module_path) => {
            shown.push_str("module")?;
            push_names(module_path.parts(), shown)
        }
        Key::HasName(name) => {
            shown.push_str("has")?;
            push_qualified(name, shown)
        }
        Key::Name(name) => {
            shown.push_str("name")?;
            push_qualified(name, shown)
        }
        Key::Class(class) => {
            shown.push_str("class ")?;
            shown.push_str(class.name())
        }
        Key::Member(member) => {
            shown.push_str("member ")?;
            shown.push_str(member.class.name())?;
            push_names(slice::from_ref(&member.name), shown)
        }
        Key::Export(name) => {
            shown.push_str("export")?;
            push_qualified(name, shown)
        }
    }
}

/// The reads of a unit of the only file there is.
fn reads_shown(alloc: Global, source: &[u8], number: usize) -> Result<String, Fail> {
    let file = Rc::new(alloc, file_of(alloc, "a.py", source)?)?;
    let world = PlainWorld::build(alloc, slice::from_ref(file.shared_interface()))?;
    let checker = Checker::new(alloc, OPTIONS);
    let mut meter = Meter::new(alloc);
    let mut keys = World::new(alloc, Rc::new(alloc, world)?);
    let units = numbered_units(alloc, &file)?;
    let mut shown = String::new(alloc);
    if let Some(unit) = units.get(number) {
        let checked = checker.check_unit(&mut meter, &mut keys, unit)?;
        for id in checked.reads() {
            push_key(keys.keys().key(*id), &mut shown)?;
            shown.push_str("; ")?;
        }
    }
    Ok(shown)
}

#[test]
fn units_have_their_reads(rt: HostRuntime) -> Result<(), Fail> {
    for (source, number, want) in READS {
        let shown = reads_shown(rt.alloc(), source, *number)?;
        assert_eq!(rt; shown.as_str(), *want);
    }
    Ok(())
}
