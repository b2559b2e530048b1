//! Modules, with the classes that they declare.

use crate::sources::module_of;
use pyc_ast::Stmt;
use pyc_bindings::scope_bindings;
use pyc_members::{DeclaredClass, declared_classes};
use std::alloc::{AllocError, Global};
use std::fmt::Write;
use std::rc::Rc;
use std::test::Fail;

/// The classes that the statements of a module declare.
fn classes_in(alloc: Global, statements: &[Stmt]) -> Result<Vec<Rc<DeclaredClass>>, AllocError> {
    declared_classes(alloc, statements, &scope_bindings(alloc, statements)?)
}

/// The classes that a source declares, each as its name, its line, and how many names its body binds.
fn classes_of(alloc: Global, source: &str) -> Result<String, Fail> {
    let module = module_of(alloc, source)?;
    shown(alloc, &classes_in(alloc, &module.statements)?)
}

/// These classes, one after another.
fn shown(alloc: Global, classes: &[Rc<DeclaredClass>]) -> Result<String, Fail> {
    let mut shown = String::new(alloc);
    for class in classes {
        let name = class.name.as_str();
        let line = class.at.line;
        let bound = class.body.bindings.len();
        write!(shown, "{name} {line} {bound}; ")?;
    }
    Ok(shown)
}

/// Sources, with the classes that they declare.
const DECLARED: &[(&str, &str)] = &[
    (
        "class B(A):\n    x = 1\n    class C: ...\nclass A: ...\nif x:\n    @known\n    class D:\n        y: int\n\
         else:\n    for z in x:\n        class E: pass\ndef f():\n    class F: ...\nx = lambda: 1\n",
        "B 1 2; A 4 0; D 7 1; E 11 0; ",
    ),
    ("class A: x = 1\nclass A: ...\n", "A 1 1; "),
    ("A = 1\nclass A: ...\n", ""),
    ("import A.b\nclass A: ...\n", ""),
    ("from m import b as A\nclass A: ...\n", ""),
    ("def A(): ...\nclass A: ...\n", ""),
    ("for A in x:\n    class A: ...\n", ""),
    (
        "if x:\n    class A: ...\nelse:\n    class A: ...\n",
        "A 2 0; ",
    ),
    ("class A: ...\nA = 1\n", "A 1 0; "),
    ("def f():\n    A = 1\nclass A: ...\n", "A 3 0; "),
];

/// Classes are reported in text order. A class statement declares a class only where it is the first that binds its
/// name.
#[test]
fn classes_that_are_declared(rt: HostRuntime) -> Result<(), Fail> {
    for (source, want) in DECLARED {
        assert_eq!(rt; classes_of(rt.alloc(), source)?.as_str(), *want, "{source}");
    }
    Ok(())
}
