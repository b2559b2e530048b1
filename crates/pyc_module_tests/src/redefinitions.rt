//! Decorators, the declarations of names, and names that are defined again.

use crate::sources::{file_of, tree_of};
use pyc_ast::{Expr, Stmt, StmtForm, Text};
use pyc_bindings::{
    Binding, Decorator, Redefinition, declaration, decorator_of, has_other, has_setter,
    is_decorated, redefinitions,
};
use std::alloc::{AllocError, Global};
use std::fmt::Write;
use std::test::Fail;

/// The decorators of the first statement, where it is a function.
fn decorators(statements: &[Stmt]) -> &[Expr] {
    match statements.first() {
        Some(
            Stmt {
                form: StmtForm::Function { head, .. },
                ..
            },
        ) => &head.decorators,
        _ => &[],
    }
}

/// What the first of some decorators is; whether one is an unknown one, and whether one makes a setter.
fn marks(found: &[Expr]) -> (Option<Decorator>, (bool, bool)) {
    let first = match found.first() {
        Some(first) => Some(decorator_of(first)),
        None => None,
    };
    (first, (has_other(found), has_setter(found)))
}

/// Of the decorators of the function that `source` begins with: what the first is, whether one is an unknown one, and
/// whether one makes a setter.
fn decorated(alloc: Global, source: &str) -> Result<(Option<Decorator>, (bool, bool)), Fail> {
    Ok(marks(decorators(&tree_of(alloc, source)?.statements)))
}

/// Functions: what the first of their decorators is; whether one is an unknown one, and whether one makes a setter.
const DECORATED: &[(&str, Option<Decorator>, (bool, bool))] = &[
    (
        "@property\ndef f(): ...\n",
        Some(Decorator::Property),
        (false, false),
    ),
    (
        "@x.setter\ndef f(): ...\n",
        Some(Decorator::Setter),
        (false, true),
    ),
    (
        "@staticmethod\ndef f(): ...\n",
        Some(Decorator::StaticMethod),
        (false, false),
    ),
    (
        "@classmethod\ndef f(): ...\n",
        Some(Decorator::ClassMethod),
        (false, false),
    ),
    (
        "@abstractmethod\ndef f(): ...\n",
        Some(Decorator::AbstractMethod),
        (false, false),
    ),
    (
        "@abc.abstractmethod\ndef f(): ...\n",
        Some(Decorator::AbstractMethod),
        (false, false),
    ),
    (
        "@x.abstractmethod\ndef f(): ...\n",
        Some(Decorator::Other),
        (true, false),
    ),
    (
        "@x.y.setter\ndef f(): ...\n",
        Some(Decorator::Other),
        (true, false),
    ),
    (
        "@setter\ndef f(): ...\n",
        Some(Decorator::Other),
        (true, false),
    ),
    (
        "@overload\ndef f(): ...\n",
        Some(Decorator::Other),
        (true, false),
    ),
    (
        "@property()\ndef f(): ...\n",
        Some(Decorator::Other),
        (true, false),
    ),
    ("def f(): ...\n", None, (false, false)),
    (
        "@property\n@abstractmethod\ndef f(): ...\n",
        Some(Decorator::Property),
        (false, false),
    ),
    (
        "@x.setter\n@abstractmethod\ndef f(): ...\n",
        Some(Decorator::Setter),
        (false, true),
    ),
    (
        "@property\n@known\ndef f(): ...\n",
        Some(Decorator::Property),
        (true, false),
    ),
    (
        "@known\n@x.setter\ndef f(): ...\n",
        Some(Decorator::Other),
        (true, true),
    ),
];

#[test]
fn decorators_by_their_spelling(rt: HostRuntime) -> Result<(), Fail> {
    for (source, first, marks) in DECORATED {
        let found = decorated(rt.alloc(), source)?;
        assert!(rt; found == (*first, *marks), "{source}");
    }
    Ok(())
}

/// A source that declares names.
const DECLARING: &[u8] =
    b"if y:\n    x = 1\nx: int = 2\n@known\ndef f(): ...\nfrom m import f as g\n";

/// The line of a name's declaration among these bindings, and whether it stands under an unknown decorator.
fn declared_in(bindings: &[Binding], name: &Text) -> (u32, bool) {
    match declaration(bindings, name) {
        Some(found) => (found.place.at.line, is_decorated(&found.form)),
        None => (0, false),
    }
}

/// The line of a name's declaration in that source, and whether it stands under an unknown decorator.
fn declared(alloc: Global, name: &str) -> Result<(u32, bool), AllocError> {
    let file = file_of(alloc, "a.py", DECLARING)?;
    Ok(declared_in(file.bindings(), &Text::new(alloc, name)?))
}

/// Names, each with the line of its declaration, 0 where there is none, and whether it stands under an unknown
/// decorator.
const DECLARED: &[(&str, (u32, bool))] = &[
    ("x", (2, false)),
    ("f", (5, true)),
    ("g", (6, false)),
    ("y", (0, false)),
    ("m", (0, false)),
];

#[test]
fn first_bindings_declare(rt: HostRuntime) -> Result<(), Fail> {
    for (name, want) in DECLARED {
        assert!(rt; declared(rt.alloc(), name)? == *want, "{name}");
    }
    Ok(())
}

/// These names, one after another.
fn shown(alloc: Global, names: &[Redefinition]) -> Result<String, Fail> {
    let mut shown = String::new(alloc);
    for found in names {
        let line = found.at.line;
        let first = found.line;
        write!(shown, "{line} {} {first}; ", found.name.as_str())?;
    }
    Ok(shown)
}

/// The names that these bindings define again: each with its line, and the line of its declaration.
fn again_in(alloc: Global, bindings: &[Binding]) -> Result<String, Fail> {
    shown(alloc, &redefinitions(alloc, bindings)?)
}

/// The names that a source defines again.
fn defined_again(alloc: Global, source: &str) -> Result<String, Fail> {
    let file = file_of(alloc, "a.py", source.as_bytes())?;
    again_in(alloc, file.bindings())
}

/// Sources, with the names that they define again.
const DEFINED_AGAIN: &[(&str, &str)] = &[
    ("x: int = 1\nx: int = 2\n", "2 x 1; "),
    ("x = 1\nx: int = 2\nx: int = 3\n", "2 x 1; 3 x 1; "),
    ("def f(): ...\ndef f(): ...\n", "2 f 1; "),
    ("import f\nclass f: ...\n", "2 f 1; "),
    ("for i in x:\n    i: int = 1\n", "2 i 1; "),
    ("if y:\n    x = 1\nx: int = 2\n", "3 x 2; "),
    (
        "x: int = 1\nx = 2\nx += 1\nimport x\nfrom m import x\ndel x\n",
        "",
    ),
    (
        "x: int = 1\nif y:\n    x: int = 2\nelse:\n    def x(): ...\n",
        "",
    ),
    (
        "x: int = 1\ntry:\n    class x: ...\nfinally:\n    x: str = 2\n",
        "",
    ),
    ("@overload\ndef f(): ...\ndef f(): ...\n", ""),
    ("def f(): ...\n@known\ndef f(): ...\n", ""),
    ("@known\nclass C: ...\nclass C: ...\n", ""),
    ("@property\ndef f(): ...\n@f.setter\ndef f(x): ...\n", ""),
    (
        "x: int\ndef f():\n    x: int = 1\nclass C:\n    x: int = 1\n",
        "",
    ),
];

#[test]
fn names_defined_again(rt: HostRuntime) -> Result<(), Fail> {
    for (source, want) in DEFINED_AGAIN {
        assert_eq!(rt;
            defined_again(rt.alloc(), source)?.as_str(),
            *want,
            "{source}"
        );
    }
    Ok(())
}
