//! Scopes, with their bindings.

use crate::sources::tree_of;
use pyc_ast::Text;
use pyc_bindings::{Binding, BindingForm, scope_bindings};
use std::alloc::Global;
use std::fmt::Write;
use std::test::Fail;

/// Writes the parts of a module's name with dots between them.
fn write_path(path: &[Text], shown: &mut String) -> Result<(), Fail> {
    let mut is_first = true;
    for part in path {
        if !is_first {
            shown.push_str(".")?;
        }
        is_first = false;
        shown.push_str(part.as_str())?;
    }
    Ok(())
}

/// Writes what a name is bound to: a module, a name of a module after `:`, or a word for it.
fn write_form(form: &BindingForm, shown: &mut String) -> Result<(), Fail> {
    match form {
        BindingForm::Import(found) => write_path(&found.path, shown)?,
        BindingForm::ImportFirst(first) => shown.push_str(first.as_str())?,
        BindingForm::ImportFrom(from, name) => {
            write!(shown, "{}", from.dots)?;
            write_path(&from.path, shown)?;
            write!(shown, ":{}", name.as_str())?;
        }
        BindingForm::Function(_) => shown.push_str("function")?,
        BindingForm::Class(_) => shown.push_str("class")?,
        BindingForm::Annotated(_) => shown.push_str("annotated")?,
        BindingForm::Assigned(_) => shown.push_str("assigned")?,
        BindingForm::Other => shown.push_str("other")?,
    }
    Ok(())
}

/// Writes a binding: its name, its line with `?` inside an `if` or a `try`, and what it is bound to.
fn write_binding(binding: &Binding, shown: &mut String) -> Result<(), Fail> {
    let line = binding.place.at.line;
    let guard = if binding.place.is_guarded { "?" } else { "" };
    write!(shown, "{} {line}{guard} ", binding.name.as_str())?;
    write_form(&binding.form, shown)?;
    shown.push_str("; ")?;
    Ok(())
}

/// These bindings, one after another.
fn shown(alloc: Global, bindings: &[Binding]) -> Result<String, Fail> {
    let mut shown = String::new(alloc);
    for binding in bindings {
        write_binding(binding, &mut shown)?;
    }
    Ok(shown)
}

/// The bindings of the top level of a source.
fn bindings_of(alloc: Global, source: &str) -> Result<String, Fail> {
    let module = tree_of(alloc, source)?;
    shown(alloc, &scope_bindings(alloc, &module.statements)?)
}

/// Imports, assignments, deletions, definitions and compound statements, with what they bind.
const SCOPES: &[(&str, &str)] = &[
    ("import a.b, c\n", "a 1 a; c 1 c; "),
    ("import a.b as c\n", "c 1 a.b; "),
    ("from a.b import c as d, e\n", "d 1 0a.b:c; e 1 0a.b:e; "),
    ("from .. import m\n", "m 1 2:m; "),
    ("from .x import m\n", "m 1 1x:m; "),
    ("x = (y) = 1\n", "x 1 assigned; y 1 assigned; "),
    (
        "a, (b, *c) = d = 1\n",
        "a 1 other; b 1 other; c 1 other; d 1 assigned; ",
    ),
    ("x: int\n(y): int = 1\n", "x 1 annotated; y 2 annotated; "),
    ("x.y = 1\nx[0] = 2\nx.y: int = 3\n", ""),
    ("x += 1\ndel y, (z)\n", "x 1 other; y 2 other; z 2 other; "),
    ("x\npass\nglobal g\n", ""),
    (
        "@x\ndef f(a):\n    b = 1\nclass C(D):\n    e = 1\n",
        "f 2 function; C 4 class; ",
    ),
    (
        "for i, j in x:\n    k = 1\nelse:\n    l = 2\n",
        "i 1 other; j 1 other; k 2 assigned; l 4 assigned; ",
    ),
    (
        "with x as a, y as (b, c):\n    d = 1\n",
        "a 1 other; b 1 other; c 1 other; d 2 assigned; ",
    ),
    (
        "try:\n    a = 1\nexcept E as e:\n    b = 1\nelse: c = 1\nfinally: d = 1\n",
        "a 2? assigned; e 3? other; b 4? assigned; c 5? assigned; d 6? assigned; ",
    ),
    (
        "while x:\n    a = 1\nif x: b = 1\nelif y:\n    while y: c = 1\nelse: d = 1\n",
        "a 2 assigned; b 3? assigned; c 5? assigned; d 6? assigned; ",
    ),
];

#[test]
fn scopes_bind(rt: HostRuntime) -> Result<(), Fail> {
    for (source, want) in SCOPES {
        assert_eq!(rt; bindings_of(rt.alloc(), source)?.as_str(), *want);
    }
    Ok(())
}
