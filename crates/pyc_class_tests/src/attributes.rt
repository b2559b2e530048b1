//! Bodies of classes, with the attributes that their methods give instances.

use crate::sources::module_of;
use pyc_members::{AttributeForm, SelfAttribute, self_attributes};
use std::alloc::Global;
use std::fmt::Write;
use std::test::Fail;

/// A word for what gives an attribute its type.
fn word(form: &AttributeForm) -> &'static str {
    match form {
        AttributeForm::Annotated(_) => "annotated",
        AttributeForm::Assigned(_) => "assigned",
        AttributeForm::Other => "other",
    }
}

/// The attributes that the methods of a class with this body give its instances, each as its name, its line and column,
/// what gives it its type, and the method.
fn attributes_of(alloc: Global, body: &str) -> Result<String, Fail> {
    let module = module_of(alloc, body)?;
    shown(alloc, &self_attributes(alloc, &module.statements)?)
}

/// These attributes, one after another.
fn shown(alloc: Global, attributes: &[SelfAttribute]) -> Result<String, Fail> {
    let mut shown = String::new(alloc);
    for found in attributes {
        let name = found.name.as_str();
        let line = found.at.line;
        let column = found.at.column;
        let method = found.method.name.as_str();
        write!(
            shown,
            "{name} {line}:{column} {} {method}; ",
            word(&found.form)
        )?;
    }
    Ok(shown)
}

/// Bodies, with the attributes that they give.
const ATTRIBUTES: &[(&str, &str)] = &[
    (
        "def f(self, p: int):\n    self.b = p\n    self.a: int = 1\n    self.b: str\n\
         @property\ndef g(me):\n    if me:\n        me.c = self.d = 1\n\
         async def h(this):\n    this.b = None\n",
        "b 2:5 assigned f; a 3:5 annotated f; b 4:5 annotated f; c 8:9 assigned g; b 10:5 assigned h; ",
    ),
    (
        "def f(self):\n    self.a = self.b = 1\n",
        "a 2:5 assigned f; b 2:14 assigned f; ",
    ),
    (
        "def f(self):\n    (self.a) = (self).b = 1\n",
        "a 2:5 assigned f; b 2:16 assigned f; ",
    ),
    (
        "def f(self):\n    self.a, [x, *self.b] = y\n",
        "a 2:5 other f; b 2:18 other f; ",
    ),
    (
        "def f(self):\n    (self.a, self.b) = self.c = 1, 2\n",
        "a 2:6 other f; b 2:14 other f; c 2:24 assigned f; ",
    ),
    (
        "def f(self):\n    for self.a, self.b in y: self.c = 1\n",
        "a 2:9 other f; b 2:17 other f; c 2:30 assigned f; ",
    ),
    (
        "def f(self):\n    with x as self.a, y as (self.b): ...\n",
        "a 2:15 other f; b 2:28 other f; ",
    ),
    ("def f(self):\n    self.a += 1\n", ""),
    ("@classmethod\ndef f(self):\n    self.a = 1\n", ""),
];

/// Attributes are reported in text order. One that is a target by itself keeps the value of the assignment, any other
/// does not.
#[test]
fn attributes_in_text_order(rt: HostRuntime) -> Result<(), Fail> {
    for (body, want) in ATTRIBUTES {
        assert_eq!(rt; attributes_of(rt.alloc(), body)?.as_str(), *want, "{body}");
    }
    Ok(())
}
