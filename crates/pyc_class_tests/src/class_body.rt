//! Bodies of classes, with what decides of a name in them.

use crate::sources::module_of;
use pyc_ast::Text;
use pyc_members::{ClassBody, OwnMember};
use std::alloc::Global;
use std::fmt::Write;
use std::test::Fail;

/// What the class statement with this body binds.
fn body_of(alloc: Global, body: &str) -> Result<ClassBody, Fail> {
    let module = module_of(alloc, body)?;
    Ok(ClassBody::read(alloc, &module.statements)?)
}

/// Writes what decides of a name: a word for it, and its line.
fn write_member(found: Option<OwnMember<'_>>, shown: &mut String) -> Result<(), Fail> {
    let (word, line) = match found {
        Some(OwnMember::Bound(binding)) => ("bound", binding.place.at.line),
        Some(OwnMember::Annotated(attribute)) => ("annotated", attribute.at.line),
        Some(OwnMember::Assigned(attribute)) => ("assigned", attribute.at.line),
        None => ("none", 0),
    };
    write!(shown, "{word} {line}; ")?;
    Ok(())
}

/// What decides of a name in a body, what of those bound or annotated does, and what of those assigned does.
fn write_decided(body: &ClassBody, name: &Text, shown: &mut String) -> Result<(), Fail> {
    write_member(body.own_member(name), shown)?;
    write_member(body.in_body_or_annotated(name), shown)?;
    write_member(body.assigned_through_self(name), shown)?;
    shown.push_str(if body.is_settable(name) {
        "settable"
    } else {
        ""
    })?;
    Ok(())
}

/// What decides of a name in a body, by all, by what declares it and by what assigns it, and whether it is a settable
/// property there.
fn shown(alloc: Global, body: &ClassBody, name: &str) -> Result<String, Fail> {
    let name = Text::new(alloc, name)?;
    let mut shown = String::new(alloc);
    write_decided(body, &name, &mut shown)?;
    Ok(shown)
}

/// Shows what decides of `name` in the class statement with this body, and whether it is a settable property there.
fn decided(alloc: Global, body: &str, name: &str) -> Result<String, Fail> {
    let body = body_of(alloc, body)?;
    shown(alloc, &body, name)
}

/// How many names the class statement with this body binds, and how many attributes it gives its instances.
fn counts(alloc: Global, body: &str) -> Result<(usize, usize), Fail> {
    let body = body_of(alloc, body)?;
    Ok((body.bindings.len(), body.attributes.len()))
}

/// Names that are bound in the body, annotated through the instance, assigned through it, and more than one of these.
const BODY: &str = "def f(self):
    self.a = 1
    self.b = 1
    self.b: int
    self.c = 1
    self.x: int
def g(self):
    self.a = 2
    self.b: str
    self.c: int
    self.f: int
x = 1
x: str
from m import y
@property
def p(self): ...
@q.setter
def p(self, v): ...
@property
def q(self): ...
@p.setter
class q: ...
@p.setter
def r(self, v): ...
";

/// Names, with what decides of each, what of those bound or annotated does, what of those assigned does, and which is a
/// settable property.
const DECIDED: &[(&str, &str)] = &[
    ("a", "assigned 2; none 0; assigned 2; "),
    ("b", "annotated 4; annotated 4; assigned 3; "),
    ("c", "annotated 10; annotated 10; assigned 5; "),
    ("x", "bound 12; bound 12; none 0; "),
    ("y", "bound 14; bound 14; none 0; "),
    ("f", "bound 1; bound 1; none 0; "),
    ("self", "none 0; none 0; none 0; "),
    ("p", "bound 16; bound 16; none 0; settable"),
    ("q", "bound 20; bound 20; none 0; "),
    ("r", "bound 24; bound 24; none 0; settable"),
];

#[test]
fn what_decides_of_a_name(rt: HostRuntime) -> Result<(), Fail> {
    for (name, want) in DECIDED {
        assert_eq!(rt; decided(rt.alloc(), BODY, name)?.as_str(), *want, "{name}");
    }
    Ok(())
}

#[test]
fn names_bound_and_attributes_given(rt: HostRuntime) -> Result<(), Fail> {
    let found = counts(rt.alloc(), BODY)?;
    assert!(rt; found == (10, 9));
    Ok(())
}
