//! Bodies of classes, with their methods.

use crate::sources::module_of;
use pyc_members::{Method, method_kind, methods, self_name};
use std::alloc::Global;
use std::fmt::Write;
use std::test::Fail;

/// The methods of a class with this body, each as its name, its line, its kind, and the name by which it has its
/// instance, `-` where it has none.
fn methods_of(alloc: Global, body: &str) -> Result<String, Fail> {
    let module = module_of(alloc, body)?;
    shown(alloc, &methods(alloc, &module.statements)?)
}

/// These methods, one after another.
fn shown(alloc: Global, methods: &[Method<'_>]) -> Result<String, Fail> {
    let mut shown = String::new(alloc);
    for method in methods {
        let name = method.head.name.as_str();
        let line = method.at.line;
        let kind = method_kind(&method.head.decorators);
        let own = match self_name(method.head) {
            Some(own) => own.as_str(),
            None => "-",
        };
        write!(shown, "{name} {line} {kind:?} {own}; ")?;
    }
    Ok(shown)
}

/// Bodies, with their methods: functions with decorators, functions with parameters of each kind, and functions in
/// blocks and in definitions.
const METHODS: &[(&str, &str)] = &[
    ("def f(self): ...\n", "f 1 Plain self; "),
    ("@property\ndef f(self): ...\n", "f 2 Property self; "),
    ("@x.setter\ndef f(self, v): ...\n", "f 2 Property self; "),
    ("@staticmethod\ndef f(a): ...\n", "f 2 Static -; "),
    ("@classmethod\ndef f(cls): ...\n", "f 2 Class -; "),
    ("@abstractmethod\ndef f(self): ...\n", "f 2 Plain self; "),
    (
        "@abc.abstractmethod\ndef f(self): ...\n",
        "f 2 Plain self; ",
    ),
    ("@known\ndef f(self): ...\n", "f 2 Plain self; "),
    (
        "@known(1)\n@staticmethod\ndef f(a): ...\n",
        "f 3 Static -; ",
    ),
    ("@builtins.property\ndef f(self): ...\n", "f 2 Plain self; "),
    ("def __new__(cls): ...\n", "__new__ 1 Plain cls; "),
    (
        "@classmethod\n@property\ndef f(me): ...\n",
        "f 3 Property me; ",
    ),
    (
        "@staticmethod\n@x.setter\ndef f(me): ...\n",
        "f 3 Property me; ",
    ),
    (
        "@classmethod\n@staticmethod\ndef f(me): ...\n",
        "f 3 Static -; ",
    ),
    (
        "@abstractmethod\n@classmethod\ndef f(me): ...\n",
        "f 3 Class -; ",
    ),
    ("def f(this, that): ...\n", "f 1 Plain this; "),
    ("def f(this: int = 1): ...\n", "f 1 Plain this; "),
    ("async def f(this): ...\n", "f 1 Plain this; "),
    ("def f(): ...\n", "f 1 Plain -; "),
    ("def f(*this): ...\n", "f 1 Plain -; "),
    ("def f(*, this): ...\n", "f 1 Plain -; "),
    ("def f(**this): ...\n", "f 1 Plain -; "),
    (
        "if x:\n    def f(a):\n        def g(b): ...\nelse:\n    for y in x:\n        def f(c): ...\n\
         class C:\n    def h(d): ...\nk = lambda e: e\ntry:\n    pass\nfinally:\n    def l(f): ...\n",
        "f 2 Plain a; f 6 Plain c; l 13 Plain f; ",
    ),
];

/// Of several decorators property decides before static, and static before class. The first parameter is the instance
/// only where an argument at its place fills it. Methods stand in blocks and in no definition.
#[test]
fn methods_of_bodies(rt: HostRuntime) -> Result<(), Fail> {
    for (body, want) in METHODS {
        assert_eq!(rt; methods_of(rt.alloc(), body)?.as_str(), *want, "{body}");
    }
    Ok(())
}
