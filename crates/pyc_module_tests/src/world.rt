//! Keys, with what the files of a workspace answer; the types of literals.

use crate::sources::{file_of, interfaces_of, module_of, name_of};
use pyc_ast::{Outcome, Stmt, StmtForm};
use pyc_iface::{Answer, Export, Key, NameAnswer, NameKind, PlainWorld, Presence, literal_type};
use pyc_types::{Builtin, show};
use std::alloc::{AllocError, Global};
use std::test::Fail;

/// What the world of these files answers to a key.
fn answer(alloc: Global, sources: &[(&str, &str)], key: &Key) -> Result<Answer, AllocError> {
    let world = PlainWorld::build(alloc, &interfaces_of(alloc, sources)?)?;
    world.ask(alloc, key)
}

/// Whether this is the answer that a module or a name is there, or why it is not.
fn is_presence(found: &Answer, want: Presence) -> bool {
    match found {
        Answer::Presence(found) => *found == want,
        _ => false,
    }
}

/// The key on whether a module is there, or a name of it, where one is given.
fn presence_key(alloc: Global, module_path: &str, name: &str) -> Result<Key, AllocError> {
    if name.is_empty() {
        Ok(Key::HasModule(module_of(alloc, module_path)?))
    } else {
        Ok(Key::HasName(name_of(alloc, module_path, name)?))
    }
}

/// Whether this is what these files answer to the key on whether a module or its name is there.
fn is_answered(
    alloc: Global,
    sources: &[(&str, &str)],
    module_path: &str,
    name: &str,
    want: Presence,
) -> Result<bool, AllocError> {
    let key = presence_key(alloc, module_path, name)?;
    Ok(is_presence(&answer(alloc, sources, &key)?, want))
}

/// A package without `__init__.py`, a file with a fault, and a ring that a third file leads into.
const FILES: &[(&str, &str)] = &[
    ("p/q.py", "x: int = 1\n"),
    ("broken.py", "x: int = 1\ndef (\n"),
    (
        "a.py",
        "from b import y\nfrom p.q import x, z\nimport gone\n",
    ),
    ("b.py", "from a import y\n"),
    ("c.py", "from a import y\n"),
];

/// A file in the place of a fixed module, which is never asked.
const OF_TYPING: &[(&str, &str)] = &[("typing.py", "def (\n")];

/// Modules, or names of modules, with whether they are there.
const ASKED: &[(&[(&str, &str)], &str, &str, Presence)] = &[
    (FILES, "a", "", Presence::There),
    (FILES, "p", "", Presence::There),
    (FILES, "p.q", "", Presence::There),
    (FILES, "p.q.x", "", Presence::NoModule),
    (FILES, "broken", "", Presence::Opaque),
    (FILES, "gone", "", Presence::NoModule),
    (FILES, "typing", "", Presence::There),
    (FILES, "p.q", "x", Presence::There),
    (FILES, "p.q", "z", Presence::NoName),
    (FILES, "p", "q", Presence::There),
    (FILES, "p", "r", Presence::NoName),
    (FILES, "a", "x", Presence::There),
    (FILES, "a", "z", Presence::There),
    (FILES, "a", "gone", Presence::There),
    (FILES, "a", "y", Presence::Cycle),
    (FILES, "b", "y", Presence::Cycle),
    (FILES, "c", "y", Presence::There),
    (FILES, "broken", "z", Presence::Opaque),
    (FILES, "gone", "x", Presence::NoModule),
    (FILES, "typing", "anything", Presence::There),
    (OF_TYPING, "typing", "", Presence::There),
    (OF_TYPING, "typing", "own", Presence::There),
];

#[test]
fn modules_and_names_are_asked_for(rt: HostRuntime) -> Result<(), Fail> {
    for (sources, module_path, name, want) in ASKED {
        let is_answered = is_answered(rt.alloc(), sources, module_path, name, *want)?;
        assert!(rt; is_answered, "{module_path}:{name}");
    }
    Ok(())
}

/// A stub that is a package, with imports that it hides and imports that it passes on, and its submodule.
const STUBS: &[(&str, &str)] = &[
    (
        "s/__init__.pyi",
        "from c import u, v as v, w as x, m\nimport c\nimport c as c\nimport d as d\nimport d.e as e\nk: int\n",
    ),
    ("s/m.py", ""),
    ("c.py", "from d import f\nu: int = 1\nv: int = 2\n"),
    ("d/e.py", ""),
    ("broken.pyi", "import c\ndef (\n"),
];

/// A stub in the place of a fixed module, which hides nothing.
const STUB_OF_TYPING: &[(&str, &str)] = &[("typing.pyi", "import c\n")];

/// Names of modules, with whether their modules pass them on.
const EXPORTS: &[(&[(&str, &str)], &str, &str, Export)] = &[
    (STUBS, "s", "u", Export::Hidden),
    (STUBS, "s", "v", Export::Open),
    (STUBS, "s", "x", Export::Hidden),
    (STUBS, "s", "m", Export::Submodule),
    (STUBS, "s", "c", Export::Hidden),
    (STUBS, "s", "d", Export::Open),
    (STUBS, "s", "e", Export::Hidden),
    (STUBS, "s", "k", Export::Open),
    (STUBS, "s", "gone", Export::Open),
    (STUBS, "c", "f", Export::Open),
    (STUBS, "d", "e", Export::Open),
    (STUBS, "gone", "k", Export::Open),
    (STUBS, "", "s", Export::Open),
    (STUBS, "broken", "c", Export::Open),
    (STUB_OF_TYPING, "typing", "c", Export::Open),
];

#[test]
fn modules_pass_names_on(rt: HostRuntime) -> Result<(), Fail> {
    for (sources, module_path, name, want) in EXPORTS {
        let key = Key::Export(name_of(rt.alloc(), module_path, name)?);
        let found = answer(rt.alloc(), sources, &key)?;
        let is_answered = matches!(found, Answer::Export(found) if found == *want);
        assert!(rt; is_answered, "{module_path}:{name}");
    }
    Ok(())
}

/// A word for the kind of thing that a name stands for.
fn word(kind: &NameKind) -> &str {
    match kind {
        NameKind::Module(_) => "module",
        NameKind::Fixed(_) => "fixed",
        NameKind::AnnotatedVariable => "annotated",
        NameKind::Variable => "variable",
        NameKind::Alias => "alias",
        NameKind::Function => "function",
        NameKind::Class => "class",
        NameKind::Unknown => "unknown",
        NameKind::Opaque => "opaque",
        NameKind::NoModule => "no module",
        NameKind::NoName => "no name",
        NameKind::NoTarget => "no target",
        NameKind::Cycle => "cycle",
    }
}

/// The kind of thing that a name stands for, and its type.
fn shown(alloc: Global, found: &NameAnswer) -> Result<String, AllocError> {
    let word = word(&found.kind);
    let ty = show(alloc, &found.ty)?;
    format!(in alloc; "{word}: {ty}")
}

/// What is reported of a name in an answer.
fn name_in(alloc: Global, found: &Answer) -> Result<String, Fail> {
    match found {
        Answer::Name(found) => Ok(shown(alloc, found)?),
        _ => Err("no name".into()),
    }
}

/// What a name of a module is in the world of these files.
fn name_shown(
    alloc: Global,
    sources: &[(&str, &str)],
    module_path: &str,
    name: &str,
) -> Result<String, Fail> {
    let key = Key::Name(name_of(alloc, module_path, name)?);
    name_in(alloc, &answer(alloc, sources, &key)?)
}

/// Declarations of each form; of what stands under `@known` nothing is known.
const DECLARED: &[(&str, &str)] = &[(
    "d.py",
    "i: int = 1\nl: list = []\ns = 's'\nn = None\nt, u = 1, 2\ndef f(): ...\nclass C: ...\n\
     @known\ndef g(): ...\n@known\nclass D: ...\n\
     def h(a: int, b: 'C' = 1) -> C | None: ...\ndef k(*, key: int): ...\nasync def w(a: int): ...\n\
     from typing import Literal, Callable\nA: Literal = 1\nv: A\nc: Callable[[C], dict[str, C]]\n\
     o: type[C]\nb: f\n",
)];

/// Imports of a declaration, a submodule, a name of a fixed module, and of what is not there.
const IMPORTS: &[(&str, &str)] = &[
    ("p/d.py", "i: int = 1\n"),
    ("a.py", "from p.d import i, j\nfrom p import d\nimport p\n"),
    (
        "b.py",
        "from typing import Optional as O, overload as o\nfrom a import i\n",
    ),
    (
        "c.py",
        "from gone import x\nfrom c import y\nfrom broken import z\n",
    ),
    ("broken.py", "z: int = 1\ndef (\n"),
];

/// Names of the modules of these files, with what they are.
const DECLARED_NAMES: &[(&[(&str, &str)], &str, &str, &str)] = &[
    (DECLARED, "d", "i", "annotated: int"),
    (DECLARED, "d", "l", "annotated: list[Any]"),
    (DECLARED, "d", "s", "variable: str"),
    (DECLARED, "d", "n", "variable: Any"),
    (DECLARED, "d", "t", "variable: Any"),
    (DECLARED, "d", "f", "function: Callable[[], Any]"),
    (DECLARED, "d", "C", "class: type[C]"),
    (DECLARED, "d", "h", "function: Callable[[int, C], C | None]"),
    (DECLARED, "d", "k", "function: Callable[..., Any]"),
    (DECLARED, "d", "w", "function: Any"),
    (DECLARED, "d", "A", "alias: Any"),
    (DECLARED, "d", "v", "annotated: Any"),
    (DECLARED, "d", "c", "annotated: Callable[[C], dict[str, C]]"),
    (DECLARED, "d", "o", "annotated: type[C]"),
    (DECLARED, "d", "b", "annotated: Any"),
    (DECLARED, "d", "g", "unknown: Any"),
    (DECLARED, "d", "D", "unknown: Any"),
    (DECLARED, "d", "gone", "no name: Any"),
    (IMPORTS, "a", "i", "annotated: int"),
    (IMPORTS, "b", "i", "annotated: int"),
    (IMPORTS, "a", "j", "no target: Any"),
    (IMPORTS, "a", "d", "module: Module"),
    (IMPORTS, "a", "p", "module: Module"),
    (IMPORTS, "b", "O", "fixed: Any"),
    (IMPORTS, "b", "o", "unknown: Any"),
    (IMPORTS, "c", "x", "no module: Any"),
    (IMPORTS, "c", "y", "cycle: Any"),
    (IMPORTS, "c", "z", "unknown: Any"),
    (IMPORTS, "broken", "z", "opaque: Any"),
    (OF_TYPING, "typing", "Union", "fixed: Any"),
];

#[test]
fn names_are_declared(rt: HostRuntime) -> Result<(), Fail> {
    for (sources, module_path, name, want) in DECLARED_NAMES {
        assert_eq!(rt;
            name_shown(rt.alloc(), sources, module_path, name)?.as_str(),
            *want,
            "{module_path}:{name}"
        );
    }
    Ok(())
}

/// The type of the value of a statement, where it annotates a name and has a value that is one literal.
fn type_at(statement: &Stmt) -> Option<Builtin> {
    let StmtForm::Annotate(found) = &statement.form else {
        return None;
    };
    match &found.value {
        Some(value) => literal_type(value),
        None => None,
    }
}

/// The type of the value of the first statement of a source.
fn first_type(alloc: Global, source: &str) -> Result<Option<Builtin>, AllocError> {
    let file = file_of(alloc, "a.py", source.as_bytes())?;
    let Outcome::Tree(module) = file.outcome() else {
        return Ok(None);
    };
    Ok(match module.statements.first() {
        Some(statement) => type_at(statement),
        None => None,
    })
}

/// Annotated names, with the types of their values, where they have one.
const TYPES: &[(&str, Option<Builtin>)] = &[
    ("x: int = 1\n", Some(Builtin::Int)),
    ("x: str = 'a'\n", Some(Builtin::Str)),
    ("x: bool = True\n", Some(Builtin::Bool)),
    ("x: float = 1.5\n", Some(Builtin::Float)),
    ("x: None = None\n", Some(Builtin::None)),
    ("x: bytes = b''\n", Some(Builtin::Bytes)),
    ("x: 'int' = f''\n", Some(Builtin::Str)),
    ("x: list = 1j\n", None),
    ("x: int = ...\n", None),
    ("x: m.int = y\n", None),
];

#[test]
fn types_of_literals(rt: HostRuntime) -> Result<(), Fail> {
    for (source, want) in TYPES {
        let found = first_type(rt.alloc(), source)?;
        assert!(rt; found == *want, "{source}");
    }
    Ok(())
}
