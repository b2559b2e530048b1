//! Files, with what the names of their modules stand for.

use crate::sources::{dotted, file_of, interfaces_of, module_of, name_of};
use pyc_ast::Outcome;
use pyc_names::{Looks, ModuleName, QualifiedName, Referent, SourceFile, Table, module_of_parts};
use std::alloc::{AllocError, Global};
use std::test::Fail;

/// A word for what a name stands for.
fn word(found: &Referent) -> &str {
    match found {
        Referent::Declared(_) => "declared",
        Referent::Module(_) => "module",
        Referent::Opaque => "opaque",
        Referent::FixedAny => "fixed Any",
        Referent::NoModule => "no module",
        Referent::NoName => "no name",
        Referent::Cycle => "cycle",
    }
}

/// The table of these files.
fn table_of(alloc: Global, sources: &[(&str, &str)]) -> Result<Table, AllocError> {
    Table::build(alloc, &interfaces_of(alloc, sources)?)
}

/// Writes the word for what a name stands for in a table, and whether it is on a ring there.
fn write_followed(
    alloc: Global,
    table: &Table,
    name: &QualifiedName,
    shown: &mut String,
) -> Result<(), AllocError> {
    let mut looks = Looks::new(alloc);
    shown.push_str(word(&table.follow(alloc, name, &mut looks)?))?;
    if table.is_on_ring(alloc, name, &mut looks)? {
        shown.push_str(" on a ring")?;
    }
    Ok(())
}

/// The word for what `name` stands for in `table`, and whether it is on a ring there.
fn followed_in(alloc: Global, table: &Table, name: &QualifiedName) -> Result<String, AllocError> {
    let mut shown = String::new(alloc);
    write_followed(alloc, table, name, &mut shown)?;
    Ok(shown)
}

/// The word for what `name` of the module `module_path` stands for among `sources`, and whether it is on a ring there.
fn followed(
    alloc: Global,
    sources: &[(&str, &str)],
    module_path: &str,
    name: &str,
) -> Result<String, AllocError> {
    let table = table_of(alloc, sources)?;
    followed_in(alloc, &table, &name_of(alloc, module_path, name)?)
}

/// Three files in a ring, one that leads into it, and one that leads away from all.
const RING: &[(&str, &str)] = &[
    ("a.py", "from b import x\n"),
    ("b.py", "from c import y as x\n"),
    ("c.py", "from a import x as y\n"),
    ("d.py", "from a import x\n"),
    ("e.py", "from f import x\n"),
];

/// Files in which imports end: at a declaration, at a name and a module that are not there, and at a file with a fault.
const CHAINS: &[(&str, &str)] = &[
    ("a.py", "from b import x, y as z, w, q\nv: int = 1\n"),
    (
        "b.py",
        "from c import x, y\nfrom gone import w\nfrom broken import q\n",
    ),
    ("c.py", "x: int = 1\nx = 2\n"),
    ("broken.py", "q: int = 1\ndef (\n"),
    ("above.py", "from ..z import k\n"),
];

/// Files that import modules: `import p.q` binds `p`, and with `as` it binds the module itself.
const MODULES: &[(&str, &str)] = &[
    ("p/q.py", ""),
    ("first.py", "import p.q\n"),
    ("last.py", "import p.q as r\n"),
    ("gone.py", "import gone.x as r\nimport lost\n"),
];

/// Packages, of which `pkg` imports one of its submodules and binds the name of another.
const PACKAGES: &[(&str, &str)] = &[
    ("pkg/__init__.py", "from . import m\nn: int = 1\n"),
    ("pkg/m.py", ""),
    ("pkg/n.py", ""),
    ("space/o.py", "from . import o\n"),
    ("a.py", "from pkg import m, n\nfrom space import o\n"),
];

/// A file in the place of a fixed module, whose names are not seen.
const FIXED: &[(&str, &str)] = &[
    ("typing.py", "own: int = 1\nfrom gone import Any\n"),
    (
        "a.py",
        "from typing import own, Any, Optional as O\nfrom collections import OrderedDict\n\
         import collections.abc as abc\n",
    ),
];

/// A stub that is a package, with imports that it hides and imports that it passes on; files that import its names, and
/// a stub that imports a submodule of its own that is not there.
const STUBS: &[(&str, &str)] = &[
    (
        "s/__init__.pyi",
        "from c import u, v as v, w as x, m\nimport c\nimport d as d\nk: int\n",
    ),
    ("s/m.py", ""),
    ("c.py", "u: int = 1\nv: int = 2\nw: int = 3\nm: int = 4\n"),
    ("d.py", ""),
    ("b.py", "from s import u, v, x, m, c, d, k\n"),
    ("p/__init__.pyi", "from . import n\n"),
    ("typing.pyi", "import c\n"),
];

/// Names of the modules of these files, with words for what they stand for, and which of them are on a ring.
const FOLLOWED: &[(&[(&str, &str)], &str, &str, &str)] = &[
    (RING, "a", "x", "cycle on a ring"),
    (RING, "b", "x", "cycle on a ring"),
    (RING, "c", "y", "cycle on a ring"),
    (RING, "d", "x", "cycle"),
    (RING, "e", "x", "no module"),
    (RING, "c", "x", "no name"),
    (CHAINS, "a", "v", "declared"),
    (CHAINS, "a", "x", "declared"),
    (CHAINS, "a", "z", "no name"),
    (CHAINS, "a", "w", "no module"),
    (CHAINS, "a", "q", "opaque"),
    (CHAINS, "broken", "q", "opaque"),
    (CHAINS, "gone", "w", "no module"),
    (CHAINS, "above", "k", "no module"),
    (MODULES, "first", "p", "module"),
    (MODULES, "first", "q", "no name"),
    (MODULES, "last", "r", "module"),
    (MODULES, "last", "p", "no name"),
    (MODULES, "p", "q", "module"),
    (MODULES, "gone", "r", "no module"),
    (MODULES, "gone", "lost", "no module"),
    (PACKAGES, "pkg", "m", "module"),
    (PACKAGES, "pkg", "n", "declared"),
    (PACKAGES, "space", "o", "module"),
    (PACKAGES, "space.o", "o", "module"),
    (PACKAGES, "a", "m", "module"),
    (PACKAGES, "a", "n", "declared"),
    (PACKAGES, "a", "o", "module"),
    (STUBS, "s", "u", "declared"),
    (STUBS, "s", "m", "declared"),
    (STUBS, "b", "u", "no name"),
    (STUBS, "b", "v", "declared"),
    (STUBS, "b", "x", "no name"),
    (STUBS, "b", "m", "module"),
    (STUBS, "b", "c", "no name"),
    (STUBS, "b", "d", "module"),
    (STUBS, "b", "k", "declared"),
    (STUBS, "p", "n", "no name"),
    (STUBS, "typing", "c", "fixed Any"),
    (FIXED, "typing", "own", "fixed Any"),
    (FIXED, "a", "own", "fixed Any"),
    (FIXED, "a", "Any", "declared"),
    (FIXED, "a", "O", "declared"),
    (FIXED, "a", "OrderedDict", "fixed Any"),
    (FIXED, "a", "abc", "module"),
];

#[test]
fn names_are_followed(rt: HostRuntime) -> Result<(), Fail> {
    for (sources, module_path, name, want) in FOLLOWED {
        let found = followed(rt.alloc(), sources, module_path, name)?;
        assert_eq!(rt; found.as_str(), *want, "{module_path}:{name}");
    }
    Ok(())
}

/// A file in a folder, one of a package, and one beside them, each of which binds a name of its own.
const FILES: &[(&str, &str)] = &[
    ("p/q/r.py", "in_folder = 1\n"),
    ("pkg/__init__.py", "in_package = 1\n"),
    ("b.py", "beside = 1\n"),
];

/// Whether a module is there in a table, and the first name that its file binds.
fn there<'a>(alloc: Global, table: &'a Table, name: &str) -> Result<(bool, &'a str), AllocError> {
    let parts = dotted(alloc, name)?;
    let bindings = match table.file(&parts) {
        Some(file) => file.bindings(),
        None => &[],
    };
    let bound = match bindings.first() {
        Some(binding) => binding.name.as_str(),
        None => "",
    };
    Ok((table.has_module(&parts), bound))
}

/// Modules, whether they are there, and the names that their files bind.
const THERE: &[(&str, (bool, &str))] = &[
    ("", (true, "")),
    ("p", (true, "")),
    ("p.q.r", (true, "in_folder")),
    ("p.q.r.s", (false, "")),
    ("pkg", (true, "in_package")),
    ("b", (true, "beside")),
    ("typing", (true, "")),
    ("gone", (false, "")),
];

#[test]
fn modules_and_their_files(rt: HostRuntime) -> Result<(), Fail> {
    let table = table_of(rt.alloc(), FILES)?;
    for (name, want) in THERE {
        assert!(rt; there(rt.alloc(), &table, name)? == *want, "{name}");
    }
    assert_eq!(rt; table.files().len(), 3);
    Ok(())
}

/// Whether a file is that of a package, whether it is a stub, whether it has a tree, and how many bindings it has.
fn marks(file: &SourceFile) -> (bool, bool, bool, usize) {
    let has_tree = matches!(file.outcome(), Outcome::Tree(_));
    (
        file.interface().is_package(),
        file.interface().is_stub(),
        has_tree,
        file.bindings().len(),
    )
}

/// A file: its path and source, the name of its module, and its marks.
struct Reported {
    path: &'static str,
    source: &'static str,
    name: &'static str,
    marks: (bool, bool, bool, usize),
}

/// Whether a file gives its path, the name of its module, and its marks.
fn is_reported(alloc: Global, reported: &Reported) -> Result<bool, AllocError> {
    let file = file_of(alloc, reported.path, reported.source.as_bytes())?;
    let is_named = *file.name() == module_of(alloc, reported.name)?;
    Ok(is_named && file.path() == reported.path && marks(&file) == reported.marks)
}

/// Files with what they tell.
const TOLD: &[Reported] = &[
    Reported {
        path: "p/q/__init__.py",
        source: "x: int = 1\nimport m\n",
        name: "p.q",
        marks: (true, false, true, 2),
    },
    Reported {
        path: "p/q.py",
        source: "x: int = 1\ndef (\n",
        name: "p.q",
        marks: (false, false, false, 0),
    },
    Reported {
        path: "p/q/__init__.pyi",
        source: "x: int\n",
        name: "p.q",
        marks: (true, true, true, 1),
    },
    Reported {
        path: "p/q.pyi",
        source: "",
        name: "p.q",
        marks: (false, true, true, 0),
    },
    Reported {
        path: "p/my__init__.py",
        source: "",
        name: "p.my__init__",
        marks: (false, false, true, 0),
    },
];

#[test]
fn files_say_what_they_are(rt: HostRuntime) -> Result<(), Fail> {
    for reported in TOLD {
        let is_reported = is_reported(rt.alloc(), reported)?;
        assert!(rt; is_reported, "{}", reported.path);
    }
    Ok(())
}

/// Whether two names of modules are the same, and so a copy of the first.
fn same(first: &QualifiedName, second: &QualifiedName) -> Result<(bool, bool), AllocError> {
    let copy = first.clone()?;
    Ok((first.is_same(second), copy.is_same(second)))
}

/// Whether the name `x` of `p.q` is this one, and so its copy.
fn is_x(alloc: Global, module_path: &str, name: &str) -> Result<(bool, bool), AllocError> {
    let first = name_of(alloc, "p.q", "x")?;
    same(&first, &name_of(alloc, module_path, name)?)
}

/// Names of modules, with whether they are the name `x` of `p.q`.
const SAME: &[(&str, &str, bool)] = &[("p.q", "x", true), ("p.q", "y", false), ("p", "x", false)];

#[test]
fn names_are_told_apart(rt: HostRuntime) -> Result<(), Fail> {
    for (module_path, name, want) in SAME {
        let found = is_x(rt.alloc(), module_path, name)?;
        assert!(rt; found == (*want, *want), "{module_path}:{name}");
    }
    Ok(())
}

/// The module whose parts are those of both dotted names.
fn joined_name(alloc: Global, base: &str, path: &str) -> Result<ModuleName, AllocError> {
    let base = dotted(alloc, base)?;
    module_of_parts(alloc, &base, &dotted(alloc, path)?)
}

/// Whether the parts of two dotted names make a third.
fn is_joined(alloc: Global, base: &str, path: &str, whole: &str) -> Result<bool, AllocError> {
    let name = joined_name(alloc, base, path)?;
    Ok(name == module_of(alloc, whole)?)
}

/// Dotted names, with the one that both make.
const JOINED: &[(&str, &str, &str)] = &[
    ("p.q", "r.s", "p.q.r.s"),
    ("p", "", "p"),
    ("", "r", "r"),
    ("", "", ""),
];

#[test]
fn names_are_joined(rt: HostRuntime) -> Result<(), Fail> {
    for (base, path, whole) in JOINED {
        let is_joined = is_joined(rt.alloc(), base, path, whole)?;
        assert!(rt; is_joined, "{base} and {path}");
    }
    Ok(())
}
