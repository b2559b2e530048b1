//! Classes, with the members that they have under names.

use crate::sources::{answered, class_of};
use pyc_ast::Text;
use pyc_class_ids::ClassId;
use pyc_iface::{Key, MemberName};
use std::alloc::Global;
use std::test::Fail;

/// In `m` and `n`, `A` declares, `B` and `C` below it assign through the instance, `D` joins both, `G` has bases of
/// which one is not known, `H` no order, `I` and `J` are their own ancestors. In `b` are classes over builtin ones. In
/// `k` is a class with members of each kind. In the others are class statements that declare nothing, and what is no
/// class: a later statement of a name, one in a function or a class, one in a file that is named as a fixed module, and
/// one of a file with a fault.
const FILES: &[(&str, &str)] = &[
    (
        "m.py",
        "from n import A, Any\nclass B(A):\n    def f(self, p: str):\n        self.a = p\n        self.b = p\n\
         class C(A):\n    def f(self):\n        self.b = 1\n        self.c: bytes\n        self.d = 1\n    a = 1.5\n\
         class D(B, C):\n    def g(self) -> T: ...\nT = 1\n\
         class G(A, undefined):\n    g = 1\nclass H(A, D, A):\n    h = 1\n\
         class I(J):\n    i = 1\nclass J(I):\n    j = 1\n",
    ),
    (
        "n.py",
        "class T: ...\nclass A:\n    a: T\n    def g(self) -> T: ...\n    @property\n    def d(self) -> int: ...\n",
    ),
    (
        "b.py",
        "class E(Exception):\n    def f(self):\n        self.args = 1\n        self.code = 1\n\
         class F(KeyError):\n    args: tuple[int, int]\nclass S(str): ...\nclass B(bool): ...\n\
         class L(list[int]): ...\n",
    ),
    (
        "k.py",
        "class C:\n a: 'C | None' = 1\n import b\n class c: ...\n @known\n def d(self) -> int: ...\n \
         def e(self, p: int): ...\n async def f(self) -> int: ...\n @classmethod\n def g(cls) -> int: ...\n \
         @staticmethod\n def h(p, q: int) -> int: ...\n @property\n def i(self) -> int: ...\n \
         @property\n async def j(self) -> int: ...\n @i.setter\n def k(self, v: int) -> int: ...\n \
         @property\n def l(self) -> int: ...\n @i.setter\n def l(self, v: int): ...\n \
         @staticmethod\n @property\n def m(self) -> int: ...\n",
    ),
    (
        "u.py",
        "def A(): ...\nclass A:\n    x = 1\ndef f():\n    class B:\n        x = 1\nclass D:\n    class C:\n        x = 1\n\
         v: D\nclass D:\n    y = 1\n",
    ),
    ("typing.py", "class K:\n    x = 1\n"),
    ("broken.py", "class K:\n    x = 1\ndef (\n"),
];

/// What a class has under a name.
fn member_of(alloc: Global, class: ClassId, name: &str) -> Result<String, Fail> {
    let name = Text::new(alloc, name)?;
    let key = Key::Member(MemberName { class, name });
    answered(alloc, FILES, &key)
}

/// What the class of this name in a module has under another name.
fn member_at(alloc: Global, module_path: &str, class: &str, name: &str) -> Result<String, Fail> {
    member_of(alloc, class_of(alloc, module_path, class)?, name)
}

/// Modules, classes and names, with the members of those names.
const MEMBERS: &[(&str, &str, &str, &str)] = &[
    ("m", "B", "a", "Variable of A: T"),
    ("m", "B", "g", "Method of A: Callable[[A], T]"),
    ("m", "B", "d", "Property of A: int"),
    ("m", "B", "f", "Method of B: Callable[[B, str], Any]"),
    ("m", "D", "a", "Variable of C: float"),
    ("m", "D", "b", "Variable of B: str"),
    ("m", "D", "c", "Variable of C: bytes"),
    ("m", "D", "d", "Property of A: int"),
    ("m", "D", "f", "Method of B: Callable[[B, str], Any]"),
    ("m", "D", "g", "Method of D: Callable[[D], Any]"),
    ("m", "C", "b", "Variable of C: int"),
    ("m", "B", "c", "absent"),
    ("m", "D", "p", "absent"),
    ("m", "D", "T", "absent"),
    ("m", "D", "__init__", "absent"),
    ("m", "G", "g", "Variable of G: int"),
    ("m", "G", "a", "absent"),
    ("m", "H", "h", "Variable of H: int"),
    ("m", "H", "g", "absent"),
    ("m", "I", "i", "Variable of I: int"),
    ("m", "I", "j", "absent"),
    ("m", "J", "j", "Variable of J: int"),
    ("b", "E", "args", "Variable of BaseException: Any"),
    ("b", "E", "add_note", "Variable of BaseException: Any"),
    ("b", "E", "code", "Variable of E: int"),
    ("b", "E", "errno", "absent"),
    ("b", "F", "args", "Variable of F: tuple[int, int]"),
    ("b", "S", "upper", "Method of str: Callable[..., str]"),
    ("b", "S", "split", "Method of str: Callable[..., list[str]]"),
    ("b", "S", "maketrans", "Method of str: Callable[..., Any]"),
    ("b", "B", "real", "Variable of int: Any"),
    ("b", "L", "append", "absent"),
    ("k", "C", "a", "Variable of C: C | None"),
    ("k", "C", "b", "Variable of C: Any"),
    ("k", "C", "c", "Variable of C: Any"),
    ("k", "C", "d", "Variable of C: Any"),
    ("k", "C", "e", "Method of C: Callable[[C, int], Any]"),
    ("k", "C", "f", "Method of C: Any"),
    ("k", "C", "g", "ClassMethod of C: Callable[[type[C]], int]"),
    (
        "k",
        "C",
        "h",
        "StaticMethod of C: Callable[[Any, int], int]",
    ),
    ("k", "C", "i", "Property of C: int"),
    ("k", "C", "j", "Property of C: Any"),
    ("k", "C", "k", "SettableProperty of C: Any"),
    ("k", "C", "l", "SettableProperty of C: int"),
    ("k", "C", "m", "Property of C: int"),
    ("u", "A", "x", "absent"),
    ("u", "B", "x", "absent"),
    ("u", "C", "x", "absent"),
    ("u", "v", "x", "absent"),
    ("u", "D", "y", "absent"),
    ("u", "gone", "x", "absent"),
    ("typing", "K", "x", "absent"),
    ("broken", "K", "x", "absent"),
    ("gone", "K", "x", "absent"),
];

/// Builtin classes and names, with the members of those names.
const OF_BUILTIN_CLASSES: &[(&str, &str, &str, &str)] = &[
    ("", "KeyError", "args", "Variable of BaseException: Any"),
    ("", "bool", "imag", "Variable of int: Any"),
    ("", "str", "count", "Method of str: Callable[..., int]"),
    (
        "",
        "list",
        "append",
        "Method of list: Callable[[Any], None]",
    ),
    (
        "",
        "dict",
        "popitem",
        "Method of dict: Callable[..., tuple[Any, Any]]",
    ),
    ("", "object", "args", "absent"),
    ("", "str", "__init__", "absent"),
];

/// The tables of members.
const TABLES: &[&[(&str, &str, &str, &str)]] = &[MEMBERS, OF_BUILTIN_CLASSES];

/// The first class of the order that binds a name or annotates it comes before each that assigns it. The annotations of
/// a class are read in its file. A class whose order is not known has its own members alone. A builtin class is asked
/// like any other.
#[test]
fn members_of_classes(rt: HostRuntime) -> Result<(), Fail> {
    for table in TABLES {
        for (module_path, class, name, want) in *table {
            let member = member_at(rt.alloc(), module_path, class, name)?;
            assert_eq!(rt; member.as_str(), *want, "{module_path}:{class}:{name}");
        }
    }
    Ok(())
}
