//! Classes, with their orders and whether their instances can be called.

use crate::sources::{answered, class_of, order_shown, world_of};
use pyc_class_ids::{ClassId, Lins};
use pyc_iface::Key;
use std::alloc::Global;
use std::test::Fail;

/// Classes of which each kind of order is known, and those of which none is; classes that bind `__call__`, that give it
/// to their instances, that have it from a base, and that have none.
const FILES: &[(&str, &str)] = &[
    (
        "m.py",
        "from n import O\nfrom typing import Any\nclass A(O): ...\nclass B(O): ...\nclass C(A, B, key=1): ...\n\
         class E(KeyError): ...\nclass N(Any): ...\nclass L(list): ...\nclass U(undefined): ...\nclass V(U): ...\n\
         class X(A, B): ...\nclass Y(B, A): ...\nclass Z(X, Y): ...\nclass I(J): ...\nclass J(I): ...\n\
         class K(I): ...\nclass W(A[int], B): ...\nclass Q(A, A): ...\nclass R(*A): ...\n",
    ),
    ("n.py", "class O: ...\n"),
    (
        "c.py",
        "class A:\n    def __call__(self): ...\nclass B(A): ...\nclass C:\n    def f(self):\n        self.__call__ = 1\n\
         class D(C): ...\nclass E:\n    __call__: int\nclass F(A, undefined): ...\n\
         class G(undefined):\n    __call__ = None\nclass H:\n    def call(self): ...\nclass I(Exception): ...\n",
    ),
];

/// The order of a class, as the world of the files knows it.
fn known(alloc: Global, class: &ClassId) -> Result<String, Fail> {
    let world = world_of(alloc, FILES)?;
    let lin = world.lin(class);
    order_shown(alloc, lin.classes, lin.unknown, lin.has_call)
}

/// The order of a class, as the world answers it or knows it.
fn order_of(alloc: Global, is_asked: bool, class: ClassId) -> Result<String, Fail> {
    if is_asked {
        answered(alloc, FILES, &Key::Class(class))
    } else {
        known(alloc, &class)
    }
}

/// The order of the class of this name in a module, as the world answers it or knows it.
fn order_at(alloc: Global, is_asked: bool, module_path: &str, class: &str) -> Result<String, Fail> {
    order_of(alloc, is_asked, class_of(alloc, module_path, class)?)
}

/// Modules and classes, builtin ones without a module, with their orders or why these are not known, and whether their
/// instances can be called.
const ORDERS: &[(&str, &str, &str)] = &[
    ("m", "A", "A O object known"),
    ("m", "C", "C A B O object known"),
    (
        "m",
        "E",
        "E KeyError LookupError Exception BaseException object known",
    ),
    ("m", "W", "W A B O object known"),
    ("m", "N", "N base"),
    ("m", "L", "L base"),
    ("m", "U", "U base"),
    ("m", "V", "V base"),
    ("m", "R", "R base"),
    ("m", "Z", "Z merge"),
    ("m", "Q", "Q merge"),
    ("m", "I", "I cycle"),
    ("m", "J", "J cycle"),
    ("m", "K", "K base"),
    ("m", "gone", "base"),
    ("c", "A", "A object known called"),
    ("c", "B", "B A object known called"),
    ("c", "C", "C object known called"),
    ("c", "D", "D C object known called"),
    ("c", "E", "E object known called"),
    ("c", "F", "F base"),
    ("c", "G", "G base called"),
    ("c", "H", "H object known"),
    ("c", "I", "I Exception BaseException object known"),
    ("", "object", "object known"),
    ("", "bool", "bool int object known"),
    ("", "list", "list object known"),
];

/// A world and its answers tell the same order of each class.
#[test]
fn orders_of_classes(rt: HostRuntime) -> Result<(), Fail> {
    for is_asked in [false, true] {
        for (module_path, class, want) in ORDERS {
            let order = order_at(rt.alloc(), is_asked, module_path, class)?;
            assert_eq!(rt; order.as_str(), *want, "{module_path}:{class}");
        }
    }
    Ok(())
}
