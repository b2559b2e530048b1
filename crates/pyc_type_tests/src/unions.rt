//! Unions, and what tests leave of types.

use crate::notation::{classes_of, type_of, types_of};
use pyc_types::*;
use std::alloc::{AllocError, Global};
use std::process::Abort;
use std::rc::Rc;
use std::slice;
use std::test::Fail;

/// A tuple of so many ints.
fn ints(alloc: Global, count: usize) -> Result<Ty, AllocError> {
    let mut items = Vec::new(alloc);
    for _ in 0..count {
        items.push(Ty::Instance(ClassId::builtin(BuiltinClass::Int)))?;
    }
    Ok(Ty::Tuple(Rc::new(alloc, items)?))
}

/// How the union of some types is written.
fn joined(alloc: Global, types: &[Ty]) -> Result<String, AllocError> {
    show(alloc, &union_of(alloc, types)?)
}

/// How the union of the types that words spell is written.
fn union_shown(alloc: Global, words: &str) -> Result<String, Fail> {
    Ok(joined(alloc, &types_of(alloc, words)?)?)
}

/// Types, with how their union is written.
const UNIONS: &[(&str, &str)] = &[
    ("bytes", "bytes"),
    ("int None", "int | None"),
    ("int int None or", "int | None"),
    ("str int None or", "str | int | None"),
    ("int None or str None or", "int | None | str"),
    ("Any list_of Any list_of", "list[Any]"),
    ("int int pair int single", "tuple[int, int] | tuple[int]"),
    ("Module Module", "Module"),
    ("Module OtherModule", "Module | Module"),
];

#[test]
fn unions_form(rt: HostRuntime) -> Result<(), Fail> {
    for (words, expected) in UNIONS {
        assert_eq!(rt; union_shown(rt.alloc(), words)?.as_str(), *expected);
    }
    Ok(())
}

/// Whether the union of a type alone is another.
fn union_is(alloc: Global, ty: &Ty, want: &Ty) -> Result<bool, AllocError> {
    Ok(same_type(&union_of(alloc, slice::from_ref(ty))?, want))
}

/// Whether the union of a tuple of so many ints alone is that tuple.
fn is_kept(alloc: Global, count: usize) -> Result<bool, AllocError> {
    let ty = ints(alloc, count)?;
    union_is(alloc, &ty, &ty)
}

/// Whether the union of a tuple of so many ints alone is Any.
fn is_any(alloc: Global, count: usize) -> Result<bool, AllocError> {
    union_is(alloc, &ints(alloc, count)?, &Ty::Any)
}

/// How many ints, with whether the union of a tuple of them is that tuple, and whether it is Any.
const LIMITS: &[(usize, bool, bool)] = &[(999, true, false), (1000, false, true)];

#[test]
fn unions_have_a_limit(rt: HostRuntime) -> Result<(), Fail> {
    for (count, kept, any) in LIMITS {
        assert!(rt; is_kept(rt.alloc(), *count)? == *kept);
        assert!(rt; is_any(rt.alloc(), *count)? == *any);
    }
    Ok(())
}

/// Writes a type; a dash where there is none.
fn write_left(alloc: Global, left: &Option<Ty>, shown: &mut String) -> Result<(), AllocError> {
    match left {
        Some(ty) => shown.push_str(show(alloc, ty)?.as_str()),
        None => shown.push('-'),
    }
}

/// Writes what `isinstance` by these classes leaves of a type.
fn write_kept(
    alloc: Global,
    builtins: &Builtins,
    ty: &Ty,
    classes: &[ClassId],
    shown: &mut String,
) -> Result<(), AllocError> {
    write_left(alloc, &narrow_to(alloc, builtins, ty, classes)?, shown)
}

/// Writes what `isinstance` by these classes does not take of a type.
fn write_away(
    alloc: Global,
    builtins: &Builtins,
    ty: &Ty,
    classes: &[ClassId],
    shown: &mut String,
) -> Result<(), AllocError> {
    write_left(alloc, &narrow_away(alloc, builtins, ty, classes)?, shown)
}

/// What `isinstance` by these classes leaves of a type, and what it does not take.
fn split(
    alloc: Global,
    builtins: &Builtins,
    ty: &Ty,
    classes: &[ClassId],
) -> Result<String, AllocError> {
    let mut shown = String::new(alloc);
    write_kept(alloc, builtins, ty, classes, &mut shown)?;
    shown.push_str("; ")?;
    write_away(alloc, builtins, ty, classes, &mut shown)?;
    Ok(shown)
}

/// What `isinstance` by `classes` leaves of the type that `words` spell, and what it does not take.
fn split_words(
    alloc: Global,
    builtins: &Builtins,
    words: &str,
    classes: &[ClassId],
) -> Result<String, Fail> {
    Ok(split(alloc, builtins, &type_of(alloc, words)?, classes)?)
}

/// What `isinstance` by the classes of `names` leaves of the type that `words` spell, and what it does not take.
fn split_by(alloc: Global, builtins: &Builtins, words: &str, names: &str) -> Result<String, Fail> {
    split_words(alloc, builtins, words, &classes_of(alloc, names)?)
}

/// Types and classes: what `isinstance` by these leaves of each, and what it does not take.
const SPLIT: &[(&str, &str, &str)] = &[
    ("int", "int", "int; -"),
    ("object", "int", "int; object"),
    ("float", "int", "int; float"),
    ("bool", "int", "bool; -"),
    ("str", "int", "-; str"),
    ("Any", "int", "int; Any"),
    ("None", "int", "-; None"),
    ("Module", "int", "-; Module"),
    (
        "None dots",
        "int",
        "Callable[..., None]; Callable[..., None]",
    ),
    ("type:str", "int", "type[str]; type[str]"),
    ("bool float or", "int", "bool | int; float"),
    ("bool None or", "int", "bool; None"),
    ("str float or", "int", "int; str | float"),
    ("m.C", "int", "C; C"),
    ("Any", "int list", "int | list[Any]; Any"),
    ("None list_of", "int list", "list[None]; -"),
    ("Any", "", "-; Any"),
];

/// Asserts what `isinstance` leaves of each of these types, and what it does not take.
pub(crate) fn assert_split(
    rt: &impl Abort,
    alloc: Global,
    builtins: &Builtins,
) -> Result<(), Fail> {
    for (words, names, want) in SPLIT {
        let shown = split_by(alloc, builtins, words, names)?;
        assert_eq!(rt; shown.as_str(), *want, "{words} by {names}");
    }
    Ok(())
}

/// What is left of a type without None.
fn without(alloc: Global, ty: &Ty) -> Result<String, AllocError> {
    let mut shown = String::new(alloc);
    write_left(alloc, &without_none(alloc, ty)?, &mut shown)?;
    Ok(shown)
}

/// How what is left of the type that words spell without None is written.
fn left_without_none(alloc: Global, words: &str) -> Result<String, Fail> {
    Ok(without(alloc, &type_of(alloc, words)?)?)
}

/// How an instance of a builtin class is written whose parts are not known.
fn bare_shown(alloc: Global, class: BuiltinClass) -> Result<String, AllocError> {
    show(alloc, &instance_of(alloc, &ClassId::builtin(class))?)
}

/// Types, with what is left of each without None.
const WITHOUT_NONE: &[(&str, &str)] = &[("int None or", "int"), ("None", "-"), ("Any", "Any")];

#[test]
fn none_is_taken_away(rt: HostRuntime) -> Result<(), Fail> {
    for (words, expected) in WITHOUT_NONE {
        assert_eq!(rt; left_without_none(rt.alloc(), words)?.as_str(), *expected);
    }
    Ok(())
}

#[test]
fn instances_with_parts_that_are_not_known(rt: HostRuntime) -> Result<(), Fail> {
    let shown = bare_shown(rt.alloc(), BuiltinClass::Dict)?;
    assert_eq!(rt; shown.as_str(), "dict[Any, Any]");
    Ok(())
}
