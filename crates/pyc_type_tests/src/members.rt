//! The members of the builtin classes, and their types.

use crate::notation::type_of;
use pyc_builtins::*;
use pyc_class_ids::BuiltinClass;
use pyc_type_forms::{Ty, show};
use std::alloc::{AllocError, Global};
use std::test::Fail;

/// The text of the type of a member of a builtin class, where it has one, on an instance of this type.
fn text_of(
    alloc: Global,
    class: BuiltinClass,
    owner: &Ty,
    name: &str,
) -> Result<String, AllocError> {
    match builtin_member(class, name) {
        Some(found) => show(alloc, &member_type(alloc, owner, found.member)?),
        None => String::from_str(alloc, "absent"),
    }
}

/// The text of the type of some member of a builtin class, on an instance of the type that `words` spell.
fn member_text(
    alloc: Global,
    class: BuiltinClass,
    words: &str,
    name: &str,
) -> Result<String, Fail> {
    Ok(text_of(alloc, class, &type_of(alloc, words)?, name)?)
}

/// The methods of `str`, with what they give.
const STR_METHODS: &[(&str, MethodResult)] = &[
    ("capitalize", MethodResult::Str),
    ("casefold", MethodResult::Str),
    ("center", MethodResult::Str),
    ("expandtabs", MethodResult::Str),
    ("format", MethodResult::Str),
    ("format_map", MethodResult::Str),
    ("join", MethodResult::Str),
    ("ljust", MethodResult::Str),
    ("lower", MethodResult::Str),
    ("lstrip", MethodResult::Str),
    ("removeprefix", MethodResult::Str),
    ("removesuffix", MethodResult::Str),
    ("replace", MethodResult::Str),
    ("rjust", MethodResult::Str),
    ("rstrip", MethodResult::Str),
    ("strip", MethodResult::Str),
    ("swapcase", MethodResult::Str),
    ("title", MethodResult::Str),
    ("translate", MethodResult::Str),
    ("upper", MethodResult::Str),
    ("zfill", MethodResult::Str),
    ("count", MethodResult::Int),
    ("find", MethodResult::Int),
    ("index", MethodResult::Int),
    ("rfind", MethodResult::Int),
    ("rindex", MethodResult::Int),
    ("endswith", MethodResult::Bool),
    ("startswith", MethodResult::Bool),
    ("isalnum", MethodResult::Bool),
    ("isalpha", MethodResult::Bool),
    ("isascii", MethodResult::Bool),
    ("isdecimal", MethodResult::Bool),
    ("isdigit", MethodResult::Bool),
    ("isidentifier", MethodResult::Bool),
    ("islower", MethodResult::Bool),
    ("isnumeric", MethodResult::Bool),
    ("isprintable", MethodResult::Bool),
    ("isspace", MethodResult::Bool),
    ("istitle", MethodResult::Bool),
    ("isupper", MethodResult::Bool),
    ("split", MethodResult::ListOfStr),
    ("rsplit", MethodResult::ListOfStr),
    ("splitlines", MethodResult::ListOfStr),
    ("partition", MethodResult::ThreeStrs),
    ("rpartition", MethodResult::ThreeStrs),
    ("encode", MethodResult::Bytes),
    ("maketrans", MethodResult::Any),
];

#[test]
fn methods_of_str(rt: HostRuntime) -> Result<(), Fail> {
    for (name, given) in STR_METHODS {
        let expected = Some(Member::Method(*given));
        assert!(rt; own_member(BuiltinClass::Str, name) == expected, "{name}");
    }
    Ok(())
}

/// Builtin classes and names, with the own members of those names.
const OWN: &[(BuiltinClass, &str, Option<Member>)] = &[
    (BuiltinClass::Int, "real", Some(Member::Attribute)),
    (BuiltinClass::Float, "is_integer", Some(Member::Attribute)),
    (BuiltinClass::Bool, "real", None),
    (BuiltinClass::Bytes, "decode", Some(Member::Attribute)),
    (BuiltinClass::Bytes, "__len__", None),
    (BuiltinClass::List, "append", Some(Member::Append)),
    (
        BuiltinClass::Dict,
        "popitem",
        Some(Member::Method(MethodResult::Pair)),
    ),
    (
        BuiltinClass::Tuple,
        "count",
        Some(Member::Method(MethodResult::Int)),
    ),
    (BuiltinClass::BaseException, "args", Some(Member::Attribute)),
    (BuiltinClass::KeyError, "args", None),
    (BuiltinClass::Object, "upper", None),
    (BuiltinClass::Str, "Upper", None),
    (BuiltinClass::Str, "append", None),
    (BuiltinClass::Str, "", None),
    (BuiltinClass::Str, "a_name_that_is_longer", None),
];

#[test]
fn members_of_the_class_itself(rt: HostRuntime) -> Result<(), Fail> {
    for (class, name, expected) in OWN {
        assert!(rt; own_member(*class, name) == *expected, "{class:?}.{name}");
    }
    Ok(())
}

/// Builtin classes and names, with the class that has the member.
const FOUND_IN: &[(BuiltinClass, &str, Option<BuiltinClass>)] = &[
    (BuiltinClass::Bool, "real", Some(BuiltinClass::Int)),
    (BuiltinClass::Int, "real", Some(BuiltinClass::Int)),
    (
        BuiltinClass::KeyError,
        "args",
        Some(BuiltinClass::BaseException),
    ),
    (
        BuiltinClass::RecursionError,
        "add_note",
        Some(BuiltinClass::BaseException),
    ),
    (BuiltinClass::List, "append", Some(BuiltinClass::List)),
    (BuiltinClass::Bool, "imaginary", None),
    (BuiltinClass::KeyError, "message", None),
    (BuiltinClass::Object, "real", None),
];

/// The class that has the member of a builtin class under a name.
fn module_path_of(class: BuiltinClass, name: &str) -> Option<BuiltinClass> {
    Some(builtin_member(class, name)?.class)
}

#[test]
fn members_are_found_up_the_order(rt: HostRuntime) -> Result<(), Fail> {
    for (class, name, expected) in FOUND_IN {
        assert!(rt;
            module_path_of(*class, name) == *expected,
            "{class:?}.{name}"
        );
    }
    Ok(())
}

/// Builtin classes, the types of instances, and names, with the types of the members of those names.
const TYPES: &[(BuiltinClass, &str, &str, &str)] = &[
    (BuiltinClass::Str, "str", "upper", "Callable[..., str]"),
    (BuiltinClass::Str, "str", "find", "Callable[..., int]"),
    (BuiltinClass::Str, "str", "isdigit", "Callable[..., bool]"),
    (BuiltinClass::Str, "str", "encode", "Callable[..., bytes]"),
    (
        BuiltinClass::Str,
        "str",
        "split",
        "Callable[..., list[str]]",
    ),
    (
        BuiltinClass::Str,
        "str",
        "partition",
        "Callable[..., tuple[str, str, str]]",
    ),
    (BuiltinClass::Str, "str", "maketrans", "Callable[..., Any]"),
    (BuiltinClass::Bool, "bool", "real", "Any"),
    (BuiltinClass::Bytes, "bytes", "decode", "Any"),
    (BuiltinClass::Bytes, "bytes", "__len__", "absent"),
    (BuiltinClass::KeyError, "KeyError", "args", "Any"),
    (BuiltinClass::Tuple, "tuple", "index", "Callable[..., int]"),
    (BuiltinClass::Object, "object", "real", "absent"),
];

/// Types of lists and of a class below a list, and names, with the types of those members.
const LIST_TYPES: &[(BuiltinClass, &str, &str, &str)] = &[
    (
        BuiltinClass::List,
        "int list_of",
        "append",
        "Callable[[int], None]",
    ),
    (
        BuiltinClass::List,
        "int list_of",
        "sort",
        "Callable[..., None]",
    ),
    (
        BuiltinClass::List,
        "int list_of",
        "pop",
        "Callable[..., int]",
    ),
    (
        BuiltinClass::List,
        "int list_of",
        "count",
        "Callable[..., int]",
    ),
    (
        BuiltinClass::List,
        "int list_of",
        "copy",
        "Callable[..., list[int]]",
    ),
    (BuiltinClass::List, "int list_of", "push", "absent"),
    (
        BuiltinClass::List,
        "m.Stack",
        "append",
        "Callable[[Any], None]",
    ),
    (BuiltinClass::List, "m.Stack", "sort", "Callable[..., None]"),
    (BuiltinClass::List, "m.Stack", "pop", "Callable[..., Any]"),
    (BuiltinClass::List, "m.Stack", "count", "Callable[..., int]"),
    (
        BuiltinClass::List,
        "m.Stack",
        "copy",
        "Callable[..., list[Any]]",
    ),
    (BuiltinClass::List, "m.Stack", "push", "absent"),
];

/// Names, with the types of those members of `dict[str, float]`.
const DICT_TYPES: &[(BuiltinClass, &str, &str, &str)] = &[
    (
        BuiltinClass::Dict,
        "str float dict_of",
        "get",
        "Callable[..., Any]",
    ),
    (
        BuiltinClass::Dict,
        "str float dict_of",
        "setdefault",
        "Callable[..., float]",
    ),
    (
        BuiltinClass::Dict,
        "str float dict_of",
        "popitem",
        "Callable[..., tuple[str, float]]",
    ),
    (
        BuiltinClass::Dict,
        "str float dict_of",
        "update",
        "Callable[..., None]",
    ),
    (
        BuiltinClass::Dict,
        "str float dict_of",
        "copy",
        "Callable[..., dict[str, float]]",
    ),
    (BuiltinClass::Dict, "str float dict_of", "append", "absent"),
];

/// The tables of types of members.
const TABLES: &[&[(BuiltinClass, &str, &str, &str)]] = &[TYPES, LIST_TYPES, DICT_TYPES];

#[test]
fn types_of_members(rt: HostRuntime) -> Result<(), Fail> {
    for table in TABLES {
        for (class, words, name, expected) in *table {
            let text = member_text(rt.alloc(), *class, words, name)?;
            assert_eq!(rt; text.as_str(), *expected, "{name} of {words}");
        }
    }
    Ok(())
}

/// Names, with whether they are underscored at both ends.
const UNDERSCORED: &[(&str, bool)] = &[
    ("__len__", true),
    ("____", true),
    ("___", false),
    ("__len", false),
    ("len__", false),
    ("_len_", false),
    ("", false),
];

#[test]
fn names_underscored_at_both_ends(rt: HostRuntime) -> Result<(), Fail> {
    for (name, expected) in UNDERSCORED {
        assert!(rt; is_dunder(name) == *expected, "{name}");
    }
    Ok(())
}
