//! Pairs of types, by the rule that decides; names of builtins; printed types.

use crate::notation::{class_at, push_types, type_of, types_of};
use crate::unions::assert_split;
use pyc_types::*;
use std::alloc::{AllocError, Global};
use std::process::Abort;
use std::test::Fail;

/// Whether one type goes to another by the builtin orders, each spelled in words.
fn goes(alloc: Global, builtins: &Builtins, got: &str, want: &str) -> Result<bool, Fail> {
    let mut types = types_of(alloc, got)?;
    push_types(alloc, want, &mut types)?;
    match types.as_slice() {
        [got, want] => Ok(assignable(builtins, got, want)),
        _ => Err("not two types".into()),
    }
}

/// Classes: whether instances of the first go to the second.
const INSTANCES: &[(&str, &str, bool)] = &[
    ("bool", "int", true),
    ("int", "bool", false),
    ("bool", "float", true),
    ("int", "float", true),
    ("float", "int", false),
    ("str", "bytes", false),
    ("str", "object", true),
    ("object", "str", false),
    ("KeyError", "Exception", true),
    ("Exception", "KeyError", false),
    ("RecursionError", "RuntimeError", true),
    ("OverflowError", "BaseException", true),
    ("IndexError", "KeyError", false),
    // the order of a class of a source is not known here
    ("app.int", "str", true),
    ("int", "app.int", false),
];

/// Builtin classes: whether the first goes to the second as an object.
const CLASS_OBJECTS: &[(&str, &str, bool)] = &[
    ("type:bool", "type:int", true),
    ("type:int", "type:bool", false),
    ("type:int", "type:float", false),
];

/// Types with parts: whether the first goes to the second.
const PARTS: &[(&str, &str, bool)] = &[
    ("int list_of", "int list_of", true),
    ("Any list_of", "int list_of", true),
    ("int list_of", "float list_of", false),
    ("bool list_of", "int list_of", false),
    ("str Any dict_of", "Any int dict_of", true),
    ("str bool dict_of", "str int dict_of", false),
    ("int bool pair", "float tuple_of", true),
    ("int single", "int int pair", false),
    ("bool tuple_of", "int tuple_of", true),
    ("int tuple_of", "int single", false),
    ("int", "float None or", true),
    ("int None or", "int", false),
    ("None int or list_of", "int None or list_of", true),
    ("int list_of", "int None or list_of", false),
    ("Module", "object", true),
    ("Module", "Module", false),
    ("Module", "OtherModule", false),
];

/// Functions: whether the first goes to the second.
const CALLABLES: &[(&str, &str, bool)] = &[
    ("int dots", "float dots", true),
    ("float takes", "int takes", true),
    ("int takes", "float takes", false),
    ("int takes_each", "int takes", true),
    ("int takes", "int takes_each", false),
    ("int takes_n", "int takes_only_n", true),
    ("int takes_only_n", "int takes", false),
    ("int takes_words", "bool takes_only_n", true),
    ("int takes", "int may_take", false),
    ("int takes", "takes_nothing", false),
    ("type:bool", "float dots", true),
    ("type:int", "str dots", false),
    ("type:list", "None list_of dots", true),
    ("int", "Any dots", false),
];

/// The tables of pairs.
const PAIRS: &[&[(&str, &str, bool)]] = &[INSTANCES, CLASS_OBJECTS, PARTS, CALLABLES];

/// Asserts whether the first of each of these pairs goes to the second.
fn assert_pairs(rt: &impl Abort, alloc: Global, builtins: &Builtins) -> Result<(), Fail> {
    for pairs in PAIRS {
        for (got, want, expected) in *pairs {
            let answer = goes(alloc, builtins, got, want)?;
            assert!(rt; answer == *expected, "{got} to {want}");
        }
    }
    Ok(())
}

/// One type of each form.
const SINGLE: &[&str] = &[
    "Any",
    "None",
    "object",
    "int",
    "bool",
    "float",
    "str",
    "type:bool",
    "Module",
    "int dots",
];

/// Each of these types, with `y` for each of them that it goes to.
const GOES: &[(&str, &str)] = &[
    ("Any", "y y y y y y y y y y"),
    ("None", "y y y - - - - - - -"),
    ("object", "y - y - - - - - - -"),
    ("int", "y - y y - y - - - -"),
    ("bool", "y - y y y y - - - -"),
    ("float", "y - y - - y - - - -"),
    ("str", "y - y - - - y - - -"),
    ("type:bool", "y - y - - - - y - y"),
    ("Module", "y - y - - - - - - -"),
    ("int dots", "y - y - - - - - - y"),
];

/// Asserts of each of these types to which of them it goes. Any goes both ways and all go to object; None goes to None;
/// the order of bool leads to int, and int to float; a class object is a callable that gives its instances; a module
/// goes nowhere else.
fn assert_each(rt: &impl Abort, alloc: Global, builtins: &Builtins) -> Result<(), Fail> {
    for (got, row) in GOES {
        let mut marks = row.split(' ');
        for want in SINGLE {
            let answer = goes(alloc, builtins, got, want)?;
            assert!(rt; answer == (marks.next() == Some("y")), "{got} to {want}");
        }
    }
    Ok(())
}

/// Whether a class is not another, and its order is not known.
fn is_own(builtins: &Builtins, class: &ClassId, other: &ClassId) -> bool {
    *class != *other && builtins.lin(class).is_unknown()
}

/// Whether the class of this name in a module is not the builtin `int`, and its order is not known.
fn is_of_a_source(alloc: Global, builtins: &Builtins, name: &str) -> Result<bool, AllocError> {
    let class = class_at(alloc, "app", name)?;
    Ok(is_own(builtins, &class, &ClassId::builtin(BuiltinClass::Int)))
}

/// Words that stand so often around a word: some before it, and some after it.
fn nested(
    alloc: Global,
    levels: usize,
    (before, word, after): (&str, &str, &str),
) -> Result<String, AllocError> {
    let mut words = String::new(alloc);
    for _ in 0..levels {
        words.push_str(before)?;
    }
    words.push_str(word)?;
    for _ in 0..levels {
        words.push_str(after)?;
    }
    Ok(words)
}

/// A deep type: how many levels it has, and what stands before a word and after it at each.
type Deep = (&'static str, &'static str, &'static str);

/// Levels and two deep types, with whether the first goes to the second: lists, and lists of unions with None.
const DEEP: &[(usize, Deep, Deep, bool)] = &[
    (
        900,
        ("", "bool", " list_of"),
        ("", "bool", " list_of"),
        true,
    ),
    (
        900,
        ("", "bool", " list_of"),
        ("", "int", " list_of"),
        false,
    ),
    (
        480,
        ("", "int", " None or list_of"),
        ("", "int", " None or list_of"),
        true,
    ),
    (
        480,
        ("", "int", " None or list_of"),
        ("None ", "int", " or list_of"),
        true,
    ),
    (
        480,
        ("", "int", " None or list_of"),
        ("", "bool", " None or list_of"),
        false,
    ),
];

/// Whether one deep type goes to another.
fn deep_goes(
    alloc: Global,
    builtins: &Builtins,
    levels: usize,
    got: Deep,
    want: Deep,
) -> Result<bool, Fail> {
    let got = nested(alloc, levels, got)?;
    let want = nested(alloc, levels, want)?;
    goes(alloc, builtins, got.as_str(), want.as_str())
}

/// Asserts whether the first of each of these deep pairs goes to the second.
fn assert_deep(rt: &impl Abort, alloc: Global, builtins: &Builtins) -> Result<(), Fail> {
    for (levels, got, want, expected) in DEEP {
        let answer = deep_goes(alloc, builtins, *levels, *got, *want)?;
        assert!(rt; answer == *expected, "{got:?} to {want:?}");
    }
    Ok(())
}

/// Asserts what the builtin orders decide: of pairs of types, of deep ones, of what tests leave of types, and that they
/// do not know the class of a source.
fn assert_decided(rt: &impl Abort, alloc: Global, builtins: &Builtins) -> Result<(), Fail> {
    assert_pairs(rt, alloc, builtins)?;
    assert_each(rt, alloc, builtins)?;
    assert_deep(rt, alloc, builtins)?;
    assert_split(rt, alloc, builtins)?;
    assert!(rt; is_of_a_source(alloc, builtins, "int")?);
    Ok(())
}

/// One test makes the builtin orders, as each function that owns them is long to prove.
#[test]
fn what_the_builtin_orders_decide(rt: HostRuntime) -> Result<(), Fail> {
    assert_decided(&rt, rt.alloc(), &Builtins::new(rt.alloc())?)
}

/// Types, with how they print.
const PRINTED: &[(&str, &str)] = &[
    ("nothing", "tuple[()]"),
    ("app.int", "int"),
    ("int None pair", "tuple[int, None]"),
    ("str tuple_of", "tuple[str, ...]"),
    ("str int None or dict_of", "dict[str, int | None]"),
    ("int may_take", "Callable[[int], None]"),
    ("int takes_each", "Callable[..., None]"),
    ("Any list_of dots", "Callable[..., list[Any]]"),
    ("type:KeyError", "type[KeyError]"),
];

/// How a copy of a type prints.
fn copy_shown(alloc: Global, ty: &Ty) -> Result<String, AllocError> {
    show(alloc, &ty.clone()?)
}

/// How a copy of the type that words spell prints.
fn printed(alloc: Global, words: &str) -> Result<String, Fail> {
    Ok(copy_shown(alloc, &type_of(alloc, words)?)?)
}

#[test]
fn types_print(rt: HostRuntime) -> Result<(), Fail> {
    for (words, expected) in PRINTED {
        assert_eq!(rt; printed(rt.alloc(), words)?.as_str(), *expected);
    }
    Ok(())
}

/// Names, with what they stand for among the builtins.
const BUILTIN_NAMES: &[(&str, Option<BuiltinName>)] = &[
    ("int", Some(BuiltinName::Class(BuiltinClass::Int))),
    ("len", Some(BuiltinName::Function(FunctionResult::Int))),
    (
        "sorted",
        Some(BuiltinName::Function(FunctionResult::ListOfAny)),
    ),
    ("print", Some(BuiltinName::Function(FunctionResult::None))),
    ("reveal_type", Some(BuiltinName::RevealType)),
    ("OSError", Some(BuiltinName::Any)),
    (
        "ZeroDivisionError",
        Some(BuiltinName::Class(BuiltinClass::ZeroDivisionError)),
    ),
    ("Len", None),
    ("", None),
    ("a_name_that_is_longer_than_each_of_them", None),
];

#[test]
fn names_of_builtins(rt: HostRuntime) -> Result<(), Fail> {
    for (name, expected) in BUILTIN_NAMES {
        assert!(rt; builtin_name(name) == *expected, "{name}");
    }
    Ok(())
}
