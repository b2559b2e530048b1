//! The members of the builtin classes.

ghost use Rattle.std.specs.Prelude.{◌≡◌};
ghost use Rattle.pyc_builtins.specs.Tables.{lookup};
ghost use Rattle.pyc_builtins.specs.Members as spec;

use crate::chains::{CHAINS, place_of};
use crate::tables::value_in;
use pyc_class_ids::BuiltinClass;

/// A member of a builtin class.
#[derive(Clone, Copy, Debug, PartialEq, Eq)]
pub enum Member {
    /// An attribute: its type is Any.
    Attribute,
    /// A method that takes any arguments, and what it gives.
    Method(MethodResult),
    /// The method `append` of a list: it takes an item, and gives None.
    Append,
}

/// What a method of a builtin class gives.
#[derive(Clone, Copy, Debug, PartialEq, Eq)]
pub enum MethodResult {
    Any,
    None,
    Int,
    Str,
    Bool,
    Bytes,
    /// `list[str]`
    ListOfStr,
    /// `tuple[str, str, str]`
    ThreeStrs,
    /// An item of the list: `T` for `list[T]`.
    Item,
    /// A list of such items: `list[T]` for `list[T]`.
    ListOfItems,
    /// A value of the dictionary: `V` for `dict[K, V]`.
    Value,
    /// A key with its value: `tuple[K, V]` for `dict[K, V]`.
    Pair,
    /// A dictionary of such pairs: `dict[K, V]` for `dict[K, V]`.
    DictOfPairs,
}

/// A member with the class that has it.
#[derive(Clone, Copy, Debug, PartialEq, Eq)]
pub struct FoundMember {
    pub class: BuiltinClass,
    pub member: Member,
}

/// The methods of str whose names have four characters.
const OF_FOUR: [(&[u8], Member); 2] = [
    (b"join", Member::Method(MethodResult::Str)),
    (b"find", Member::Method(MethodResult::Int)),
];

/// The methods of str whose names have five characters.
const OF_FIVE: [(&[u8], Member); 11] = [
    (b"ljust", Member::Method(MethodResult::Str)),
    (b"lower", Member::Method(MethodResult::Str)),
    (b"rjust", Member::Method(MethodResult::Str)),
    (b"strip", Member::Method(MethodResult::Str)),
    (b"title", Member::Method(MethodResult::Str)),
    (b"upper", Member::Method(MethodResult::Str)),
    (b"zfill", Member::Method(MethodResult::Str)),
    (b"count", Member::Method(MethodResult::Int)),
    (b"index", Member::Method(MethodResult::Int)),
    (b"rfind", Member::Method(MethodResult::Int)),
    (b"split", Member::Method(MethodResult::ListOfStr)),
];

/// The methods of str whose names have six characters.
const OF_SIX: [(&[u8], Member); 7] = [
    (b"center", Member::Method(MethodResult::Str)),
    (b"format", Member::Method(MethodResult::Str)),
    (b"lstrip", Member::Method(MethodResult::Str)),
    (b"rstrip", Member::Method(MethodResult::Str)),
    (b"rindex", Member::Method(MethodResult::Int)),
    (b"rsplit", Member::Method(MethodResult::ListOfStr)),
    (b"encode", Member::Method(MethodResult::Bytes)),
];

/// The methods of str whose names have seven characters.
const OF_SEVEN: [(&[u8], Member); 9] = [
    (b"replace", Member::Method(MethodResult::Str)),
    (b"isalnum", Member::Method(MethodResult::Bool)),
    (b"isalpha", Member::Method(MethodResult::Bool)),
    (b"isascii", Member::Method(MethodResult::Bool)),
    (b"isdigit", Member::Method(MethodResult::Bool)),
    (b"islower", Member::Method(MethodResult::Bool)),
    (b"isspace", Member::Method(MethodResult::Bool)),
    (b"istitle", Member::Method(MethodResult::Bool)),
    (b"isupper", Member::Method(MethodResult::Bool)),
];

/// The methods of str whose names have eight characters.
const OF_EIGHT: [(&[u8], Member); 3] = [
    (b"casefold", Member::Method(MethodResult::Str)),
    (b"swapcase", Member::Method(MethodResult::Str)),
    (b"endswith", Member::Method(MethodResult::Bool)),
];

/// The methods of str whose names have nine characters.
const OF_NINE: [(&[u8], Member); 5] = [
    (b"translate", Member::Method(MethodResult::Str)),
    (b"isdecimal", Member::Method(MethodResult::Bool)),
    (b"isnumeric", Member::Method(MethodResult::Bool)),
    (b"partition", Member::Method(MethodResult::ThreeStrs)),
    (b"maketrans", Member::Method(MethodResult::Any)),
];

/// The methods of str whose names have ten characters.
const OF_TEN: [(&[u8], Member); 6] = [
    (b"capitalize", Member::Method(MethodResult::Str)),
    (b"expandtabs", Member::Method(MethodResult::Str)),
    (b"format_map", Member::Method(MethodResult::Str)),
    (b"startswith", Member::Method(MethodResult::Bool)),
    (b"splitlines", Member::Method(MethodResult::ListOfStr)),
    (b"rpartition", Member::Method(MethodResult::ThreeStrs)),
];

/// The methods of str whose names have eleven characters.
const OF_ELEVEN: [(&[u8], Member); 1] = [(b"isprintable", Member::Method(MethodResult::Bool))];

/// The methods of str whose names have twelve characters.
const OF_TWELVE: [(&[u8], Member); 3] = [
    (b"removeprefix", Member::Method(MethodResult::Str)),
    (b"removesuffix", Member::Method(MethodResult::Str)),
    (b"isidentifier", Member::Method(MethodResult::Bool)),
];

/// The members of int and float.
const OF_NUMBERS: [(&[u8], Member); 13] = [
    (b"as_integer_ratio", Member::Attribute),
    (b"bit_count", Member::Attribute),
    (b"bit_length", Member::Attribute),
    (b"conjugate", Member::Attribute),
    (b"denominator", Member::Attribute),
    (b"from_bytes", Member::Attribute),
    (b"fromhex", Member::Attribute),
    (b"hex", Member::Attribute),
    (b"imag", Member::Attribute),
    (b"is_integer", Member::Attribute),
    (b"numerator", Member::Attribute),
    (b"real", Member::Attribute),
    (b"to_bytes", Member::Attribute),
];

/// The members of list.
const OF_LIST: [(&[u8], Member); 11] = [
    (b"append", Member::Append),
    (b"extend", Member::Method(MethodResult::None)),
    (b"insert", Member::Method(MethodResult::None)),
    (b"remove", Member::Method(MethodResult::None)),
    (b"sort", Member::Method(MethodResult::None)),
    (b"reverse", Member::Method(MethodResult::None)),
    (b"clear", Member::Method(MethodResult::None)),
    (b"pop", Member::Method(MethodResult::Item)),
    (b"index", Member::Method(MethodResult::Int)),
    (b"count", Member::Method(MethodResult::Int)),
    (b"copy", Member::Method(MethodResult::ListOfItems)),
];

/// The members of dict.
const OF_DICT: [(&[u8], Member); 11] = [
    (b"get", Member::Method(MethodResult::Any)),
    (b"pop", Member::Method(MethodResult::Any)),
    (b"keys", Member::Method(MethodResult::Any)),
    (b"values", Member::Method(MethodResult::Any)),
    (b"items", Member::Method(MethodResult::Any)),
    (b"fromkeys", Member::Method(MethodResult::Any)),
    (b"setdefault", Member::Method(MethodResult::Value)),
    (b"popitem", Member::Method(MethodResult::Pair)),
    (b"update", Member::Method(MethodResult::None)),
    (b"clear", Member::Method(MethodResult::None)),
    (b"copy", Member::Method(MethodResult::DictOfPairs)),
];

/// The members of tuple.
const OF_TUPLE: [(&[u8], Member); 2] = [
    (b"count", Member::Method(MethodResult::Int)),
    (b"index", Member::Method(MethodResult::Int)),
];

/// The members of BaseException.
const OF_EXCEPTIONS: [(&[u8], Member); 3] = [
    (b"args", Member::Attribute),
    (b"with_traceback", Member::Attribute),
    (b"add_note", Member::Attribute),
];

/// What str has under the name of these bytes.
fn str_member(name: &[u8]) -> Option<Member>
    ensures { result ≡ lookup spec.str_members name.now }
{
    match name.len() {
        4 => value_in(&OF_FOUR, name),
        5 => value_in(&OF_FIVE, name),
        6 => value_in(&OF_SIX, name),
        7 => value_in(&OF_SEVEN, name),
        8 => value_in(&OF_EIGHT, name),
        9 => value_in(&OF_NINE, name),
        10 => value_in(&OF_TEN, name),
        11 => value_in(&OF_ELEVEN, name),
        12 => value_in(&OF_TWELVE, name),
        _ => None,
    }
}

/// Whether a name is underscored at both ends: it has at least four characters, with `__` at its front and at its end.
pub fn is_dunder(name: &str) -> bool
    ensures { result ≡ spec.is_dunder name.now }
{
    let bytes = name.as_bytes();
    bytes.len() >= 4 && bytes.starts_with(b"__") && bytes.ends_with(b"__")
}

/// What bytes has under this name: all that is not underscored at both ends.
fn bytes_member(name: &str) -> Option<Member>
    ensures { result ≡ spec.bytes_member name.now }
{
    if is_dunder(name) {
        None
    } else {
        Some(Member::Attribute)
    }
}

/// The member of that name that the class itself has, whatever its bases have. Takes no memory.
#[tactic(auto, unfolding(crate::specs::Members::number_members, crate::specs::Members::list_members, crate::specs::Members::dict_members, crate::specs::Members::tuple_members, crate::specs::Members::exception_members))]
pub fn own_member(class: BuiltinClass, name: &str) -> Option<Member>
    ensures { result ≡ spec.own_member class name.now }
{
    let bytes = name.as_bytes();
    match class {
        BuiltinClass::Str => str_member(bytes),
        BuiltinClass::Int | BuiltinClass::Float => value_in(&OF_NUMBERS, bytes),
        BuiltinClass::Bytes => bytes_member(name),
        BuiltinClass::List => value_in(&OF_LIST, bytes),
        BuiltinClass::Dict => value_in(&OF_DICT, bytes),
        BuiltinClass::Tuple => value_in(&OF_TUPLE, bytes),
        BuiltinClass::BaseException => value_in(&OF_EXCEPTIONS, bytes),
        _ => None,
    }
}

/// The member of that name in the first of these classes that has one itself.
fn first_member(mut classes: &[BuiltinClass], name: &str) -> Option<FoundMember>
    ensures { result ≡ spec.first_member classes.entry.now name.now }
{
    while let [class, rest @ ..] = classes {
        if let Some(member) = own_member(*class, name) {
            return Some(FoundMember {
                class: *class,
                member,
            });
        }
        classes = rest;
    }
    None
}

/// The member of that name of a builtin class: that of the first class in its order that has one itself. Takes no
/// memory.
pub fn builtin_member(class: BuiltinClass, name: &str) -> Option<FoundMember>
    ensures { result ≡ spec.builtin_member class name.now }
{
    let (start, end) = place_of(class);
    first_member(&CHAINS[start..end], name)
}
