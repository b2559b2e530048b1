//! What the names of Python's builtins stand for.

ghost use Rattle.std.specs.Prelude.{◌≡◌};
ghost use Rattle.pyc_builtins.specs.Names as spec;

use crate::tables::value_in;
use pyc_class_ids::BuiltinClass;

/// What a name of Python's builtins stands for.
#[derive(Clone, Copy, Debug, PartialEq, Eq)]
pub enum BuiltinName {
    /// A builtin class with an order of its own.
    Class(BuiltinClass),
    /// A function that takes any arguments.
    Function(FunctionResult),
    /// The function `reveal_type`.
    RevealType,
    /// Any other builtin: its type is Any.
    Any,
}

/// What a call of a builtin function gives.
#[derive(Clone, Copy, Debug, PartialEq, Eq)]
pub enum FunctionResult {
    Int,
    Str,
    Bool,
    None,
    /// `list[Any]`
    ListOfAny,
}

/// The builtins whose names have two characters.
const OF_TWO: [(&[u8], BuiltinName); 1] = [(b"id", BuiltinName::Function(FunctionResult::Int))];

/// The builtins whose names have three characters.
const OF_THREE: [(&[u8], BuiltinName); 19] = [
    (b"int", BuiltinName::Class(BuiltinClass::Int)),
    (b"str", BuiltinName::Class(BuiltinClass::Str)),
    (b"len", BuiltinName::Function(FunctionResult::Int)),
    (b"ord", BuiltinName::Function(FunctionResult::Int)),
    (b"chr", BuiltinName::Function(FunctionResult::Str)),
    (b"hex", BuiltinName::Function(FunctionResult::Str)),
    (b"oct", BuiltinName::Function(FunctionResult::Str)),
    (b"bin", BuiltinName::Function(FunctionResult::Str)),
    (b"abs", BuiltinName::Any),
    (b"all", BuiltinName::Any),
    (b"any", BuiltinName::Any),
    (b"dir", BuiltinName::Any),
    (b"map", BuiltinName::Any),
    (b"max", BuiltinName::Any),
    (b"min", BuiltinName::Any),
    (b"pow", BuiltinName::Any),
    (b"set", BuiltinName::Any),
    (b"sum", BuiltinName::Any),
    (b"zip", BuiltinName::Any),
];

/// The builtins whose names have four characters.
const OF_FOUR: [(&[u8], BuiltinName); 15] = [
    (b"list", BuiltinName::Class(BuiltinClass::List)),
    (b"dict", BuiltinName::Class(BuiltinClass::Dict)),
    (b"bool", BuiltinName::Class(BuiltinClass::Bool)),
    (b"hash", BuiltinName::Function(FunctionResult::Int)),
    (b"repr", BuiltinName::Function(FunctionResult::Str)),
    (b"eval", BuiltinName::Any),
    (b"exec", BuiltinName::Any),
    (b"exit", BuiltinName::Any),
    (b"help", BuiltinName::Any),
    (b"iter", BuiltinName::Any),
    (b"next", BuiltinName::Any),
    (b"open", BuiltinName::Any),
    (b"quit", BuiltinName::Any),
    (b"type", BuiltinName::Any),
    (b"vars", BuiltinName::Any),
];

/// The builtins whose names have five characters.
const OF_FIVE: [(&[u8], BuiltinName); 12] = [
    (b"float", BuiltinName::Class(BuiltinClass::Float)),
    (b"bytes", BuiltinName::Class(BuiltinClass::Bytes)),
    (b"tuple", BuiltinName::Class(BuiltinClass::Tuple)),
    (b"input", BuiltinName::Function(FunctionResult::Str)),
    (b"ascii", BuiltinName::Function(FunctionResult::Str)),
    (b"print", BuiltinName::Function(FunctionResult::None)),
    (b"aiter", BuiltinName::Any),
    (b"anext", BuiltinName::Any),
    (b"range", BuiltinName::Any),
    (b"round", BuiltinName::Any),
    (b"slice", BuiltinName::Any),
    (b"super", BuiltinName::Any),
];

/// The builtins whose names have six characters.
const OF_SIX: [(&[u8], BuiltinName); 6] = [
    (b"object", BuiltinName::Class(BuiltinClass::Object)),
    (b"format", BuiltinName::Function(FunctionResult::Str)),
    (b"sorted", BuiltinName::Function(FunctionResult::ListOfAny)),
    (b"divmod", BuiltinName::Any),
    (b"filter", BuiltinName::Any),
    (b"locals", BuiltinName::Any),
];

/// The builtins whose names have seven characters.
const OF_SEVEN: [(&[u8], BuiltinName); 12] = [
    (b"hasattr", BuiltinName::Function(FunctionResult::Bool)),
    (b"compile", BuiltinName::Any),
    (b"complex", BuiltinName::Any),
    (b"delattr", BuiltinName::Any),
    (b"getattr", BuiltinName::Any),
    (b"globals", BuiltinName::Any),
    (b"setattr", BuiltinName::Any),
    (b"credits", BuiltinName::Any),
    (b"license", BuiltinName::Any),
    (b"IOError", BuiltinName::Any),
    (b"OSError", BuiltinName::Any),
    (b"Warning", BuiltinName::Any),
];

/// The builtins whose names have eight characters.
const OF_EIGHT: [(&[u8], BuiltinName); 7] = [
    (b"KeyError", BuiltinName::Class(BuiltinClass::KeyError)),
    (b"callable", BuiltinName::Function(FunctionResult::Bool)),
    (b"property", BuiltinName::Any),
    (b"reversed", BuiltinName::Any),
    (b"Ellipsis", BuiltinName::Any),
    (b"EOFError", BuiltinName::Any),
    (b"TabError", BuiltinName::Any),
];

/// The builtins whose names have nine characters.
const OF_NINE: [(&[u8], BuiltinName); 7] = [
    (b"Exception", BuiltinName::Class(BuiltinClass::Exception)),
    (b"TypeError", BuiltinName::Class(BuiltinClass::TypeError)),
    (b"bytearray", BuiltinName::Any),
    (b"enumerate", BuiltinName::Any),
    (b"frozenset", BuiltinName::Any),
    (b"copyright", BuiltinName::Any),
    (b"NameError", BuiltinName::Any),
];

/// The builtins whose names have ten characters.
const OF_TEN: [(&[u8], BuiltinName); 7] = [
    (b"ValueError", BuiltinName::Class(BuiltinClass::ValueError)),
    (b"IndexError", BuiltinName::Class(BuiltinClass::IndexError)),
    (b"isinstance", BuiltinName::Function(FunctionResult::Bool)),
    (b"issubclass", BuiltinName::Function(FunctionResult::Bool)),
    (b"breakpoint", BuiltinName::Any),
    (b"memoryview", BuiltinName::Any),
    (b"SystemExit", BuiltinName::Any),
];

/// The builtins whose names have eleven characters.
const OF_ELEVEN: [(&[u8], BuiltinName); 9] = [
    (
        b"LookupError",
        BuiltinName::Class(BuiltinClass::LookupError),
    ),
    (b"reveal_type", BuiltinName::RevealType),
    (b"classmethod", BuiltinName::Any),
    (b"BufferError", BuiltinName::Any),
    (b"ImportError", BuiltinName::Any),
    (b"MemoryError", BuiltinName::Any),
    (b"SyntaxError", BuiltinName::Any),
    (b"SystemError", BuiltinName::Any),
    (b"UserWarning", BuiltinName::Any),
];

/// The builtins whose names have twelve characters.
const OF_TWELVE: [(&[u8], BuiltinName); 5] = [
    (
        b"RuntimeError",
        BuiltinName::Class(BuiltinClass::RuntimeError),
    ),
    (b"staticmethod", BuiltinName::Any),
    (b"BytesWarning", BuiltinName::Any),
    (b"TimeoutError", BuiltinName::Any),
    (b"UnicodeError", BuiltinName::Any),
];

/// The builtins whose names have thirteen characters.
const OF_THIRTEEN: [(&[u8], BuiltinName); 7] = [
    (
        b"BaseException",
        BuiltinName::Class(BuiltinClass::BaseException),
    ),
    (
        b"OverflowError",
        BuiltinName::Class(BuiltinClass::OverflowError),
    ),
    (b"FutureWarning", BuiltinName::Any),
    (b"GeneratorExit", BuiltinName::Any),
    (b"ImportWarning", BuiltinName::Any),
    (b"StopIteration", BuiltinName::Any),
    (b"SyntaxWarning", BuiltinName::Any),
];

/// The builtins whose names have fourteen characters.
const OF_FOURTEEN: [(&[u8], BuiltinName); 8] = [
    (
        b"AssertionError",
        BuiltinName::Class(BuiltinClass::AssertionError),
    ),
    (
        b"RecursionError",
        BuiltinName::Class(BuiltinClass::RecursionError),
    ),
    (b"NotImplemented", BuiltinName::Any),
    (b"AttributeError", BuiltinName::Any),
    (b"ExceptionGroup", BuiltinName::Any),
    (b"ReferenceError", BuiltinName::Any),
    (b"RuntimeWarning", BuiltinName::Any),
    (b"UnicodeWarning", BuiltinName::Any),
];

/// The builtins whose names have fifteen characters.
const OF_FIFTEEN: [(&[u8], BuiltinName); 8] = [
    (
        b"ArithmeticError",
        BuiltinName::Class(BuiltinClass::ArithmeticError),
    ),
    (b"BlockingIOError", BuiltinName::Any),
    (b"BrokenPipeError", BuiltinName::Any),
    (b"ConnectionError", BuiltinName::Any),
    (b"EncodingWarning", BuiltinName::Any),
    (b"FileExistsError", BuiltinName::Any),
    (b"PermissionError", BuiltinName::Any),
    (b"ResourceWarning", BuiltinName::Any),
];

/// The builtins whose names have sixteen characters.
const OF_SIXTEEN: [(&[u8], BuiltinName); 3] = [
    (b"EnvironmentError", BuiltinName::Any),
    (b"IndentationError", BuiltinName::Any),
    (b"InterruptedError", BuiltinName::Any),
];

/// The builtins whose names have seventeen characters.
const OF_SEVENTEEN: [(&[u8], BuiltinName); 6] = [
    (
        b"ZeroDivisionError",
        BuiltinName::Class(BuiltinClass::ZeroDivisionError),
    ),
    (b"ChildProcessError", BuiltinName::Any),
    (b"FileNotFoundError", BuiltinName::Any),
    (b"IsADirectoryError", BuiltinName::Any),
    (b"KeyboardInterrupt", BuiltinName::Any),
    (b"UnboundLocalError", BuiltinName::Any),
];

/// The builtins whose names have eighteen characters.
const OF_EIGHTEEN: [(&[u8], BuiltinName); 8] = [
    (b"BaseExceptionGroup", BuiltinName::Any),
    (b"DeprecationWarning", BuiltinName::Any),
    (b"FloatingPointError", BuiltinName::Any),
    (b"NotADirectoryError", BuiltinName::Any),
    (b"ProcessLookupError", BuiltinName::Any),
    (b"StopAsyncIteration", BuiltinName::Any),
    (b"UnicodeDecodeError", BuiltinName::Any),
    (b"UnicodeEncodeError", BuiltinName::Any),
];

/// The builtins whose names have nineteen characters.
const OF_NINETEEN: [(&[u8], BuiltinName); 2] = [
    (
        b"NotImplementedError",
        BuiltinName::Class(BuiltinClass::NotImplementedError),
    ),
    (b"ModuleNotFoundError", BuiltinName::Any),
];

/// The builtins whose names have twenty characters.
const OF_TWENTY: [(&[u8], BuiltinName); 1] = [(b"ConnectionResetError", BuiltinName::Any)];

/// The builtins whose names have twenty-one characters.
const OF_TWENTY_ONE: [(&[u8], BuiltinName); 1] = [(b"UnicodeTranslateError", BuiltinName::Any)];

/// The builtins whose names have twenty-two characters.
const OF_TWENTY_TWO: [(&[u8], BuiltinName); 2] = [
    (b"ConnectionAbortedError", BuiltinName::Any),
    (b"ConnectionRefusedError", BuiltinName::Any),
];

/// The builtins whose names have twenty-three characters.
const OF_TWENTY_THREE: [(&[u8], BuiltinName); 1] = [(b"PythonFinalizationError", BuiltinName::Any)];

/// The builtins whose names have twenty-five characters.
const OF_TWENTY_FIVE: [(&[u8], BuiltinName); 1] = [(
    b"PendingDeprecationWarning",
    BuiltinName::Any,
)];

/// What the name of these bytes stands for.
fn name_of_bytes(name: &[u8]) -> Option<BuiltinName>
    ensures { result ≡ spec.builtin_name name.now }
{
    match name.len() {
        2 => value_in(&OF_TWO, name),
        3 => value_in(&OF_THREE, name),
        4 => value_in(&OF_FOUR, name),
        5 => value_in(&OF_FIVE, name),
        6 => value_in(&OF_SIX, name),
        7 => value_in(&OF_SEVEN, name),
        8 => value_in(&OF_EIGHT, name),
        9 => value_in(&OF_NINE, name),
        10 => value_in(&OF_TEN, name),
        11 => value_in(&OF_ELEVEN, name),
        12 => value_in(&OF_TWELVE, name),
        13 => value_in(&OF_THIRTEEN, name),
        14 => value_in(&OF_FOURTEEN, name),
        15 => value_in(&OF_FIFTEEN, name),
        16 => value_in(&OF_SIXTEEN, name),
        17 => value_in(&OF_SEVENTEEN, name),
        18 => value_in(&OF_EIGHTEEN, name),
        19 => value_in(&OF_NINETEEN, name),
        20 => value_in(&OF_TWENTY, name),
        21 => value_in(&OF_TWENTY_ONE, name),
        22 => value_in(&OF_TWENTY_TWO, name),
        23 => value_in(&OF_TWENTY_THREE, name),
        25 => value_in(&OF_TWENTY_FIVE, name),
        _ => None,
    }
}

/// What a name stands for, if it is one of Python's builtins. Takes no memory.
pub fn builtin_name(name: &str) -> Option<BuiltinName>
    ensures { result ≡ spec.builtin_name name.now }
{
    name_of_bytes(name.as_bytes())
}
