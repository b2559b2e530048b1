//! The builtin classes that have an order of their own.

ghost use Rattle.std.specs.Prelude.{◌≡◌};
ghost use Rattle.pyc_class_ids.specs.BuiltinClasses.{number_of, builtin_name};

/// A builtin class that takes part in the rules. Every other name of Python's builtins is Any.
#[derive(Clone, Copy, Debug, PartialEq, Eq)]
pub enum BuiltinClass {
    Object,
    Int,
    Float,
    Str,
    Bytes,
    List,
    Dict,
    Tuple,
    BaseException,
    Bool,
    Exception,
    LookupError,
    ArithmeticError,
    ValueError,
    TypeError,
    RuntimeError,
    AssertionError,
    KeyError,
    IndexError,
    ZeroDivisionError,
    OverflowError,
    NotImplementedError,
    RecursionError,
}

impl BuiltinClass {
    /// The number of the class, from 0: two classes are one where their numbers are equal.
    pub fn number(self) -> u8
        ensures { result ≡ number_of self }
    {
        self as u8
    }

    /// The name of the class.
    pub fn name(self) -> &'static str
        ensures { result.now ≡ builtin_name self }
    {
        match self {
            BuiltinClass::Object => "object",
            BuiltinClass::Int => "int",
            BuiltinClass::Float => "float",
            BuiltinClass::Str => "str",
            BuiltinClass::Bytes => "bytes",
            BuiltinClass::List => "list",
            BuiltinClass::Dict => "dict",
            BuiltinClass::Tuple => "tuple",
            BuiltinClass::BaseException => "BaseException",
            BuiltinClass::Bool => "bool",
            BuiltinClass::Exception => "Exception",
            BuiltinClass::LookupError => "LookupError",
            BuiltinClass::ArithmeticError => "ArithmeticError",
            BuiltinClass::ValueError => "ValueError",
            BuiltinClass::TypeError => "TypeError",
            BuiltinClass::RuntimeError => "RuntimeError",
            BuiltinClass::AssertionError => "AssertionError",
            BuiltinClass::KeyError => "KeyError",
            BuiltinClass::IndexError => "IndexError",
            BuiltinClass::ZeroDivisionError => "ZeroDivisionError",
            BuiltinClass::OverflowError => "OverflowError",
            BuiltinClass::NotImplementedError => "NotImplementedError",
            BuiltinClass::RecursionError => "RecursionError",
        }
    }
}
