//! The chains of the builtin classes, from each class that is no base up to `object`.

ghost use Rattle.std.specs.Prelude.{◌≡◌, ◌≤◌, ◌-◌, take, drop};
ghost use Rattle.pyc_builtins.specs.MroTable.{builtin_order, chains};

use pyc_class_ids::BuiltinClass;

/// The chains, one after another.
pub(crate) const CHAINS: [BuiltinClass; 57] = [
    BuiltinClass::Float,
    BuiltinClass::Object,
    BuiltinClass::Str,
    BuiltinClass::Object,
    BuiltinClass::Bytes,
    BuiltinClass::Object,
    BuiltinClass::List,
    BuiltinClass::Object,
    BuiltinClass::Dict,
    BuiltinClass::Object,
    BuiltinClass::Tuple,
    BuiltinClass::Object,
    BuiltinClass::Bool,
    BuiltinClass::Int,
    BuiltinClass::Object,
    BuiltinClass::ValueError,
    BuiltinClass::Exception,
    BuiltinClass::BaseException,
    BuiltinClass::Object,
    BuiltinClass::TypeError,
    BuiltinClass::Exception,
    BuiltinClass::BaseException,
    BuiltinClass::Object,
    BuiltinClass::AssertionError,
    BuiltinClass::Exception,
    BuiltinClass::BaseException,
    BuiltinClass::Object,
    BuiltinClass::KeyError,
    BuiltinClass::LookupError,
    BuiltinClass::Exception,
    BuiltinClass::BaseException,
    BuiltinClass::Object,
    BuiltinClass::IndexError,
    BuiltinClass::LookupError,
    BuiltinClass::Exception,
    BuiltinClass::BaseException,
    BuiltinClass::Object,
    BuiltinClass::ZeroDivisionError,
    BuiltinClass::ArithmeticError,
    BuiltinClass::Exception,
    BuiltinClass::BaseException,
    BuiltinClass::Object,
    BuiltinClass::OverflowError,
    BuiltinClass::ArithmeticError,
    BuiltinClass::Exception,
    BuiltinClass::BaseException,
    BuiltinClass::Object,
    BuiltinClass::NotImplementedError,
    BuiltinClass::RuntimeError,
    BuiltinClass::Exception,
    BuiltinClass::BaseException,
    BuiltinClass::Object,
    BuiltinClass::RecursionError,
    BuiltinClass::RuntimeError,
    BuiltinClass::Exception,
    BuiltinClass::BaseException,
    BuiltinClass::Object,
];

/// Where the order of a class stands in the chains: where it begins, and where it ends.
pub(crate) fn place_of(class: BuiltinClass) -> (usize, usize)
    ensures order { take (result.1 - result.0) (drop result.0 chains) ≡ builtin_order class }
    ensures forward { result.0 ≤ result.1 }
    ensures within { result.1 ≤ 57 }
{
    match class {
        BuiltinClass::Object => (1, 2),
        BuiltinClass::Int => (13, 15),
        BuiltinClass::Float => (0, 2),
        BuiltinClass::Str => (2, 4),
        BuiltinClass::Bytes => (4, 6),
        BuiltinClass::List => (6, 8),
        BuiltinClass::Dict => (8, 10),
        BuiltinClass::Tuple => (10, 12),
        BuiltinClass::BaseException => (17, 19),
        BuiltinClass::Bool => (12, 15),
        BuiltinClass::Exception => (16, 19),
        BuiltinClass::LookupError => (28, 32),
        BuiltinClass::ArithmeticError => (38, 42),
        BuiltinClass::ValueError => (15, 19),
        BuiltinClass::TypeError => (19, 23),
        BuiltinClass::RuntimeError => (48, 52),
        BuiltinClass::AssertionError => (23, 27),
        BuiltinClass::KeyError => (27, 32),
        BuiltinClass::IndexError => (32, 37),
        BuiltinClass::ZeroDivisionError => (37, 42),
        BuiltinClass::OverflowError => (42, 47),
        BuiltinClass::NotImplementedError => (47, 52),
        BuiltinClass::RecursionError => (52, 57),
    }
}
