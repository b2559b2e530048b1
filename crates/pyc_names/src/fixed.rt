//! Modules that are built in.

ghost use Rattle.std.specs.Prelude.{◌≡◌};
ghost use Rattle.pyc_names.specs.FixedModules as spec;

use pyc_ast::Text;

/// A module that is built in: every name of it is there. No file of a workspace stands in its place.
#[derive(Clone, Copy, Debug, PartialEq, Eq)]
pub enum FixedModule {
    Typing,
    TypingExtensions,
    Collections,
    /// `collections.abc`
    CollectionsAbc,
    Abc,
    /// `__future__`
    Future,
}

/// A name of a fixed module that is not Any.
#[derive(Clone, Copy, Debug, PartialEq, Eq)]
pub enum FixedName {
    Any,
    Optional,
    Union,
    List,
    Dict,
    Tuple,
    Callable,
    /// `cast`
    Cast,
    /// `reveal_type`
    RevealType,
    /// `TYPE_CHECKING`
    TypeChecking,
}

/// The fixed module that has these parts as its name. Takes no memory.
pub fn fixed_module(parts: &[Text]) -> Option<FixedModule>
    ensures { result ≡ spec.fixed_module parts.now }
{
    match parts {
        [name] => top_module(name.as_str()),
        [outer, name] => inner_module(outer.as_str(), name.as_str()),
        _ => None,
    }
}

/// The fixed module that has this name of one part.
fn top_module(name: &str) -> Option<FixedModule>
    ensures { result ≡ spec.top_module name.now }
{
    match name {
        "typing" => Some(FixedModule::Typing),
        "typing_extensions" => Some(FixedModule::TypingExtensions),
        "collections" => Some(FixedModule::Collections),
        "abc" => Some(FixedModule::Abc),
        "__future__" => Some(FixedModule::Future),
        _ => None,
    }
}

/// The fixed module that has these two parts as its name.
fn inner_module(outer: &str, name: &str) -> Option<FixedModule>
    ensures { result ≡ spec.inner_module outer.now name.now }
{
    if outer == "collections" && name == "abc" {
        Some(FixedModule::CollectionsAbc)
    } else {
        None
    }
}

/// What a name of a fixed module is, if it is not Any. Takes no memory.
pub fn fixed_name(module_of: FixedModule, name: &str) -> Option<FixedName>
    ensures { result ≡ spec.fixed_name module_of name.now }
{
    match module_of {
        FixedModule::Typing | FixedModule::TypingExtensions => typing_name(name),
        FixedModule::CollectionsAbc => abc_name(name),
        _ => None,
    }
}

/// What a name of `typing` is, if it is not Any.
fn typing_name(name: &str) -> Option<FixedName>
    ensures { result ≡ spec.typing_name name.now }
{
    match name {
        "Any" => Some(FixedName::Any),
        "Optional" => Some(FixedName::Optional),
        "Union" => Some(FixedName::Union),
        "List" => Some(FixedName::List),
        "Dict" => Some(FixedName::Dict),
        "Tuple" => Some(FixedName::Tuple),
        "Callable" => Some(FixedName::Callable),
        "cast" => Some(FixedName::Cast),
        "reveal_type" => Some(FixedName::RevealType),
        "TYPE_CHECKING" => Some(FixedName::TypeChecking),
        _ => None,
    }
}

/// What a name of `collections.abc` is, if it is not Any.
fn abc_name(name: &str) -> Option<FixedName>
    ensures { result ≡ spec.abc_name name.now }
{
    if name == "Callable" {
        Some(FixedName::Callable)
    } else {
        None
    }
}
