//! The forms of types that take arguments in brackets.

ghost use Rattle.std.specs.Prelude.{◌≡◌};
ghost use Rattle.pyc_annotations.specs.Annotations as spec;

/// A form of types that takes arguments in brackets.
#[derive(Clone, Copy, Debug, PartialEq, Eq)]
pub enum TypeForm {
    List,
    Dict,
    Tuple,
    Optional,
    Union,
    Callable,
    /// `type[C]`
    Type,
}

impl TypeForm {
    /// The name of the form as messages show it.
    pub fn name(self) -> &'static str
        ensures { result.now ≡ spec.form_name self }
    {
        match self {
            TypeForm::List => "list",
            TypeForm::Dict => "dict",
            TypeForm::Tuple => "tuple",
            TypeForm::Optional => "Optional",
            TypeForm::Union => "Union",
            TypeForm::Callable => "Callable",
            TypeForm::Type => "type",
        }
    }

    /// Whether the form takes so many arguments.
    pub(crate) fn takes(self, count: usize) -> bool
        ensures { result ≡ spec.takes self count }
    {
        match self {
            TypeForm::List | TypeForm::Optional | TypeForm::Type => count == 1,
            TypeForm::Dict | TypeForm::Callable => count == 2,
            TypeForm::Tuple => true,
            TypeForm::Union => count != 0,
        }
    }
}
