//! What names with arguments in brackets are.

ghost use Rattle.std.specs.Prelude.{◌≡◌};
ghost use Rattle.pyc_annotations.specs.Annotations as spec;
ghost use Rattle.pyc_annotations.specs.Views.{meaning_of, subscripted_of};

use crate::meaning::Meaning;
use crate::type_form::TypeForm;
use pyc_class_ids::{BuiltinClass, ClassId};
use pyc_names::FixedName;

/// What a name with arguments in brackets is.
#[derive(Drop)]
pub(crate) enum Subscripted {
    Form(TypeForm),
    /// A class whose arguments are ignored.
    Class(ClassId),
    Any,
    /// A variable, a function or a module.
    Value,
    Wrong,
}

/// A form, which is not subscripted more than once.
fn form_once(is_nested: bool, form: TypeForm) -> Subscripted
    ensures { subscripted_of result ≡ spec.form_once is_nested form }
{
    if is_nested {
        Subscripted::Wrong
    } else {
        Subscripted::Form(form)
    }
}

/// A class with arguments: those on a user's one are ignored.
fn class_with_arguments(is_nested: bool, class: ClassId) -> Subscripted
    ensures { subscripted_of result ≡ spec.class_with_arguments is_nested class }
{
    match class.as_builtin() {
        None => Subscripted::Class(class),
        Some(BuiltinClass::List) => form_once(is_nested, TypeForm::List),
        Some(BuiltinClass::Dict) => form_once(is_nested, TypeForm::Dict),
        Some(BuiltinClass::Tuple) => form_once(is_nested, TypeForm::Tuple),
        Some(_) => Subscripted::Wrong,
    }
}

/// A special name with arguments: those on Any are ignored.
fn special_with_arguments(is_nested: bool, name: FixedName) -> Subscripted
    ensures { subscripted_of result ≡ spec.special_with_arguments is_nested name }
{
    match name {
        FixedName::Any => Subscripted::Any,
        FixedName::Optional => form_once(is_nested, TypeForm::Optional),
        FixedName::Union => form_once(is_nested, TypeForm::Union),
        FixedName::List => form_once(is_nested, TypeForm::List),
        FixedName::Dict => form_once(is_nested, TypeForm::Dict),
        FixedName::Tuple => form_once(is_nested, TypeForm::Tuple),
        FixedName::Callable => form_once(is_nested, TypeForm::Callable),
        _ => Subscripted::Wrong,
    }
}

/// What a name with arguments is, by what it means.
#[tactic(auto, unfolding(crate::specs::Annotations::with_arguments))]
pub(crate) fn with_arguments(is_nested: bool, meaning: Meaning) -> Subscripted
    ensures { subscripted_of result ≡ spec.with_arguments is_nested (meaning_of meaning) }
{
    match meaning {
        Meaning::Class(class) => class_with_arguments(is_nested, class),
        Meaning::Any => Subscripted::Any,
        Meaning::Type => form_once(is_nested, TypeForm::Type),
        Meaning::Fixed(name) => special_with_arguments(is_nested, name),
        Meaning::Nothing => Subscripted::Wrong,
        _ => Subscripted::Value,
    }
}
