//! What names mean where types and bases are written.

ghost use Rattle.std.specs.Prelude.{◌≡◌, IfOk};
ghost use Rattle.pyc_annotations.specs.Annotations as rule;
ghost use Rattle.pyc_annotations.specs.Meanings as spec;
ghost use Rattle.pyc_annotations.specs.Views.{meaning_of};
ghost use Rattle.pyc_reading.specs.AnswerView.{answer_in, kind_of};
ghost use Rattle.pyc_type_forms.specs.TypeView.{ty_of};

use pyc_builtins::BuiltinName;
use pyc_class_ids::ClassId;
use pyc_names::{FixedName, ModuleName};
use pyc_reading::{Answer, NameKind};
use pyc_type_forms::Ty;
use std::alloc::AllocError;

/// What a name means where a type is written.
#[derive(Drop)]
pub enum Meaning {
    Class(ClassId),
    /// Any, or a thing of which nothing is known.
    Any,
    /// The builtin class `type`.
    Type,
    /// A name of a fixed module that is not Any.
    Fixed(FixedName),
    Module(ModuleName),
    /// A variable, and whether its type is Any.
    Variable(bool),
    /// A function, and whether its type is Any.
    Function(bool),
    /// A thing that no type is.
    Nothing,
}

/// What a name stands for where it is written.
#[derive(Clone, Copy, Debug, PartialEq, Eq)]
pub enum Role {
    Annotation,
    /// The base of a class, where a variable or a function of type Any is Any.
    Base,
}

impl Role {
    /// Whether it is a base.
    pub(crate) fn is_base(self) -> bool
        ensures { result ≡ rule.is_base self }
    {
        match self {
            Role::Annotation => false,
            Role::Base => true,
        }
    }
}

/// Whether a type is Any.
fn is_any(ty: &Ty) -> bool
    ensures { result ≡ spec.is_any (ty_of ty.now) }
{
    match ty {
        Ty::Any => true,
        _ => false,
    }
}

/// The class whose class object a type is.
fn class_in(ty: &Ty) -> Result<Meaning, AllocError>
    ensures { IfOk result (λ meant. meaning_of meant ≡ spec.class_in (ty_of ty.now)) }
{
    match ty {
        Ty::Class(class) => Ok(Meaning::Class(class.clone()?)),
        _ => Ok(Meaning::Any),
    }
}

/// What a variable without an annotation means, by whether its type is Any.
fn unannotated(is_any: bool) -> Meaning
    ensures { meaning_of result ≡ spec.unannotated is_any }
{
    if is_any {
        Meaning::Any
    } else {
        Meaning::Variable(false)
    }
}

/// What a thing of this kind and type means.
pub(crate) fn kind_meaning(kind: NameKind, ty: &Ty) -> Result<Meaning, AllocError>
    ensures { IfOk result (λ meant. meaning_of meant ≡ spec.kind_meaning (kind_of kind) (ty_of ty.now)) }
{
    Ok(match kind {
        NameKind::AnnotatedVariable => Meaning::Variable(is_any(ty)),
        NameKind::Variable => unannotated(is_any(ty)),
        NameKind::Function => Meaning::Function(is_any(ty)),
        NameKind::Class => class_in(ty)?,
        NameKind::Module(module_path) => Meaning::Module(module_path),
        NameKind::Fixed(name) => Meaning::Fixed(name),
        _ => Meaning::Any,
    })
}

/// What the answer to a key of a name means.
pub(crate) fn answer_meaning(answer: Answer) -> Result<Meaning, AllocError>
    ensures { IfOk result (λ meant. meaning_of meant ≡ spec.answer_meaning (answer_in answer)) }
{
    match answer {
        Answer::Name(found) => kind_meaning(found.kind, &found.ty),
        Answer::Presence(_) | Answer::Mro(_) | Answer::Member(_) | Answer::Export(_) => {
            Ok(Meaning::Any)
        }
    }
}

/// What a name of a fixed module means.
pub(crate) fn fixed_meaning(found: Option<FixedName>) -> Meaning
    ensures { meaning_of result ≡ spec.fixed_meaning found }
{
    match found {
        Some(name) => Meaning::Fixed(name),
        None => Meaning::Any,
    }
}

/// What a builtin means.
pub(crate) fn builtin_meaning(found: BuiltinName) -> Meaning
    ensures { meaning_of result ≡ spec.builtin_meaning found }
{
    match found {
        BuiltinName::Class(class) => Meaning::Class(ClassId::builtin(class)),
        BuiltinName::Function(_) => Meaning::Function(false),
        BuiltinName::RevealType => Meaning::Function(true),
        _ => Meaning::Any,
    }
}
