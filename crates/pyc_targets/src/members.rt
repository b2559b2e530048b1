//! What members of classes take.

ghost use Rattle.std.specs.Prelude.{◌≡◌, option_map};
ghost use Rattle.pyc_attributes.specs.FoundView.{found_in};
ghost use Rattle.pyc_reading.specs.Traces.{Performs};
ghost use Rattle.pyc_targets.specs.AttributeTargets as spec;
ghost use Rattle.pyc_type_forms.specs.TypeView.{ty_of};

use crate::messages::read_only;
use pyc_ast::Position;
use pyc_builtins::{FoundMember, Member, builtin_member, is_dunder};
use pyc_class_ids::{BuiltinClass, ClassId};
use pyc_obligations::AskTypes;
use pyc_reading::MemberKind;
use pyc_type_forms::Ty;
use std::alloc::{AllocError, Global};

/// Whether a name is that of a method of a builtin class, through an instance of this type.
#[tactic(auto, unfolding(crate::specs::AttributeTargets::is_builtin_method))]
pub(crate) fn is_builtin_method(owner: &Ty, name: &str) -> bool
    ensures { result ≡ spec.is_builtin_method (ty_of owner.now) name.now }
{
    is_method_of(name, builtin_class_of(owner))
}

/// The builtin class that a value of a type is an instance of.
fn builtin_class_of(ty: &Ty) -> Option<BuiltinClass>
    ensures { result ≡ spec.builtin_class_of (ty_of ty.now) }
{
    match ty {
        Ty::Instance(class) => class.as_builtin(),
        Ty::List(_) => Some(BuiltinClass::List),
        Ty::Dict(_) => Some(BuiltinClass::Dict),
        Ty::Tuple(_) => Some(BuiltinClass::Tuple),
        Ty::TupleOf(_) => Some(BuiltinClass::Tuple),
        _ => None,
    }
}

/// Whether a name is that of a method of a class, if there is one.
fn is_method_of(name: &str, class: Option<BuiltinClass>) -> bool
    ensures { result ≡ spec.is_method_of name.now class }
{
    match class {
        Some(class) => !is_dunder(name) && is_found_method(builtin_member(class, name)),
        None => false,
    }
}

/// Whether a member that was found is a method.
fn is_found_method(found: Option<FoundMember>) -> bool
    ensures { result ≡ spec.is_found_method found }
{
    match found {
        Some(found) => is_method_member(found.member),
        None => false,
    }
}

/// Whether a member of a builtin class is a method.
fn is_method_member(member: Member) -> bool
    ensures { result ≡ spec.is_method_member member }
{
    match member {
        Member::Attribute => false,
        _ => true,
    }
}

/// A member that a class declares, as a target that begins at `at`, through a value of a type.
#[derive(Clone, Copy)]
pub(crate) struct MemberTarget<'a> {
    pub(crate) alloc: Global,
    pub(crate) at: Position,
    pub(crate) owner: &'a Ty,
    pub(crate) name: &'a str,
    pub(crate) class: &'a ClassId,
}

impl MemberTarget<'_> {
    /// What the member takes, of a kind and a type.
    pub(crate) fn member_want<N: AskTypes>(
        &self,
        recorder: &mut N,
        kind: MemberKind,
        ty: Ty,
    ) -> Result<Option<Ty>, AllocError>
        ensures { Performs (option_map ty_of)
            (spec.member_want self.now.at (ty_of self.now.owner.now) self.now.name.now self.now.class.now kind
            (ty_of ty)) (N.trace recorder.old) result (N.trace recorder.new) }
    {
        match kind {
            MemberKind::Variable => Ok(Some(ty)),
            MemberKind::SettableProperty => Ok(Some(ty)),
            MemberKind::Property => self.property_want(recorder, ty),
            _ => Ok(None),
        }
    }

    /// What the member takes where it is a property of a type that has no setter.
    fn property_want<N: AskTypes>(&self, recorder: &mut N, ty: Ty) -> Result<Option<Ty>, AllocError>
        ensures { Performs (option_map ty_of)
            (spec.property_want self.now.at (ty_of self.now.owner.now) self.now.name.now self.now.class.now (ty_of ty))
            (N.trace recorder.old) result (N.trace recorder.new) }
    {
        match self.owner {
            Ty::Class(_) => Ok(Some(ty)),
            _ => read_only(self.alloc, recorder, self.at, self.name, self.class),
        }
    }
}
