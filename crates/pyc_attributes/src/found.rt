//! What values of types have under names.

ghost use Rattle.std.specs.Prelude.{◌≡◌, IfOk, codes, option_map};
ghost use Rattle.pyc_attributes.specs.Binding as binding;
ghost use Rattle.pyc_attributes.specs.FoundAttributes as spec;
ghost use Rattle.pyc_attributes.specs.FoundView.{found_in};
ghost use Rattle.pyc_obligations.specs.Asking as asked;
ghost use Rattle.pyc_reading.specs.AnswerView.{member_answer_of};
ghost use Rattle.pyc_reading.specs.Traces.{Performs};
ghost use Rattle.pyc_type_forms.specs.Types as plain;
ghost use Rattle.pyc_type_forms.specs.TypeView.{ty_of};

use crate::binding::{through_class, through_instance};
use crate::modules::module_attribute;
use pyc_builtins::{FoundMember, builtin_member, is_dunder, member_type};
use pyc_class_ids::{BuiltinClass, ClassId};
use pyc_obligations::{AskTypes, ask_member, is_unknown_class};
use pyc_reading::{MemberAnswer, MemberKind, NameAnswer};
use pyc_type_forms::Ty;
use std::alloc::{AllocError, Global};

/// What is found under a name.
#[derive(Debug, Drop)]
pub enum FoundAttribute {
    Absent,
    /// Something of this type.
    Known(Ty),
    /// A member that this class declares, of this kind; its type is as it is read.
    Member(ClassId, MemberKind, Ty),
    /// A name of a module, and what it stands for.
    Name(NameAnswer),
}

/// What a value of a type that is no union has under a name. The only error is that memory runs out.
pub fn item_attribute<N: AskTypes>(
    alloc: Global,
    recorder: &mut N,
    ty: &Ty,
    name: &str,
) -> Result<FoundAttribute, AllocError>
    ensures { Performs found_in (spec.item_attribute (ty_of ty.now) name.now) (N.trace recorder.old) result
        (N.trace recorder.new) }
{
    match ty {
        Ty::Any => Ok(FoundAttribute::Known(Ty::Any)),
        Ty::None => Ok(bare_attribute(name)),
        Ty::Module(module_path) => module_attribute(alloc, recorder, module_path, name),
        Ty::Instance(class) => of_instance(alloc, recorder, ty, class, name),
        Ty::Class(class) => of_class_object(alloc, recorder, class, name),
        Ty::List(_) => builtin_attribute(alloc, ty, BuiltinClass::List, name),
        Ty::Dict(_) => builtin_attribute(alloc, ty, BuiltinClass::Dict, name),
        Ty::Tuple(_) => builtin_attribute(alloc, ty, BuiltinClass::Tuple, name),
        Ty::TupleOf(_) => builtin_attribute(alloc, ty, BuiltinClass::Tuple, name),
        Ty::Union(_) => Ok(FoundAttribute::Known(Ty::Any)),
        Ty::Callable(_) => Ok(bare_attribute(name)),
    }
}

/// What has no attribute of its own.
fn bare_attribute(name: &str) -> FoundAttribute
    ensures { found_in result ≡ spec.bare_attribute name.now }
{
    if is_dunder(name) {
        FoundAttribute::Known(Ty::Any)
    } else {
        FoundAttribute::Absent
    }
}

/// A member of a builtin class through an instance of this type.
#[tactic(auto, unfolding(crate::specs::FoundAttributes::builtin_attribute))]
fn builtin_attribute(
    alloc: Global,
    owner: &Ty,
    class: BuiltinClass,
    name: &str,
) -> Result<FoundAttribute, AllocError>
    ensures { IfOk result (λ found. found_in found ≡ spec.builtin_attribute (ty_of owner.now) class name.now) }
{
    if is_dunder(name) {
        Ok(FoundAttribute::Known(Ty::Any))
    } else {
        builtin_found(alloc, owner, builtin_member(class, name))
    }
}

/// A member of a builtin class through an instance of this type, if there is one.
fn builtin_found(
    alloc: Global,
    owner: &Ty,
    found: Option<FoundMember>,
) -> Result<FoundAttribute, AllocError>
    ensures { IfOk result (λ attribute. found_in attribute ≡ spec.builtin_found (ty_of owner.now) found) }
{
    match found {
        Some(found) => Ok(FoundAttribute::Known(member_type(alloc, owner, found.member)?)),
        None => Ok(FoundAttribute::Absent),
    }
}

/// A member of a builtin class through its class object.
#[tactic(auto, unfolding(crate::specs::FoundAttributes::builtin_class_attribute))]
fn builtin_class_attribute(class: BuiltinClass, name: &str) -> FoundAttribute
    ensures { found_in result ≡ spec.builtin_class_attribute class name.now }
{
    if is_dunder(name) {
        FoundAttribute::Known(Ty::Any)
    } else {
        class_found(builtin_member(class, name))
    }
}

/// A member of a builtin class through its class object, if there is one.
fn class_found(found: Option<FoundMember>) -> FoundAttribute
    ensures { found_in result ≡ spec.class_found found }
{
    match found {
        Some(_) => FoundAttribute::Known(Ty::Any),
        None => FoundAttribute::Absent,
    }
}

/// What an instance of a class has under a name.
fn of_instance<N: AskTypes>(
    alloc: Global,
    recorder: &mut N,
    ty: &Ty,
    class: &ClassId,
    name: &str,
) -> Result<FoundAttribute, AllocError>
    requires { ty_of ty.now ≡ plain.instance class.now }
    ensures { Performs found_in (spec.of_instance class.now name.now) (N.trace recorder.old) result
        (N.trace recorder.new) }
{
    match class.as_builtin() {
        Some(found) => builtin_attribute(alloc, ty, found, name),
        None => instance_attribute(alloc, recorder, class, name),
    }
}

/// What the class object of a class has under a name.
fn of_class_object<N: AskTypes>(
    alloc: Global,
    recorder: &mut N,
    class: &ClassId,
    name: &str,
) -> Result<FoundAttribute, AllocError>
    ensures { Performs found_in (spec.of_class_object class.now name.now) (N.trace recorder.old) result
        (N.trace recorder.new) }
{
    match class.as_builtin() {
        Some(found) => Ok(builtin_class_attribute(found, name)),
        None => class_object_attribute(alloc, recorder, class, name),
    }
}

/// What an instance of a class of a source has under a name.
#[tactic(auto, using(crate::proofs::Steps::performing), unfolding(crate::specs::FoundAttributes::instance_attribute))]
fn instance_attribute<N: AskTypes>(
    alloc: Global,
    recorder: &mut N,
    class: &ClassId,
    name: &str,
) -> Result<FoundAttribute, AllocError>
    ensures { Performs found_in (spec.instance_attribute class.now name.now) (N.trace recorder.old) result
        (N.trace recorder.new) }
{
    let found = ask_member(alloc, recorder, class, name)?;
    instance_found(alloc, recorder, class, name, found)
}

/// What an instance of `class` has under `name`, where `found` is some member of the class.
fn instance_found<N: AskTypes>(
    alloc: Global,
    recorder: &mut N,
    class: &ClassId,
    name: &str,
    found: Option<MemberAnswer>,
) -> Result<FoundAttribute, AllocError>
    ensures { Performs found_in (spec.instance_found class.now name.now (option_map member_answer_of found))
        (N.trace recorder.old) result (N.trace recorder.new) }
{
    match found {
        Some(found) => instance_member(alloc, name, found),
        None => no_member(alloc, recorder, class, name),
    }
}

/// A member through an instance.
fn instance_member(
    alloc: Global,
    name: &str,
    found: MemberAnswer,
) -> Result<FoundAttribute, AllocError>
    ensures { IfOk result (λ attribute. found_in attribute
        ≡ spec.member_found name.now (member_answer_of found) (binding.through_instance (member_answer_of found))) }
{
    if is_dunder(name) && found.class.as_builtin().is_some() {
        return Ok(FoundAttribute::Known(Ty::Any));
    }
    let class = found.class.clone()?;
    let kind = found.kind;
    let ty = through_instance(alloc, found)?;
    Ok(FoundAttribute::Member(class, kind, ty))
}

/// A member through the class object.
fn class_member(
    alloc: Global,
    name: &str,
    found: MemberAnswer,
) -> Result<FoundAttribute, AllocError>
    ensures { IfOk result (λ attribute. found_in attribute
        ≡ spec.member_found name.now (member_answer_of found) (binding.through_class (member_answer_of found))) }
{
    if is_dunder(name) && found.class.as_builtin().is_some() {
        return Ok(FoundAttribute::Known(Ty::Any));
    }
    let class = found.class.clone()?;
    let kind = found.kind;
    let ty = through_class(alloc, found)?;
    Ok(FoundAttribute::Member(class, kind, ty))
}

/// An instance of a class that has no such member.
#[tactic(auto, using(crate::proofs::Steps::performing))]
fn no_member<N: AskTypes>(
    alloc: Global,
    recorder: &mut N,
    class: &ClassId,
    name: &str,
) -> Result<FoundAttribute, AllocError>
    ensures { Performs found_in (spec.no_member class.now name.now) (N.trace recorder.old) result
        (N.trace recorder.new) }
{
    if is_dunder(name) {
        Ok(FoundAttribute::Known(Ty::Any))
    } else {
        let is_unknown = is_unknown_class(alloc, recorder, class)?;
        let attribute = without_member(alloc, recorder, class, is_unknown)?;
        Ok(attribute)
    }
}

/// What an instance of `class` has under a name that is no member. `is_unknown` says whether the order is unknown.
#[tactic(auto, using(crate::proofs::Steps::performing))]
fn without_member<N: AskTypes>(
    alloc: Global,
    recorder: &mut N,
    class: &ClassId,
    is_unknown: bool,
) -> Result<FoundAttribute, AllocError>
    ensures { Performs found_in (spec.without_member class.now is_unknown) (N.trace recorder.old) result
        (N.trace recorder.new) }
{
    if is_unknown {
        Ok(FoundAttribute::Known(Ty::Any))
    } else {
        let found = getattr_member(alloc, recorder, class)?;
        Ok(by_getattr(found))
    }
}

/// The `__getattr__` of a class.
fn getattr_member<N: AskTypes>(
    alloc: Global,
    recorder: &mut N,
    class: &ClassId,
) -> Result<Option<MemberAnswer>, AllocError>
    ensures { Performs (option_map member_answer_of) (asked.ask_member class.now (codes "__getattr__"))
        (N.trace recorder.old) result (N.trace recorder.new) }
{
    ask_member(alloc, recorder, class, "__getattr__")
}

/// What `__getattr__` gives, if it is there.
fn by_getattr(found: Option<MemberAnswer>) -> FoundAttribute
    ensures { found_in result ≡ spec.by_getattr (option_map member_answer_of found) }
{
    match found {
        Some(_) => FoundAttribute::Known(Ty::Any),
        None => FoundAttribute::Absent,
    }
}

/// What the class object of a class of a source has under a name.
#[tactic(auto, using(crate::proofs::Steps::performing), unfolding(crate::specs::FoundAttributes::class_object_attribute))]
fn class_object_attribute<N: AskTypes>(
    alloc: Global,
    recorder: &mut N,
    class: &ClassId,
    name: &str,
) -> Result<FoundAttribute, AllocError>
    ensures { Performs found_in (spec.class_object_attribute class.now name.now) (N.trace recorder.old) result
        (N.trace recorder.new) }
{
    let found = ask_member(alloc, recorder, class, name)?;
    class_object_found(alloc, recorder, class, name, found)
}

/// What the class object of `class` has under `name`, where `found` is some member of the class.
fn class_object_found<N: AskTypes>(
    alloc: Global,
    recorder: &mut N,
    class: &ClassId,
    name: &str,
    found: Option<MemberAnswer>,
) -> Result<FoundAttribute, AllocError>
    ensures { Performs found_in (spec.class_object_found class.now name.now (option_map member_answer_of found))
        (N.trace recorder.old) result (N.trace recorder.new) }
{
    match found {
        Some(found) => class_member(alloc, name, found),
        None => no_class_member(alloc, recorder, class, name),
    }
}

/// The class object of a class that has no such member.
#[tactic(auto, using(crate::proofs::Steps::performing))]
fn no_class_member<N: AskTypes>(
    alloc: Global,
    recorder: &mut N,
    class: &ClassId,
    name: &str,
) -> Result<FoundAttribute, AllocError>
    ensures { Performs found_in (spec.no_class_member class.now name.now) (N.trace recorder.old) result
        (N.trace recorder.new) }
{
    if is_dunder(name) {
        Ok(FoundAttribute::Known(Ty::Any))
    } else {
        let is_unknown = is_unknown_class(alloc, recorder, class)?;
        Ok(absent_unless(is_unknown))
    }
}

/// Nothing, unless nothing is known.
fn absent_unless(is_unknown: bool) -> FoundAttribute
    ensures { found_in result ≡ spec.absent_unless is_unknown }
{
    if is_unknown {
        FoundAttribute::Known(Ty::Any)
    } else {
        FoundAttribute::Absent
    }
}
