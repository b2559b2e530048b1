//! What subscripts and iterations go by.

ghost use Rattle.std.specs.Prelude.{◌≡◌, IfOk, codes, option_map};
ghost use Rattle.pyc_class_ids.specs.Mro.{order_of};
ghost use Rattle.pyc_subscripts.specs.Owners as spec;
ghost use Rattle.pyc_subscripts.specs.OwnerView.{owner_of};
ghost use Rattle.pyc_obligations.specs.Asking as asking;
ghost use Rattle.pyc_reading.specs.AnswerView.{answer_in, class_order_of, member_answer_of};
ghost use Rattle.pyc_reading.specs.Owing.{order_in};
ghost use Rattle.pyc_reading.specs.Traces.{Performs};
ghost use Rattle.pyc_type_forms.specs.TypeView.{ty_of};

use pyc_attributes::through_instance;
use pyc_class_ids::{BuiltinClass, ClassId, Lin};
use pyc_obligations::{AskTypes, ask_member};
use pyc_reading::{Answer, Key, MemberAnswer, MroAnswer};
use pyc_type_forms::Ty;
use std::alloc::{AllocError, Global};

/// What a value goes by.
#[derive(Debug, Drop)]
pub(crate) enum Owner {
    /// Nothing is known of it.
    Unknown,
    /// A method that gives this.
    Method(Ty),
    /// A builtin type.
    Builtin(Ty),
    Nothing,
}

/// What the instances of a class count as.
#[derive(Clone, Copy, Debug, PartialEq, Eq)]
pub(crate) enum Counts {
    /// The order of the class is not known.
    Unknown,
    Str,
    Bytes,
    Other,
}

/// What a subscript of a value of a type that is no union goes by.
pub(crate) fn subscript_owner<N: AskTypes>(
    alloc: Global,
    recorder: &mut N,
    ty: &Ty,
) -> Result<Owner, AllocError>
    ensures { Performs owner_of (spec.subscript_owner (ty_of ty.now)) (N.trace recorder.old) result
        (N.trace recorder.new) }
{
    match ty {
        Ty::Any => Ok(Owner::Unknown),
        Ty::None => Ok(Owner::Nothing),
        Ty::Module(_) => Ok(Owner::Nothing),
        Ty::Instance(class) => instance_owner(alloc, recorder, class),
        Ty::Class(_) => Ok(Owner::Unknown),
        Ty::List(_) => Ok(Owner::Builtin(ty.clone()?)),
        Ty::Dict(_) => Ok(Owner::Builtin(ty.clone()?)),
        Ty::Tuple(_) => Ok(Owner::Builtin(ty.clone()?)),
        Ty::TupleOf(_) => Ok(Owner::Builtin(ty.clone()?)),
        Ty::Union(_) => Ok(Owner::Nothing),
        Ty::Callable(_) => Ok(Owner::Nothing),
    }
}

/// What an iteration of a value of a type that is no union goes by.
pub(crate) fn iterable<N: AskTypes>(
    alloc: Global,
    recorder: &mut N,
    ty: &Ty,
) -> Result<Owner, AllocError>
    ensures { Performs owner_of (spec.iterable (ty_of ty.now)) (N.trace recorder.old) result (N.trace recorder.new) }
{
    match ty {
        Ty::Any => Ok(Owner::Unknown),
        Ty::None => Ok(Owner::Nothing),
        Ty::Module(_) => Ok(Owner::Nothing),
        Ty::Instance(class) => instance_iterable(alloc, recorder, class),
        Ty::Class(_) => Ok(Owner::Unknown),
        Ty::List(_) => Ok(Owner::Builtin(ty.clone()?)),
        Ty::Dict(_) => Ok(Owner::Builtin(ty.clone()?)),
        Ty::Tuple(_) => Ok(Owner::Builtin(ty.clone()?)),
        Ty::TupleOf(_) => Ok(Owner::Builtin(ty.clone()?)),
        Ty::Union(_) => Ok(Owner::Nothing),
        Ty::Callable(_) => Ok(Owner::Nothing),
    }
}

/// What a subscript of an instance of a class goes by.
fn instance_owner<N: AskTypes>(
    alloc: Global,
    recorder: &mut N,
    class: &ClassId,
) -> Result<Owner, AllocError>
    ensures { Performs owner_of (spec.instance_owner class.now) (N.trace recorder.old) result (N.trace recorder.new) }
{
    match class.as_builtin() {
        Some(builtin) => Ok(counted_owner(builtin_counts(builtin))),
        None => source_owner(alloc, recorder, class),
    }
}

/// What an iteration of an instance of a class goes by.
fn instance_iterable<N: AskTypes>(
    alloc: Global,
    recorder: &mut N,
    class: &ClassId,
) -> Result<Owner, AllocError>
    ensures { Performs owner_of (spec.instance_iterable class.now) (N.trace recorder.old) result
        (N.trace recorder.new) }
{
    match class.as_builtin() {
        Some(builtin) => Ok(counted_owner(builtin_counts(builtin))),
        None => source_iterable(alloc, recorder, class),
    }
}

/// What the instances of a builtin class count as.
fn builtin_counts(class: BuiltinClass) -> Counts
    ensures { result ≡ spec.builtin_counts class }
{
    match class {
        BuiltinClass::Str => Counts::Str,
        BuiltinClass::Bytes => Counts::Bytes,
        _ => Counts::Other,
    }
}

/// What counts as a builtin.
fn counted_owner(form: Counts) -> Owner
    ensures { owner_of result ≡ spec.counted_owner form }
{
    match form {
        Counts::Str => Owner::Builtin(Ty::Instance(ClassId::builtin(BuiltinClass::Str))),
        Counts::Bytes => Owner::Builtin(Ty::Instance(ClassId::builtin(BuiltinClass::Bytes))),
        _ => Owner::Nothing,
    }
}

/// What a subscript of an instance of a class of a source goes by.
#[tactic(auto, using(crate::proofs::Steps::performing), unfolding(crate::specs::Owners::source_owner))]
fn source_owner<N: AskTypes>(
    alloc: Global,
    recorder: &mut N,
    class: &ClassId,
) -> Result<Owner, AllocError>
    ensures { Performs owner_of (spec.source_owner class.now) (N.trace recorder.old) result (N.trace recorder.new) }
{
    let key = Key::Class(class.clone()?);
    let answer = recorder.ask(alloc, key)?;
    user_owner(alloc, recorder, class, counts_in(&answer))
}

/// What an iteration of an instance of a class of a source goes by.
#[tactic(auto, using(crate::proofs::Steps::performing), unfolding(crate::specs::Owners::source_iterable))]
fn source_iterable<N: AskTypes>(
    alloc: Global,
    recorder: &mut N,
    class: &ClassId,
) -> Result<Owner, AllocError>
    ensures { Performs owner_of (spec.source_iterable class.now) (N.trace recorder.old) result (N.trace recorder.new) }
{
    let key = Key::Class(class.clone()?);
    let answer = recorder.ask(alloc, key)?;
    user_iterable(alloc, recorder, class, counts_in(&answer))
}

/// What the instances of a class count as, by the order that an answer gives.
fn counts_in(answer: &Answer) -> Counts
    ensures { result ≡ spec.counts_as (order_in (answer_in answer.now)) }
{
    match answer {
        Answer::Mro(order) => counts_as(order),
        _ => Counts::Unknown,
    }
}

/// What the instances of a class of this order count as.
fn counts_as(order: &MroAnswer) -> Counts
    ensures { result ≡ spec.counts_as (class_order_of order.now) }
{
    let order = Lin {
        classes: &order.classes,
        unknown: order.unknown,
        has_call: order.has_call,
    };
    if order.is_unknown() {
        Counts::Unknown
    } else {
        counted(&order)
    }
}

/// What the instances of a class count as, where `order` is known.
fn counted(order: &Lin<'_>) -> Counts
    ensures { result ≡ spec.counted (order_of order.now) }
{
    if order.contains_builtin(BuiltinClass::Str) {
        Counts::Str
    } else if order.contains_builtin(BuiltinClass::Bytes) {
        Counts::Bytes
    } else {
        Counts::Other
    }
}

/// What a subscript of an instance of a class of a source goes by, by what it counts as.
fn user_owner<N: AskTypes>(
    alloc: Global,
    recorder: &mut N,
    class: &ClassId,
    form: Counts,
) -> Result<Owner, AllocError>
    ensures { Performs owner_of (spec.user_owner class.now form) (N.trace recorder.old) result (N.trace recorder.new) }
{
    match form {
        Counts::Unknown => Ok(Owner::Unknown),
        Counts::Str => ask_owner(alloc, recorder, class, Counts::Str),
        Counts::Bytes => ask_owner(alloc, recorder, class, Counts::Bytes),
        Counts::Other => ask_owner(alloc, recorder, class, Counts::Other),
    }
}

/// What a subscript of an instance of `class` goes by: some `__getitem__` of the class, else what it counts as, `form`.
#[tactic(auto, using(crate::proofs::Steps::performing), unfolding(crate::specs::Owners::ask_owner))]
fn ask_owner<N: AskTypes>(
    alloc: Global,
    recorder: &mut N,
    class: &ClassId,
    form: Counts,
) -> Result<Owner, AllocError>
    ensures { Performs owner_of (spec.ask_owner class.now form) (N.trace recorder.old) result (N.trace recorder.new) }
{
    let found = getitem_member(alloc, recorder, class)?;
    owner_by_getitem(alloc, found, form)
}

/// The `__getitem__` of a class.
fn getitem_member<N: AskTypes>(
    alloc: Global,
    recorder: &mut N,
    class: &ClassId,
) -> Result<Option<MemberAnswer>, AllocError>
    ensures { Performs (option_map member_answer_of) (asking.ask_member class.now (codes "__getitem__"))
        (N.trace recorder.old) result (N.trace recorder.new) }
{
    ask_member(alloc, recorder, class, "__getitem__")
}

/// The `__iter__` of a class.
fn iter_member<N: AskTypes>(
    alloc: Global,
    recorder: &mut N,
    class: &ClassId,
) -> Result<Option<MemberAnswer>, AllocError>
    ensures { Performs (option_map member_answer_of) (asking.ask_member class.now (codes "__iter__"))
        (N.trace recorder.old) result (N.trace recorder.new) }
{
    ask_member(alloc, recorder, class, "__iter__")
}

/// What a subscript goes by, where this is its method.
fn owner_by_getitem(
    alloc: Global,
    found: Option<MemberAnswer>,
    form: Counts,
) -> Result<Owner, AllocError>
    ensures { IfOk result (λ owner. owner_of owner ≡ spec.owner_by_getitem (option_map member_answer_of found) form) }
{
    match found {
        Some(found) => {
            let method = through_instance(alloc, found)?;
            Ok(Owner::Method(given(&method)?))
        }
        None => Ok(counted_owner(form)),
    }
}

/// What a call of something of this type gives, where its signature is known.
fn given(ty: &Ty) -> Result<Ty, AllocError>
    ensures { IfOk result (λ found. ty_of found ≡ spec.given (ty_of ty.now)) }
{
    match ty {
        Ty::Callable(signature) => signature.result.clone(),
        _ => Ok(Ty::Any),
    }
}

/// What an iteration of an instance of a class of a source goes by, by what it counts as.
fn user_iterable<N: AskTypes>(
    alloc: Global,
    recorder: &mut N,
    class: &ClassId,
    form: Counts,
) -> Result<Owner, AllocError>
    ensures { Performs owner_of (spec.user_iterable class.now form) (N.trace recorder.old) result
        (N.trace recorder.new) }
{
    match form {
        Counts::Unknown => Ok(Owner::Unknown),
        Counts::Str => ask_iterable(alloc, recorder, class, Counts::Str),
        Counts::Bytes => ask_iterable(alloc, recorder, class, Counts::Bytes),
        Counts::Other => ask_iterable(alloc, recorder, class, Counts::Other),
    }
}

/// What an iteration of an instance of `class` goes by, once the class is asked for its `__iter__`.
#[tactic(auto, using(crate::proofs::Steps::performing), unfolding(crate::specs::Owners::ask_iterable))]
fn ask_iterable<N: AskTypes>(
    alloc: Global,
    recorder: &mut N,
    class: &ClassId,
    form: Counts,
) -> Result<Owner, AllocError>
    ensures { Performs owner_of (spec.ask_iterable class.now form) (N.trace recorder.old) result
        (N.trace recorder.new) }
{
    let found = iter_member(alloc, recorder, class)?;
    owner_by_iter(alloc, recorder, class, form, &found)
}

/// What an iteration of an instance of `class` goes by, where `found` is some `__iter__` of the class.
fn owner_by_iter<N: AskTypes>(
    alloc: Global,
    recorder: &mut N,
    class: &ClassId,
    form: Counts,
    found: &Option<MemberAnswer>,
) -> Result<Owner, AllocError>
    ensures { Performs owner_of (spec.owner_by_iter class.now form (option_map member_answer_of found.now))
        (N.trace recorder.old) result (N.trace recorder.new) }
{
    match found {
        Some(_) => Ok(Owner::Unknown),
        None => ask_item_iterable(alloc, recorder, class, form),
    }
}

/// What an iteration of an instance of `class` without `__iter__` goes by, once it is asked for its `__getitem__`.
#[tactic(auto, using(crate::proofs::Steps::performing), unfolding(crate::specs::Owners::ask_item_iterable))]
fn ask_item_iterable<N: AskTypes>(
    alloc: Global,
    recorder: &mut N,
    class: &ClassId,
    form: Counts,
) -> Result<Owner, AllocError>
    ensures { Performs owner_of (spec.ask_item_iterable class.now form) (N.trace recorder.old) result
        (N.trace recorder.new) }
{
    let found = getitem_member(alloc, recorder, class)?;
    Ok(owner_by_item_method(found, form))
}

/// What an iteration goes by, where this is the `__getitem__`.
fn owner_by_item_method(found: Option<MemberAnswer>, form: Counts) -> Owner
    ensures { owner_of result ≡ spec.owner_by_item_method (option_map member_answer_of found) form }
{
    match found {
        Some(_) => Owner::Unknown,
        None => counted_owner(form),
    }
}
