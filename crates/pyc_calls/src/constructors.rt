//! What classes take that are called.

ghost use Rattle.std.specs.Prelude.{◌≡◌, codes, IfOk, option_map};
ghost use Rattle.pyc_calls.specs.Constructors as spec;
ghost use Rattle.pyc_calls.specs.Views.{class_params_in};
ghost use Rattle.pyc_obligations.specs.Asking as asking;
ghost use Rattle.pyc_reading.specs.AnswerView.{answer_in, class_order_of, member_answer_of};
ghost use Rattle.pyc_reading.specs.Owing.{order_in};
ghost use Rattle.pyc_reading.specs.Traces.{Performs};

use pyc_attributes::through_instance;
use pyc_class_ids::{BuiltinClass, ClassId};
use pyc_obligations::{AskTypes, ask_member};
use pyc_reading::{Answer, Key, MemberAnswer, MroAnswer};
use pyc_type_forms::Ty;
use std::alloc::{AllocError, Global};

/// What a class takes that is called.
#[derive(Debug, Drop)]
pub(crate) enum ClassParams {
    /// Any arguments.
    Unmatched,
    /// No arguments.
    Bare,
    /// What something of this type takes: any arguments, if it is no callable.
    Typed(Ty),
}

/// Which `__init__` comes first along the order of a class.
#[derive(Clone, Copy, Debug, PartialEq, Eq)]
pub(crate) enum FirstInitializer {
    /// The one that is found: a source declares it.
    Found,
    /// That of a builtin class.
    Builtin,
    Absent,
}

/// What a class takes that is called. The only error is that memory runs out.
pub(crate) fn constructor<N: AskTypes>(
    alloc: Global,
    recorder: &mut N,
    class: &ClassId,
) -> Result<ClassParams, AllocError>
    ensures { Performs class_params_in (spec.constructor class.now) (N.trace recorder.old) result
        (N.trace recorder.new) }
{
    match class.as_builtin() {
        Some(builtin) => Ok(builtin_constructor(builtin)),
        None => source_constructor(alloc, recorder, class),
    }
}

/// What a builtin class takes.
fn builtin_constructor(class: BuiltinClass) -> ClassParams
    ensures { class_params_in result ≡ spec.builtin_constructor class }
{
    match class {
        BuiltinClass::Object => ClassParams::Bare,
        _ => ClassParams::Unmatched,
    }
}

/// What a class of a source takes.
#[tactic(auto, using(pyc_obligations::proofs::Steps::performing))]
fn source_constructor<N: AskTypes>(
    alloc: Global,
    recorder: &mut N,
    class: &ClassId,
) -> Result<ClassParams, AllocError>
    ensures { Performs class_params_in (spec.source_constructor class.now) (N.trace recorder.old) result
        (N.trace recorder.new) }
{
    let key = Key::Class(class.clone()?);
    let answer = recorder.ask(alloc, key)?;
    answered_constructor(alloc, recorder, class, &answer)
}

/// What `class` takes, by the order that `answer` gives.
fn answered_constructor<N: AskTypes>(
    alloc: Global,
    recorder: &mut N,
    class: &ClassId,
    answer: &Answer,
) -> Result<ClassParams, AllocError>
    ensures { Performs class_params_in (spec.if_known class.now (order_in (answer_in answer.now)))
        (N.trace recorder.old) result (N.trace recorder.new) }
{
    match answer {
        Answer::Mro(order) => ordered_constructor(alloc, recorder, class, order),
        _ => Ok(ClassParams::Unmatched),
    }
}

/// What `class` takes, by `order`, which may be unknown.
fn ordered_constructor<N: AskTypes>(
    alloc: Global,
    recorder: &mut N,
    class: &ClassId,
    order: &MroAnswer,
) -> Result<ClassParams, AllocError>
    ensures { Performs class_params_in (spec.if_known class.now (class_order_of order.now)) (N.trace recorder.old)
        result
        (N.trace recorder.new) }
{
    if order.unknown.is_some() {
        Ok(ClassParams::Unmatched)
    } else {
        constructor_by_order(alloc, recorder, class, order)
    }
}

/// What `class` takes, where `order` is known.
#[tactic(auto, using(pyc_obligations::proofs::Steps::performing), unfolding(crate::specs::Constructors::constructor_by_order))]
fn constructor_by_order<N: AskTypes>(
    alloc: Global,
    recorder: &mut N,
    class: &ClassId,
    order: &MroAnswer,
) -> Result<ClassParams, AllocError>
    ensures { Performs class_params_in (spec.constructor_by_order class.now (class_order_of order.now))
        (N.trace recorder.old) result
        (N.trace recorder.new) }
{
    let found = new_member(alloc, recorder, class)?;
    without_new(alloc, recorder, class, order, &found)
}

/// What `class` takes, where `order` is known and `found` is some `__new__` of the class.
fn without_new<N: AskTypes>(
    alloc: Global,
    recorder: &mut N,
    class: &ClassId,
    order: &MroAnswer,
    found: &Option<MemberAnswer>,
) -> Result<ClassParams, AllocError>
    ensures { Performs class_params_in
        (spec.without_new class.now (class_order_of order.now) (option_map member_answer_of found.now))
        (N.trace recorder.old) result (N.trace recorder.new) }
{
    match found {
        Some(_) => Ok(ClassParams::Unmatched),
        None => constructor_by_initializer(alloc, recorder, class, order),
    }
}

/// What `class` takes, where `order` is known and the class has no `__new__`.
#[tactic(auto, using(pyc_obligations::proofs::Steps::performing), unfolding(crate::specs::Constructors::constructor_by_initializer))]
fn constructor_by_initializer<N: AskTypes>(
    alloc: Global,
    recorder: &mut N,
    class: &ClassId,
    order: &MroAnswer,
) -> Result<ClassParams, AllocError>
    ensures { Performs class_params_in (spec.constructor_by_initializer class.now (class_order_of order.now))
        (N.trace recorder.old)
        result (N.trace recorder.new) }
{
    let found = initializer_member(alloc, recorder, class)?;
    let first = first_initializer(&order.classes, &found);
    initializer_params(alloc, first, found)
}

/// The `__new__` of a class.
fn new_member<N: AskTypes>(
    alloc: Global,
    recorder: &mut N,
    class: &ClassId,
) -> Result<Option<MemberAnswer>, AllocError>
    ensures { Performs (option_map member_answer_of) (asking.ask_member class.now (codes "__new__"))
        (N.trace recorder.old) result (N.trace recorder.new) }
{
    ask_member(alloc, recorder, class, "__new__")
}

/// The `__init__` of a class.
fn initializer_member<N: AskTypes>(
    alloc: Global,
    recorder: &mut N,
    class: &ClassId,
) -> Result<Option<MemberAnswer>, AllocError>
    ensures { Performs (option_map member_answer_of) (asking.ask_member class.now (codes "__init__"))
        (N.trace recorder.old) result (N.trace recorder.new) }
{
    ask_member(alloc, recorder, class, "__init__")
}

/// Which `__init__` comes first along an order.
fn first_initializer(order: &[ClassId], found: &Option<MemberAnswer>) -> FirstInitializer
    ensures { result ≡ spec.first_initializer order.now (option_map member_answer_of found.now) }
{
    for class in order {
        if is_declared_by(class, found) {
            return FirstInitializer::Found;
        }
        if has_own_initializer(class) {
            return FirstInitializer::Builtin;
        }
    }
    FirstInitializer::Absent
}

/// What the `__init__` takes that comes first, where this is the one that is found.
fn initializer_params(
    alloc: Global,
    first: FirstInitializer,
    found: Option<MemberAnswer>,
) -> Result<ClassParams, AllocError>
    ensures { IfOk result (λ params. class_params_in params
        ≡ spec.initializer_params first (option_map member_answer_of found)) }
{
    match first {
        FirstInitializer::Found => bound_params(alloc, found),
        FirstInitializer::Builtin => Ok(ClassParams::Unmatched),
        FirstInitializer::Absent => Ok(ClassParams::Bare),
    }
}

/// Whether a class declares a member.
fn is_declared_by(class: &ClassId, found: &Option<MemberAnswer>) -> bool
    ensures { result ≡ spec.is_declared_by class.now (option_map member_answer_of found.now) }
{
    match found {
        Some(found) => *class == found.class,
        None => false,
    }
}

/// What a member takes that is called through an instance, if it is there.
fn bound_params(alloc: Global, found: Option<MemberAnswer>) -> Result<ClassParams, AllocError>
    ensures { IfOk result (λ constructor. class_params_in constructor
        ≡ spec.bound_params (option_map member_answer_of found)) }
{
    match found {
        Some(found) => Ok(ClassParams::Typed(through_instance(alloc, found)?)),
        None => Ok(ClassParams::Bare),
    }
}

/// Whether a class counts as having an `__init__` of its own: each builtin class but `object`.
fn has_own_initializer(class: &ClassId) -> bool
    ensures { result ≡ spec.has_own_initializer class.now }
{
    match class.as_builtin() {
        Some(BuiltinClass::Object) => false,
        Some(_) => true,
        None => false,
    }
}
