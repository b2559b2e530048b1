//! Whether one type is assignable to another, by what was asked.

ghost use Rattle.std.specs.Prelude.{◌≡◌, ◌++◌, length};
ghost use Rattle.pyc_class_ids.specs.Mro.{order_of};
ghost use Rattle.pyc_obligations.specs.Asking.{orders_at, first_messages};
ghost use Rattle.pyc_obligations.specs.Judging as spec;
ghost use Rattle.pyc_obligations.specs.Judging.{class_asked, classes_asked};
ghost use Rattle.pyc_reading.specs.Traces.{Asks, Performs};
ghost use Rattle.pyc_reading.specs.Owing as owing;
ghost use Rattle.pyc_type_forms.specs.TypeView.{ty_of, row, params_of, param_row};
ghost use Rattle.pyc_types.specs.Ways as ways;

use pyc_class_ids::{ClassId, Lin, Lins};
use pyc_reading::{Ask, Key};
use pyc_type_forms::{DictTypes, Param, Params, Signature, Ty};
use pyc_types::assignable;
use std::alloc::{AllocError, Global};

/// What performs readings of expressions: it knows the orders of the classes that were asked, and can take back the
/// last messages.
pub trait AskTypes: Ask {
    /// The order of a class. It takes no memory, and takes nothing down.
    fn lin(&self, class: &ClassId) -> Lin<'_>
        ensures { order_of result ≡ orders_at (Self.trace self.now) class.now };

    /// How many messages were reported. It takes no memory.
    fn reported_count(&self) -> usize
        ensures { result ≡ length (Self.trace self.now).messages };

    /// Takes back all messages but the first `count`. It takes no memory.
    fn forget_after(&mut self, count: usize)
        ensures { Self.trace self.new ≡ first_messages count (Self.trace self.old) };
}

/// The orders of classes, as who performs readings knows them.
#[derive(Clone, Copy, Drop)]
pub struct KnownMros<'a, N> {
    recorder: &'a N,
}

impl<N: AskTypes> Lins for KnownMros<'_, N> {
    ghost orders = { λ known. orders_at (N.trace known.recorder.now) };

    fn lin(&self, class: &ClassId) -> Lin<'_> {
        self.recorder.lin(class)
    }
}

/// The orders of classes, as who performs readings knows them. It takes no memory.
pub fn known_orders<N: AskTypes>(recorder: &N) -> KnownMros<'_, N>
    ensures { result.recorder.now ≡ recorder.now }
{
    KnownMros { recorder }
}

/// Asks the order of a class. The only error is that memory runs out.
pub fn ask_class<N: AskTypes>(
    alloc: Global,
    recorder: &mut N,
    class: &ClassId,
) -> Result<(), AllocError>
    ensures { Performs (λ u. u) (class_asked class.now) (N.trace recorder.old) result (N.trace recorder.new) }
{
    if class.as_builtin().is_some() {
        return Ok(());
    }
    let key = Key::Class(class.clone()?);
    recorder.ask(alloc, key)?;
    Ok(())
}

/// Whether a type is assignable to another, by the orders as they are known. It takes no memory.
pub fn is_assignable<N: AskTypes>(recorder: &N, got: &Ty, want: &Ty) -> bool
    ensures { result ≡ ways.assignable (orders_at (N.trace recorder.now)) (ty_of got.now) (ty_of want.now) }
{
    assignable(&known_orders(recorder), got, want)
}

/// Whether a type is assignable to another, by the orders of the classes that are written in both, each of which is
/// asked. The only error is that memory runs out.
pub fn judge_assignable<N: AskTypes>(
    alloc: Global,
    recorder: &mut N,
    got: &Ty,
    want: &Ty,
) -> Result<bool, AllocError>
    ensures { Performs (λ holds. holds) (spec.judge_assignable (ty_of got.now) (ty_of want.now))
        (N.trace recorder.old) result
        (N.trace recorder.new) }
{
    ask_types(alloc, recorder, got, want)?;
    Ok(is_assignable(recorder, got, want))
}

/// Asks the orders of the classes that are written in two types. The only error is that memory runs out.
pub fn ask_types<N: AskTypes>(
    alloc: Global,
    recorder: &mut N,
    got: &Ty,
    want: &Ty,
) -> Result<(), AllocError>
    ensures { Asks (owing.pair_keys (ty_of got.now) (ty_of want.now)) (N.trace recorder.old) result
        (N.trace recorder.new) }
{
    ask_written(alloc, recorder, got)?;
    ask_written(alloc, recorder, want)
}

/// Asks the orders of the classes that are written in a type. The only error is that memory runs out.
#[cycle(written)]
#[tactic(auto, using(crate::proofs::Steps::performing))]
pub fn ask_written<N: AskTypes>(alloc: Global, recorder: &mut N, ty: &Ty) -> Result<(), AllocError>
    ensures { Performs (λ u. u) (classes_asked (owing.written (ty_of ty.now))) (N.trace recorder.old) result
        (N.trace recorder.new) }
{
    match ty {
        Ty::Any | Ty::None | Ty::Module(_) => Ok(()),
        Ty::Instance(class) => ask_class(alloc, recorder, class),
        Ty::Class(class) => ask_class(alloc, recorder, class),
        Ty::List(item) | Ty::TupleOf(item) => ask_written(alloc, recorder, item),
        Ty::Dict(types) => ask_dict_written(alloc, recorder, types),
        Ty::Tuple(items) | Ty::Union(items) => ask_row_written(alloc, recorder, items),
        Ty::Callable(signature) => ask_signature_written(alloc, recorder, signature),
    }
}

/// Asks the orders of the classes that are written in the types of a dictionary.
#[cycle(written)]
#[tactic(auto, using(crate::proofs::Steps::performing))]
fn ask_dict_written<N: AskTypes>(
    alloc: Global,
    recorder: &mut N,
    types: &DictTypes,
) -> Result<(), AllocError>
    ensures { Performs (λ u. u)
        (classes_asked (owing.written (ty_of types.now.key) ++ owing.written (ty_of types.now.value)))
        (N.trace recorder.old) result (N.trace recorder.new) }
{
    ask_written(alloc, recorder, &types.key)?;
    ask_written(alloc, recorder, &types.value)
}

/// Asks the orders of the classes that are written in a signature.
#[cycle(written)]
#[tactic(auto, using(crate::proofs::Steps::performing))]
fn ask_signature_written<N: AskTypes>(
    alloc: Global,
    recorder: &mut N,
    signature: &Signature,
) -> Result<(), AllocError>
    ensures { Performs (λ u. u)
        (classes_asked
        (owing.params_written (params_of signature.now.params) ++ owing.written (ty_of signature.now.result)))
        (N.trace recorder.old) result (N.trace recorder.new) }
{
    ask_params_written(alloc, recorder, &signature.params)?;
    ask_written(alloc, recorder, &signature.result)
}

/// Asks the orders of the classes that are written in a row of types.
#[cycle(written)]
#[tactic(auto, using(crate::proofs::Steps::performing))]
fn ask_row_written<N: AskTypes>(
    alloc: Global,
    recorder: &mut N,
    types: &[Ty],
) -> Result<(), AllocError>
    ensures { Performs (λ u. u) (classes_asked (owing.row_written (row types.now))) (N.trace recorder.old) result
        (N.trace recorder.new) }
{
    for ty in types {
        ask_written(alloc, recorder, ty)?;
    }
    Ok(())
}

/// Asks the orders of the classes that are written in what a call takes.
#[cycle(written)]
#[tactic(auto, using(crate::proofs::Steps::performing))]
fn ask_params_written<N: AskTypes>(
    alloc: Global,
    recorder: &mut N,
    params: &Params,
) -> Result<(), AllocError>
    ensures { Performs (λ u. u) (classes_asked (owing.params_written (params_of params.now))) (N.trace recorder.old)
        result
        (N.trace recorder.new) }
{
    match params {
        Params::Dots => Ok(()),
        Params::Listed(listed) => ask_listed_written(alloc, recorder, listed),
    }
}

/// Asks the orders of the classes that are written in a row of parameters.
#[cycle(written)]
#[tactic(auto, using(crate::proofs::Steps::performing))]
fn ask_listed_written<N: AskTypes>(
    alloc: Global,
    recorder: &mut N,
    params: &[Param],
) -> Result<(), AllocError>
    ensures { Performs (λ u. u) (classes_asked (owing.listed_written (param_row params.now))) (N.trace recorder.old)
        result
        (N.trace recorder.new) }
{
    for param in params {
        ask_written(alloc, recorder, &param.ty)?;
    }
    Ok(())
}
