//! What is reported of subscripts and iterations.

ghost use Rattle.std.specs.Prelude.{Some, option_map};
ghost use Rattle.pyc_subscripts.specs.Iteration as iteration;
ghost use Rattle.pyc_subscripts.specs.Subscripts as spec;
ghost use Rattle.pyc_subscripts.specs.RequiredView.{required_in};
ghost use Rattle.pyc_reading.specs.Traces.{Performs};
ghost use Rattle.pyc_type_forms.specs.TypeView.{ty_of};

use pyc_ast::Position;
use pyc_messages::{
    index_text, item_not_iterable_text, not_indexable_text, not_iterable_text, range_text,
};
use pyc_obligations::{AsObligation, AskTypes, report_error};
use pyc_report::{Code, Message, ObligationKind};
use pyc_type_forms::{Ty, show};
use std::alloc::{AllocError, Global};

/// An index, its type, that of what it is an index of, and the type that this takes.
#[derive(Clone, Copy)]
pub(crate) struct RequiredIndex<'a> {
    pub(crate) at: Position,
    pub(crate) got: &'a Ty,
    pub(crate) whole: &'a Ty,
    pub(crate) want: &'a Ty,
}

impl<N: AskTypes> AsObligation<N> for RequiredIndex<'_> {
    ghost obligation = { required_in };

    fn got(&self) -> &Ty {
        self.got
    }

    fn want(&self) -> &Ty {
        self.want
    }

    fn ask_details(&self, _alloc: Global, _recorder: &mut N) -> Result<(), AllocError> {
        Ok(())
    }

    #[tactic(auto, unfolding(crate::specs::Subscripts::required_index_text))]
    fn message(&self, alloc: Global, _recorder: &N) -> Result<Message, AllocError> {
        let got = show(alloc, self.got)?;
        let whole = show(alloc, self.whole)?;
        let want = show(alloc, self.want)?;
        let text = index_text(alloc, got.as_str(), whole.as_str(), want.as_str())?;
        Ok(Message::failing_at(self.at, ObligationKind::Index, text))
    }
}

/// Reports that a tuple does not have a place.
#[tactic(auto, using(crate::proofs::Steps::performing), unfolding(crate::specs::Subscripts::report_out_of_range))]
pub(crate) fn report_out_of_range<N: AskTypes>(
    alloc: Global,
    recorder: &mut N,
    at: Position,
) -> Result<Option<Ty>, AllocError>
    ensures { Performs (option_map ty_of) (spec.report_out_of_range at) (N.trace recorder.old) result
        (N.trace recorder.new) }
{
    let text = range_text(alloc)?;
    report_error(recorder, at, Code::Misc, text)?;
    Ok(Some(Ty::Any))
}

/// Reports that a type has no subscripts.
#[tactic(auto, using(crate::proofs::Steps::performing), unfolding(crate::specs::Subscripts::not_indexable))]
pub(crate) fn not_indexable<N: AskTypes>(
    alloc: Global,
    recorder: &mut N,
    at: Position,
    ty: &Ty,
) -> Result<Ty, AllocError>
    ensures { Performs ty_of (spec.not_indexable at (ty_of ty.now)) (N.trace recorder.old) result
        (N.trace recorder.new) }
{
    let shown = show(alloc, ty)?;
    let text = not_indexable_text(alloc, shown.as_str())?;
    report_error(recorder, at, Code::Index, text)?;
    Ok(Ty::Any)
}

/// Reports that a type is not iterable.
#[tactic(auto, using(crate::proofs::Steps::performing), unfolding(crate::specs::Iteration::not_iterable))]
pub(crate) fn not_iterable<N: AskTypes>(
    alloc: Global,
    recorder: &mut N,
    at: Position,
    ty: &Ty,
) -> Result<Ty, AllocError>
    ensures { Performs ty_of (iteration.not_iterable at (ty_of ty.now)) (N.trace recorder.old) result
        (N.trace recorder.new) }
{
    let shown = show(alloc, ty)?;
    let text = not_iterable_text(alloc, shown.as_str())?;
    report_error(recorder, at, Code::AttrDefined, text)?;
    Ok(Ty::Any)
}

/// Reports that an item of a union is not iterable.
#[tactic(auto, using(crate::proofs::Steps::performing), unfolding(crate::specs::Iteration::item_not_iterable))]
pub(crate) fn item_not_iterable<N: AskTypes>(
    alloc: Global,
    recorder: &mut N,
    at: Position,
    whole: &Ty,
    item: &Ty,
) -> Result<Ty, AllocError>
    ensures { Performs ty_of (iteration.item_not_iterable at (ty_of whole.now) (ty_of item.now)) (N.trace recorder.old)
        result (N.trace recorder.new) }
{
    let item = show(alloc, item)?;
    let whole = show(alloc, whole)?;
    let text = item_not_iterable_text(alloc, item.as_str(), whole.as_str())?;
    report_error(recorder, at, Code::UnionAttr, text)?;
    Ok(Ty::Any)
}
