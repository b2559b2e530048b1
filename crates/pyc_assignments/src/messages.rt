//! What is reported of assignments.

ghost use Rattle.std.specs.Prelude.{◌≡◌, IfOk, string_bytes};
ghost use Rattle.pyc_assignments.specs.Storing as spec;
ghost use Rattle.pyc_assignments.specs.Unpacking as unpacking;
ghost use Rattle.pyc_assignments.specs.Views.{required_in, shares_in};
ghost use Rattle.pyc_reading.specs.Traces.{Performs, reporting};
ghost use Rattle.pyc_type_forms.specs.TypeView.{ty_of};

use crate::unpacking::Shares;
use pyc_ast::Position;
use pyc_messages::{
    item_assignment_text, too_few_values_text, too_many_values_text, variable_assignment_text,
};
use pyc_obligations::{AsObligation, AskTypes, report_error};
use pyc_report::{Code, Message, ObligationKind};
use pyc_type_forms::{Ty, show};
use std::alloc::{AllocError, Global};

/// The text on a value of another type than its target takes.
fn assignment_text(
    alloc: Global,
    is_item: bool,
    got: &str,
    want: &str,
) -> Result<String, AllocError>
    ensures { IfOk result (λ text. string_bytes text ≡ spec.assignment_text is_item got.now want.now) }
{
    if is_item {
        item_assignment_text(alloc, got, want)
    } else {
        variable_assignment_text(alloc, got, want)
    }
}

/// A value, where it begins, its type and the type that its target takes, and whether that is an item of a subscript.
#[derive(Clone, Copy)]
pub(crate) struct RequiredAssignment<'a> {
    pub(crate) at: Position,
    pub(crate) is_item: bool,
    pub(crate) got: &'a Ty,
    pub(crate) want: &'a Ty,
}

impl<N: AskTypes> AsObligation<N> for RequiredAssignment<'_> {
    ghost obligation = { required_in };

    fn got(&self) -> &Ty {
        self.got
    }

    fn want(&self) -> &Ty {
        self.want
    }

    fn ask_details(&self, _alloc: Global, _recorder: &mut N) -> Result<(), AllocError> {
        Ok(())
    }

    #[tactic(auto, unfolding(crate::specs::Storing::required_assignment_text))]
    fn message(&self, alloc: Global, _recorder: &N) -> Result<Message, AllocError> {
        let got = show(alloc, self.got)?;
        let want = show(alloc, self.want)?;
        let text = assignment_text(alloc, self.is_item, got.as_str(), want.as_str())?;
        Ok(Message::failing_at(self.at, ObligationKind::Assignment, text))
    }
}

/// Reports that a tuple has fewer places than there are targets.
#[tactic(auto, using(pyc_obligations::proofs::Steps::performing), unfolding(crate::specs::Unpacking::too_few))]
pub(crate) fn too_few<N: AskTypes>(
    alloc: Global,
    recorder: &mut N,
    at: Position,
    provided: usize,
    expected: usize,
) -> Result<Shares, AllocError>
    ensures { Performs shares_in (unpacking.too_few at provided expected) (N.trace recorder.old) result
        (N.trace recorder.new) }
{
    let text = too_few_values_text(alloc, provided, expected)?;
    report_error(recorder, at, Code::Misc, text)?;
    Ok(Shares::Each(Ty::Any))
}

/// Reports that a tuple has more places than there are targets.
#[tactic(auto, using(pyc_obligations::proofs::Steps::performing), unfolding(crate::specs::Unpacking::too_many))]
pub(crate) fn too_many<N: AskTypes>(
    alloc: Global,
    recorder: &mut N,
    at: Position,
    provided: usize,
    expected: usize,
) -> Result<Shares, AllocError>
    ensures { Performs shares_in (unpacking.too_many at provided expected) (N.trace recorder.old) result
        (N.trace recorder.new) }
{
    let text = too_many_values_text(alloc, provided, expected)?;
    report_error(recorder, at, Code::Misc, text)?;
    Ok(Shares::Each(Ty::Any))
}
