//! What is required of an argument.

ghost use Rattle.pyc_arguments.specs.Views.{required_in};

use crate::reporting::Call;
use crate::texts::{argument_text, callee_text};
use pyc_ast::Position;
use pyc_matching::Given;
use pyc_obligations::{AsObligation, AskTypes};
use pyc_report::{Message, ObligationKind};
use pyc_type_forms::{Ty, show};
use std::alloc::{AllocError, Global};

/// An argument of a call, its type, and the type that is wanted of it. `number` counts the arguments that are given by
/// place, up to it.
#[derive(Clone, Copy)]
pub(crate) struct RequiredArgument<'a> {
    pub(crate) call: &'a Call<'a>,
    pub(crate) at: Position,
    pub(crate) given: Given<'a>,
    pub(crate) number: usize,
    pub(crate) got: &'a Ty,
    pub(crate) want: &'a Ty,
}

impl<N: AskTypes> AsObligation<N> for RequiredArgument<'_> {
    ghost obligation = { required_in };

    fn got(&self) -> &Ty {
        self.got
    }

    fn want(&self) -> &Ty {
        self.want
    }

    fn ask_details(&self, _alloc: Global, _recorder: &mut N) -> Result<(), AllocError> {
        Ok(())
    }

    #[tactic(auto, unfolding(crate::specs::Reporting::required_argument_text))]
    fn message(&self, alloc: Global, _recorder: &N) -> Result<Message, AllocError> {
        let shown = callee_text(alloc, self.call.shown)?;
        let got = show(alloc, self.got)?;
        let want = show(alloc, self.want)?;
        let text = argument_text(
            alloc,
            self.given,
            self.number,
            shown.as_str(),
            got.as_str(),
            want.as_str(),
        )?;
        Ok(Message::failing_at(self.at, ObligationKind::Argument, text))
    }
}
