//! What is reported of items of displays.

ghost use Rattle.pyc_displays.specs.Views.{item_in, part_in};

use pyc_ast::Position;
use pyc_messages::{dict_entry_text, list_item_text};
use pyc_obligations::{AsObligation, AskTypes};
use pyc_report::{Message, ObligationKind};
use pyc_type_forms::{DictTypes, Ty, show};
use std::alloc::{AllocError, Global};

/// An item of a list, its type, and the type that is expected.
#[derive(Clone, Copy)]
pub(crate) struct RequiredItem<'a> {
    pub(crate) at: Position,
    pub(crate) index: usize,
    pub(crate) got: &'a Ty,
    pub(crate) want: &'a Ty,
}

impl<N: AskTypes> AsObligation<N> for RequiredItem<'_> {
    ghost obligation = { item_in };

    fn got(&self) -> &Ty {
        self.got
    }

    fn want(&self) -> &Ty {
        self.want
    }

    fn ask_details(&self, _alloc: Global, _recorder: &mut N) -> Result<(), AllocError> {
        Ok(())
    }

    #[tactic(auto, unfolding(crate::specs::Messages::required_item_text))]
    fn message(&self, alloc: Global, _recorder: &N) -> Result<Message, AllocError> {
        let got = show(alloc, self.got)?;
        let want = show(alloc, self.want)?;
        let text = list_item_text(alloc, self.index, got.as_str(), want.as_str())?;
        Ok(Message::failing_at(self.at, ObligationKind::ListItem, text))
    }
}

/// The key or the value of an entry of a dictionary, its type and the type that is expected of it, with those of the
/// whole entry.
#[derive(Clone, Copy)]
pub(crate) struct RequiredPart<'a> {
    pub(crate) at: Position,
    pub(crate) index: usize,
    pub(crate) got_entry: &'a DictTypes,
    pub(crate) want_entry: &'a DictTypes,
    pub(crate) got: &'a Ty,
    pub(crate) want: &'a Ty,
}

impl<N: AskTypes> AsObligation<N> for RequiredPart<'_> {
    ghost obligation = { part_in };

    fn got(&self) -> &Ty {
        self.got
    }

    fn want(&self) -> &Ty {
        self.want
    }

    fn ask_details(&self, _alloc: Global, _recorder: &mut N) -> Result<(), AllocError> {
        Ok(())
    }

    #[tactic(auto, unfolding(crate::specs::Messages::required_entry_text))]
    fn message(&self, alloc: Global, _recorder: &N) -> Result<Message, AllocError> {
        let got_key = show(alloc, &self.got_entry.key)?;
        let got_value = show(alloc, &self.got_entry.value)?;
        let want_key = show(alloc, &self.want_entry.key)?;
        let want_value = show(alloc, &self.want_entry.value)?;
        let text = dict_entry_text(
            alloc,
            self.index,
            got_key.as_str(),
            got_value.as_str(),
            want_key.as_str(),
            want_value.as_str(),
        )?;
        Ok(Message::failing_at(self.at, ObligationKind::DictEntry, text))
    }
}
