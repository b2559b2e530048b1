//! The messages that the ignore comments of a file suppress.

ghost use Rattle.std.specs.Prelude.{◌≡◌, map, not, bytes_eq};
ghost use Rattle.std.specs.List.{list_any};
ghost use Rattle.pyc_ast.specs.Modules.{codes_of, ignore_of, module_of};
ghost use Rattle.pyc_report.specs.Message.{message_in};
ghost use Rattle.pyc_report.specs.Suppressing as spec;

use crate::message::{Code, Message, MessageKind};
use pyc_ast::{Codes, Ignore, Module, Text};

/// Takes the messages away that the ignore comments of a module suppress. It takes no memory.
pub fn drop_suppressed(tree: &Module, messages: &mut Vec<Message>)
    ensures { map message_in messages.new.items
        ≡ spec.without_suppressed (module_of tree.now) (map message_in messages.old.items) }
{
    messages.retain(
        |message: &Message| -> bool
            ensures { result ≡ not (spec.is_suppressed (module_of tree.entry.now) (message_in message.now)) }
        { !is_suppressed(tree, message) },
    );
}

/// Whether the ignore comments of a module suppress a message: one of the whole file, or one on its line.
#[tactic(auto, unfolding(crate::specs::Suppressing::is_suppressed))]
pub fn is_suppressed(tree: &Module, message: &Message) -> bool
    ensures { result ≡ spec.is_suppressed (module_of tree.now) (message_in message.now) }
{
    is_suppressible(message.kind) && (tree.whole_file || is_ignored(&tree.ignores, message))
}

/// Whether a message of this kind can be suppressed.
fn is_suppressible(kind: MessageKind) -> bool
    ensures { result ≡ spec.is_suppressible kind }
{
    match kind {
        MessageKind::Error(Code::Syntax) => false,
        MessageKind::Error(_) | MessageKind::FailedObligation(_) => true,
        MessageKind::Note => false,
    }
}

/// Whether one of these comments stands on the line of a message, and is one on its code.
fn is_ignored(ignores: &[Ignore], message: &Message) -> bool
    ensures { result ≡ list_any (spec.ignores (message_in message.now)) (map ignore_of ignores.now) }
{
    ignores.iter().any(
        |ignore: &Ignore| -> bool
            ensures { result ≡ spec.ignores (message_in message.entry.now) (ignore_of ignore.now) }
        { ignore.line == message.line && covers(message.kind.code(), &ignore.codes) },
    )
}

/// Whether a comment with these codes is one on this code.
fn covers(code: &str, codes: &Codes) -> bool
    ensures { result ≡ spec.covers code.now (codes_of codes.now) }
{
    match codes {
        Codes::All => true,
        Codes::Listed(listed) => is_listed(code, listed),
    }
}

/// Whether one of these texts is this code.
fn is_listed(code: &str, listed: &[Text]) -> bool
    ensures { result ≡ list_any (bytes_eq code.now) listed.now }
{
    listed.iter().any(
        |text: &Text| -> bool
            ensures { result ≡ bytes_eq code.entry.now text.now }
        { code == text.as_str() },
    )
}
