//! An error or a note on a file.

ghost use Rattle.std.specs.Prelude.{◌≡◌, string_bytes};
ghost use Rattle.pyc_report.specs.Message.{code_name, code_of, obligation_code, message_in, diagnostic_message};
ghost use Rattle.pyc_report.specs.Message.{error_at, error_on_line, failing_at, note_at};

use pyc_ast::Position;

/// The code of an error that a rule reports by itself, and that is no failed obligation.
#[derive(Clone, Copy, Debug, PartialEq, Eq)]
pub enum Code {
    AttrDefined,
    CallArg,
    ImportNotFound,
    Index,
    Misc,
    NameDefined,
    NoRedef,
    Operator,
    Syntax,
    UnionAttr,
    ValidType,
}

/// The kind of an obligation: what a type has to be assignable for.
#[derive(Clone, Copy, Debug, PartialEq, Eq)]
pub enum ObligationKind {
    /// An argument of a call, to the type of its parameter.
    Argument,
    /// A value, to the type of what it is assigned to.
    Assignment,
    /// A default, to the type of its parameter.
    Default,
    /// The key or the value of an entry of a dict display, to the type that is expected of it.
    DictEntry,
    /// An index, to the type that it takes.
    Index,
    /// An item of a list display, to the type that is expected of it.
    ListItem,
    /// The end of a function, to the type of its result.
    MissingReturn,
    /// A member of a class, to that of an ancestor, where one of the two is a method.
    Override,
    /// What is returned, to the type of the result.
    Return,
    /// A member of a class, to that of an ancestor, where neither is a method.
    VariableOverride,
}

/// What a message is: an error with its code, an obligation that does not hold, or a note.
#[derive(Clone, Copy, Debug, PartialEq, Eq)]
pub enum MessageKind {
    Error(Code),
    FailedObligation(ObligationKind),
    Note,
}

/// An error or a note on a file. Its line and its column are counted from 1, the column in characters.
#[derive(Debug, Drop)]
pub struct Message {
    pub line: usize,
    pub column: usize,
    pub kind: MessageKind,
    pub text: String,
}

impl Message {
    /// An error at a position. It takes no memory.
    pub fn error_at(at: Position, code: Code, text: String) -> Message
        ensures { message_in result ≡ diagnostic_message (error_at at code (string_bytes text)) }
    {
        Message {
            line: at.line as usize,
            column: at.column as usize,
            kind: MessageKind::Error(code),
            text,
        }
    }

    /// An error on a line as a whole. It takes no memory.
    pub fn error_on_line(line: usize, code: Code, text: String) -> Message
        ensures { message_in result ≡ diagnostic_message (error_on_line line code (string_bytes text)) }
    {
        Message {
            line,
            column: 1,
            kind: MessageKind::Error(code),
            text,
        }
    }

    /// The message of an obligation of a kind that does not hold, at a position. It takes no memory.
    pub fn failing_at(at: Position, obligation_kind: ObligationKind, text: String) -> Message
        ensures { message_in result ≡ failing_at at obligation_kind (string_bytes text) }
    {
        Message {
            line: at.line as usize,
            column: at.column as usize,
            kind: MessageKind::FailedObligation(obligation_kind),
            text,
        }
    }

    /// A note at a position. It takes no memory.
    pub fn note_at(at: Position, text: String) -> Message
        ensures { message_in result ≡ diagnostic_message (note_at at (string_bytes text)) }
    {
        Message {
            line: at.line as usize,
            column: at.column as usize,
            kind: MessageKind::Note,
            text,
        }
    }
}

impl Code {
    /// The code as it is printed between brackets.
    pub fn name(self) -> &'static str
        ensures { result.now ≡ code_name self }
    {
        match self {
            Code::AttrDefined => "attr-defined",
            Code::CallArg => "call-arg",
            Code::ImportNotFound => "import-not-found",
            Code::Index => "index",
            Code::Misc => "misc",
            Code::NameDefined => "name-defined",
            Code::NoRedef => "no-redef",
            Code::Operator => "operator",
            Code::Syntax => "syntax",
            Code::UnionAttr => "union-attr",
            Code::ValidType => "valid-type",
        }
    }
}

impl ObligationKind {
    /// The code of an obligation of this kind that does not hold, as it is printed between brackets.
    pub fn code(self) -> &'static str
        ensures { result.now ≡ obligation_code self }
    {
        match self {
            ObligationKind::Argument => "arg-type",
            ObligationKind::Assignment
            | ObligationKind::Default
            | ObligationKind::VariableOverride => "assignment",
            ObligationKind::DictEntry => "dict-item",
            ObligationKind::Index => "index",
            ObligationKind::ListItem => "list-item",
            ObligationKind::MissingReturn => "return",
            ObligationKind::Override => "override",
            ObligationKind::Return => "return-value",
        }
    }
}

impl MessageKind {
    /// The code of a message of this kind as it is printed: no text for a note.
    pub fn code(self) -> &'static str
        ensures { result.now ≡ code_of self }
    {
        match self {
            MessageKind::Error(code) => code.name(),
            MessageKind::FailedObligation(obligation_kind) => obligation_kind.code(),
            MessageKind::Note => "",
        }
    }
}
