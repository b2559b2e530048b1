//! What is known of a source between two of its lexemes.

ghost use Rattle.std.specs.Prelude.{◌≡◌, ◌≢◌, ◌<◌, ◌≤◌, ◌+◌, ◌*◌, ◌^◌, ℕ, [], length, Some, OnOk, IfOk};
ghost use Rattle.pyc_lex.specs.Lines as spec;

use crate::brackets::Opened;
use crate::fault::LexFault;
use crate::ignores::suppressed;
use crate::indents::Columns;
use crate::logical_lines::{Codes, Ignore, LogicalLine, Scan};
use crate::positions::Position;
use crate::stack::{innermost, meet_bracket, settle_indent};
use pyc_token::{CutFault, Kind, Lexeme, Span, Token, kind_of_name};
use std::alloc::{AllocError, Global};

/// What the source is so far, the stack of indents, the open brackets, the columns of the blanks at the line's front
/// and whether they are still counted, the tokens of the line that is begun, and the position.
#[derive(Drop)]
pub(crate) struct Reader {
    lines: Vec<LogicalLine>,
    ignores: Vec<Ignore>,
    whole_file: bool,
    indents: Vec<Columns>,
    brackets: Vec<Opened>,
    margin: Columns,
    is_measuring: bool,
    begun: Vec<Token>,
    from: usize,
    position: Position,
    ghost wide_is_low: { margin.wide ≤ 8 * from },
    ghost narrow_is_low: { margin.narrow ≤ from },
    ghost line_is_low: { position.line ≤ from + 1 },
    ghost column_is_low: { position.column ≤ from + 1 },
    ghost column_from_one: { 1 ≤ position.column },
}

impl Reader {
    ghost use Rattle.pyc_lex.specs.View.{Leads, lexis_in, codes_in, AnswersScan};
    ghost use Rattle.pyc_lex.specs.Reader.{reading_of};
    ghost use Rattle.pyc_lex.specs.Ignores.{suppressed};

    /// The reader at the start of a text that begins at a byte of the source.
    pub fn new(alloc: Global, from: usize) -> Result<Reader, AllocError>
        ensures { IfOk result (λ reader. reading_of reader ≡ spec.start_at from) }
    {
        let mut indents = Vec::new(alloc);
        indents.push(Columns::NONE)?;
        Ok(Reader {
            lines: Vec::new(alloc),
            ignores: Vec::new(alloc),
            whole_file: false,
            indents,
            brackets: Vec::new(alloc),
            margin: Columns::NONE,
            is_measuring: true,
            begun: Vec::new(alloc),
            from,
            position: Position { line: 1, column: 1 },
        })
    }

    /// Goes on past a lexeme.
    fn advance(&mut self, text: &[u8])
        requires { self.old.from + length text.now < 2 ^ 63 }
        ensures { reading_of self.new ≡ spec.moved (reading_of self.old) text.now }
    {
        self.position = self.position.after(text);
        self.from += text.len();
    }

    /// Settles the indent of the line, unless it has a token already.
    fn settle_line(&mut self) -> Result<(), LexFault>
        ensures { Leads (spec.line_settled (reading_of self.old)) result (reading_of self.new) }
    {
        if self.begun.is_empty() {
            settle_indent(&mut self.indents, self.margin, self.position.line)?;
        }
        Ok(())
    }

    /// Adds a token to the line that is begun.
    fn push_token(&mut self, kind: Kind, text: &[u8]) -> Result<(), AllocError>
        requires { self.old.from + length text.now < 2 ^ 63 }
        ensures { OnOk result (reading_of self.new
            ≡ spec.pushed (reading_of self.old) kind text.now (reading_of self.old).brackets) }
    {
        let span = Span {
            start: self.from,
            end: self.from + text.len(),
        };
        self.begun.push(Token {
            kind,
            span,
            line: self.position.line,
            column: self.position.column,
        })?;
        self.is_measuring = false;
        self.advance(text);
        Ok(())
    }

    /// Adds a token, after the indent of its line is settled and its bracket opened or closed.
    fn add_token(&mut self, kind: Kind, text: &[u8]) -> Result<(), LexFault>
        requires { self.old.from + length text.now < 2 ^ 63 }
        ensures { Leads (spec.with_token (reading_of self.old) kind text.now) result (reading_of self.new) }
    {
        // Most tokens have one before them on their line.
        if self.begun.is_empty() {
            self.settle_line()?;
        }
        meet_bracket(&mut self.brackets, kind, self.position.line)?;
        self.push_token(kind, text)?;
        Ok(())
    }

    /// Counts blanks at the line's front.
    fn measure(&mut self, text: &[u8])
        requires { self.old.from + length text.now < 2 ^ 63 }
        ensures { reading_of self.new ≡ spec.moved (spec.measured (reading_of self.old) text.now) text.now }
    {
        if self.is_measuring {
            let margin = self.margin.after(text);
            self.advance(text);
            self.margin = margin;
        } else {
            self.advance(text);
        }
    }

    /// Completes the line that is begun, if it has a token.
    fn end_line(&mut self, alloc: Global) -> Result<(), AllocError>
        ensures { OnOk result (reading_of self.new ≡ spec.line_ended (reading_of self.old)) }
    {
        if !self.begun.is_empty() {
            let tokens = Vec::from_slice(alloc, &self.begun)?;
            let indent = self.indents.len().saturating_sub(1);
            self.lines.push(LogicalLine { indent, tokens })?;
            self.begun.clear();
        }
        self.margin = Columns::NONE;
        self.is_measuring = true;
        Ok(())
    }

    /// Notes an ignore comment.
    fn add_ignore(&mut self, codes: Codes) -> Result<(), AllocError>
        ensures { OnOk result (reading_of self.new ≡ spec.with_ignore (reading_of self.old) (Some (codes_in codes))) }
    {
        if matches!(&codes, Codes::All) && self.lines.is_empty() && self.begun.is_empty() {
            self.whole_file = true;
        }
        self.ignores.push(Ignore {
            line: self.position.line,
            codes,
        })?;
        Ok(())
    }

    /// Reads a comment, which may be an ignore comment.
    fn read_comment(&mut self, alloc: Global, text: &[u8]) -> Result<(), AllocError>
        requires within { self.old.from + length text.now < 2 ^ 63 }
        requires hash { 0 < length text.now }
        ensures { OnOk result (reading_of self.new
            ≡ spec.moved (spec.with_ignore (reading_of self.old) (suppressed self.old.from text.now)) text.now) }
    {
        if let Some(codes) = suppressed(alloc, self.from, text)? {
            self.add_ignore(codes)?;
        }
        self.advance(text);
        Ok(())
    }

    /// Reads one lexeme, of which this is the text.
    #[tactic(auto, unfolding(crate::specs::Lines::step))]
    pub fn step(&mut self, alloc: Global, lexeme: Lexeme, text: &str) -> Result<(), LexFault>
        requires within { self.old.from + length text.now < 2 ^ 63 }
        requires not_empty { 1 ≤ length text.now }
        ensures { Leads (spec.step (reading_of self.old) lexeme text.now) result (reading_of self.new) }
    {
        let bytes = text.as_bytes();
        match lexeme {
            Lexeme::Name => self.add_token(kind_of_name(alloc, text)?, bytes)?,
            Lexeme::Token(kind) => self.add_token(kind, bytes)?,
            Lexeme::Blank => self.measure(bytes),
            Lexeme::Comment => self.read_comment(alloc, bytes)?,
            Lexeme::LineEnd => {
                if self.brackets.is_empty() {
                    self.end_line(alloc)?;
                }
                self.advance(bytes);
            }
            Lexeme::Joined => {
                if self.margin.wide != 0 {
                    self.is_measuring = false;
                }
                self.advance(bytes);
            }
        }
        Ok(())
    }

    /// The fault at a position where no lexeme stands: that of the line's indent comes first.
    #[tactic(auto, unfolding(crate::specs::Lines::fault_met))]
    pub fn fault(&mut self, fault: CutFault) -> LexFault
        ensures { result ≢ LexFault.Memory → spec.fault_met (reading_of self.old) fault ≡ Err result }
    {
        if let Err(indent) = self.settle_line() {
            return indent;
        }
        match fault {
            CutFault::BadCharacter => LexFault::BadCharacter(self.position.line),
            CutFault::OpenString => LexFault::OpenString(self.position.line),
        }
    }

    /// What the source is, at its end.
    pub fn finish(mut self, alloc: Global) -> Result<Scan, LexFault>
        ensures { AnswersScan (spec.finished (reading_of self)) result }
    {
        if let Some(last) = innermost(&self.brackets) {
            return Err(LexFault::Bracket(last.line));
        }
        self.end_line(alloc)?;
        let Reader {
            lines,
            ignores,
            whole_file,
            indents: _,
            brackets: _,
            margin: _,
            is_measuring: _,
            begun: _,
            from: _,
            position: _,
        } = self;
        Ok(Scan {
            lines,
            ignores,
            whole_file,
        })
    }
}
