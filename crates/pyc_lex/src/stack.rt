//! What a line's front does to the stack of indents, and a token to the open brackets.

ghost use Rattle.std.specs.Prelude.{◌≡◌, ◌<◌, ◌≤◌, ◌==◌, [], ◌∷◌, ◌++◌, length, position, OnOk};
ghost use Rattle.pyc_lex.specs.Indents as indents;
ghost use Rattle.pyc_lex.specs.Lines as lines;
ghost use Rattle.pyc_lex.specs.View.{Leads};

use crate::brackets::Opened;
use crate::fault::LexFault;
use crate::indents::Columns;
use pyc_token::{Bracket, Kind};
use std::alloc::AllocError;

/// The most entries above the first, and the most open brackets.
const MAX_DEPTH: usize = 64;

/// The last entry.
fn top_of(stack: &[Columns]) -> Columns
    ensures { result ≡ indents.top_of stack.now }
{
    stack.last().copied().unwrap_or(Columns::NONE)
}

/// The index of the first entry with the wide measure of these columns.
fn index_of(stack: &[Columns], at: Columns) -> Option<usize>
    ensures { result ≡ position (λ entry. entry.wide == at.wide) stack.now }
{
    stack.iter().position(|entry| entry.wide == at.wide)
}

/// Adds an entry.
fn add(stack: &mut Vec<Columns>, at: Columns) -> Result<(), AllocError>
    ensures { OnOk result (stack.new.items ≡ stack.old.items ++ at ∷ []) }
{
    stack.push(at)?;
    Ok(())
}

/// Pops to the entry with the wide measure of these columns.
fn pop(stack: &mut Vec<Columns>, at: Columns, line: usize) -> Result<(), LexFault>
    ensures { Leads (indents.popped_to stack.old.items at line
        (position (λ entry. entry.wide == at.wide) stack.old.items)) result stack.new.items }
{
    let Some(index) = index_of(stack, at) else {
        return Err(LexFault::Dedent(line));
    };
    if stack[index].narrow != at.narrow {
        return Err(LexFault::Tabs(line));
    }
    stack.truncate(index + 1);
    Ok(())
}

/// The stack for a line that begins at these columns.
#[tactic(auto, unfolding(crate::specs::Indents::settled))]
pub(crate) fn settle_indent(
    stack: &mut Vec<Columns>,
    at: Columns,
    line: usize,
) -> Result<(), LexFault>
    ensures { Leads (indents.settled stack.old.items at line) result stack.new.items }
{
    let top = top_of(stack);
    if !at.compares_alike(top) {
        return Err(LexFault::Tabs(line));
    }
    if top.wide < at.wide {
        if stack.len() > MAX_DEPTH {
            return Err(LexFault::Deep(line));
        }
        add(stack, at)?;
        return Ok(());
    }
    if at.wide == top.wide {
        return Ok(());
    }
    pop(stack, at, line)
}

/// Whether two brackets are of one sort.
fn is_same(a: Bracket, b: Bracket) -> bool
    ensures { result ≡ lines.is_same a b }
{
    matches!(
        (a, b),
        (Bracket::Round, Bracket::Round)
            | (Bracket::Square, Bracket::Square)
            | (Bracket::Curly, Bracket::Curly)
    )
}

/// The innermost of the open brackets.
pub(crate) fn innermost(brackets: &[Opened]) -> Option<Opened>
    ensures { result ≡ lines.innermost brackets.now }
{
    brackets.last().copied()
}

/// Adds an open bracket.
fn open(brackets: &mut Vec<Opened>, bracket: Opened) -> Result<(), AllocError>
    ensures { OnOk result (brackets.new.items ≡ brackets.old.items ++ bracket ∷ []) }
{
    brackets.push(bracket)?;
    Ok(())
}

/// Closes the innermost bracket.
fn close(brackets: &mut Vec<Opened>, sort: Bracket, line: usize) -> Result<(), LexFault>
    ensures { Leads (lines.closed (lines.innermost brackets.old.items) sort line brackets.old.items) result
        brackets.new.items }
{
    match innermost(brackets) {
        Some(last) if is_same(last.bracket, sort) => {
            brackets.truncate(brackets.len() - 1);
            Ok(())
        }
        _ => Err(LexFault::Bracket(line)),
    }
}

/// The brackets that are open after a token.
#[tactic(auto, unfolding(crate::specs::Lines::bracketed))]
pub(crate) fn meet_bracket(
    brackets: &mut Vec<Opened>,
    kind: Kind,
    line: usize,
) -> Result<(), LexFault>
    ensures { Leads (lines.bracketed brackets.old.items kind line) result brackets.new.items }
{
    match kind {
        Kind::Open(bracket) => {
            if brackets.len() >= MAX_DEPTH {
                return Err(LexFault::Deep(line));
            }
            open(brackets, Opened { bracket, line })?;
            Ok(())
        }
        Kind::Close(bracket) => close(brackets, bracket, line),
        _ => Ok(()),
    }
}
