//! What a source is.

ghost use Rattle.std.specs.Prelude.{◌≡◌, IfOk, IfSome, [], map, is_some, true};
ghost use Rattle.pyc_ast.specs.Modules.{module_of, outcome_of};
ghost use Rattle.pyc_lex.specs.View.{line_in, lexis_in};
ghost use Rattle.pyc_lower.specs.Parts.{lines_in, AnswersParts, AnswersWhole};
ghost use Rattle.pyc_lower.specs.Reading.{read_of, outcome_in};
ghost use Rattle.pyc_parse.specs.Modules as concrete;
ghost use Rattle.pyc_parse.specs.Outcome.{fault_in, parse_outcome};

use crate::ignores::ignores;
use crate::parts::{Parts, lower_parts, lower_whole};
use crate::strings::Inside;
use pyc_ast::{Fault, Module, Outcome};
use pyc_lex::{LogicalLine, Scan, scan};
use pyc_lower_expression::{Lowering, Names, Origin, Unread};
use pyc_parse::{Fault as Reported, lexical_fault, parse_fault};
use std::alloc::{AllocError, Global};

/// The reader of the strings of a file. Without a backslash a string holds no quotes like its own, and there are four
/// sorts, `"`, `'`, `"""` and `'''`: so strings nest at most four deep.
const STRINGS: Inside<Inside<Inside<Inside<Unread>>>> = Inside {
    inner: Inside {
        inner: Inside {
            inner: Inside { inner: Unread },
        },
    },
};

/// What the lines of a source are, read as a whole or in parts. The only error is that memory runs out.
fn lowered_lines(
    alloc: Global,
    source: &[u8],
    lines: Vec<LogicalLine>,
    is_whole: bool,
) -> Result<Parts, AllocError>
    ensures parts { IfOk result (λ parts. AnswersParts (lines_in source.now (map line_in lines.items)) parts) }
    ensures whole { is_whole ≡ true → IfOk result
        (λ parts. AnswersWhole (lines_in source.now (map line_in lines.items)) parts) }
{
    let lowering = Lowering {
        alloc,
        origin: Origin {
            source,
            string: None,
        },
        quotes: &STRINGS,
    };
    let mut names = Names::new(alloc)?;
    if is_whole {
        lower_whole(&lowering, lines, &mut names)
    } else {
        lower_parts(&lowering, lines, &mut names)
    }
}

/// What a source with a fault is.
fn reported(fault: Reported) -> Outcome
    ensures { outcome_of result ≡ outcome_in [] (fault_in fault) }
{
    Outcome::Fault(Fault {
        line: fault.line,
        text: fault.text,
    })
}

/// What a source with these logical lines is. Nothing where these are read in parts and one has a fault in its blocks.
/// The only error is that memory runs out.
fn scan_outcome(
    alloc: Global,
    source: &[u8],
    scan: Scan,
    is_whole: bool,
) -> Result<Option<Outcome>, AllocError>
    ensures outcome { IfOk result (λ found. IfSome found
        (λ outcome. outcome_of outcome ≡ outcome_in source.now (parse_outcome (concrete.module_of (lexis_in scan))))) }
    ensures whole { is_whole ≡ true → IfOk result (λ found. is_some found ≡ true) }
{
    match lowered_lines(alloc, source, scan.lines, is_whole)? {
        Parts::Lowered(found) => Ok(Some(Outcome::Tree(Module {
            statements: found.statements,
            suspends: found.suspends,
            ignores: ignores(alloc, source, &scan.ignores)?,
            whole_file: scan.whole_file,
        }))),
        Parts::Fault(fault) => Ok(Some(reported(parse_fault(fault)?))),
        Parts::Misplaced => Ok(None),
    }
}

/// What a source is. Nothing where its lines are read in parts and one has a fault in its blocks. The only error is
/// that memory runs out.
#[tactic(auto, unfolding(crate::specs::Reading::read_of))]
fn read_source(alloc: Global, bytes: &[u8], is_whole: bool) -> Result<Option<Outcome>, AllocError>
    ensures outcome { IfOk result (λ found. IfSome found (λ outcome. outcome_of outcome ≡ read_of bytes.now)) }
    ensures whole { is_whole ≡ true → IfOk result (λ found. is_some found ≡ true) }
{
    match scan(alloc, bytes) {
        Ok(scan) => scan_outcome(alloc, bytes, scan, is_whole),
        Err(fault) => Ok(Some(reported(lexical_fault(fault)?))),
    }
}

/// What a source is: its first lexical fault, else its first line without a tree, else the first fault of its blocks,
/// else its module, with the strings in annotations read as the expressions that they spell. The only error is that
/// memory runs out.
pub fn read(alloc: Global, bytes: &[u8]) -> Result<Outcome, AllocError>
    ensures { IfOk result (λ outcome. outcome_of outcome ≡ read_of bytes.now) }
{
    if let Some(outcome) = read_source(alloc, bytes, false)? {
        return Ok(outcome);
    }
    match read_source(alloc, bytes, true)? {
        Some(outcome) => Ok(outcome),
        None => unreachable!(),
    }
}
