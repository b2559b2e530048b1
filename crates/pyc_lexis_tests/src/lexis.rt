//! Texts with the tokens or the fault that Python's lexical analysis gives them.

mod brackets;
mod characters;
mod encoding;
mod idents;
mod ignores;
mod indents;
mod joined_lines;
mod limits;
mod names;
mod nesting;
mod numbers;
mod open_strings;
mod operators;
mod strings;
mod tables;

use pyc_lex::{Codes, Ignore, LexFault, Scan, Token, scan};
use std::alloc::Global;
use std::fmt::Write;
use std::str;
use std::test::Fail;

/// A token as its line, column, kind and text.
fn write_token(shown: &mut String, bytes: &[u8], token: &Token) -> Result<(), Fail> {
    let Token {
        kind,
        span,
        line,
        column,
    } = *token;
    if span.start > span.end || span.end > bytes.len() {
        return Err("a span outside the source")?;
    }
    let text = str::from_utf8(&bytes[span.start..span.end])
        .ok()
        .ok_or("no text")?;
    write!(shown, "[{line}:{column} {kind:?} {text}]")?;
    Ok(())
}

/// The codes of an ignore comment.
fn write_ignore(shown: &mut String, bytes: &[u8], ignore: &Ignore) -> Result<(), Fail> {
    write!(shown, "#{}", ignore.line)?;
    if let Codes::Listed(spans) = &ignore.codes {
        for span in spans {
            if span.start > span.end || span.end > bytes.len() {
                return Err("a span outside the source")?;
            }
            let code = str::from_utf8(&bytes[span.start..span.end])
                .ok()
                .ok_or("no text")?;
            write!(shown, " {code}")?;
        }
    }
    shown.push(';')?;
    Ok(())
}

/// The indent and the tokens of each logical line, which a `;` ends, and the ignore comments after them.
fn shown(alloc: Global, bytes: &[u8], lines: &Scan) -> Result<String, Fail> {
    let mut shown = String::new(alloc);
    for line in &lines.lines {
        write!(shown, "{} ", line.indent)?;
        for token in &line.tokens {
            write_token(&mut shown, bytes, token)?;
        }
        shown.push(';')?;
    }
    for ignore in &lines.ignores {
        write_ignore(&mut shown, bytes, ignore)?;
    }
    if lines.whole_file {
        shown.push('!')?;
    }
    Ok(shown)
}

/// The lines and ignore comments of a source without a fault.
fn lines_of(alloc: Global, source: &str) -> Result<String, Fail> {
    let bytes = source.as_bytes();
    let lines = scan(alloc, bytes).ok().ok_or("a fault")?;
    shown(alloc, bytes, &lines)
}

/// Sources, with their lines and ignore comments.
const LINES: &[(&str, &str)] = &[
    (
        "x: int = \"a\"\n",
        "0 [1:1 Name(Other) x][1:2 Delimiter(Colon) :][1:4 Name(Other) int][1:8 Delimiter(Equal) =][1:10 String(Plain) \"a\"];",
    ),
    (
        "\u{feff}x = 1",
        "0 [1:1 Name(Other) x][1:3 Delimiter(Equal) =][1:5 Number(Integer) 1];",
    ),
    (
        "a\rb\r\n\nc",
        "0 [1:1 Name(Other) a];0 [2:1 Name(Other) b];0 [4:1 Name(Other) c];",
    ),
    ("\n \t\u{c}# é \\ $\n\nif # else", "0 [4:1 Keyword(If) if];"),
    (
        "'é\u{1}#' = \"it's\"  y",
        "0 [1:1 String(Plain) 'é\u{1}#'][1:7 Delimiter(Equal) =][1:9 String(Plain) \"it's\"][1:17 Name(Other) y];",
    ),
    (
        "1.5 1_2 _a1 None iff 0x_f 1e-3j",
        "0 [1:1 Number(Float) 1.5][1:5 Number(Integer) 1_2][1:9 Name(Other) _a1][1:13 Keyword(None) None][1:18 Name(Other) iff][1:22 Number(Integer) 0x_f][1:27 Number(Imaginary) 1e-3j];",
    ),
    (
        "match = c\u{430}se\n\u{ff54}ype: été",
        "0 [1:1 Name(Match) match][1:7 Delimiter(Equal) =][1:9 Name(Other) c\u{430}se];0 [2:1 Name(Type) \u{ff54}ype][2:5 Delimiter(Colon) :][2:7 Name(Other) été];",
    ),
    (
        "if x:\n\ty = (1,\n  2)\nz \\\r\n **= 3",
        "0 [1:1 Keyword(If) if][1:4 Name(Other) x][1:5 Delimiter(Colon) :];1 [2:2 Name(Other) y][2:4 Delimiter(Equal) =][2:6 Open(Round) (][2:7 Number(Integer) 1][2:8 Delimiter(Comma) ,][3:3 Number(Integer) 2][3:4 Close(Round) )];0 [4:1 Name(Other) z][5:2 Augmented(DoubleStar) **=][5:6 Number(Integer) 3];",
    ),
    (
        "Rb'\\'' f\"{{{a}\" '''a\n'b''' x",
        "0 [1:1 String(RawBytes) Rb'\\''][1:8 String(Format) f\"{{{a}\"][1:17 String(Plain) '''a\n'b'''][2:7 Name(Other) x];",
    ),
    (
        "# type: ignore\nx # type:ignore[a b , c]# d\n# type: ignore[]",
        "0 [2:1 Name(Other) x];#1;#2 a b c;!",
    ),
    ("# only", ""),
];

#[test]
fn gives_lines_of_tokens(rt: HostRuntime) -> Result<(), Fail> {
    for (source, want) in LINES {
        assert_eq!(rt; lines_of(rt.alloc(), source)?.as_str(), *want);
    }
    Ok(())
}

/// Sources, with their first fault.
const FAULTS: &[(&[u8], LexFault)] = &[
    (b"\n'a\n'", LexFault::OpenString(2)),
    (b"\"a", LexFault::OpenString(1)),
    (b"x = '''a\n'", LexFault::OpenString(1)),
    (b"x = f\"{\", \"}\"", LexFault::OpenString(1)),
    (b"x \\", LexFault::BadCharacter(1)),
    (b"\r\n\r$", LexFault::BadCharacter(3)),
    (b"\"\xc3\xa9\" \xc2\xa7", LexFault::BadCharacter(1)),
    (b"$ \"a", LexFault::BadCharacter(1)),
    (b"\xef\xbb\xbf\xef\xbb\xbfx", LexFault::BadCharacter(1)),
    (b"\"a\" \xff", LexFault::NotUtf8),
    (b"$\xc3", LexFault::NotUtf8),
    (b"(\n[\n", LexFault::Bracket(2)),
    (b"\n(]", LexFault::Bracket(2)),
    (b"if x:\n    y\n  $", LexFault::Dedent(3)),
    (b"if x:\n        y\n\tz", LexFault::Tabs(3)),
    (b"if x:\n\ty\n        z", LexFault::Tabs(3)),
    (
        b"(((((((((((((((((((((((((((((((((((((((((((((((((((((((((((((((((",
        LexFault::Deep(1),
    ),
    (b"((\n)", LexFault::Bracket(1)),
];

#[test]
fn reports_the_first_fault(rt: HostRuntime) {
    for (source, want) in FAULTS {
        assert_eq!(rt; scan(rt.alloc(), source).err(), Some(*want));
    }
}
