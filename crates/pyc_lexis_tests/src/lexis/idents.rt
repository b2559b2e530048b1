//! The texts of tokens.

ghost use Rattle.std.specs.Prelude.{All};
ghost use Rattle.pyc_lex.specs.Texts.{IsTextSpan};

use pyc_lex::{Scan, ident, scan};
use std::test::Fail;

/// The text of a token, by the places of its line and of itself.
fn text_at<'a>(bytes: &'a [u8], lines: &Scan, line: usize, token: usize) -> Option<&'a str>
    requires { All (λ line. All (λ token. IsTextSpan bytes.now token.span) line.tokens.items) lines.now.lines.items }
{
    let token = lines.lines.get(line)?.tokens.get(token)?;
    Some(ident(bytes, token.span))
}

#[test]
fn gives_the_text_of_a_token(rt: HostRuntime) -> Result<(), Fail> {
    let bytes = "\u{feff}été = (𝒳,\r\n '''a\n''')\nb".as_bytes();
    let lines = scan(rt.alloc(), bytes)?;
    assert_eq!(rt; text_at(bytes, &lines, 0, 0), Some("été"));
    assert_eq!(rt; text_at(bytes, &lines, 0, 3), Some("𝒳"));
    assert_eq!(rt; text_at(bytes, &lines, 0, 5), Some("'''a\n'''"));
    assert_eq!(rt; text_at(bytes, &lines, 1, 0), Some("b"));
    Ok(())
}
