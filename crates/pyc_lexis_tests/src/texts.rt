//! Texts: as they are made, shared and compared.

use pyc_ast::Text;
use std::test::Fail;

#[test]
fn a_text_is_itself(rt: HostRuntime) -> Result<(), Fail> {
    let text = Text::new(rt.alloc(), "self")?;
    assert_eq!(rt; text.as_str(), "self");
    let copy = text.clone()?;
    assert!(rt; copy == text);
    let other = Text::new(rt.alloc(), "selg")?;
    assert!(rt; other != text);
    Ok(())
}

/// Names as they are spelled, with their normal form.
const NORMAL_FORMS: &[(&str, &str)] = &[
    ("x", "x"),
    ("\u{fb01}", "fi"),
    ("\u{ff58}y", "xy"),
    ("e\u{301}", "\u{e9}"),
];

/// Unicode Standard Annex 15: the ligature and the fullwidth letter have compatibility decompositions.
#[test]
fn names_in_normal_form(rt: HostRuntime) -> Result<(), Fail> {
    for (spelled, name) in NORMAL_FORMS {
        let text = Text::normalized(rt.alloc(), spelled)?;
        assert_eq!(rt; text.as_str(), *name);
    }
    Ok(())
}
