//! Annotations, with what they are written as.

use crate::sources::tree_of;
use pyc_ast::{AnnotatedAssignment, Expr, Stmt, StmtForm, Text};
use pyc_type_exprs::{ArgumentShape, TypeArgument, TypeExpr, dotted_names, innermost, type_expr};
use std::alloc::Global;
use std::fmt::Write;
use std::rc::Rc;
use std::test::Fail;

/// The annotated assignment that the statements of a module begin with.
fn first_annotated(statements: &[Stmt]) -> Result<Rc<AnnotatedAssignment>, Fail> {
    match statements.first() {
        Some(
            Stmt {
                form: StmtForm::Annotate(found),
                ..
            },
        ) => Ok(found.clone()?),
        _ => Err("no annotation".into()),
    }
}

/// The assignment `x: ANNOTATION` with this annotation.
fn annotated(alloc: Global, annotation: &str) -> Result<Rc<AnnotatedAssignment>, Fail> {
    let source = format!(in alloc; "x: {annotation}\n")?;
    first_annotated(&tree_of(alloc, source.as_str())?.statements)
}

/// Writes names with dots between them.
fn write_names(names: &[Text], shown: &mut String) -> Result<(), Fail> {
    let mut is_first = true;
    for name in names {
        if !is_first {
            shown.push_str(".")?;
        }
        is_first = false;
        shown.push_str(name.as_str())?;
    }
    Ok(())
}

/// Writes an annotation without its parts: a name, `None`, `|` for a union, `[]` after a name with arguments, and where
/// any other expression stands `?` with its column.
fn write_head(written: &TypeExpr, shown: &mut String) -> Result<(), Fail> {
    match written {
        TypeExpr::None => shown.push_str("None")?,
        TypeExpr::Name { name, .. } => write_names(&name.names, shown)?,
        TypeExpr::Union { .. } => shown.push_str("|")?,
        TypeExpr::Subscript { name, .. } => {
            write_names(&name.names, shown)?;
            shown.push_str("[]")?;
        }
        TypeExpr::Wrong(at) => {
            let column = at.column;
            write!(shown, "?{column}")?;
        }
    }
    Ok(())
}

/// Writes an argument: its head, or its shape with those of the types in a list.
fn write_argument(argument: &TypeArgument, shown: &mut String) -> Result<(), Fail> {
    match &argument.shape {
        ArgumentShape::Ellipsis => shown.push_str("...")?,
        ArgumentShape::List(types) => {
            shown.push_str("list")?;
            for written in types {
                shown.push_str(" ")?;
                write_head(written, shown)?;
            }
        }
        ArgumentShape::Other => write_head(&argument.written, shown)?,
    }
    shown.push_str(";")?;
    Ok(())
}

/// Writes an annotation: a union with the heads of its items, a name with its arguments, with `2` before them where it
/// is subscripted more than once, or its head alone.
fn write_form(written: &TypeExpr, shown: &mut String) -> Result<(), Fail> {
    match written {
        TypeExpr::Union {
            first,
            between,
            last,
        } => {
            write_head(first, shown)?;
            for written in between {
                shown.push_str(" | ")?;
                write_head(written, shown)?;
            }
            shown.push_str(" | ")?;
            write_head(last, shown)?;
        }
        TypeExpr::Subscript {
            name,
            is_nested,
            arguments,
            ..
        } => {
            write_names(&name.names, shown)?;
            shown.push_str(if *is_nested { "2[" } else { "[" })?;
            for argument in arguments {
                write_argument(argument, shown)?;
            }
            shown.push_str("]")?;
        }
        other => write_head(other, shown)?,
    }
    Ok(())
}

/// The text of an annotation.
fn shown(alloc: Global, written: &TypeExpr) -> Result<String, Fail> {
    let mut shown = String::new(alloc);
    write_form(written, &mut shown)?;
    Ok(shown)
}

/// What an annotation is.
fn form_of(alloc: Global, annotation: &str) -> Result<TypeExpr, Fail> {
    let found = annotated(alloc, annotation)?;
    Ok(type_expr(alloc, &found.annotation)?)
}

/// What an annotation is written as.
fn written(alloc: Global, annotation: &str) -> Result<String, Fail> {
    let form = form_of(alloc, annotation)?;
    shown(alloc, &form)
}

/// Annotations, with what they are written as: names and unions, expressions that mean no type, names with arguments,
/// and strings.
const WRITTEN: &[(&str, &str)] = &[
    ("int", "int"),
    ("((a))", "a"),
    ("a.b.c", "a.b.c"),
    ("\u{fb01}.b", "fi.b"),
    ("None", "None"),
    ("a | None", "a | None"),
    ("a.b | (c | d)", "a.b | |"),
    ("a | b[c] | d", "a | b[] | d"),
    ("list[a] | 1", "list[] | ?14"),
    ("1", "?4"),
    ("(a)()[b]", "?4"),
    ("'\\x61'", "?4"),
    ("list[int]", "list[int;]"),
    ("(a.b)[c | d]", "a.b[|;]"),
    ("dict[str, a.b]", "dict[str;a.b;]"),
    ("dict[(str, int)]", "dict[str;int;]"),
    ("dict[((str, int),)]", "dict[?10;]"),
    ("tuple[()]", "tuple[]"),
    ("tuple[int, ...]", "tuple[int;...;]"),
    ("tuple[None]", "tuple[None;]"),
    ("a[b[c], 1]", "a[b[];?12;]"),
    ("a[b:c]", "a[?6;]"),
    ("a[b, c:d]", "a[b;?9;]"),
    ("Callable[..., a]", "Callable[...;a;]"),
    (
        "Callable[[a, b.c, None], d]",
        "Callable[list a b.c None;d;]",
    ),
    ("Callable[[], [1]]", "Callable[list;list ?18;]"),
    ("Callable[([a]), (...)]", "Callable[list a;...;]"),
    ("a[b][c, d]", "a2[c;d;]"),
    ("(a.b[c])[d]", "a.b2[d;]"),
    ("'a'", "a"),
    ("\" a.b \"", "a.b"),
    ("'''a | None'''", "a | None"),
    ("'a' | 'b[c]'", "a | b[]"),
    ("'a[b, 1, ...]'", "a[b;?4;...;]"),
    ("a['b', 'c d']", "a[b;?11;]"),
    ("'\"a\"'", "a"),
    ("'1'", "?4"),
    ("a['...']", "a[?6;]"),
    ("Callable['[a]', b]", "Callable[?13;b;]"),
    ("dict['a, b']", "dict[?9;]"),
];

/// The items of a tuple are the arguments, also in parentheses. A string without prefix and backslash is read as the
/// expression that its text spells, each part of which stands at the string.
#[test]
fn annotations_as_they_are_written(rt: HostRuntime) -> Result<(), Fail> {
    for (annotation, want) in WRITTEN {
        assert_eq!(rt;
            written(rt.alloc(), annotation)?.as_str(),
            *want,
            "{annotation}"
        );
    }
    Ok(())
}

/// The columns at which a name begins, with its parentheses and without.
fn columns(form: &TypeExpr) -> (u32, u32) {
    match form {
        TypeExpr::Name { at, name } => (at.column, name.at.column),
        TypeExpr::Subscript { at, name, .. } => (at.column, name.at.column),
        _ => (0, 0),
    }
}

/// The columns at which the name of an annotation begins.
fn columns_of(alloc: Global, annotation: &str) -> Result<(u32, u32), Fail> {
    let form = form_of(alloc, annotation)?;
    Ok(columns(&form))
}

/// Annotations, with the columns of their names.
const PLACES: &[(&str, u32, u32)] = &[
    ("a.b", 4, 4),
    ("((a.b))", 4, 6),
    ("'(a)'", 4, 4),
    ("a[b]", 4, 4),
    ("((a)[b])", 4, 6),
];

/// Where a name begins, with its parentheses and without.
#[test]
fn names_have_their_places(rt: HostRuntime) -> Result<(), Fail> {
    for (annotation, outside, inside) in PLACES {
        let found = columns_of(rt.alloc(), annotation)?;
        assert!(rt; found == (*outside, *inside), "{annotation}");
    }
    Ok(())
}

/// Writes the dotted names of an expression, or `-` where it has none.
fn write_dotted(alloc: Global, expr: &Expr, shown: &mut String) -> Result<(), Fail> {
    match dotted_names(alloc, expr)? {
        Some(names) => write_names(&names, shown)?,
        None => shown.push_str("-")?,
    }
    Ok(())
}

/// The dotted names of an expression, and those of what is subscripted in it.
fn both_dotted(alloc: Global, expr: &Expr) -> Result<String, Fail> {
    let mut shown = String::new(alloc);
    write_dotted(alloc, expr, &mut shown)?;
    shown.push_str(" ")?;
    write_dotted(alloc, innermost(expr), &mut shown)?;
    Ok(shown)
}

/// The dotted names of an annotation, and those of what is subscripted in it.
fn names_of(alloc: Global, annotation: &str) -> Result<String, Fail> {
    let found = annotated(alloc, annotation)?;
    both_dotted(alloc, &found.annotation)
}

/// Annotations, each with its dotted names and with those of what is subscripted in it.
const DOTTED: &[(&str, &str)] = &[
    ("a", "a a"),
    ("a.b.c", "a.b.c a.b.c"),
    ("((a).b)", "a.b a.b"),
    ("a.b[c]", "- a.b"),
    ("(a[b])[c][d]", "- a"),
    ("a[b].c", "- -"),
    ("a()", "- -"),
    ("a()[b]", "- -"),
    ("None", "- -"),
    ("'a'", "- -"),
];

#[test]
fn dotted_names_and_what_is_subscripted(rt: HostRuntime) -> Result<(), Fail> {
    for (annotation, want) in DOTTED {
        assert_eq!(rt;
            names_of(rt.alloc(), annotation)?.as_str(),
            *want,
            "{annotation}"
        );
    }
    Ok(())
}
