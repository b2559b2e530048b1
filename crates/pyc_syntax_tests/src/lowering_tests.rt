//! Sources with the abstract trees and positions that CPython's `ast` gives them, columns counted from 1.

use pyc_ast::{
    Block, ClassDefinition, Codes, Expr, Form, FunctionDefinition, Ignore, Index, IndexForm,
    Module, Outcome, Position, Stmt, StmtForm,
};
use pyc_lower::read;
use std::alloc::Global;
use std::fmt::Write;
use std::test::Fail;

/// An expression, each part after its position: `3:1 x`. A string's expression stands between backquotes, what is not
/// looked into here is `?`.
#[cycle(shown)]
fn write_expr(expr: &Expr, shown: &mut String) -> Result<(), Fail> {
    write!(shown, "{}:{} ", expr.at.line, expr.at.column)?;
    match &expr.form {
        Form::Name(name) => shown.push_str(name.as_str())?,
        Form::Constant(constant) => write!(shown, "{constant:?}")?,
        Form::StringAnnotation(inner) => {
            shown.push('`')?;
            write_expr(inner, shown)?;
            shown.push('`')?;
        }
        Form::Subscript { value, index } => {
            write_expr(value, shown)?;
            shown.push('[')?;
            write_index(index, shown)?;
            shown.push(']')?;
        }
        Form::Binary {
            operator,
            left,
            right,
        } => {
            write_expr(left, shown)?;
            write!(shown, " {operator:?} ")?;
            write_expr(right, shown)?;
        }
        _ => shown.push('?')?,
    }
    Ok(())
}

/// What stands between the brackets of a subscript, a comma after each of several indices.
#[cycle(shown)]
fn write_index(index: &Index, shown: &mut String) -> Result<(), Fail> {
    match &index.form {
        IndexForm::Item(item) => write_expr(item, shown)?,
        IndexForm::Indices(indices) => {
            for index in indices {
                write_index(index, shown)?;
                shown.push(',')?;
            }
        }
        IndexForm::Slice { .. } => shown.push(':')?,
    }
    Ok(())
}

/// Writes a position and a space.
fn write_place(at: Position, shown: &mut String) -> Result<(), Fail> {
    write!(shown, "{}:{} ", at.line, at.column)?;
    Ok(())
}

/// Writes a function: its name with `*` where it suspends, and its parameters, each after its position.
fn write_function(head: &FunctionDefinition, shown: &mut String) -> Result<(), Fail> {
    shown.push_str(head.name.as_str())?;
    shown.push_str(if head.suspends { "*(" } else { "(" })?;
    for parameter in &head.parameters {
        write_place(parameter.at, shown)?;
        if let Some(annotation) = &parameter.annotation {
            write_expr(annotation, shown)?;
        }
        shown.push(',')?;
    }
    shown.push(')')?;
    Ok(())
}

/// Writes a class: its name, and the positions of its arguments.
fn write_class(head: &ClassDefinition, shown: &mut String) -> Result<(), Fail> {
    shown.push_str(head.name.as_str())?;
    shown.push_str("( ")?;
    for argument in &head.arguments {
        write_place(argument.at, shown)?;
    }
    shown.push(')')?;
    Ok(())
}

/// Writes a statement after its position: an annotation as `write_expr` writes it, the head of a function or a class,
/// and for any other `?`.
fn write_statement(statement: &Stmt, shown: &mut String) -> Result<(), Fail> {
    write_place(statement.at, shown)?;
    match &statement.form {
        StmtForm::Annotate(found) => write_expr(&found.annotation, shown)?,
        StmtForm::Function { head, .. } => write_function(head, shown)?,
        StmtForm::Class { head, .. } => write_class(head, shown)?,
        _ => shown.push('?')?,
    }
    shown.push(';')?;
    Ok(())
}

/// Writes statements, and after each class those of its body.
fn write_statements(statements: &[Stmt], shown: &mut String) -> Result<(), Fail> {
    for statement in statements {
        write_statement(statement, shown)?;
        if let StmtForm::Class { body, .. } = &statement.form {
            let Block::Of(body) = body;
            for inner in body {
                write_statement(inner, shown)?;
            }
        }
    }
    Ok(())
}

/// Writes ignore comments, each as its line, and its codes with a space before each.
fn write_ignores(ignores: &[Ignore], shown: &mut String) -> Result<(), Fail> {
    for ignore in ignores {
        write!(shown, "#{}", ignore.line)?;
        if let Codes::Listed(codes) = &ignore.codes {
            for code in codes {
                write!(shown, " {}", code.as_str())?;
            }
        }
    }
    Ok(())
}

/// Writes the statements of a module, its ignore comments, `!` where one suppresses the file, and `*` where the module
/// suspends.
fn write_module(module: &Module, shown: &mut String) -> Result<(), Fail> {
    write_statements(&module.statements, shown)?;
    write_ignores(&module.ignores, shown)?;
    shown.push_str(if module.whole_file { "!" } else { "" })?;
    shown.push_str(if module.suspends { "*" } else { "" })?;
    Ok(())
}

/// What a source is: its module, or the line and the text of its first fault.
fn shown(alloc: Global, outcome: &Outcome) -> Result<String, Fail> {
    let mut shown = String::new(alloc);
    match outcome {
        Outcome::Tree(module) => write_module(module, &mut shown)?,
        Outcome::Fault(fault) => write!(shown, "{} {}", fault.line, fault.text)?,
    }
    Ok(shown)
}

/// What `source` is: its module, or the line and the text of its first fault.
fn read_shown(alloc: Global, source: &str) -> Result<String, Fail> {
    shown(alloc, &read(alloc, source.as_bytes())?)
}

const SOURCE: &str = "import os  # type: ignore[import-untyped, misc]
def area(width: 'list[\"int\"]', height: int = 2) -> float:
    yield width
class Box(Base):
    size: 'list[\"int\"]' = None
    side: \" int | None \"
";

/// Sources, with their statements, ignore comments and marks.
const MODULES: &[(&str, &str)] = &[
    (
        SOURCE,
        "1:1 ?;2:1 area*(2:10 2:17 `2:17 2:17 list[2:17 `2:17 int`]`,2:32 2:40 int,);4:1 Box( 4:11 );\
         5:5 5:11 `5:11 5:11 list[5:11 `5:11 int`]`;6:5 6:11 `6:11 6:11 int BitOr 6:11 None`;\
         #1 import-untyped misc",
    ),
    ("# type: ignore\nx = yield\n", "2:1 ?;#1!*"),
    ("x = await y # type: ignore\n", "1:1 ?;#1*"),
    ("x = lambda: (yield)\n", "1:1 ?;"),
    ("", ""),
];

/// Annotations that are strings, with what they are read as. `ast.parse(text, mode="eval")` takes the text of each
/// string that is read, without the indent of its line.
const STRINGS: &[(&str, &str)] = &[
    ("x: \"int\"", "1:1 1:4 `1:4 int`;"),
    ("x: '''int'''", "1:1 1:4 `1:4 int`;"),
    ("x: \"\"\"\nint # why\n\"\"\"", "1:1 1:4 `1:4 int`;"),
    // one logical line, whatever its indent
    ("x: \"\tint\"", "1:1 1:4 `1:4 int`;"),
    ("x: \"\"\"\n    int\n\"\"\"", "1:1 1:4 `1:4 int`;"),
    ("x: \"a, b\"", "1:1 1:4 `1:4 ?`;"),
    ("x: \"(yield a)\"", "1:1 1:4 `1:4 ?`;"),
    ("x: \"(*a, b)\"", "1:1 1:4 `1:4 ?`;"),
    (
        "x: \"\"\" '''t[ \"u[ 'a', b ]\" ]''' \"\"\"",
        "1:1 1:4 `1:4 `1:4 1:4 t[1:4 `1:4 1:4 u[1:4 `1:4 a`,1:4 b,]`]``;",
    ),
    // no expression
    ("x: \"\"", "1:1 1:4 Str;"),
    ("x: \"a b\"", "1:1 1:4 Str;"),
    ("x: \"a;\"", "1:1 1:4 Str;"),
    ("x: \"a = b\"", "1:1 1:4 Str;"),
    ("x: \"yield a\"", "1:1 1:4 Str;"),
    ("x: \"yield from a\"", "1:1 1:4 Str;"),
    ("x: \"*a, b\"", "1:1 1:4 Str;"),
    ("x: \"a, *b\"", "1:1 1:4 Str;"),
    ("x: \"if a: b\"", "1:1 1:4 Str;"),
    ("x: \"\\tint\"", "1:1 1:4 Str;"),
    ("x: \"\u{feff}int\"", "1:1 1:4 Str;"),
    ("x: '''a\nb'''", "1:1 1:4 Str;"),
    // not one string without prefix
    ("x: r\"int\"", "1:1 1:4 Str;"),
    ("x: \"int\" \"a\"", "1:1 1:4 Str;"),
    ("x: b\"int\"", "1:1 1:4 Bytes;"),
];

/// Sources, with the line and the text of their first fault.
const FAULTS: &[(&str, &str)] = &[
    ("x = 1\ny = = 2\n$", "3 Invalid character"),
    ("x = 1\ny = = 2\n", "2 Invalid syntax"),
    ("x = '", "1 Unterminated string literal"),
    ("x\n  y\n", "2 Unexpected or missing block"),
];

/// The tables of sources with what they are.
const TABLES: &[&[(&str, &str)]] = &[MODULES, STRINGS, FAULTS];

#[test]
fn sources_are_read(rt: HostRuntime) -> Result<(), Fail> {
    for table in TABLES {
        for (source, want) in *table {
            assert_eq!(rt; read_shown(rt.alloc(), source)?.as_str(), *want, "{source}");
        }
    }
    Ok(())
}
