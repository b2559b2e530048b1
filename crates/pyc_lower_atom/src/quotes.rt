//! How the text of a string is read that may be an annotation.

ghost use Rattle.std.specs.Prelude.{◌≡◌, IfOk, List, ℕ, Option, option_map};
ghost use Rattle.pyc_ast.specs.declared.position.Position.{Position as PositionOf};
ghost use Rattle.pyc_ast.specs.Exprs.{Expr as Plain};
ghost use Rattle.pyc_ast.specs.ExprView.{expr_of};

use crate::names::Names;
use pyc_ast::{Expr, Position};
use std::alloc::{AllocError, Global};

/// A reader of strings: the expression that a string's token spells, each part of it at the string's position.
pub trait Quotes {
    ghost spelled: { List ℕ → PositionOf → Option Plain };

    /// The expression that the token of this text spells.
    fn read(
        &self,
        alloc: Global,
        names: &mut Names,
        text: &str,
        at: Position,
    ) -> Result<Option<Expr>, AllocError>
        ensures { IfOk result (λ found. option_map expr_of found ≡ spelled text.now at) };
}

/// A reader to whom no string spells an expression.
#[derive(Clone, Copy)]
pub struct Unread;

impl Quotes for Unread {
    ghost use Rattle.std.specs.Prelude.{None};

    ghost spelled = { λ text at. None };

    fn read(
        &self,
        _alloc: Global,
        _names: &mut Names,
        _text: &str,
        _at: Position,
    ) -> Result<Option<Expr>, AllocError> {
        Ok(None)
    }
}
