//! Where a part of a scope stands.

use pyc_ast::Position;

/// Where a part of a scope stands: the position at which its statement begins, or its `except`, and whether that is
/// guarded, inside an `if` or a `try`.
#[derive(Clone, Copy, Debug, PartialEq, Eq)]
pub struct BindingSite {
    pub at: Position,
    pub is_guarded: bool,
}
