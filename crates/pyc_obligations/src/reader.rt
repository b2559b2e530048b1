//! The reader of the parts of an expression.

ghost use Rattle.std.specs.Prelude.{Option, option_map};
ghost use Rattle.pyc_ast.specs.ExprView.{expr_of};
ghost use Rattle.pyc_ast.specs.Exprs.{Expr as PlainExpr};
ghost use Rattle.pyc_reading.specs.Traces.{Performs, Step};
ghost use Rattle.pyc_type_forms.specs.Types.{Ty as PlainTy};
ghost use Rattle.pyc_type_forms.specs.TypeView.{ty_of};

use crate::judging::AskTypes;
use pyc_ast::Expr;
use pyc_type_forms::Ty;
use std::alloc::{AllocError, Global};

/// A reader reads the parts of an expression, each with the type that is expected of it, if one is.
pub trait InferType<N: AskTypes> {
    ghost ready: { Self → Type 0 };

    ghost reads: { Self → PlainExpr → Option PlainTy → Step PlainTy };

    /// The type of a part. The only error is that memory runs out.
    fn read(
        &self,
        alloc: Global,
        recorder: &mut N,
        part: &Expr,
        want: Option<&Ty>,
    ) -> Result<Ty, AllocError>
        requires { ready self.now }
        ensures { Performs ty_of (reads self.now (expr_of part.now) (option_map (λ ty. ty_of ty.now) want.entry))
            (N.trace recorder.old) result (N.trace recorder.new) };
}
