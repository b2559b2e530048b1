//! What infers the parts of expressions.

ghost use Rattle.std.specs.Prelude.{option_map};
ghost use Rattle.pyc_ast.specs.ExprView.{expr_of};
ghost use Rattle.pyc_expr_forms.specs.Contexts as spec;
ghost use Rattle.pyc_obligations.specs.ValueView.{value_of};
ghost use Rattle.pyc_places.specs.StateView.{state_of};
ghost use Rattle.pyc_reading.specs.Traces.{Performs};
ghost use Rattle.pyc_type_forms.specs.TypeView.{ty_of};

use pyc_ast::Expr;
use pyc_narrowing::InferOperand;
use pyc_obligations::{AskTypes, InferType, Value};
use pyc_places::State;
use pyc_type_forms::Ty;
use std::alloc::{AllocError, Global};

/// Infers the parts of an expression.
pub trait InferValue<N: AskTypes> {
    ghost ready: { Self → Type 0 };

    ghost parts: { Self → spec.InferValue };

    /// What a part is in a state, with the type that is expected of it, if one is. The only error is that memory runs
    /// out.
    fn part(
        &self,
        alloc: Global,
        recorder: &mut N,
        state: &State,
        part: &Expr,
        want: Option<&Ty>,
    ) -> Result<Value, AllocError>
        requires { ready self.now }
        ensures { Performs value_of
            (parts self.now (state_of state.now) (expr_of part.now) (option_map (λ ty. ty_of ty.now) want.entry))
            (N.trace recorder.old) result (N.trace recorder.new) };
}

/// Infers the types of the parts of an expression in `state`.
#[derive(Clone, Copy, Drop)]
pub struct InState<'a, P> {
    pub parts: &'a P,
    pub state: &'a State,
}

impl<N: AskTypes, P: InferValue<N>> InferType<N> for InState<'_, P> {
    ghost ready = { λ reader. P.ready reader.parts.now };

    ghost reads = { λ reader. spec.type_in (P.parts reader.parts.now) (state_of reader.state.now) };

    #[tactic(auto, using(pyc_obligations::proofs::Steps::performing), unfolding(crate::specs::Contexts::type_in))]
    fn read(
        &self,
        alloc: Global,
        recorder: &mut N,
        part: &Expr,
        want: Option<&Ty>,
    ) -> Result<Ty, AllocError> {
        let value = self.parts.part(alloc, recorder, self.state, part, want)?;
        Ok(value.ty)
    }
}

/// Looks at the parts of a condition: `parts` infers them.
#[derive(Clone, Copy, Drop)]
pub struct Looking<'a, P> {
    pub parts: &'a P,
}

impl<N: AskTypes, P: InferValue<N>> InferOperand<N> for Looking<'_, P> {
    ghost ready = { λ looks. P.ready looks.parts.now };

    ghost looks = { λ looks. spec.looked_by (P.parts looks.parts.now) };

    fn look(
        &self,
        alloc: Global,
        recorder: &mut N,
        state: &State,
        part: &Expr,
    ) -> Result<Value, AllocError> {
        self.parts.part(alloc, recorder, state, part, None)
    }
}

/// The type of a part. The only error is that memory runs out.
#[tactic(auto, using(pyc_obligations::proofs::Steps::performing), unfolding(crate::specs::Contexts::type_in))]
pub fn type_in<N: AskTypes, P: InferValue<N>>(
    alloc: Global,
    recorder: &mut N,
    parts: &P,
    state: &State,
    part: &Expr,
    want: Option<&Ty>,
) -> Result<Ty, AllocError>
    requires { P.ready parts.now }
    ensures { Performs ty_of
        (spec.type_in (P.parts parts.now) (state_of state.now) (expr_of part.now)
        (option_map (λ ty. ty_of ty.now) want.entry)) (N.trace recorder.old) result (N.trace recorder.new) }
{
    let value = parts.part(alloc, recorder, state, part, want)?;
    Ok(value.ty)
}

/// Reads a part of which nothing is expected, whatever it is. The only error is that memory runs out.
#[tactic(auto, using(pyc_obligations::proofs::Steps::performing), unfolding(crate::specs::Contexts::infer_freely))]
pub fn infer_freely<N: AskTypes, P: InferValue<N>>(
    alloc: Global,
    recorder: &mut N,
    parts: &P,
    state: &State,
    part: &Expr,
) -> Result<(), AllocError>
    requires { P.ready parts.now }
    ensures { Performs (λ u. u) (spec.infer_freely (P.parts parts.now) (state_of state.now) (expr_of part.now))
        (N.trace recorder.old) result (N.trace recorder.new) }
{
    parts.part(alloc, recorder, state, part, None)?;
    Ok(())
}
