//! What the pairs of two operands give.

ghost use Rattle.std.specs.Prelude.{◌≡◌, IfOk, map, option_map};
ghost use Rattle.pyc_operators.specs.Results as spec;
ghost use Rattle.pyc_operators.specs.ResultsView.{results_of};
ghost use Rattle.pyc_reading.specs.Traces.{Performs};
ghost use Rattle.pyc_type_forms.specs.TypeView.{ty_of};

use crate::methods::CallsMethods;
use crate::operation::Operation;
use crate::pairs::Pair;
use pyc_obligations::AskTypes;
use pyc_type_forms::Ty;
use std::alloc::{AllocError, Global};
use std::marker::PhantomData;

/// What the pairs give that were read so far: the types, and whether there is no such operation for one of them.
#[derive(Debug, Drop)]
pub(crate) struct Results {
    pub(crate) types: Vec<Ty>,
    pub(crate) is_failed: bool,
}

impl Results {
    /// Of no pairs.
    pub(crate) fn new(alloc: Global) -> Results
        ensures { results_of result ≡ spec.no_results }
    {
        Results {
            types: Vec::new(alloc),
            is_failed: false,
        }
    }

    /// With what one more pair gives. The only error is that memory runs out.
    pub(crate) fn with(self, found: Option<Ty>) -> Result<Results, AllocError>
        ensures { IfOk result (λ results. results_of results
            ≡ spec.with_result (results_of self) (option_map ty_of found)) }
    {
        let mut results = self;
        match found {
            Some(ty) => results.types.push(ty)?,
            None => results.is_failed = true,
        }
        Ok(results)
    }
}

/// An operation on the pairs of two operands, and what calls the methods of their classes.
#[derive(Clone, Copy)]
pub(crate) struct Pairs<'a, N, C> {
    pub(crate) alloc: Global,
    pub(crate) caller: &'a C,
    pub(crate) operation: Operation,
    pub(crate) of: PhantomData<N>,
}

impl<N: AskTypes, C: CallsMethods<N>> Pairs<'_, N, C> {
    /// What the operation gives on each pair of these operands. The only error is that memory runs out.
    #[tactic(auto, using(crate::proofs::Steps::performing), unfolding(crate::specs::Results::pairs_of))]
    pub(crate) fn pairs_of(
        &self,
        recorder: &mut N,
        lefts: &[Ty],
        rights: &[Ty],
    ) -> Result<Results, AllocError>
        ensures { Performs results_of
            (spec.pairs_of (C.caller self.now.caller.now) self.now.operation spec.no_results (map ty_of lefts.now)
            (map ty_of rights.now)) (N.trace recorder.old) result (N.trace recorder.new) }
    {
        let mut results = Results::new(self.alloc);
        for left in lefts {
            results = self.pairs_of_left(recorder, results, left, rights)?;
        }
        Ok(results)
    }

    /// What the operation gives on each pair of an operand and one of these, after what was given before.
    #[tactic(auto, using(crate::proofs::Steps::performing), unfolding(crate::specs::Results::pairs_of_left))]
    fn pairs_of_left(
        &self,
        recorder: &mut N,
        before: Results,
        left: &Ty,
        rights: &[Ty],
    ) -> Result<Results, AllocError>
        ensures { Performs results_of
            (spec.pairs_of_left (C.caller self.now.caller.now) self.now.operation (results_of before) (ty_of left.now)
            (map ty_of rights.now))
            (N.trace recorder.old) result (N.trace recorder.new) }
    {
        let mut results = before;
        for right in rights {
            let pair = Pair {
                alloc: self.alloc,
                caller: self.caller,
                operation: self.operation,
                left,
                right,
                of: self.of,
            };
            let found = pair.infer_pair(recorder)?;
            results = results.with(found)?;
        }
        Ok(results)
    }
}
