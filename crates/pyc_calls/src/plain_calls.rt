//! Calls that need no further call.

ghost use Rattle.pyc_arguments.specs.Matched as matching;
ghost use Rattle.pyc_arguments.specs.Views.{args_in, call_in};
ghost use Rattle.pyc_calls.specs.Called as spec;
ghost use Rattle.pyc_calls.specs.Constructors.{params_in};
ghost use Rattle.pyc_calls.specs.Views.{class_params_in};
ghost use Rattle.pyc_reading.specs.Traces.{Performs};
ghost use Rattle.pyc_type_forms.specs.Instances.{instance_of};
ghost use Rattle.pyc_type_forms.specs.Types as plain;
ghost use Rattle.pyc_type_forms.specs.TypeView.{params_of, ty_of};

use crate::caller::Caller;
use crate::constructors::{ClassParams, constructor};
use crate::refusals::not_callable;
use pyc_arguments::{match_arguments, match_listed, read_all};
use pyc_class_ids::ClassId;
use pyc_obligations::{AskTypes, InferType, is_unknown_class};
use pyc_type_forms::{Signature, Ty, instance_of};
use std::alloc::AllocError;

impl<N: AskTypes, R: InferType<N>> Caller<'_, N, R> {
    /// Reads arguments, if they are to be read: nothing is known of what is called.
    #[tactic(auto, using(pyc_obligations::proofs::Steps::performing), unfolding(crate::specs::Called::infer_given_call))]
    fn infer_any_call(&self, recorder: &mut N) -> Result<Ty, AllocError>
        requires { R.ready self.now.reader.now }
        ensures { Performs ty_of (spec.infer_any_call (args_in (R.reads self.now.reader.now) self.now.arguments.now))
            (N.trace recorder.old) result (N.trace recorder.new) }
    {
        read_all(self.alloc, recorder, self.reader, self.arguments)?;
        Ok(Ty::Any)
    }

    /// Reads arguments, if they are to be read: the call gives this.
    #[tactic(auto, using(pyc_obligations::proofs::Steps::performing), unfolding(crate::specs::Called::infer_given_call))]
    pub(crate) fn infer_given_call(&self, recorder: &mut N, given: Ty) -> Result<Ty, AllocError>
        requires { R.ready self.now.reader.now }
        ensures { Performs ty_of
            (spec.infer_given_call (args_in (R.reads self.now.reader.now) self.now.arguments.now) (ty_of given))
            (N.trace recorder.old) result (N.trace recorder.new) }
    {
        read_all(self.alloc, recorder, self.reader, self.arguments)?;
        Ok(given)
    }

    /// Reports that a value of a type cannot be called.
    #[tactic(auto, using(pyc_obligations::proofs::Steps::performing), unfolding(crate::specs::Called::report_refused))]
    fn report_refused(&self, recorder: &mut N, ty: &Ty) -> Result<Ty, AllocError>
        requires { R.ready self.now.reader.now }
        ensures { Performs ty_of
            (spec.report_refused (call_in self.now.call.now)
            (args_in (R.reads self.now.reader.now) self.now.arguments.now) (ty_of ty.now)) (N.trace recorder.old) result
            (N.trace recorder.new) }
    {
        read_all(self.alloc, recorder, self.reader, self.arguments)?;
        not_callable(self.alloc, recorder, self.call, ty)
    }

    /// What is no union and no instance of a class is called.
    pub(crate) fn infer_plain_call(&self, recorder: &mut N, callee: &Ty) -> Result<Ty, AllocError>
        requires { R.ready self.now.reader.now }
        ensures { Performs ty_of
            (spec.infer_plain_call (call_in self.now.call.now)
            (args_in (R.reads self.now.reader.now) self.now.arguments.now) (ty_of callee.now)) (N.trace recorder.old)
            result (N.trace recorder.new) }
    {
        match callee {
            Ty::Any => self.infer_any_call(recorder),
            Ty::Class(class) => self.infer_class_call(recorder, class),
            Ty::Callable(signature) => { self.infer_signature_call(recorder, signature) }
            _ => self.report_refused(recorder, callee),
        }
    }

    /// What has this signature is called.
    #[tactic(auto, using(pyc_obligations::proofs::Steps::performing), unfolding(crate::specs::Called::infer_signature_call))]
    fn infer_signature_call(
        &self,
        recorder: &mut N,
        signature: &Signature,
    ) -> Result<Ty, AllocError>
        requires { R.ready self.now.reader.now }
        ensures { Performs ty_of
            (spec.infer_signature_call (call_in self.now.call.now)
            (args_in (R.reads self.now.reader.now) self.now.arguments.now) (params_of signature.now.params)
            (ty_of signature.now.result)) (N.trace recorder.old) result (N.trace recorder.new) }
    {
        match_arguments(
            self.alloc,
            recorder,
            self.reader,
            self.call,
            self.arguments,
            &signature.params,
        )?;
        signature.result.clone()
    }

    /// A class is called.
    #[tactic(auto, using(pyc_obligations::proofs::Steps::performing), unfolding(crate::specs::Called::infer_class_call))]
    fn infer_class_call(&self, recorder: &mut N, class: &ClassId) -> Result<Ty, AllocError>
        requires { R.ready self.now.reader.now }
        ensures { Performs ty_of
            (spec.infer_class_call (call_in self.now.call.now)
            (args_in (R.reads self.now.reader.now) self.now.arguments.now) class.now) (N.trace recorder.old) result
            (N.trace recorder.new) }
    {
        let found = constructor(self.alloc, recorder, class)?;
        self.infer_construction(recorder, class, found)
    }

    /// A class is called that takes this.
    #[tactic(auto, using(pyc_obligations::proofs::Steps::performing), unfolding(crate::specs::Called::infer_signature_call))]
    fn infer_construction(
        &self,
        recorder: &mut N,
        class: &ClassId,
        found: ClassParams,
    ) -> Result<Ty, AllocError>
        requires { R.ready self.now.reader.now }
        ensures { Performs ty_of
            (spec.infer_signature_call (call_in self.now.call.now)
            (args_in (R.reads self.now.reader.now) self.now.arguments.now) (class_params_in found)
            (instance_of class.now)) (N.trace recorder.old) result (N.trace recorder.new) }
    {
        self.match_constructor(recorder, &found)?;
        instance_of(self.alloc, class)
    }

    /// Matches arguments to what a class takes.
    fn match_constructor(&self, recorder: &mut N, found: &ClassParams) -> Result<(), AllocError>
        requires { R.ready self.now.reader.now }
        ensures { Performs (λ u. u)
            (matching.matched (call_in self.now.call.now) (class_params_in found.now)
            (args_in (R.reads self.now.reader.now) self.now.arguments.now))
            (N.trace recorder.old) result (N.trace recorder.new) }
    {
        match found {
            ClassParams::Unmatched => read_all(self.alloc, recorder, self.reader, self.arguments),
            ClassParams::Bare => match_listed(
                self.alloc,
                recorder,
                self.reader,
                self.call,
                self.arguments,
                &[],
            ),
            ClassParams::Typed(ty) => self.match_bound(recorder, ty),
        }
    }

    /// Matches arguments to what something of a type takes: any, if it is no callable.
    fn match_bound(&self, recorder: &mut N, ty: &Ty) -> Result<(), AllocError>
        requires { R.ready self.now.reader.now }
        ensures { Performs (λ u. u)
            (matching.matched (call_in self.now.call.now) (params_in (ty_of ty.now))
            (args_in (R.reads self.now.reader.now) self.now.arguments.now))
            (N.trace recorder.old) result (N.trace recorder.new) }
    {
        match ty {
            Ty::Callable(signature) => {
                match_arguments(
                    self.alloc,
                    recorder,
                    self.reader,
                    self.call,
                    self.arguments,
                    &signature.params,
                )
            }
            _ => read_all(self.alloc, recorder, self.reader, self.arguments),
        }
    }

    /// An instance of a class of a source without `__call__` is called.
    #[tactic(auto, using(pyc_obligations::proofs::Steps::performing), unfolding(crate::specs::Called::without_call))]
    pub(crate) fn without_call(&self, recorder: &mut N, class: &ClassId) -> Result<Ty, AllocError>
        requires { R.ready self.now.reader.now }
        ensures { Performs ty_of
            (spec.without_call (call_in self.now.call.now)
            (args_in (R.reads self.now.reader.now) self.now.arguments.now) class.now) (N.trace recorder.old) result
            (N.trace recorder.new) }
    {
        let is_unknown = is_unknown_class(self.alloc, recorder, class)?;
        self.report_refused_unless(recorder, is_unknown, class)
    }

    /// An instance of `class` without `__call__` is called. The checker reports that, unless the order is unknown.
    fn report_refused_unless(
        &self,
        recorder: &mut N,
        is_unknown: bool,
        class: &ClassId,
    ) -> Result<Ty, AllocError>
        requires { R.ready self.now.reader.now }
        ensures { Performs ty_of
            (spec.report_refused_unless is_unknown (call_in self.now.call.now)
            (args_in (R.reads self.now.reader.now) self.now.arguments.now) class.now) (N.trace recorder.old) result
            (N.trace recorder.new) }
    {
        if is_unknown {
            self.infer_any_call(recorder)
        } else {
            self.report_refused_instance(recorder, class)
        }
    }

    /// Reports that an instance of a class cannot be called.
    #[tactic(auto, using(pyc_obligations::proofs::Steps::performing))]
    pub(crate) fn report_refused_instance(
        &self,
        recorder: &mut N,
        class: &ClassId,
    ) -> Result<Ty, AllocError>
        requires { R.ready self.now.reader.now }
        ensures { Performs ty_of
            (spec.report_refused (call_in self.now.call.now)
            (args_in (R.reads self.now.reader.now) self.now.arguments.now) (plain.instance class.now))
            (N.trace recorder.old) result (N.trace recorder.new) }
    {
        let ty = Ty::Instance(class.clone()?);
        self.report_refused(recorder, &ty)
    }
}
