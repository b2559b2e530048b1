//! Calls that go through `__call__`, a step at a time, however many lie one in another.

ghost use Rattle.std.specs.Prelude.{ℕ, ◌≡◌, ◌+◌, ◌-◌, ◌<◌, ◌≤◌, ◌^◌, codes, IfOk, IsTrue, OnOk, map, option_map};
ghost use Rattle.pyc_arguments.specs.Views.{args_in, call_in, read_in};
ghost use Rattle.pyc_calls.specs.Called as spec;
ghost use Rattle.pyc_calls.specs.Views.{count_of, how_far, memory_in, met_in, stood_in, walk_in};
ghost use Rattle.pyc_attributes.specs.Binding as binding;
ghost use Rattle.pyc_calls.specs.Walks as walks;
ghost use Rattle.pyc_calls.specs.Walks.{GoesOn, IsRead};
ghost use Rattle.pyc_obligations.specs.Asking as asking;
ghost use Rattle.pyc_reading.specs.AnswerView.{member_answer_of};
ghost use Rattle.pyc_reading.specs.Traces.{Performs};
ghost use Rattle.pyc_type_forms.specs.Types as plain;
ghost use Rattle.pyc_type_forms.specs.TypeView.{ty_of};

use crate::remembered::{Memory, Progress, begin, nothing_met, progress_of};
use crate::walks::{CallOutcome, Standing, Walk, standing_met};
use pyc_arguments::{Arguments, Call, ReadArgument, read_once};
use pyc_attributes::through_instance;
use pyc_class_ids::ClassId;
use pyc_obligations::{AskTypes, InferType, ask_member};
use pyc_reading::MemberAnswer;
use pyc_type_forms::Ty;
use std::alloc::{AllocError, Global};
use std::marker::PhantomData;

/// A call, its arguments, and what reads those that are to be read.
#[derive(Clone, Copy)]
pub(crate) struct Caller<'a, N, R> {
    pub(crate) alloc: Global,
    pub(crate) reader: &'a R,
    pub(crate) call: &'a Call<'a>,
    pub(crate) arguments: &'a Arguments<'a>,
    pub(crate) of: PhantomData<N>,
}

impl<N: AskTypes, R: InferType<N>> Caller<'_, N, R> {
    /// The type of the call of something of a type. Until a union is met the arguments are as they are, and what a
    /// `__call__` gives is the type of the whole. The only error is that memory runs out.
    pub(crate) fn call(&self, recorder: &mut N, callee: &Ty) -> Result<Ty, AllocError>
        requires { R.ready self.now.reader.now }
        ensures { Performs ty_of
            (spec.call_result (call_in self.now.call.now) (args_in (R.reads self.now.reader.now) self.now.arguments.now)
            (ty_of callee.now))
            (N.trace recorder.old) result (N.trace recorder.new) }
    {
        let mut memory = nothing_met(self.alloc);
        let mut next = callee.clone()?;
        while !is_union(&next) {
            match self.meet(recorder, &memory, &next)? {
                CallOutcome::New(class, bound) => {
                    begin(&mut memory, &class)?;
                    next = bound;
                }
                CallOutcome::Came(ty) => return Ok(ty),
            }
        }
        self.call_union(recorder, memory, next)
    }

    /// What something of a type comes to that is called, and is no union.
    fn meet(
        &self,
        recorder: &mut N,
        memory: &Memory,
        callee: &Ty,
    ) -> Result<CallOutcome, AllocError>
        requires { R.ready self.now.reader.now }
        ensures { Performs met_in
            (walks.form_met (call_in self.now.call.now) (memory_in memory.now)
            (args_in (R.reads self.now.reader.now) self.now.arguments.now) (ty_of callee.now)
            (walks.callee_form (ty_of callee.now)))
            (N.trace recorder.old) result (N.trace recorder.new) }
    {
        match callee {
            Ty::Instance(class) => self.meet_instance(recorder, memory, class),
            _ => self.meet_plainly(recorder, callee),
        }
    }

    /// What is no union and no instance of a class is called.
    #[tactic(auto, using(pyc_obligations::proofs::Steps::performing), unfolding(crate::specs::Walks::coming))]
    fn meet_plainly(&self, recorder: &mut N, callee: &Ty) -> Result<CallOutcome, AllocError>
        requires { R.ready self.now.reader.now }
        ensures { Performs met_in
            (walks.coming (spec.infer_plain_call (call_in self.now.call.now)
            (args_in (R.reads self.now.reader.now) self.now.arguments.now) (ty_of callee.now)))
            (N.trace recorder.old) result (N.trace recorder.new) }
    {
        let ty = self.infer_plain_call(recorder, callee)?;
        Ok(CallOutcome::Came(ty))
    }

    /// An instance of a class is called.
    fn meet_instance(
        &self,
        recorder: &mut N,
        memory: &Memory,
        class: &ClassId,
    ) -> Result<CallOutcome, AllocError>
        requires { R.ready self.now.reader.now }
        ensures { Performs met_in
            (walks.instance_met (call_in self.now.call.now) (memory_in memory.now)
            (args_in (R.reads self.now.reader.now) self.now.arguments.now) class.now)
            (N.trace recorder.old) result (N.trace recorder.new) }
    {
        match class.as_builtin() {
            Some(_) => self.meet_builtin(recorder, class),
            None => self.meet_source(recorder, memory, class),
        }
    }

    /// An instance of a builtin class is called, which reports that it cannot be.
    #[tactic(auto, using(pyc_obligations::proofs::Steps::performing), unfolding(crate::specs::Walks::coming))]
    fn meet_builtin(&self, recorder: &mut N, class: &ClassId) -> Result<CallOutcome, AllocError>
        requires { R.ready self.now.reader.now }
        ensures { Performs met_in
            (walks.coming (spec.report_refused (call_in self.now.call.now)
            (args_in (R.reads self.now.reader.now) self.now.arguments.now) (plain.instance class.now)))
            (N.trace recorder.old) result (N.trace recorder.new) }
    {
        let ty = self.report_refused_instance(recorder, class)?;
        Ok(CallOutcome::Came(ty))
    }

    /// An instance of a class of a source is called.
    #[tactic(auto, using(pyc_obligations::proofs::Steps::performing), unfolding(crate::specs::Walks::source_met))]
    fn meet_source(
        &self,
        recorder: &mut N,
        memory: &Memory,
        class: &ClassId,
    ) -> Result<CallOutcome, AllocError>
        requires { R.ready self.now.reader.now }
        ensures { Performs met_in
            (walks.source_met (call_in self.now.call.now) (memory_in memory.now)
            (args_in (R.reads self.now.reader.now) self.now.arguments.now) class.now)
            (N.trace recorder.old) result (N.trace recorder.new) }
    {
        let found = call_member(self.alloc, recorder, class)?;
        let progress = progress_of(memory, class)?;
        self.meet_member(recorder, class, progress, found)
    }

    /// An instance of a class is called whose `__call__` is this, and so far.
    fn meet_member(
        &self,
        recorder: &mut N,
        class: &ClassId,
        progress: Progress,
        found: Option<MemberAnswer>,
    ) -> Result<CallOutcome, AllocError>
        requires { R.ready self.now.reader.now }
        ensures { Performs met_in
            (walks.member_met (call_in self.now.call.now)
            (args_in (R.reads self.now.reader.now) self.now.arguments.now) class.now (how_far progress)
            (option_map member_answer_of found))
            (N.trace recorder.old) result (N.trace recorder.new) }
    {
        match found {
            Some(found) => self.meet_by_progress(recorder, class, progress, found),
            None => self.meet_without_call(recorder, class),
        }
    }

    /// The `__call__` of a class is called, by how far it is.
    fn meet_by_progress(
        &self,
        recorder: &mut N,
        class: &ClassId,
        progress: Progress,
        found: MemberAnswer,
    ) -> Result<CallOutcome, AllocError>
        requires { R.ready self.now.reader.now }
        ensures { Performs met_in
            (walks.progress_met (args_in (R.reads self.now.reader.now) self.now.arguments.now) class.now
            (how_far progress) (member_answer_of found))
            (N.trace recorder.old) result (N.trace recorder.new) }
    {
        match progress {
            Progress::Fresh => self.meet_new(class, found),
            Progress::UnderWay => self.meet_given(recorder, Ty::Any),
            Progress::Gave(ty) => self.meet_given(recorder, ty),
        }
    }

    /// A `__call__` is met that was not met before.
    fn meet_new(&self, class: &ClassId, found: MemberAnswer) -> Result<CallOutcome, AllocError>
        ensures { IfOk result (λ met. met_in met
            ≡ walks.met_new class.now (binding.through_instance (member_answer_of found))) }
    {
        let bound = through_instance(self.alloc, found)?;
        Ok(CallOutcome::New(class.clone()?, bound))
    }

    /// What gives this is called.
    #[tactic(auto, using(pyc_obligations::proofs::Steps::performing), unfolding(crate::specs::Walks::coming))]
    fn meet_given(&self, recorder: &mut N, given: Ty) -> Result<CallOutcome, AllocError>
        requires { R.ready self.now.reader.now }
        ensures { Performs met_in
            (walks.coming (spec.infer_given_call (args_in (R.reads self.now.reader.now) self.now.arguments.now)
            (ty_of given)))
            (N.trace recorder.old) result (N.trace recorder.new) }
    {
        let ty = self.infer_given_call(recorder, given)?;
        Ok(CallOutcome::Came(ty))
    }

    /// An instance of a class of a source without `__call__` is called.
    #[tactic(auto, using(pyc_obligations::proofs::Steps::performing), unfolding(crate::specs::Walks::coming))]
    fn meet_without_call(
        &self,
        recorder: &mut N,
        class: &ClassId,
    ) -> Result<CallOutcome, AllocError>
        requires { R.ready self.now.reader.now }
        ensures { Performs met_in
            (walks.coming (spec.without_call (call_in self.now.call.now)
            (args_in (R.reads self.now.reader.now) self.now.arguments.now) class.now))
            (N.trace recorder.old) result (N.trace recorder.new) }
    {
        let ty = self.without_call(recorder, class)?;
        Ok(CallOutcome::Came(ty))
    }

    /// A union is called, after the `__call__` of some classes was met: the arguments are read once.
    fn call_union(&self, recorder: &mut N, memory: Memory, union: Ty) -> Result<Ty, AllocError>
        requires ready { R.ready self.now.reader.now }
        requires small { count_of memory < 2 ^ 63 }
        requires union { IsTrue (walks.is_union (ty_of union)) }
        ensures { Performs ty_of
            (spec.typed (walks.called_in (spec.most_calls - (count_of memory + 1)) (call_in self.now.call.now)
            (memory_in memory) (args_in (R.reads self.now.reader.now) self.now.arguments.now) (ty_of union)))
            (N.trace recorder.old) result (N.trace recorder.new) }
    {
        match self.arguments {
            Arguments::Unread(arguments) => {
                let read = read_once(self.alloc, recorder, self.reader, arguments)?;
                self.call_with(recorder, memory, &read, union)
            }
            Arguments::Read(read) => self.call_with(recorder, memory, read, union),
        }
    }

    /// Something of a type is called with arguments that were read, after the `__call__` of some classes was met.
    fn call_with(
        &self,
        recorder: &mut N,
        memory: Memory,
        read: &[ReadArgument],
        callee: Ty,
    ) -> Result<Ty, AllocError>
        requires ready { R.ready self.now.reader.now }
        requires small { count_of memory < 2 ^ 63 }
        ensures { Performs ty_of
            (spec.typed (walks.called_in (spec.most_calls - (count_of memory + 1)) (call_in self.now.call.now)
            (memory_in memory) (map read_in read.now) (ty_of callee)))
            (N.trace recorder.old) result (N.trace recorder.new) }
    {
        let arguments = Arguments::Read(read);
        let caller = Caller {
            alloc: self.alloc,
            reader: self.reader,
            call: self.call,
            arguments: &arguments,
            of: self.of,
        };
        let mut walk = Walk::new(self.alloc, memory);
        caller.walk(recorder, &mut walk, callee)
    }

    /// Goes through a walk to its end, where something of a type is to be called next.
    fn walk(&self, recorder: &mut N, walk: &mut Walk, callee: Ty) -> Result<Ty, AllocError>
        requires ready { R.ready self.now.reader.now }
        requires read { IsRead (args_in (R.reads self.now.reader.now) self.now.arguments.now) }
        ensures { (top : ℕ) → 2 ^ 63 ≤ top → Performs ty_of
            (spec.typed (walks.left top (call_in self.now.call.now)
            (args_in (R.reads self.now.reader.now) self.now.arguments.now) (walk_in walk.old)
            (walks.calls (ty_of callee))))
            (N.trace recorder.old) result (N.trace recorder.new) }
    {
        let mut next = callee;
        loop {
            match self.follow(recorder, walk, next)? {
                CallOutcome::New(class, bound) => {
                    walk.begin(class)?;
                    next = bound;
                }
                CallOutcome::Came(ty) => return Ok(ty),
            }
        }
    }

    /// Goes through a walk until a `__call__` is met that was not met before, or to its end.
    fn follow(
        &self,
        recorder: &mut N,
        walk: &mut Walk,
        callee: Ty,
    ) -> Result<CallOutcome, AllocError>
        requires ready { R.ready self.now.reader.now }
        requires read { IsRead (args_in (R.reads self.now.reader.now) self.now.arguments.now) }
        ensures goes_on { (top : ℕ) → 2 ^ 63 ≤ top → GoesOn
            (λ met. walks.left_met top (call_in self.now.call.now)
            (args_in (R.reads self.now.reader.now) self.now.arguments.now) (walk_in walk.new) (met_in met))
            (walks.left top (call_in self.now.call.now)
            (args_in (R.reads self.now.reader.now) self.now.arguments.now) (walk_in walk.old)
            (walks.calls (ty_of callee)))
            (N.trace recorder.old) result (N.trace recorder.new) }
        ensures fresh { IfOk result (λ met. walks.IsNew (memory_in walk.new.memory) (met_in met)) }
        ensures counted { OnOk result (count_of walk.old.memory ≤ count_of walk.new.memory) }
    {
        let mut standing = Standing::Calls(callee);
        loop {
            match standing {
                Standing::Calls(callee) => standing = self.call_next(recorder, walk, &callee)?,
                Standing::Gives(ty) => standing = walk.give(self.alloc, ty)?,
                Standing::Meets(class, bound) => return Ok(CallOutcome::New(class, bound)),
                Standing::Ends(ty) => return Ok(CallOutcome::Came(ty)),
            }
        }
    }

    /// Something of a type is called: of a union its first item is to be called.
    #[tactic(auto, using(pyc_obligations::proofs::Steps::performing), unfolding(crate::specs::Walks::form_stepped))]
    fn call_next(
        &self,
        recorder: &mut N,
        walk: &mut Walk,
        callee: &Ty,
    ) -> Result<Standing, AllocError>
        requires { R.ready self.now.reader.now }
        ensures performs { Performs (stood_in walk.new)
            (walks.form_stepped (call_in self.now.call.now)
            (args_in (R.reads self.now.reader.now) self.now.arguments.now) (walk_in walk.old) (ty_of callee.now)
            (walks.callee_form (ty_of callee.now)))
            (N.trace recorder.old) result (N.trace recorder.new) }
        ensures same { walk.new.memory ≡ walk.old.memory }
    {
        if is_union(callee) {
            return walk.open(self.alloc, callee);
        }
        let met = self.meet(recorder, &walk.memory, callee)?;
        Ok(standing_met(met))
    }
}

/// Whether a type is a union.
fn is_union(ty: &Ty) -> bool
    ensures { result ≡ walks.is_union (ty_of ty.now) }
{
    match ty {
        Ty::Union(_) => true,
        _ => false,
    }
}

/// The `__call__` of a class.
fn call_member<N: AskTypes>(
    alloc: Global,
    recorder: &mut N,
    class: &ClassId,
) -> Result<Option<MemberAnswer>, AllocError>
    ensures { Performs (option_map member_answer_of) (asking.ask_member class.now (codes "__call__"))
        (N.trace recorder.old) result (N.trace recorder.new) }
{
    ask_member(alloc, recorder, class, "__call__")
}
