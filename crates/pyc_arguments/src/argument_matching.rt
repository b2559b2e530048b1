//! The arguments of a call and the parameters that they fill.

ghost use Rattle.std.specs.Prelude.{map, option_map};
ghost use Rattle.pyc_ast.specs.ExprView.{argument_of};
ghost use Rattle.pyc_arguments.specs.Arguments as spec_arguments;
ghost use Rattle.pyc_arguments.specs.Matched as spec;
ghost use Rattle.pyc_arguments.specs.Views.{args_in, call_in, filling_in, read_in, unread_in};
ghost use Rattle.pyc_matching.specs.Missing as unfilled;
ghost use Rattle.pyc_matching.specs.Views.{fill_of, given_in, match_in, missing_in};
ghost use Rattle.pyc_reading.specs.Traces.{Performs};
ghost use Rattle.pyc_reading.specs.Readings.{each};
ghost use Rattle.pyc_type_forms.specs.TypeView.{param_row, params_of, ty_of};

use crate::arguments::{Arguments, ReadArgument, given_by, has_unpacked, places_of, read_all};
use crate::filling::{Filling, wanted};
use crate::reporting::{Call, report_missing, report_repeated, report_too_many, report_unexpected};
use crate::required_argument::RequiredArgument;
use pyc_ast::{Argument, Position};
use pyc_matching::{Fill, Given, Match, MissingArgument, matched, missing};
use pyc_obligations::{AskTypes, InferType, require};
use pyc_reading::Ask;
use pyc_type_forms::{Param, Params, Ty};
use std::alloc::{AllocError, Global};

/// Matches arguments to what a call takes, and reports where they do not fit. Where it takes any arguments nothing is
/// matched. The only error is that memory runs out.
pub fn match_arguments<N: AskTypes, R: InferType<N>>(
    alloc: Global,
    recorder: &mut N,
    reader: &R,
    call: &Call<'_>,
    arguments: &Arguments<'_>,
    params: &Params,
) -> Result<(), AllocError>
    requires { R.ready reader.now }
    ensures { Performs (λ u. u)
        (spec.matched (call_in call.now) (params_of params.now) (args_in (R.reads reader.now) arguments.now))
        (N.trace recorder.old) result (N.trace recorder.new) }
{
    match params {
        Params::Dots => read_all(alloc, recorder, reader, arguments),
        Params::Listed(params) => match_listed(alloc, recorder, reader, call, arguments, params),
    }
}

/// Matches arguments to a row of parameters, and reports where they do not fit. The only error is that memory runs out.
pub fn match_listed<N: AskTypes, R: InferType<N>>(
    alloc: Global,
    recorder: &mut N,
    reader: &R,
    call: &Call<'_>,
    arguments: &Arguments<'_>,
    params: &[Param],
) -> Result<(), AllocError>
    requires { R.ready reader.now }
    ensures { Performs (λ u. u)
        (spec.matched_listed (call_in call.now) (param_row params.now)
        (args_in (R.reads reader.now) arguments.now))
        (N.trace recorder.old) result (N.trace recorder.new) }
{
    if has_unpacked(arguments) {
        return read_all(alloc, recorder, reader, arguments);
    }
    let call = ListedCall {
        alloc,
        call,
        params,
    };
    call.match_plainly(recorder, reader, arguments)
}

/// A call of what takes a row of parameters.
#[derive(Clone, Copy)]
struct ListedCall<'a> {
    alloc: Global,
    call: &'a Call<'a>,
    params: &'a [Param],
}

impl ListedCall<'_> {
    /// Matches arguments of which none stands after `*` or `**`.
    #[tactic(auto, using(pyc_obligations::proofs::Steps::performing), unfolding(crate::specs::Matched::plainly_matched))]
    fn match_plainly<N: AskTypes, R: InferType<N>>(
        &self,
        recorder: &mut N,
        reader: &R,
        arguments: &Arguments<'_>,
    ) -> Result<(), AllocError>
        requires { R.ready reader.now }
        ensures { Performs (λ u. u)
            (spec.plainly_matched (call_in self.now.call.now) (param_row self.now.params.now)
            (args_in (R.reads reader.now) arguments.now))
            (N.trace recorder.old) result (N.trace recorder.new) }
    {
        let filling = self.match_each(recorder, reader, arguments)?;
        self.report_filling(recorder, &filling)
    }

    /// What arguments fill, in turn.
    fn match_each<N: AskTypes, R: InferType<N>>(
        &self,
        recorder: &mut N,
        reader: &R,
        arguments: &Arguments<'_>,
    ) -> Result<Filling, AllocError>
        requires { R.ready reader.now }
        ensures { Performs filling_in
            (spec.arguments_matched (call_in self.now.call.now) (param_row self.now.params.now) 0 spec.no_filling
            (args_in (R.reads reader.now) arguments.now))
            (N.trace recorder.old) result (N.trace recorder.new) }
    {
        match arguments {
            Arguments::Unread(arguments) => self.match_unread(recorder, reader, arguments),
            Arguments::Read(arguments) => self.match_read(recorder, arguments),
        }
    }

    /// What arguments fill that are to be read.
    #[tactic(auto, using(pyc_obligations::proofs::Steps::performing), unfolding(crate::specs::Matched::arguments_matched))]
    fn match_unread<N: AskTypes, R: InferType<N>>(
        &self,
        recorder: &mut N,
        reader: &R,
        arguments: &[Argument],
    ) -> Result<Filling, AllocError>
        requires { R.ready reader.now }
        ensures { Performs filling_in
            (spec.arguments_matched (call_in self.now.call.now) (param_row self.now.params.now) 0 spec.no_filling
            (unread_in (R.reads reader.now) arguments.now))
            (N.trace recorder.old) result (N.trace recorder.new) }
    {
        let mut filling = Filling::new(self.alloc);
        let mut number = 0;
        for argument in arguments {
            number += places_of(given_by(&argument.kind));
            self.take_unread(recorder, reader, number, &mut filling, argument)?;
        }
        Ok(filling)
    }

    /// What arguments fill that were read.
    #[tactic(auto, using(pyc_obligations::proofs::Steps::performing), unfolding(crate::specs::Matched::arguments_matched))]
    fn match_read<N: AskTypes>(
        &self,
        recorder: &mut N,
        arguments: &[ReadArgument],
    ) -> Result<Filling, AllocError>
        ensures { Performs filling_in
            (spec.arguments_matched (call_in self.now.call.now) (param_row self.now.params.now) 0 spec.no_filling
            (map read_in arguments.now))
            (N.trace recorder.old) result (N.trace recorder.new) }
    {
        let mut filling = Filling::new(self.alloc);
        let mut number = 0;
        for argument in arguments {
            number += places_of(given_by(&argument.kind));
            self.take_read(recorder, number, &mut filling, argument)?;
        }
        Ok(filling)
    }

    /// Takes an argument that is to be read, when with it so many are given by place.
    #[tactic(auto, using(pyc_obligations::proofs::Steps::performing), unfolding(crate::specs::Matched::argument_taken))]
    fn take_unread<N: AskTypes, R: InferType<N>>(
        &self,
        recorder: &mut N,
        reader: &R,
        number: usize,
        filling: &mut Filling,
        argument: &Argument,
    ) -> Result<(), AllocError>
        requires { R.ready reader.now }
        ensures { Performs (λ u. filling_in filling.new)
            (spec.argument_matched (call_in self.now.call.now) (param_row self.now.params.now) number
            (filling_in filling.old) (spec_arguments.unread (R.reads reader.now) (argument_of argument.now)))
            (N.trace recorder.old) result (N.trace recorder.new) }
    {
        let given = given_by(&argument.kind);
        let found = matched(&filling.fill, self.params, given);
        let taken = MatchedArgument {
            call: self.call,
            number,
            given,
            found,
        };
        taken.read(self.alloc, recorder, reader, argument)?;
        filling.take(given, found)?;
        Ok(())
    }

    /// Takes an argument that was read, when with it so many are given by place.
    #[tactic(auto, using(pyc_obligations::proofs::Steps::performing), unfolding(crate::specs::Matched::argument_taken))]
    fn take_read<N: AskTypes>(
        &self,
        recorder: &mut N,
        number: usize,
        filling: &mut Filling,
        argument: &ReadArgument,
    ) -> Result<(), AllocError>
        ensures { Performs (λ u. filling_in filling.new)
            (spec.argument_matched (call_in self.now.call.now) (param_row self.now.params.now) number
            (filling_in filling.old) (read_in argument.now))
            (N.trace recorder.old) result (N.trace recorder.new) }
    {
        let given = given_by(&argument.kind);
        let found = matched(&filling.fill, self.params, given);
        let taken = MatchedArgument {
            call: self.call,
            number,
            given,
            found,
        };
        taken.report_of_read(self.alloc, recorder, argument)?;
        filling.take(given, found)
    }

    /// Reports what is reported after all arguments.
    #[tactic(auto, using(pyc_obligations::proofs::Steps::performing), unfolding(crate::specs::Matched::filling_reported))]
    fn report_filling<N: AskTypes>(
        &self,
        recorder: &mut N,
        filling: &Filling,
    ) -> Result<(), AllocError>
        ensures { Performs (λ u. u)
            (spec.filling_reported (call_in self.now.call.now) (param_row self.now.params.now) (filling_in filling.now))
            (N.trace recorder.old) result (N.trace recorder.new) }
    {
        report_if_too_many(self.alloc, recorder, self.call, filling.has_too_many)?;
        self.report_unfilled(recorder, &filling.fill)
    }

    /// Reports the parameters that no argument fills.
    #[tactic(auto, using(pyc_obligations::proofs::Steps::performing))]
    fn report_unfilled<N: Ask>(&self, recorder: &mut N, fill: &Fill) -> Result<(), AllocError>
        ensures { Performs (λ u. u)
            (each (spec.missing_reported (call_in self.now.call.now))
            (unfilled.missing (fill_of fill.now) (param_row self.now.params.now)))
            (N.trace recorder.old) result (N.trace recorder.new) }
    {
        let found = missing(self.alloc, fill, self.params)?;
        report_each_missing(self.alloc, recorder, self.call, &found)
    }
}

/// An argument of a call: how many are given by place with it, how it is given, and what it comes to.
#[derive(Clone, Copy)]
struct MatchedArgument<'a> {
    call: &'a Call<'a>,
    number: usize,
    given: Given<'a>,
    found: Match<'a>,
}

impl MatchedArgument<'_> {
    /// Reads the argument, and reports it.
    #[tactic(auto, using(pyc_obligations::proofs::Steps::performing), unfolding(crate::specs::Matched::argument_read))]
    fn read<N: AskTypes, R: InferType<N>>(
        &self,
        alloc: Global,
        recorder: &mut N,
        reader: &R,
        argument: &Argument,
    ) -> Result<(), AllocError>
        requires { R.ready reader.now }
        ensures { Performs (λ u. u)
            (spec.argument_read (call_in self.now.call.now) self.now.number (given_in self.now.given)
            (match_in self.now.found) (spec_arguments.unread (R.reads reader.now) (argument_of argument.now)))
            (N.trace recorder.old) result (N.trace recorder.new) }
    {
        self.refuse(alloc, recorder)?;
        let want = wanted(self.found);
        let got = reader.read(alloc, recorder, &argument.value, want)?;
        self.require(alloc, recorder, argument.at, &got, want)?;
        Ok(())
    }

    /// Reports the argument, which was read.
    #[tactic(auto, using(pyc_obligations::proofs::Steps::performing), unfolding(crate::specs::Matched::argument_read))]
    fn report_of_read<N: AskTypes>(
        &self,
        alloc: Global,
        recorder: &mut N,
        argument: &ReadArgument,
    ) -> Result<(), AllocError>
        ensures { Performs (λ u. u)
            (spec.argument_read (call_in self.now.call.now) self.now.number (given_in self.now.given)
            (match_in self.now.found) (read_in argument.now))
            (N.trace recorder.old) result (N.trace recorder.new) }
    {
        self.refuse(alloc, recorder)?;
        self.require(
            alloc,
            recorder,
            argument.at,
            &argument.ty,
            wanted(self.found),
        )
    }

    /// Reports what is reported of the argument before it is read.
    fn refuse<N: AskTypes>(&self, alloc: Global, recorder: &mut N) -> Result<(), AllocError>
        ensures { Performs (λ u. u)
            (spec.report_refused (call_in self.now.call.now) (given_in self.now.given) (match_in self.now.found))
            (N.trace recorder.old) result (N.trace recorder.new) }
    {
        match self.given {
            Given::ByPlace => Ok(()),
            Given::ByName(name) => self.refuse_name(alloc, recorder, name.as_str()),
        }
    }

    /// Reports what is reported of the argument, which is given by a name, before it is read.
    fn refuse_name<N: AskTypes>(
        &self,
        alloc: Global,
        recorder: &mut N,
        name: &str,
    ) -> Result<(), AllocError>
        ensures { Performs (λ u. u)
            (spec.name_refused (call_in self.now.call.now) name.now (match_in self.now.found)) (N.trace recorder.old)
            result
            (N.trace recorder.new) }
    {
        match self.found {
            Match::Repeated => report_repeated(alloc, recorder, self.call, name),
            Match::Unexpected => report_unexpected(alloc, recorder, self.call, name),
            _ => Ok(()),
        }
    }

    /// Requires that the argument, which begins at a position, is of the type that is wanted of it, if one is.
    fn require<N: AskTypes>(
        &self,
        alloc: Global,
        recorder: &mut N,
        at: Position,
        got: &Ty,
        want: Option<&Ty>,
    ) -> Result<(), AllocError>
        ensures { Performs (λ u. u)
            (spec.argument_required (call_in self.now.call.now) at (given_in self.now.given) self.now.number
            (ty_of got.now)
            (option_map (λ ty. ty_of ty.now) want.entry))
            (N.trace recorder.old) result (N.trace recorder.new) }
    {
        match want {
            Some(want) => {
                let required = RequiredArgument {
                    call: self.call,
                    at,
                    given: self.given,
                    number: self.number,
                    got,
                    want,
                };
                require(alloc, recorder, &required)
            }
            None => Ok(()),
        }
    }
}

/// Reports once that there were too many arguments, if there were.
fn report_if_too_many<N: Ask>(
    alloc: Global,
    recorder: &mut N,
    call: &Call<'_>,
    has_too_many: bool,
) -> Result<(), AllocError>
    ensures { Performs (λ u. u) (spec.too_many_reported (call_in call.now) has_too_many) (N.trace recorder.old) result
        (N.trace recorder.new) }
{
    if has_too_many {
        report_too_many(alloc, recorder, call)
    } else {
        Ok(())
    }
}

/// Reports parameters that no argument fills, in turn.
#[tactic(auto, using(pyc_obligations::proofs::Steps::performing))]
fn report_each_missing<N: Ask>(
    alloc: Global,
    recorder: &mut N,
    call: &Call<'_>,
    found: &[MissingArgument<'_>],
) -> Result<(), AllocError>
    ensures { Performs (λ u. u) (each (spec.missing_reported (call_in call.now)) (map missing_in found.now))
        (N.trace recorder.old) result (N.trace recorder.new) }
{
    for missing in found {
        report_missing(alloc, recorder, call, *missing)?;
    }
    Ok(())
}
