//! What a function asks, and what it requires.

ghost use Rattle.pyc_unit_laws.specs.FunctionRows.{EndReads, FunctionReads, HeadReads, ParameterReads};
ghost use Rattle.pyc_unit_laws.specs.FunctionRows.{ReturnReads};
ghost use Rattle.pyc_unit_laws.specs.RequiredRows.{
  BareReturnIsRequired,
  DefaultIsRequired,
  EndIsRequired,
  ReturnIsRequired,
};

/// A parameter asks its annotation, and then what its default asks where the function stands, and whether the type of
/// that is assignable to its own.
pub fn parameter_asks()
    ensures { ParameterReads }
{}

/// The head of a function asks its parameters in turn, and then the annotation of its result.
pub fn head_asks()
    ensures { HeadReads }
{}

/// A `return` asks what its value asks, and then whether the type of that is assignable to that of the result. A bare
/// one gives None; outside functions nothing is required.
pub fn return_asks()
    ensures { ReturnReads }
{}

/// The end of a function asks, where a run comes to it, whether None is assignable to the type of the result.
pub fn end_asks()
    ensures { EndReads }
{}

/// A function asks what its head asks, and where its body is checked, what its statements and its end ask. A stub
/// requires nothing at its end.
pub fn function_asks()
    ensures { FunctionReads }
{}

/// Each default has to be assignable to the type of its parameter, what each `return` in a function gives to the type
/// of the result, and None at an end to which a run comes, whether that holds or not.
pub fn function_requires()
    ensures default { DefaultIsRequired }
    ensures value { ReturnIsRequired }
    ensures bare { BareReturnIsRequired }
    ensures end { EndIsRequired }
{}
