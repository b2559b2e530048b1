//! The parameters of a function.

ghost use Rattle.std.specs.Prelude.{◌≡◌, [], map, IfOk, option_map, Some};
ghost use Rattle.pyc_ast.specs.ExprView.{expr_of};
ghost use Rattle.pyc_ast.specs.StatementView.{boxed_expr_of, parameter_of};
ghost use Rattle.pyc_body_context.specs.BodyNames.{body_context};
ghost use Rattle.pyc_body_context.specs.Views.{body_in};
ghost use Rattle.pyc_builtins.specs.Builtin.{builtin_type};
ghost use Rattle.pyc_builtins.specs.declared.builtin.Builtin.TheVariants as builtin;
ghost use Rattle.pyc_expr.specs.Values.{infer_type};
ghost use Rattle.pyc_functions.specs.Parameters as spec;
ghost use Rattle.pyc_functions.specs.Views.{required_default_in, parameter_type_in};
ghost use Rattle.pyc_locals.specs.Locals.{no_locals};
ghost use Rattle.pyc_names.specs.Interfaces.{interface_of};
ghost use Rattle.pyc_names.specs.SourceFileView.{source_in};
ghost use Rattle.pyc_places.specs.States.{nothing_narrowed};
ghost use Rattle.pyc_reading.specs.Traces.{Performs};
ghost use Rattle.pyc_signatures.specs.Signatures as signatures;
ghost use Rattle.pyc_type_forms.specs.TypeView.{ty_of};
ghost use Rattle.pyc_type_forms.specs.Types.{any, dict};

use crate::function_reader::FunctionReader;
use pyc_annotations::read_annotation;
use pyc_ast::{Expr, Parameter, ParameterKind, Position, Text};
use pyc_body_context::BodyContext;
use pyc_class_ids::{BuiltinClass, ClassId};
use pyc_expr::infer_type;
use pyc_locals::Locals;
use pyc_members::{MethodKind, method_kind};
use pyc_messages::default_text;
use pyc_obligations::{AsObligation, AskTypes, require};
use pyc_places::State;
use pyc_report::{Message, ObligationKind};
use pyc_type_forms::{DictTypes, Ty, show};
use std::alloc::{AllocError, Global};
use std::rc::Rc;

/// A parameter inside its function: its name, and its type.
pub(crate) struct ParameterType<'a> {
    pub(crate) name: &'a Text,
    pub(crate) ty: Ty,
}

/// Written out: the crates above call it, where what `derive` writes would be made and proved in each of them.
impl Drop for ParameterType<'_> {
    fn drop(self) {
        let ParameterType { name: _, ty } = self;
        drop(ty);
    }
}

impl FunctionReader<'_> {
    /// The parameters of a function in turn, the first of which is what the function is called on: their annotations
    /// and defaults are read, and the types that they have inside are the answer.
    #[tactic(auto, using(pyc_obligations::proofs::Steps::performing), unfolding(crate::specs::Parameters::parameters_read))]
    pub(crate) fn read_parameters<'p, N: AskTypes>(
        &self,
        recorder: &mut N,
        receiver: Ty,
        parameters: &'p [Parameter],
    ) -> Result<Vec<ParameterType<'p>>, AllocError>
        ensures { Performs (λ found. map parameter_type_in found.items)
            (spec.parameters_read (body_in self.now.outside) (ty_of receiver) [] (map parameter_of parameters.now))
            (N.trace recorder.old) result (N.trace recorder.new) }
    {
        let mut found = Vec::new(self.alloc);
        let mut called_on = receiver;
        for parameter in parameters {
            let inside = self.read_parameter(recorder, called_on, parameter)?;
            found.push(inside)?;
            called_on = Ty::Any;
        }
        Ok(found)
    }

    /// A parameter: its annotation and its default are read.
    #[tactic(auto, using(pyc_obligations::proofs::Steps::performing), unfolding(crate::specs::Parameters::parameter_read))]
    fn read_parameter<'p, N: AskTypes>(
        &self,
        recorder: &mut N,
        receiver: Ty,
        parameter: &'p Parameter,
    ) -> Result<ParameterType<'p>, AllocError>
        ensures { Performs parameter_type_in
            (spec.parameter_read (body_in self.now.outside) (ty_of receiver) (parameter_of parameter.now))
            (N.trace recorder.old) result (N.trace recorder.new) }
    {
        let other = first_type(receiver, parameter.kind);
        let ty = self.read_parameter_annotation(recorder, other, parameter)?;
        self.read_parameter_default(recorder, parameter, &ty)?;
        Ok(ParameterType {
            name: &parameter.name,
            ty: inside_type(self.alloc, parameter.kind, ty)?,
        })
    }

    /// The type that the annotation of a parameter means; without one it is another.
    fn read_parameter_annotation<N: AskTypes>(
        &self,
        recorder: &mut N,
        other: Ty,
        parameter: &Parameter,
    ) -> Result<Ty, AllocError>
        ensures { Performs ty_of
            (signatures.annotated_or (interface_of (source_in self.now.outside.file.now)) (ty_of other)
            (boxed_expr_of parameter.now.annotation))
            (N.trace recorder.old) result (N.trace recorder.new) }
    {
        match &parameter.annotation {
            Some(annotation) => self.read_annotated(recorder, annotation),
            None => Ok(other),
        }
    }

    /// The type of the result of a function.
    pub(crate) fn read_result<N: AskTypes>(
        &self,
        recorder: &mut N,
        returns: Option<&Expr>,
    ) -> Result<Ty, AllocError>
        ensures { Performs ty_of
            (signatures.annotated_or (interface_of (source_in self.now.outside.file.now)) any
            (option_map (λ e. expr_of e.now) returns.entry))
            (N.trace recorder.old) result (N.trace recorder.new) }
    {
        match returns {
            Some(annotation) => self.read_annotated(recorder, annotation),
            None => Ok(Ty::Any),
        }
    }

    /// The type that an annotation means.
    #[tactic(auto, using(pyc_obligations::proofs::Steps::performing))]
    fn read_annotated<N: AskTypes>(
        &self,
        recorder: &mut N,
        annotation: &Expr,
    ) -> Result<Ty, AllocError>
        ensures { Performs ty_of
            (signatures.annotated_or (interface_of (source_in self.now.outside.file.now)) any
            (Some (expr_of annotation.now)))
            (N.trace recorder.old) result (N.trace recorder.new) }
    {
        let found = read_annotation(
            self.alloc,
            recorder,
            self.outside.file.interface(),
            annotation,
        )?;
        Ok(found.ty)
    }

    /// Reads the default of a parameter of this type, if it has one.
    fn read_parameter_default<N: AskTypes>(
        &self,
        recorder: &mut N,
        parameter: &Parameter,
        want: &Ty,
    ) -> Result<(), AllocError>
        ensures { Performs (λ u. u)
            (spec.optional_default (body_in self.now.outside) parameter.now.name (ty_of want.now)
            (boxed_expr_of parameter.now.default))
            (N.trace recorder.old) result (N.trace recorder.new) }
    {
        match &parameter.default {
            Some(default) => self.read_default(recorder, &parameter.name, want, default),
            None => Ok(()),
        }
    }

    /// Reads the default of the parameter of this name and type: where the function stands, and nothing is narrowed
    /// there.
    #[tactic(auto, using(pyc_simple_statements::proofs::Places::placing), unfolding(crate::specs::Parameters::default_read))]
    fn read_default<N: AskTypes>(
        &self,
        recorder: &mut N,
        name: &Text,
        want: &Ty,
        default: &Expr,
    ) -> Result<(), AllocError>
        ensures { Performs (λ u. u)
            (spec.default_read (body_in self.now.outside) name.now (ty_of want.now) (expr_of default.now))
            (N.trace recorder.old) result (N.trace recorder.new) }
    {
        let got = self.infer_outside(recorder, want, default)?;
        let at = default.at;
        let got = &got;
        require(
            self.alloc,
            recorder,
            &RequiredDefault {
                at,
                name,
                got,
                want,
            },
        )
    }

    /// The type of an expression that stands where the function does, by what is expected of it.
    fn infer_outside<N: AskTypes>(
        &self,
        recorder: &mut N,
        want: &Ty,
        e: &Expr,
    ) -> Result<Ty, AllocError>
        ensures { Performs ty_of
            (infer_type (body_context (body_in self.now.outside) no_locals) nothing_narrowed (expr_of e.now)
            (Some (ty_of want.now)))
            (N.trace recorder.old) result (N.trace recorder.new) }
    {
        let locals = Locals::none(self.alloc);
        let context = BodyContext {
            body: self.outside,
            locals: &locals,
        };
        let state = State::nothing_narrowed(self.alloc);
        infer_type(self.alloc, recorder, &context, &state, e, Some(want))
    }
}

/// The type of a first parameter of this kind without annotation.
fn first_type(receiver: Ty, kind: ParameterKind) -> Ty
    ensures { ty_of result ≡ signatures.first_type (ty_of receiver) kind }
{
    match kind {
        ParameterKind::Plain => receiver,
        _ => Ty::Any,
    }
}

/// The type of a parameter inside its function.
fn inside_type(alloc: Global, kind: ParameterKind, ty: Ty) -> Result<Ty, AllocError>
    ensures { IfOk result (λ found. ty_of found ≡ spec.inside_type kind (ty_of ty)) }
{
    match kind {
        ParameterKind::Star => Ok(Ty::TupleOf(Rc::new(alloc, ty)?)),
        ParameterKind::DoubleStar => str_dict(alloc, ty),
        _ => Ok(ty),
    }
}

/// A dict whose keys are texts.
fn str_dict(alloc: Global, value: Ty) -> Result<Ty, AllocError>
    ensures { IfOk result (λ found. ty_of found ≡ dict (builtin_type builtin.Str) (ty_of value)) }
{
    let key = Ty::Instance(ClassId::builtin(BuiltinClass::Str));
    Ok(Ty::Dict(Rc::new(alloc, DictTypes { key, value })?))
}

/// What a function under these decorators is called on, by the class in whose body it stands.
pub(crate) fn receiver_of(class: Option<&ClassId>, decorators: &[Expr]) -> Result<Ty, AllocError>
    ensures { IfOk result (λ ty. ty_of ty
        ≡ spec.receiver_of (option_map (λ c. c.now) class.entry) (map expr_of decorators.now)) }
{
    match class {
        Some(found) => receiver_type(method_kind(decorators), found),
        None => Ok(Ty::Any),
    }
}

/// What a method of this kind is called on.
fn receiver_type(kind: MethodKind, class: &ClassId) -> Result<Ty, AllocError>
    ensures { IfOk result (λ ty. ty_of ty ≡ spec.receiver_type kind class.now) }
{
    match kind {
        MethodKind::Static => Ok(Ty::Any),
        MethodKind::Class => Ok(Ty::Class(class.clone()?)),
        _ => Ok(Ty::Instance(class.clone()?)),
    }
}

// ---- what is reported

/// A default: where it begins, the name of its parameter, and the types of both.
#[derive(Clone, Copy)]
struct RequiredDefault<'a> {
    at: Position,
    name: &'a Text,
    got: &'a Ty,
    want: &'a Ty,
}

impl<N: AskTypes> AsObligation<N> for RequiredDefault<'_> {
    ghost obligation = { required_default_in };

    fn got(&self) -> &Ty {
        self.got
    }

    fn want(&self) -> &Ty {
        self.want
    }

    fn ask_details(&self, _alloc: Global, _recorder: &mut N) -> Result<(), AllocError> {
        Ok(())
    }

    #[tactic(auto, unfolding(crate::specs::Parameters::required_default_text))]
    fn message(&self, alloc: Global, _recorder: &N) -> Result<Message, AllocError> {
        let got = show(alloc, self.got)?;
        let want = show(alloc, self.want)?;
        let text = default_text(alloc, self.name.as_str(), got.as_str(), want.as_str())?;
        Ok(Message::failing_at(self.at, ObligationKind::Default, text))
    }
}
