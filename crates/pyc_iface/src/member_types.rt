//! What classes bind under names, with the types of members.

ghost use Rattle.std.specs.Prelude.{◌≡◌, map, IfOk, option_map};
ghost use Rattle.std.specs.List.{find};
ghost use Rattle.pyc_ast.specs.ExprView.{expr_of};
ghost use Rattle.pyc_ast.specs.StatementView.{function_of, parameter_of};
ghost use Rattle.pyc_bindings.specs.BindingView.{binding_of, binding_form_of};
ghost use Rattle.pyc_iface.specs.DeclaredView.{declared_at};
ghost use Rattle.pyc_iface.specs.Looks as look;
ghost use Rattle.pyc_iface.specs.Members as spec;
ghost use Rattle.pyc_iface.specs.PlainWorldView.{world_in};
ghost use Rattle.pyc_members.specs.AttributeView.{attribute_of, attribute_form_of};
ghost use Rattle.pyc_members.specs.ClassBodyView.{own_member_of};
ghost use Rattle.pyc_members.specs.Methods.{method_kind};
ghost use Rattle.pyc_names.specs.InterfaceView.{interface_in};
ghost use Rattle.pyc_names.specs.NotedLooks.{with_looks};
ghost use Rattle.pyc_names.specs.NotedLooksView.{noted_in};
ghost use Rattle.pyc_reading.specs.AnswerView.{member_answer_of};
ghost use Rattle.pyc_type_forms.specs.TypeView.{ty_of};

use crate::declared::{Declared, member_of, variable};
use crate::world::PlainWorld;
use pyc_ast::{Expr, Form, FunctionDefinition, Parameter, ParameterKind, Text};
use pyc_bindings::{Binding, BindingForm, has_setter, is_decorated};
use pyc_declarations::initialiser_type;
use pyc_members::{AttributeForm, MethodKind, OwnMember, SelfAttribute, method_kind};
use pyc_names::{Interface, Looks};
use pyc_reading::{MemberAnswer, MemberKind};
use pyc_types::Ty;
use std::alloc::{AllocError, Global};

impl PlainWorld {
    /// What decides of a name in a class, as a member of it.
    #[tactic(auto, using(pyc_names::proofs::NotedLemmas::noting))]
    pub(crate) fn own_answer(
        &self,
        alloc: Global,
        c: Declared<'_>,
        name: &Text,
        found: OwnMember<'_>,
        looks: &mut Looks,
    ) -> Result<MemberAnswer, AllocError>
        ensures found { IfOk result (λ found'. member_answer_of found'
            ≡ spec.own_answer (world_in self.now) (declared_at c.entry) name.now (own_member_of found.entry)) }
        ensures looks { IfOk result (λ found'. noted_in looks.new ≡ with_looks (noted_in looks.old)
            (look.own_looks (world_in self.now) (declared_at c.entry) (own_member_of found.entry))) }
    {
        match found {
            OwnMember::Bound(binding) => self.bound_member(alloc, c, name, binding, looks),
            OwnMember::Annotated(attribute) => self.attribute_member(alloc, c, attribute, looks),
            OwnMember::Assigned(attribute) => self.attribute_member(alloc, c, attribute, looks),
        }
    }

    /// What the declaration of a name in the body of a class gives.
    #[tactic(auto, using(pyc_names::proofs::NotedLemmas::noting))]
    fn bound_member(
        &self,
        alloc: Global,
        c: Declared<'_>,
        name: &Text,
        binding: &Binding,
        looks: &mut Looks,
    ) -> Result<MemberAnswer, AllocError>
        ensures found { IfOk result (λ found. member_answer_of found
            ≡ spec.bound_member (world_in self.now) (declared_at c.entry) name.now (binding_of binding.now)) }
        ensures looks { IfOk result (λ found. noted_in looks.new ≡ with_looks (noted_in looks.old)
            (look.bound_member_looks (world_in self.now) (declared_at c.entry) (binding_of binding.now))) }
    {
        if is_decorated(&binding.form) {
            variable(c, Ty::Any)
        } else {
            self.form_member(alloc, c, name, &binding.form, looks)
        }
    }

    /// What a declaration of this form gives, where no unknown decorator stands before it.
    #[tactic(auto, using(pyc_names::proofs::NotedLemmas::noting))]
    fn form_member(
        &self,
        alloc: Global,
        c: Declared<'_>,
        name: &Text,
        form: &BindingForm,
        looks: &mut Looks,
    ) -> Result<MemberAnswer, AllocError>
        ensures found { IfOk result (λ found. member_answer_of found
            ≡ spec.form_member (world_in self.now) (declared_at c.entry) name.now (binding_form_of form.now)) }
        ensures looks { IfOk result (λ found. noted_in looks.new ≡ with_looks (noted_in looks.old)
            (look.form_member_looks (world_in self.now) (declared_at c.entry) (binding_form_of form.now))) }
    {
        match form {
            BindingForm::Function(head) => self.method_member(alloc, c, name, head, looks),
            BindingForm::Annotated(found) => {
                let ty = self
                    .declarations()
                    .annotated_type(alloc, c.file, &found.annotation, looks)?;
                variable(c, ty)
            }
            BindingForm::Assigned(value) => variable(c, initialiser_type(value)),
            _ => variable(c, Ty::Any),
        }
    }

    /// A method of this name, of the kind that its decorators give.
    #[tactic(auto, using(pyc_names::proofs::NotedLemmas::noting))]
    fn method_member(
        &self,
        alloc: Global,
        c: Declared<'_>,
        name: &Text,
        head: &FunctionDefinition,
        looks: &mut Looks,
    ) -> Result<MemberAnswer, AllocError>
        ensures found { IfOk result (λ found. member_answer_of found
            ≡ spec.method_member (world_in self.now) (declared_at c.entry) name.now (function_of head.now)
            (method_kind (function_of head.now).decorators)) }
        ensures looks { IfOk result (λ found. noted_in looks.new ≡ with_looks (noted_in looks.old)
            (look.method_looks (world_in self.now) (declared_at c.entry) (function_of head.now)
            (method_kind (function_of head.now).decorators))) }
    {
        match method_kind(&head.decorators) {
            MethodKind::Property => {
                let ty = self.property_type(alloc, c, head, looks)?;
                member_of(c, property_kind(c.body.is_settable(name)), ty)
            }
            MethodKind::Static => {
                let ty = self
                    .declarations()
                    .declared_function(alloc, c.file, Ty::Any, head, looks)?;
                member_of(c, MemberKind::StaticMethod, ty)
            }
            MethodKind::Class => {
                let receiver = Ty::Class(c.id.clone()?);
                let ty = self
                    .declarations()
                    .declared_function(alloc, c.file, receiver, head, looks)?;
                member_of(c, MemberKind::ClassMethod, ty)
            }
            MethodKind::Plain => {
                let ty = self.method_type(alloc, c, head, looks)?;
                member_of(c, MemberKind::Method, ty)
            }
        }
    }

    /// The type of a property; of one that its setter declares none is known.
    #[tactic(auto, using(pyc_names::proofs::NotedLemmas::noting))]
    fn property_type(
        &self,
        alloc: Global,
        c: Declared<'_>,
        head: &FunctionDefinition,
        looks: &mut Looks,
    ) -> Result<Ty, AllocError>
        ensures found { IfOk result (λ ty. ty_of ty
            ≡ spec.property_type (world_in self.now) (declared_at c.entry) (function_of head.now)) }
        ensures looks { IfOk result (λ ty. noted_in looks.new ≡ with_looks (noted_in looks.old)
            (look.property_looks (world_in self.now) (declared_at c.entry) (function_of head.now))) }
    {
        if has_setter(&head.decorators) {
            return Ok(Ty::Any);
        }
        let ty = self.method_type(alloc, c, head, looks)?;
        result_of_callable(&ty)
    }

    /// The type of a method that is given the instance.
    #[tactic(auto, using(pyc_names::proofs::NotedLemmas::noting))]
    fn method_type(
        &self,
        alloc: Global,
        c: Declared<'_>,
        head: &FunctionDefinition,
        looks: &mut Looks,
    ) -> Result<Ty, AllocError>
        ensures found { IfOk result (λ ty. ty_of ty
            ≡ spec.method_type (world_in self.now) (declared_at c.entry) (function_of head.now)) }
        ensures looks { IfOk result (λ ty. noted_in looks.new ≡ with_looks (noted_in looks.old)
            (look.method_type_looks (world_in self.now) (declared_at c.entry) (function_of head.now))) }
    {
        let receiver = Ty::Instance(c.id.clone()?);
        self.declarations()
            .declared_function(alloc, c.file, receiver, head, looks)
    }

    /// An attribute that a method of a class gives its instance.
    #[tactic(auto, using(pyc_names::proofs::NotedLemmas::noting))]
    fn attribute_member(
        &self,
        alloc: Global,
        c: Declared<'_>,
        found: &SelfAttribute,
        looks: &mut Looks,
    ) -> Result<MemberAnswer, AllocError>
        ensures found { IfOk result (λ member. member_answer_of member
            ≡ spec.attribute_member (world_in self.now) (declared_at c.entry) (attribute_of found.now)) }
        ensures looks { IfOk result (λ member. noted_in looks.new ≡ with_looks (noted_in looks.old)
            (look.attribute_member_looks (world_in self.now) (declared_at c.entry) (attribute_of found.now))) }
    {
        let ty = self.attribute_type(alloc, c.file, &found.method, &found.form, looks)?;
        variable(c, ty)
    }

    /// The type of an attribute of this form that a method gives.
    #[tactic(auto, using(pyc_names::proofs::NotedLemmas::noting))]
    fn attribute_type(
        &self,
        alloc: Global,
        file: &Interface,
        head: &FunctionDefinition,
        form: &AttributeForm,
        looks: &mut Looks,
    ) -> Result<Ty, AllocError>
        ensures found { IfOk result (λ ty. ty_of ty
            ≡ spec.attribute_type (world_in self.now) (interface_in file.now) (function_of head.now)
            (attribute_form_of form.now)) }
        ensures looks { IfOk result (λ ty. noted_in looks.new ≡ with_looks (noted_in looks.old)
            (look.attribute_type_looks (world_in self.now) (interface_in file.now) (function_of head.now)
            (attribute_form_of form.now))) }
    {
        match form {
            AttributeForm::Annotated(found) => {
                self.declarations()
                    .annotated_type(alloc, file, &found.annotation, looks)
            }
            AttributeForm::Assigned(value) => {
                self.value_type(alloc, file, &head.parameters, value, looks)
            }
            AttributeForm::Other => Ok(Ty::Any),
        }
    }

    /// The type of a value that an attribute is assigned in a method with these parameters.
    #[tactic(auto, using(pyc_names::proofs::NotedLemmas::noting))]
    fn value_type(
        &self,
        alloc: Global,
        file: &Interface,
        params: &[Parameter],
        value: &Expr,
        looks: &mut Looks,
    ) -> Result<Ty, AllocError>
        ensures found { IfOk result (λ ty. ty_of ty
            ≡ spec.value_type (world_in self.now) (interface_in file.now) (map parameter_of params.now)
            (expr_of value.now)) }
        ensures looks { IfOk result (λ ty. noted_in looks.new ≡ with_looks (noted_in looks.old)
            (look.value_looks (world_in self.now) (interface_in file.now) (map parameter_of params.now)
            (expr_of value.now))) }
    {
        match name_written(value) {
            Some(name) => self.parameter_type(alloc, file, parameter_named(params, name), looks),
            None => Ok(initialiser_type(value)),
        }
    }

    /// The type of a parameter that an argument at its place fills, where it has an annotation.
    #[tactic(auto, using(pyc_names::proofs::NotedLemmas::noting))]
    fn parameter_type(
        &self,
        alloc: Global,
        file: &Interface,
        found: Option<&Parameter>,
        looks: &mut Looks,
    ) -> Result<Ty, AllocError>
        ensures found { IfOk result (λ ty. ty_of ty
            ≡ spec.parameter_type (world_in self.now) (interface_in file.now)
            (option_map (λ p. parameter_of p.now) found.entry)) }
        ensures looks { IfOk result (λ ty. noted_in looks.new ≡ with_looks (noted_in looks.old)
            (look.parameter_looks (world_in self.now) (interface_in file.now)
            (option_map (λ p. parameter_of p.now) found.entry))) }
    {
        let Some(parameter) = found else {
            return Ok(Ty::Any);
        };
        match (parameter.kind, &parameter.annotation) {
            (ParameterKind::Plain, Some(annotation)) => {
                self.declarations()
                    .annotated_type(alloc, file, annotation, looks)
            }
            _ => Ok(Ty::Any),
        }
    }
}

/// The name that an expression is, in parentheses too.
fn name_written(value: &Expr) -> Option<&Text>
    ensures { option_map (λ name. name.now) result ≡ spec.name_written (expr_of value.now) }
{
    match &value.form {
        Form::Name(name) => Some(name),
        _ => None,
    }
}

/// The first of these parameters that has this name.
fn parameter_named<'a>(params: &'a [Parameter], name: &Text) -> Option<&'a Parameter>
    ensures { option_map (λ p. parameter_of p.now) result
        ≡ spec.parameter_named (map parameter_of params.now) name.now }
{
    for parameter in params {
        if parameter.name == *name {
            return Some(parameter);
        }
    }
    None
}

/// A property is settable where the class has a setter of its name.
fn property_kind(is_settable: bool) -> MemberKind
    ensures { result ≡ spec.property_kind is_settable }
{
    if is_settable {
        MemberKind::SettableProperty
    } else {
        MemberKind::Property
    }
}

/// What a call of something of this type gives, where its signature is known.
fn result_of_callable(ty: &Ty) -> Result<Ty, AllocError>
    ensures { IfOk result (λ result_of_callable. ty_of result_of_callable ≡ spec.result_of_callable (ty_of ty.now)) }
{
    match ty {
        Ty::Callable(signature) => signature.result.clone(),
        _ => Ok(Ty::Any),
    }
}
