//! What names stand for before annotations are read.

ghost use Rattle.std.specs.Prelude.{◌≡◌, IfOk, OnOk, option_map};
ghost use Rattle.pyc_ast.specs.ExprView.{expr_of};
ghost use Rattle.pyc_bindings.specs.BindingView.{binding_of, binding_form_of};
ghost use Rattle.pyc_class_ids.specs.Class.{user};
ghost use Rattle.pyc_declarations.specs.Kinds as spec;
ghost use Rattle.pyc_declarations.specs.KindsView.{found_in};
ghost use Rattle.pyc_declarations.specs.Looks as look;
ghost use Rattle.pyc_names.specs.FixedModules.{fixed_module as fixed_module_of};
ghost use Rattle.pyc_names.specs.FollowingView.{qualified_of, referent_of};
ghost use Rattle.pyc_names.specs.InterfaceView.{interface_in};
ghost use Rattle.pyc_names.specs.NotedLooks.{with_looks};
ghost use Rattle.pyc_names.specs.NotedLooksView.{noted_in};
ghost use Rattle.pyc_class_table.specs.ClassMros.{undeclared};
ghost use Rattle.pyc_reading.specs.AnswerView.{answer_in, class_order_of, kind_of, name_answer_of};
ghost use Rattle.pyc_reading.specs.KeyView.{key_of};

use crate::alias::variable_kind;
use crate::answers::Answers;
use crate::declared_types::initialiser_type;
use crate::looking::Looking;
use pyc_ast::{ClassDefinition, Text};
use pyc_bindings::{Binding, BindingForm, is_decorated};
use pyc_class_ids::{ClassId, UnknownMro};
use pyc_names::{
    FixedName, Interface, Looks, ModuleName, QualifiedName, Referent, Table, fixed_module,
    fixed_name,
};
use pyc_reading::{Answer, Key, MroAnswer, NameAnswer, NameKind};
use pyc_types::Ty;
use std::alloc::{AllocError, Global};
use std::rc::Rc;

/// The files of a workspace, and the kinds of things that their names stand for.
#[derive(Clone, Copy, Drop)]
pub(crate) struct Kinds<'a> {
    pub(crate) table: &'a Table,
}

/// What a name leads to.
#[derive(Drop)]
pub(crate) enum Found<'a> {
    /// A declaration of this form in a file.
    Declared(&'a Interface, &'a BindingForm),
    /// Something that no file declares.
    Answered(NameAnswer),
}

impl Answers for Kinds<'_> {
    ghost use Rattle.pyc_declarations.specs.Kinds.{kind_answer};
    ghost use Rattle.pyc_declarations.specs.KindsView.{kinds_in};

    ghost answers = { λ kinds. kind_answer (kinds_in kinds) };

    fn answer(&self, alloc: Global, key: &Key) -> Result<Answer, AllocError> {
        self.answer_noted(alloc, key, &mut Looks::unkept(alloc))
    }
}

impl Looking for Kinds<'_> {
    ghost use Rattle.pyc_declarations.specs.KindsView.{kinds_in};
    ghost use Rattle.pyc_declarations.specs.Looks.{kind_looks};

    ghost looked_at = { λ kinds. kind_looks (kinds_in kinds) };

    fn note_looks(&self, alloc: Global, key: &Key, looks: &mut Looks) -> Result<(), AllocError> {
        self.answer_noted(alloc, key, looks)?;
        Ok(())
    }
}

impl<'a> Kinds<'a> {
    ghost use Rattle.pyc_declarations.specs.KindsView.{kinds_in};

    /// The answer to a key; what is looked at for that is noted.
    #[tactic(auto, using(pyc_names::proofs::NotedLemmas::noting))]
    pub(crate) fn answer_noted(
        &self,
        alloc: Global,
        key: &Key,
        looks: &mut Looks,
    ) -> Result<Answer, AllocError>
        ensures found { IfOk result (λ answer. answer_in answer
            ≡ spec.kind_answer (kinds_in self.now) (key_of key.now)) }
        ensures looks { IfOk result (λ answer. noted_in looks.new
            ≡ with_looks (noted_in looks.old) (look.kind_looks (kinds_in self.now) (key_of key.now))) }
    {
        match key {
            Key::HasModule(name) => {
                looks.note_module(name.parts())?;
                Ok(Answer::Presence(self.module_presence(name)))
            }
            Key::HasName(name) => Ok(Answer::Presence(self.name_presence(alloc, name, looks)?)),
            Key::Name(name) => Ok(Answer::Name(self.name_kind(alloc, name, looks)?)),
            Key::Class(_) => Ok(Answer::Mro(unknown_order(alloc))),
            Key::Member(_) => Ok(Answer::Member(None)),
            Key::Export(name) => Ok(Answer::Export(self.name_export(alloc, name, looks)?)),
        }
    }

    /// What a name stands for, by its kind alone; what is looked at for that is noted.
    #[tactic(auto, using(pyc_names::proofs::NotedLemmas::noting))]
    fn name_kind(
        &self,
        alloc: Global,
        q: &QualifiedName,
        looks: &mut Looks,
    ) -> Result<NameAnswer, AllocError>
        ensures found { IfOk result (λ found. name_answer_of found
            ≡ spec.name_kind (kinds_in self.now) (qualified_of q.now)) }
        ensures looks { IfOk result (λ found. noted_in looks.new
            ≡ with_looks (noted_in looks.old) (look.name_kind_looks (kinds_in self.now) (qualified_of q.now))) }
    {
        match self.found_name(alloc, q, looks)? {
            Found::Declared(file, form) => self.form_kind(alloc, file, form, looks),
            Found::Answered(found) => Ok(found),
        }
    }

    /// What a name leads to; what is looked at for that is noted.
    #[tactic(auto, using(pyc_names::proofs::NotedLemmas::noting), unfolding(crate::specs::Kinds::found_name))]
    pub(crate) fn found_name(
        &self,
        alloc: Global,
        q: &QualifiedName,
        looks: &mut Looks,
    ) -> Result<Found<'a>, AllocError>
        ensures found { IfOk result (λ found. found_in found
            ≡ spec.found_name (kinds_in self.now) (qualified_of q.now)) }
        ensures looks { IfOk result (λ found. noted_in looks.new
            ≡ with_looks (noted_in looks.old) (look.found_name_looks (kinds_in self.now) (qualified_of q.now))) }
    {
        let found = self.table.follow(alloc, q, looks)?;
        note_referent(q, &found, looks)?;
        self.found_referent(alloc, q, found)
    }

    /// What following a name came to.
    fn found_referent(
        &self,
        alloc: Global,
        q: &QualifiedName,
        found: Referent,
    ) -> Result<Found<'a>, AllocError>
        ensures { IfOk result (λ led. found_in led
            ≡ spec.found_referent (kinds_in self.now) (qualified_of q.now) (referent_of found)) }
    {
        Ok(match found {
            Referent::Declared(q) => self.found_declared(&q),
            Referent::Module(name) => Found::Answered(module_answer(alloc, name)?),
            Referent::Opaque => {
                let file = self.table.file(q.module_path.parts());
                Found::Answered(of_kind(faulty_name(file)))
            }
            Referent::FixedAny => Found::Answered(of_kind(NameKind::Unknown)),
            Referent::NoModule => Found::Answered(of_kind(NameKind::NoModule)),
            Referent::NoName => {
                let file = self.table.file(q.module_path.parts());
                Found::Answered(of_kind(absent_name(file, &q.name)))
            }
            Referent::Cycle => Found::Answered(of_kind(NameKind::Cycle)),
        })
    }

    /// What is declared under a name.
    fn found_declared(&self, q: &QualifiedName) -> Found<'a>
        ensures { found_in result ≡ spec.found_declared (kinds_in self.now) (qualified_of q.now)
            (fixed_module_of q.now.module_path) }
    {
        let parts = q.module_path.parts();
        match fixed_module(parts) {
            Some(found) => fixed_found(fixed_name(found, q.name.as_str())),
            None => found_in_file(q, self.table.file(parts)),
        }
    }

    /// What a declaration of this form is in a file; what is looked at for that is noted.
    #[tactic(auto, using(pyc_names::proofs::NotedLemmas::noting))]
    pub(crate) fn form_kind(
        &self,
        alloc: Global,
        file: &Interface,
        form: &BindingForm,
        looks: &mut Looks,
    ) -> Result<NameAnswer, AllocError>
        ensures found { IfOk result (λ found. name_answer_of found
            ≡ spec.form_kind (kinds_in self.now) (interface_in file.now) (binding_form_of form.now)) }
        ensures looks { IfOk result (λ found. noted_in looks.new
            ≡ with_looks (noted_in looks.old)
            (look.form_kind_looks (kinds_in self.now) (interface_in file.now) (binding_form_of form.now))) }
    {
        match form {
            BindingForm::Function(_) => Ok(of_kind(NameKind::Function)),
            BindingForm::Class(head) => class_kind(alloc, file, head),
            BindingForm::Annotated(found) => {
                let is_alias = self.is_alias(alloc, file, &found.annotation, looks)?;
                Ok(of_kind(variable_kind(is_alias)))
            }
            BindingForm::Assigned(value) => Ok(NameAnswer {
                kind: NameKind::Variable,
                ty: initialiser_type(value),
            }),
            _ => Ok(of_kind(NameKind::Variable)),
        }
    }
}

/// Notes the module of a name that leads into a file with a fault: that may be the file of the name's own module. The
/// only error is that memory runs out.
#[tactic(auto, using(pyc_names::proofs::NotedLemmas::noting))]
fn note_referent(q: &QualifiedName, found: &Referent, looks: &mut Looks) -> Result<(), AllocError>
    ensures { OnOk result (noted_in looks.new
        ≡ with_looks (noted_in looks.old) (look.referent_looks (qualified_of q.now) (referent_of found.now))) }
{
    match found {
        Referent::Opaque => looks.note_module(q.module_path.parts()),
        _ => Ok(()),
    }
}

/// A thing of this kind, of which no type is known.
fn of_kind(kind: NameKind) -> NameAnswer
    ensures { name_answer_of result ≡ spec.of_kind (kind_of kind) }
{
    NameAnswer { kind, ty: Ty::Any }
}

/// A module: its type tells which one it is.
fn module_answer(alloc: Global, name: ModuleName) -> Result<NameAnswer, AllocError>
    ensures { IfOk result (λ found. name_answer_of found ≡ spec.module_answer name) }
{
    let parts = Rc::new(alloc, copy_parts(alloc, name.parts())?)?;
    Ok(NameAnswer {
        kind: NameKind::Module(name),
        ty: Ty::Module(parts),
    })
}

/// The kind of a name that leads to none.
fn absent_name(file: Option<&Interface>, name: &Text) -> NameKind
    ensures { kind_of result ≡ spec.absent_name (option_map (λ file. interface_in file.now) file.entry) name.now }
{
    match file {
        Some(file) => {
            if file.declaration(name).is_some() {
                NameKind::NoTarget
            } else {
                NameKind::NoName
            }
        }
        None => NameKind::NoName,
    }
}

/// The kind of a name that leads into a file with a fault, where the name's own module has this file.
fn faulty_name(file: Option<&Interface>) -> NameKind
    ensures { kind_of result ≡ spec.faulty_name (option_map (λ file. interface_in file.now) file.entry) }
{
    match file {
        Some(file) => {
            if file.has_fault() {
                NameKind::Opaque
            } else {
                NameKind::Unknown
            }
        }
        None => NameKind::Unknown,
    }
}

/// What a name of a fixed module is.
fn fixed_found<'a>(found: Option<FixedName>) -> Found<'a>
    ensures { found_in result ≡ spec.fixed_found found }
{
    match found {
        Some(name) => Found::Answered(of_kind(NameKind::Fixed(name))),
        None => Found::Answered(of_kind(NameKind::Unknown)),
    }
}

/// What a file declares under a name.
fn found_in_file<'a>(q: &QualifiedName, file: Option<&'a Interface>) -> Found<'a>
    ensures { found_in result
        ≡ spec.found_in_file (qualified_of q.now) (option_map (λ file. interface_in file.now) file.entry) }
{
    match file {
        Some(file) => found_binding(file, file.declaration(&q.name)),
        None => Found::Answered(of_kind(NameKind::Unknown)),
    }
}

/// What a binding declares in a file.
fn found_binding<'a>(file: &'a Interface, found: Option<&'a Binding>) -> Found<'a>
    ensures { found_in result
        ≡ spec.found_binding (interface_in file.now) (option_map (λ b. binding_of b.now) found.entry) }
{
    match found {
        Some(binding) => {
            if is_decorated(&binding.form) {
                Found::Answered(of_kind(NameKind::Unknown))
            } else {
                Found::Declared(file, &binding.form)
            }
        }
        None => Found::Answered(of_kind(NameKind::Unknown)),
    }
}

/// A class of a file.
fn class_kind(
    alloc: Global,
    file: &Interface,
    head: &ClassDefinition,
) -> Result<NameAnswer, AllocError>
    ensures { IfOk result (λ found. name_answer_of found ≡ spec.class_kind (interface_in file.now).name head.now.name) }
{
    let class = own_class(alloc, file, &head.name)?;
    Ok(NameAnswer {
        kind: NameKind::Class,
        ty: Ty::Class(class),
    })
}

/// The order of a class of which none is known.
pub(crate) fn unknown_order(alloc: Global) -> MroAnswer
    ensures { class_order_of result ≡ undeclared }
{
    MroAnswer {
        classes: Vec::new(alloc),
        unknown: Some(UnknownMro::Base),
        has_call: false,
    }
}

/// The class of this name of a file. The only error is that memory runs out.
pub fn own_class(alloc: Global, file: &Interface, name: &Text) -> Result<ClassId, AllocError>
    ensures { IfOk result (λ class. class ≡ user (interface_in file.now).name name.now) }
{
    let module_path = copy_parts(alloc, file.name().parts())?;
    ClassId::user(alloc, module_path, name.clone()?)
}

/// These parts once more.
fn copy_parts(alloc: Global, parts: &[Text]) -> Result<Vec<Text>, AllocError>
    ensures { IfOk result (λ copy. copy.items ≡ parts.now) }
{
    let mut copy = Vec::with_capacity(alloc, parts.len())?;
    for part in parts {
        copy.push(part.clone()?)?;
    }
    Ok(copy)
}
