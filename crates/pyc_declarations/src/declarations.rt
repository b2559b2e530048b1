//! What is declared under names, with the types of declarations.

ghost use Rattle.std.specs.Prelude.{◌≡◌, IfOk};
ghost use Rattle.pyc_annotations.specs.Views.{annotation_in};
ghost use Rattle.pyc_ast.specs.ExprView.{expr_of};
ghost use Rattle.pyc_ast.specs.StatementView.{function_of};
ghost use Rattle.pyc_bindings.specs.BindingView.{binding_form_of};
ghost use Rattle.pyc_declarations.specs.Declarations as spec;
ghost use Rattle.pyc_declarations.specs.Looks as look;
ghost use Rattle.pyc_names.specs.FollowingView.{qualified_of};
ghost use Rattle.pyc_names.specs.InterfaceView.{interface_in, interfaces_in};
ghost use Rattle.pyc_names.specs.NotedLooks.{with_looks};
ghost use Rattle.pyc_names.specs.NotedLooksView.{noted_in};
ghost use Rattle.pyc_names.specs.TableView.{table_in};
ghost use Rattle.pyc_reading.specs.AnswerView.{answer_in, name_answer_of};
ghost use Rattle.pyc_reading.specs.KeyView.{key_of};
ghost use Rattle.pyc_type_forms.specs.TypeView.{ty_of};

use crate::alias::variable_kind;
use crate::answers::Answers;
use crate::declaration_recorder::DeclarationRecorder;
use crate::kinds::{Found, Kinds};
use crate::looking::{Looking, note_read};
use pyc_annotations::{Annotation, read_annotation};
use pyc_ast::{Expr, FunctionDefinition};
use pyc_bindings::BindingForm;
use pyc_names::{Interface, Looks, QualifiedName, Table};
use pyc_reading::{Answer, Key, NameAnswer, NameKind};
use pyc_signatures::read_function;
use pyc_types::Ty;
use std::alloc::{AllocError, Global};
use std::rc::Rc;

/// What is declared under the names of files, with the types of declarations.
#[derive(Clone, Copy, Drop)]
pub struct Declarations<'a> {
    pub(crate) kinds: Kinds<'a>,
}

impl Answers for Declarations<'_> {
    ghost use Rattle.pyc_declarations.specs.Declarations.{declared_answer};
    ghost use Rattle.pyc_declarations.specs.KindsView.{declarations_in};

    ghost answers = { λ d. declared_answer (declarations_in d) };

    fn answer(&self, alloc: Global, key: &Key) -> Result<Answer, AllocError> {
        self.answer_noted(alloc, key, &mut Looks::unkept(alloc))
    }
}

impl Looking for Declarations<'_> {
    ghost use Rattle.pyc_declarations.specs.KindsView.{declarations_in};
    ghost use Rattle.pyc_declarations.specs.Looks.{declared_looks};

    ghost looked_at = { λ d. declared_looks (declarations_in d) };

    fn note_looks(&self, alloc: Global, key: &Key, looks: &mut Looks) -> Result<(), AllocError> {
        self.answer_noted(alloc, key, looks)?;
        Ok(())
    }
}

impl<'a> Declarations<'a> {
    ghost use Rattle.pyc_declarations.specs.KindsView.{declarations_in};

    /// What is declared under the names of the files of a table. It takes no memory.
    pub fn new(table: &'a Table) -> Declarations<'a>
        ensures { declarations_in result ≡ table_in table.now }
    {
        Declarations {
            kinds: Kinds { table },
        }
    }

    /// The interfaces of the files.
    pub fn files(&self) -> &'a [Rc<Interface>]
        ensures { interfaces_in result.now ≡ declarations_in self.now }
    {
        self.kinds.table.files()
    }

    /// The answer to a key; what is looked at for that is noted. The only error is that memory runs out.
    #[tactic(auto, using(pyc_names::proofs::NotedLemmas::noting))]
    pub fn answer_noted(
        &self,
        alloc: Global,
        key: &Key,
        looks: &mut Looks,
    ) -> Result<Answer, AllocError>
        ensures found { IfOk result (λ answer. answer_in answer
            ≡ spec.declared_answer (declarations_in self.now) (key_of key.now)) }
        ensures looks { IfOk result (λ answer. noted_in looks.new
            ≡ with_looks (noted_in looks.old)
            (look.declared_looks (declarations_in self.now) (key_of key.now))) }
    {
        match key {
            Key::Name(name) => Ok(Answer::Name(self.name_answer(alloc, name, looks)?)),
            _ => self.kinds.answer_noted(alloc, key, looks),
        }
    }

    /// What a name stands for, with its type; what is looked at for that is noted.
    #[tactic(auto, using(pyc_names::proofs::NotedLemmas::noting))]
    fn name_answer(
        &self,
        alloc: Global,
        q: &QualifiedName,
        looks: &mut Looks,
    ) -> Result<NameAnswer, AllocError>
        ensures found { IfOk result (λ found. name_answer_of found
            ≡ spec.name_answer (declarations_in self.now) (qualified_of q.now)) }
        ensures looks { IfOk result (λ found. noted_in looks.new
            ≡ with_looks (noted_in looks.old) (look.name_looks (declarations_in self.now) (qualified_of q.now))) }
    {
        match self.kinds.found_name(alloc, q, looks)? {
            Found::Declared(file, form) => self.form_answer(alloc, file, form, looks),
            Found::Answered(found) => Ok(found),
        }
    }

    /// What a declaration of this form declares in a file, with its type; what is looked at for that is noted.
    #[tactic(auto, using(pyc_names::proofs::NotedLemmas::noting))]
    fn form_answer(
        &self,
        alloc: Global,
        file: &Interface,
        form: &BindingForm,
        looks: &mut Looks,
    ) -> Result<NameAnswer, AllocError>
        ensures found { IfOk result (λ found. name_answer_of found
            ≡ spec.form_answer (declarations_in self.now) (interface_in file.now) (binding_form_of form.now)) }
        ensures looks { IfOk result (λ found. noted_in looks.new
            ≡ with_looks (noted_in looks.old)
            (look.form_looks (declarations_in self.now) (interface_in file.now) (binding_form_of form.now))) }
    {
        match form {
            BindingForm::Function(head) => Ok(NameAnswer {
                kind: NameKind::Function,
                ty: self.declared_function(alloc, file, Ty::Any, head, looks)?,
            }),
            BindingForm::Annotated(found) => {
                let is_alias = self.kinds.is_alias(alloc, file, &found.annotation, looks)?;
                Ok(NameAnswer {
                    kind: variable_kind(is_alias),
                    ty: self.annotated_type(alloc, file, &found.annotation, looks)?,
                })
            }
            _ => self.kinds.form_kind(alloc, file, form, looks),
        }
    }

    /// The type of a variable with this annotation, which stands in a file; what is looked at for that is noted. The
    /// only error is that memory runs out.
    #[tactic(auto, unfolding(crate::specs::Declarations::annotated_type, crate::specs::Looks::annotated_looks))]
    pub fn annotated_type(
        &self,
        alloc: Global,
        file: &Interface,
        annotation: &Expr,
        looks: &mut Looks,
    ) -> Result<Ty, AllocError>
        ensures found { IfOk result (λ ty. ty_of ty
            ≡ spec.annotated_type (declarations_in self.now) (interface_in file.now) (expr_of annotation.now)) }
        ensures looks { IfOk result (λ ty. noted_in looks.new ≡ with_looks (noted_in looks.old)
            (look.annotated_looks (declarations_in self.now) (interface_in file.now) (expr_of annotation.now))) }
    {
        let mut recorder = DeclarationRecorder::new(alloc, self.kinds);
        let found = read_annotation(alloc, &mut recorder, file, annotation)?;
        note_read(alloc, &self.kinds, recorder.keys(), looks)?;
        Ok(type_in(found))
    }

    /// The type of a function that stands in a file, where what it is called on has a type; Any where it is called on
    /// nothing. What is looked at for that is noted. The only error is that memory runs out.
    #[tactic(auto, unfolding(crate::specs::Declarations::declared_function, crate::specs::Looks::function_looks))]
    pub fn declared_function(
        &self,
        alloc: Global,
        file: &Interface,
        receiver: Ty,
        head: &FunctionDefinition,
        looks: &mut Looks,
    ) -> Result<Ty, AllocError>
        ensures found { IfOk result (λ ty. ty_of ty
            ≡ spec.declared_function (declarations_in self.now) (interface_in file.now) (ty_of receiver)
            (function_of head.now)) }
        ensures looks { IfOk result (λ ty. noted_in looks.new ≡ with_looks (noted_in looks.old)
            (look.function_looks (declarations_in self.now) (interface_in file.now) (ty_of receiver)
            (function_of head.now))) }
    {
        let mut recorder = DeclarationRecorder::new(alloc, self.kinds);
        let ty = read_function(alloc, &mut recorder, file, receiver, head)?;
        note_read(alloc, &self.kinds, recorder.keys(), looks)?;
        Ok(ty)
    }
}

/// The type that an annotation means.
fn type_in(found: Annotation) -> Ty
    ensures { ty_of result ≡ (annotation_in found).ty }
{
    found.ty
}
