//! The bindings of a scope.

ghost use Rattle.std.specs.Prelude.{◌≡◌};
ghost use Rattle.pyc_bindings.specs.Bindings.{is_import};
ghost use Rattle.pyc_bindings.specs.BindingView.{binding_of};

use crate::place::BindingSite;
use pyc_ast::{
    AnnotatedAssignment, ClassDefinition, Expr, FunctionDefinition, ImportFrom, ImportedModule,
    Text,
};
use std::rc::Rc;

/// A binding: its name, where it stands, whether a stub passes it on, and what it binds the name to. Its parts of the
/// tree are shared with it.
pub struct Binding {
    pub name: Text,
    pub place: BindingSite,
    /// An import that has one name on both sides of its `as`: a stub passes no other import on.
    pub is_passed_on: bool,
    pub form: BindingForm,
}

/// Written out: the crates above call it, where what `derive` writes would be made and proved in each of them.
impl Drop for Binding {
    fn drop(self) {
        let Binding {
            name,
            place: _,
            is_passed_on: _,
            form,
        } = self;
        drop(name);
        drop(form);
    }
}

impl Binding {
    /// Whether the binding is an import.
    pub fn is_import(&self) -> bool
        ensures { result ≡ is_import (binding_of self.now).form }
    {
        matches!(
            self.form,
            BindingForm::Import(_) | BindingForm::ImportFirst(_) | BindingForm::ImportFrom(..)
        )
    }
}

/// What a binding binds its name to.
pub enum BindingForm {
    /// `import a.b as c`: the module.
    Import(Rc<ImportedModule>),
    /// `import a.b`: the module that has the first part as its name.
    ImportFirst(Text),
    /// `from a import b`: where it is imported from, and the name there.
    ImportFrom(Rc<ImportFrom>, Text),
    Function(Rc<FunctionDefinition>),
    Class(Rc<ClassDefinition>),
    Annotated(Rc<AnnotatedAssignment>),
    /// The value of an assignment, of which the name is a target by itself.
    Assigned(Rc<Expr>),
    /// An item of a value, or any other thing.
    Other,
}

/// Written out: the crates above call it, where what `derive` writes would be made and proved in each of them.
impl Drop for BindingForm {
    fn drop(self) {
        match self {
            BindingForm::Import(part) => drop(part),
            BindingForm::ImportFirst(part) => drop(part),
            BindingForm::ImportFrom(part0, part1) => {
                drop(part0);
                drop(part1);
            }
            BindingForm::Function(part) => drop(part),
            BindingForm::Class(part) => drop(part),
            BindingForm::Annotated(part) => drop(part),
            BindingForm::Assigned(part) => drop(part),
            BindingForm::Other => {}
        }
    }
}
