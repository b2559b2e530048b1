//! What is seen of a file by all else that names it.

ghost use Rattle.std.specs.Prelude.{◌≡◌, ℕ, List, bytes_eq, map, IfOk, option_map};
ghost use Rattle.indexmap.specs.IndexMap.{get_by};
ghost use Rattle.pyc_ast.specs.Modules.{outcome_of};
ghost use Rattle.pyc_bindings.specs.BindingView.{binding_of};
ghost use Rattle.pyc_bindings.specs.FirstBindings.{declaration_place};
ghost use Rattle.pyc_bindings.specs.Redefinitions as again;
ghost use Rattle.pyc_bindings.specs.RedefinitionView.{redefinition_of};
ghost use Rattle.pyc_members.specs.DeclaredClassView.{declared_class_in};
ghost use Rattle.pyc_names.specs.Interfaces.{interface_of};
ghost use Rattle.pyc_names.specs.ModuleName.{module_of};
ghost use Rattle.pyc_names.specs.SourceFiles as spec;

use crate::fixed::fixed_module;
use crate::module_name::{ModuleName, beside, is_stub_path};
use indexmap::IndexMap;
use pyc_ast::{Outcome, Text};
use pyc_bindings::{
    Binding, Redefinition, declaration_at, declaration_before, first_places, redefinitions_at,
    scope_bindings,
};
use pyc_members::{DeclaredClass, declared_classes};
use std::alloc::{AllocError, Global};
use std::rc::Rc;

/// The interface of a file: the module that it is, whether it makes a package of its folder, whether it is a stub,
/// whether its source has a fault, the bindings of its top level and the classes that it declares, which are made once,
/// with the file. Answers look at nothing else of a file.
pub struct Interface {
    name: ModuleName,
    is_package: bool,
    is_stub: bool,
    has_fault: bool,
    bindings: Vec<Binding>,
    /// The place of the first binding of each name.
    places: IndexMap<Text, usize>,
    classes: Vec<Rc<DeclaredClass>>,
    ghost places_are: { (n : List ℕ) → get_by (bytes_eq n) places
        ≡ declaration_place (map binding_of bindings.items) n },
}

/// Written out: the crates above call it, where what `derive` writes would be made and proved in each of them.
impl Drop for Interface {
    fn drop(self) {
        let Interface {
            name,
            is_package: _,
            is_stub: _,
            has_fault: _,
            bindings,
            places,
            classes,
        } = self;
        drop(name);
        drop(bindings);
        drop(places);
        drop(classes);
    }
}

impl Interface {
    ghost use Rattle.std.specs.Prelude.{take};
    ghost use Rattle.pyc_names.specs.InterfaceView.{interface_in};

    /// The interface of the file of a path, of the module that the path names, whose source is this.
    #[tactic(auto, unfolding(crate::specs::SourceFiles::source_file))]
    pub(crate) fn read(
        alloc: Global,
        path: &str,
        name: ModuleName,
        outcome: &Outcome,
    ) -> Result<Interface, AllocError>
        requires { name ≡ module_of path.now }
        ensures { IfOk result (λ file. interface_in file
            ≡ interface_of (spec.source_file path.now (outcome_of outcome.now))) }
    {
        let bindings = top_bindings(alloc, outcome)?;
        let places = first_places(alloc, &bindings)?;
        let classes = classes_in(alloc, &name, &bindings, outcome)?;
        Ok(Interface {
            name,
            is_package: beside(path).as_bytes().ends_with(b"/__init__.py"),
            is_stub: is_stub_path(path),
            has_fault: matches!(outcome, Outcome::Fault(_)),
            bindings,
            places,
            classes,
        })
    }

    /// The names that the bindings of the file's top level define again, in text order.
    pub(crate) fn redefinitions(&self, alloc: Global) -> Result<Vec<Redefinition>, AllocError>
        ensures { IfOk result (λ found. map redefinition_of found.items
            ≡ again.redefinitions (interface_in self.now).bindings) }
    {
        redefinitions_at(alloc, &self.places, &self.bindings)
    }

    /// The module that the file is.
    pub fn name(&self) -> &ModuleName
        ensures { result.now ≡ (interface_in self.now).name }
    {
        &self.name
    }

    /// Whether the file is the `__init__.py` or `__init__.pyi` of a package.
    pub fn is_package(&self) -> bool
        ensures { result ≡ (interface_in self.now).is_package }
    {
        self.is_package
    }

    /// Whether the file is a stub.
    pub fn is_stub(&self) -> bool
        ensures { result ≡ (interface_in self.now).is_stub }
    {
        self.is_stub
    }

    /// Whether the file's source has a fault.
    pub fn has_fault(&self) -> bool
        ensures { result ≡ (interface_in self.now).has_fault }
    {
        self.has_fault
    }

    /// The bindings of the file's top level, in text order; a file with a fault has none.
    pub fn bindings(&self) -> &[Binding]
        ensures { map binding_of result.now ≡ (interface_in self.now).bindings }
    {
        &self.bindings
    }

    /// The declaration of a name of the file's top level: the first of its bindings. It takes no memory.
    pub fn declaration(&self, name: &Text) -> Option<&Binding>
        ensures { option_map (λ found. binding_of found.now) result
            ≡ again.declaration (interface_in self.now).bindings name.now }
    {
        declaration_at(&self.places, &self.bindings, name)
    }

    /// The declaration of a name among so many of the first bindings of the file's top level. It takes no memory.
    pub fn declaration_before(&self, count: usize, name: &Text) -> Option<&Binding>
        ensures { option_map (λ found. binding_of found.now) result
            ≡ again.declaration (take count (interface_in self.now).bindings) name.now }
    {
        declaration_before(&self.places, &self.bindings, count, name)
    }

    /// The classes that the file declares, in text order; one with a fault, or of a fixed module's name, declares none.
    pub fn classes(&self) -> &[Rc<DeclaredClass>]
        ensures { map declared_class_in result.now ≡ (interface_in self.now).classes }
    {
        &self.classes
    }
}

/// The bindings of a source's top level.
fn top_bindings(alloc: Global, outcome: &Outcome) -> Result<Vec<Binding>, AllocError>
    ensures { IfOk result (λ found. map binding_of found.items ≡ spec.top_bindings (outcome_of outcome.now)) }
{
    match outcome {
        Outcome::Tree(module) => scope_bindings(alloc, &module.statements),
        Outcome::Fault(_) => Ok(Vec::new(alloc)),
    }
}

/// The classes that a source of a module declares, where these are the bindings of its top level.
fn classes_in(
    alloc: Global,
    name: &ModuleName,
    bindings: &[Binding],
    outcome: &Outcome,
) -> Result<Vec<Rc<DeclaredClass>>, AllocError>
    ensures { IfOk result (λ found. map declared_class_in found.items
        ≡ spec.classes_in name.now (map binding_of bindings.now) (outcome_of outcome.now)) }
{
    match outcome {
        Outcome::Tree(module) => {
            if fixed_module(name.parts()).is_some() {
                return Ok(Vec::new(alloc));
            }
            declared_classes(alloc, &module.statements, bindings)
        }
        Outcome::Fault(_) => Ok(Vec::new(alloc)),
    }
}
