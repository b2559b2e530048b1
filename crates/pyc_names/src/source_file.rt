//! A file as names see it.

ghost use Rattle.std.specs.Prelude.{◌≡◌, map, take, IfOk, option_map};
ghost use Rattle.pyc_ast.specs.Modules.{outcome_of};
ghost use Rattle.pyc_bindings.specs.BindingView.{binding_of};
ghost use Rattle.pyc_bindings.specs.Redefinitions as again;
ghost use Rattle.pyc_bindings.specs.RedefinitionView.{redefinition_of};
ghost use Rattle.pyc_names.specs.Interfaces.{interface_of, is_fault};
ghost use Rattle.pyc_names.specs.ModuleName.{module_of};
ghost use Rattle.pyc_names.specs.SourceFiles as spec;

use crate::interface::Interface;
use crate::module_name::ModuleName;
use pyc_ast::{Outcome, Text};
use pyc_bindings::{Binding, Redefinition};
use std::alloc::{AllocError, Global};
use std::rc::Rc;

/// A file as names see it: its path, its interface, which is shared with those who see no more of it, what its source
/// is, and the names that its bindings define again.
pub struct SourceFile {
    path: String,
    interface: Rc<Interface>,
    outcome: Outcome,
    again: Vec<Redefinition>,
    ghost fault_is: { interface.value.has_fault ≡ is_fault (outcome_of outcome) },
}

/// Written out: the crates above call it, where what `derive` writes would be made and proved in each of them.
impl Drop for SourceFile {
    fn drop(self) {
        let SourceFile {
            path,
            interface,
            outcome,
            again,
        } = self;
        drop(path);
        drop(interface);
        drop(outcome);
        drop(again);
    }
}

impl SourceFile {
    ghost use Rattle.pyc_names.specs.InterfaceView.{interface_in};
    ghost use Rattle.pyc_names.specs.SourceFileView.{source_in};

    /// The file of a path, of the module that the path names, whose source is this. The only error is that memory runs
    /// out.
    pub fn new(
        alloc: Global,
        path: &str,
        name: ModuleName,
        outcome: Outcome,
    ) -> Result<SourceFile, AllocError>
        requires { name ≡ module_of path.now }
        ensures { IfOk result (λ file. source_in file ≡ spec.source_file path.now (outcome_of outcome)) }
    {
        let interface = Interface::read(alloc, path, name, &outcome)?;
        let again = interface.redefinitions(alloc)?;
        Ok(SourceFile {
            path: String::from_str(alloc, path)?,
            interface: Rc::new(alloc, interface)?,
            outcome,
            again,
        })
    }

    /// The path of the file.
    pub fn path(&self) -> &str
        ensures { result.now ≡ (source_in self.now).path }
    {
        self.path.as_str()
    }

    /// The interface of the file.
    pub fn interface(&self) -> &Interface
        ensures { interface_in result.now ≡ interface_of (source_in self.now) }
    {
        &self.interface
    }

    /// The interface of the file, to be shared.
    pub fn shared_interface(&self) -> &Rc<Interface>
        ensures { interface_in result.now.value ≡ interface_of (source_in self.now) }
    {
        &self.interface
    }

    /// The module that the file is.
    pub fn name(&self) -> &ModuleName
        ensures { result.now ≡ (source_in self.now).name }
    {
        self.interface.name()
    }

    /// What the file's source is.
    pub fn outcome(&self) -> &Outcome
        ensures { outcome_of result.now ≡ (source_in self.now).outcome }
    {
        &self.outcome
    }

    /// The bindings of the file's top level, in text order; a file with a fault has none.
    pub fn bindings(&self) -> &[Binding]
        ensures { map binding_of result.now ≡ (source_in self.now).bindings }
    {
        self.interface.bindings()
    }

    /// The declaration of a name of the file's top level: the first of its bindings. It takes no memory.
    pub fn declaration(&self, name: &Text) -> Option<&Binding>
        ensures { option_map (λ found. binding_of found.now) result
            ≡ again.declaration (source_in self.now).bindings name.now }
    {
        self.interface.declaration(name)
    }

    /// The declaration of a name among so many of the first bindings of the file's top level. It takes no memory.
    pub fn declaration_before(&self, count: usize, name: &Text) -> Option<&Binding>
        ensures { option_map (λ found. binding_of found.now) result
            ≡ again.declaration (take count (source_in self.now).bindings) name.now }
    {
        self.interface.declaration_before(count, name)
    }

    /// The names that the bindings of the file's top level define again, in text order.
    pub fn redefinitions(&self) -> &[Redefinition]
        ensures { map redefinition_of result.now ≡ (source_in self.now).again }
    {
        &self.again
    }
}
