//! Whether modules and names are there.

ghost use Rattle.std.specs.Prelude.{◌≡◌, IfOk, option_map};
ghost use Rattle.pyc_bindings.specs.BindingView.{binding_of};
ghost use Rattle.pyc_declarations.specs.Looks as look;
ghost use Rattle.pyc_declarations.specs.Presences as spec;
ghost use Rattle.pyc_names.specs.FollowingView.{qualified_of};
ghost use Rattle.pyc_names.specs.InterfaceView.{interface_in};
ghost use Rattle.pyc_names.specs.Looks.{unbound_looks};
ghost use Rattle.pyc_names.specs.NotedLooks.{with_looks};
ghost use Rattle.pyc_names.specs.NotedLooksView.{noted_in};

use crate::kinds::Kinds;
use pyc_bindings::Binding;
use pyc_names::{Interface, Looks, ModuleName, QualifiedName, fixed_module, module_of_parts};
use pyc_reading::Presence;
use std::alloc::{AllocError, Global};
use std::slice;

impl Kinds<'_> {
    ghost use Rattle.pyc_declarations.specs.KindsView.{kinds_in};

    /// Whether a module is there.
    #[tactic(auto, unfolding(crate::specs::Presences::module_presence))]
    pub(crate) fn module_presence(&self, name: &ModuleName) -> Presence
        ensures { result ≡ spec.module_presence (kinds_in self.now) name.now }
    {
        let parts = name.parts();
        if !self.table.has_module(parts) {
            return Presence::NoModule;
        }
        match fixed_module(parts) {
            Some(_) => Presence::There,
            None => file_presence(self.table.file(parts)),
        }
    }

    /// Whether a module has a name; what is looked at for that is noted.
    #[tactic(auto, using(pyc_names::proofs::NotedLemmas::noting), unfolding(crate::specs::Presences::name_presence, crate::specs::Looks::presence_looks))]
    pub(crate) fn name_presence(
        &self,
        alloc: Global,
        q: &QualifiedName,
        looks: &mut Looks,
    ) -> Result<Presence, AllocError>
        ensures found { IfOk result (λ found. found
            ≡ spec.name_presence (kinds_in self.now) (qualified_of q.now)) }
        ensures looks { IfOk result (λ found. noted_in looks.new
            ≡ with_looks (noted_in looks.old) (look.presence_looks (kinds_in self.now) (qualified_of q.now))) }
    {
        looks.note_name(q)?;
        let parts = q.module_path.parts();
        if !self.table.has_module(parts) {
            looks.note_module(parts)?;
            return Ok(Presence::NoModule);
        }
        match fixed_module(parts) {
            Some(_) => Ok(Presence::There),
            None => self.name_in_file(alloc, q, self.table.file(parts), looks),
        }
    }

    /// Whether a module that is no fixed one has a name.
    fn name_in_file(
        &self,
        alloc: Global,
        q: &QualifiedName,
        file: Option<&Interface>,
        looks: &mut Looks,
    ) -> Result<Presence, AllocError>
        ensures found { IfOk result (λ found. found ≡ spec.name_in_file (kinds_in self.now) (qualified_of q.now)
            (option_map (λ file. interface_in file.now) file.entry)) }
        ensures looks { IfOk result (λ found. noted_in looks.new
            ≡ with_looks (noted_in looks.old) (look.file_looks (kinds_in self.now) (qualified_of q.now)
            (option_map (λ file. interface_in file.now) file.entry))) }
    {
        match file {
            Some(file) => self.name_in_source(alloc, q, file, looks),
            None => self.submodule_presence(alloc, q, looks),
        }
    }

    /// Whether a file has a name.
    fn name_in_source(
        &self,
        alloc: Global,
        q: &QualifiedName,
        file: &Interface,
        looks: &mut Looks,
    ) -> Result<Presence, AllocError>
        ensures found { IfOk result (λ found. found ≡ spec.name_in_source (kinds_in self.now) (qualified_of q.now)
            (interface_in file.now) (interface_in file.now).has_fault) }
        ensures looks { IfOk result (λ found. noted_in looks.new
            ≡ with_looks (noted_in looks.old) (look.source_looks (kinds_in self.now) (qualified_of q.now)
            (interface_in file.now) (interface_in file.now).has_fault)) }
    {
        if file.has_fault() {
            looks.note_module(q.module_path.parts())?;
            return Ok(Presence::Opaque);
        }
        self.binding_presence(alloc, q, file.declaration(&q.name), looks)
    }

    /// Whether a name that has this declaration is there.
    fn binding_presence(
        &self,
        alloc: Global,
        q: &QualifiedName,
        found: Option<&Binding>,
        looks: &mut Looks,
    ) -> Result<Presence, AllocError>
        ensures found { IfOk result (λ presence. presence
            ≡ spec.binding_presence (kinds_in self.now) (qualified_of q.now)
            (option_map (λ b. binding_of b.now) found.entry)) }
        ensures looks { IfOk result (λ presence. noted_in looks.new
            ≡ with_looks (noted_in looks.old) (look.binding_looks (kinds_in self.now) (qualified_of q.now)
            (option_map (λ b. binding_of b.now) found.entry))) }
    {
        match found {
            Some(_) => {
                if self.table.is_on_ring(alloc, q, looks)? {
                    Ok(Presence::Cycle)
                } else {
                    Ok(Presence::There)
                }
            }
            None => self.submodule_presence(alloc, q, looks),
        }
    }

    /// Whether the submodule of a name that nothing binds is there.
    fn submodule_presence(
        &self,
        alloc: Global,
        q: &QualifiedName,
        looks: &mut Looks,
    ) -> Result<Presence, AllocError>
        ensures found { IfOk result (λ found. found
            ≡ spec.submodule_presence (kinds_in self.now) (qualified_of q.now)) }
        ensures looks { IfOk result (λ found. noted_in looks.new
            ≡ with_looks (noted_in looks.old) (unbound_looks (qualified_of q.now))) }
    {
        looks.note_unbound(q)?;
        let under = module_of_parts(alloc, q.module_path.parts(), slice::from_ref(&q.name))?;
        if self.table.has_module(under.parts()) {
            Ok(Presence::There)
        } else {
            Ok(Presence::NoName)
        }
    }
}

/// Whether a module with this file is there.
fn file_presence(file: Option<&Interface>) -> Presence
    ensures { result ≡ spec.file_presence (option_map (λ file. interface_in file.now) file.entry) }
{
    match file {
        Some(file) => source_presence(file.has_fault()),
        None => Presence::There,
    }
}

/// Whether a module with a source that has a fault, or none, is there.
fn source_presence(has_fault: bool) -> Presence
    ensures { result ≡ spec.source_presence has_fault }
{
    if has_fault {
        Presence::Opaque
    } else {
        Presence::There
    }
}
