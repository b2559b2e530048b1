//! What a stub hides from all other files.

ghost use Rattle.std.specs.Prelude.{◌≡◌, OnOk, option_map};
ghost use Rattle.pyc_bindings.specs.BindingView.{binding_of};
ghost use Rattle.pyc_names.specs.Following.{is_hidden_name};
ghost use Rattle.pyc_names.specs.FollowingView.{qualified_of};
ghost use Rattle.pyc_names.specs.Hidden as spec;
ghost use Rattle.pyc_names.specs.InterfaceView.{interface_in};
ghost use Rattle.pyc_names.specs.Looks.{seen_looks};
ghost use Rattle.pyc_names.specs.NotedLooks.{with_looks};
ghost use Rattle.pyc_names.specs.NotedLooksView.{noted_in};
ghost use Rattle.pyc_names.specs.TableView.{table_in};

use crate::fixed::fixed_module;
use crate::interface::Interface;
use crate::looks::Looks;
use crate::qualified_name::QualifiedName;
use crate::table::Table;
use pyc_ast::Text;
use pyc_bindings::Binding;
use std::alloc::AllocError;

impl Interface {
    /// Whether the file hides a name from all others. It takes no memory.
    pub fn hides(&self, name: &Text) -> bool
        ensures { result ≡ spec.hides (interface_in self.now) name.now }
    {
        self.is_stub() && is_hidden(self.declaration(name))
    }
}

impl Table {
    /// Whether the module of a name hides it. It takes no memory.
    pub fn hides(&self, q: &QualifiedName) -> bool
        ensures { result ≡ is_hidden_name (table_in self.now) (qualified_of q.now) }
    {
        let parts = q.module_path.parts();
        match fixed_module(parts) {
            Some(_) => false,
            None => hides_in(self.file(parts), &q.name),
        }
    }

    /// Notes what other files look at of a name: itself, and where its module hides it, its submodule too. The only
    /// error is that memory runs out.
    #[tactic(auto, using(crate::proofs::NotedLemmas::noting))]
    pub fn note_seen(&self, q: &QualifiedName, looks: &mut Looks) -> Result<(), AllocError>
        ensures { OnOk result (noted_in looks.new
            ≡ with_looks (noted_in looks.old) (seen_looks (table_in self.now) (qualified_of q.now))) }
    {
        looks.note_name(q)?;
        if self.hides(q) {
            looks.note_submodule(q)?;
        }
        Ok(())
    }
}

/// Whether a module of this file hides a name.
fn hides_in(file: Option<&Interface>, name: &Text) -> bool
    ensures { result ≡ spec.hides_in (option_map (λ file. interface_in file.now) file.entry) name.now }
{
    match file {
        Some(file) => file.hides(name),
        None => false,
    }
}

/// Whether the declaration of a name of a stub is an import that passes nothing on.
fn is_hidden(found: Option<&Binding>) -> bool
    ensures { result ≡ spec.is_hidden (option_map (λ b. binding_of b.now) found.entry) }
{
    match found {
        Some(binding) => binding.is_import() && !binding.is_passed_on,
        None => false,
    }
}
