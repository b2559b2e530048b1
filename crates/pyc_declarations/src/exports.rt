//! Whether modules pass names on to other files.

ghost use Rattle.std.specs.Prelude.{◌≡◌, IfOk};
ghost use Rattle.pyc_declarations.specs.Exports as spec;
ghost use Rattle.pyc_names.specs.FollowingView.{qualified_of};
ghost use Rattle.pyc_names.specs.Looks.{seen_looks};
ghost use Rattle.pyc_names.specs.NotedLooks.{with_looks};
ghost use Rattle.pyc_names.specs.NotedLooksView.{noted_in};

use crate::kinds::Kinds;
use pyc_names::{Looks, QualifiedName, module_of_parts};
use pyc_reading::Export;
use std::alloc::{AllocError, Global};
use std::slice;

impl Kinds<'_> {
    ghost use Rattle.pyc_declarations.specs.KindsView.{kinds_in};

    /// Whether a module passes a name on; what is looked at for that is noted. The only error is that memory runs out.
    #[tactic(auto, using(pyc_names::proofs::NotedLemmas::noting), unfolding(crate::specs::Exports::name_export))]
    pub(crate) fn name_export(
        &self,
        alloc: Global,
        q: &QualifiedName,
        looks: &mut Looks,
    ) -> Result<Export, AllocError>
        ensures found { IfOk result (λ found. found
            ≡ spec.name_export (kinds_in self.now) (qualified_of q.now)) }
        ensures looks { IfOk result (λ found. noted_in looks.new
            ≡ with_looks (noted_in looks.old) (seen_looks (kinds_in self.now) (qualified_of q.now))) }
    {
        looks.note_name(q)?;
        if self.table.hides(q) {
            looks.note_submodule(q)?;
            self.hidden_export(alloc, q)
        } else {
            Ok(Export::Open)
        }
    }

    /// What other files see of a hidden name: its submodule, if it is there.
    fn hidden_export(&self, alloc: Global, q: &QualifiedName) -> Result<Export, AllocError>
        ensures { IfOk result (λ found. found ≡ spec.hidden_export (kinds_in self.now) (qualified_of q.now)) }
    {
        let under = module_of_parts(alloc, q.module_path.parts(), slice::from_ref(&q.name))?;
        if self.table.has_module(under.parts()) {
            Ok(Export::Submodule)
        } else {
            Ok(Export::Hidden)
        }
    }
}
