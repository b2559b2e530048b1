//! What differs between two rows of what has names, by where the names are looked up.

ghost use Rattle.std.specs.Prelude.{◌≡◌, ◌∷◌, [], List, map, IfOk, OnOk};
ghost use Rattle.pyc_bindings.specs.BindingView.{binding_of};
ghost use Rattle.pyc_interfaces.specs.ChangedLooks as spec;
ghost use Rattle.pyc_interfaces.specs.SameInterfaces as same;
ghost use Rattle.pyc_interfaces.specs.HomeView.{look_in};
ghost use Rattle.pyc_members.specs.AttributeView.{attribute_of};
ghost use Rattle.pyc_names.specs.NotedLooks.{with_looks};
ghost use Rattle.pyc_names.specs.NotedLooksView.{noted_in};

use crate::named::{Named, place_of};
use pyc_ast::Text;
use pyc_bindings::Binding;
use pyc_members::SelfAttribute;
use pyc_names::{Looks, ModuleName, QualifiedName};
use std::alloc::AllocError;

/// Where names are looked up.
#[derive(Clone, Copy, Drop)]
pub(crate) enum Home<'a> {
    Module(&'a ModuleName),
    /// The class of this name of a module.
    Class(&'a ModuleName, &'a Text),
}

impl Home<'_> {
    /// Notes a name. The only error is that memory runs out.
    fn note(&self, name: &Text, looks: &mut Looks) -> Result<(), AllocError>
        ensures { OnOk result (noted_in looks.new
            ≡ with_looks (noted_in looks.old) (look_in self.now name.now ∷ [])) }
    {
        match *self {
            Home::Module(module) => looks.note_name(&QualifiedName {
                module_path: module.clone()?,
                name: name.clone()?,
            }),
            Home::Class(module, class) => looks.note_member(module.parts(), class.as_str(), name),
        }
    }

    /// Notes the names of all of these. The only error is that memory runs out.
    #[tactic(auto, using(pyc_names::proofs::NotedLemmas::noting))]
    fn note_all<T: Named>(&self, items: &[T], looks: &mut Looks) -> Result<(), AllocError>
        ensures { OnOk result (noted_in looks.new ≡ with_looks (noted_in looks.old)
            (spec.looks_alone T.name_in T.same (look_in self.now) items.now)) }
    {
        for item in items {
            self.note(item.name(), looks)?;
        }
        Ok(())
    }

    /// Notes the name of a pair, unless both are one.
    #[tactic(auto, using(pyc_names::proofs::NotedLemmas::noting))]
    fn note_pair<T: Named>(&self, item: &T, other: &T, looks: &mut Looks) -> Result<(), AllocError>
        ensures { OnOk result (noted_in looks.new ≡ with_looks (noted_in looks.old)
            (spec.pair_looks T.name_in T.same (look_in self.now) item.now other.now)) }
    {
        if item.is_same(other) {
            return Ok(());
        }
        self.note(item.name(), looks)
    }

    /// Notes what differs up to the pair of one thing among these, which is the next that has its name, and hands out
    /// what follows the pair; all of them where it has none.
    fn note_next<'a, T: Named>(
        &self,
        item: &T,
        others: &'a [T],
        looks: &mut Looks,
    ) -> Result<&'a [T], AllocError>
        ensures { IfOk result (λ left. (rest : List T)
            → with_looks (noted_in looks.new)
            (spec.changes T.name_in T.same (look_in self.now) rest left.now)
            ≡ with_looks (noted_in looks.old)
            (spec.changes T.name_in T.same (look_in self.now) (item.now ∷ rest) others.now)) }
    {
        match place_of(item.name(), others) {
            Some(place) => {
                self.note_all(&others[..place], looks)?;
                self.note_pair(item, &others[place], looks)?;
                Ok(&others[place + 1..])
            }
            None => {
                self.note(item.name(), looks)?;
                Ok(others)
            }
        }
    }

    /// Notes what differs between two rows.
    #[tactic(auto, using(pyc_names::proofs::NotedLemmas::noting))]
    fn note_changes<T: Named>(
        &self,
        items: &[T],
        others: &[T],
        looks: &mut Looks,
    ) -> Result<(), AllocError>
        ensures { OnOk result (noted_in looks.new ≡ with_looks (noted_in looks.old)
            (spec.changes T.name_in T.same (look_in self.now) items.now others.now)) }
    {
        let mut left = others;
        for item in items {
            left = self.note_next(item, left, looks)?;
        }
        self.note_all(left, looks)
    }

    /// Notes what differs between two rows of bindings. The only error is that memory runs out.
    #[tactic(auto, using(crate::proofs::ChangedRows::binding_rows))]
    pub(crate) fn note_binding_changes(
        &self,
        bindings: &[Binding],
        others: &[Binding],
        looks: &mut Looks,
    ) -> Result<(), AllocError>
        ensures { OnOk result (noted_in looks.new ≡ with_looks (noted_in looks.old)
            (spec.binding_changes (look_in self.now) (map binding_of bindings.now) (map binding_of others.now))) }
    {
        self.note_changes(bindings, others, looks)
    }

    /// Notes what differs between two rows of attributes. The only error is that memory runs out.
    #[tactic(auto, using(crate::proofs::ChangedRows::attribute_rows))]
    pub(crate) fn note_attribute_changes(
        &self,
        attributes: &[SelfAttribute],
        others: &[SelfAttribute],
        looks: &mut Looks,
    ) -> Result<(), AllocError>
        ensures { OnOk result (noted_in looks.new ≡ with_looks (noted_in looks.old)
            (spec.attribute_changes (look_in self.now) (map attribute_of attributes.now)
            (map attribute_of others.now))) }
    {
        self.note_changes(attributes, others, looks)
    }

    /// Notes the names of bindings. The only error is that memory runs out.
    #[tactic(auto, using(crate::proofs::ChangedRows::bindings_alone))]
    pub(crate) fn note_bindings(
        &self,
        bindings: &[Binding],
        looks: &mut Looks,
    ) -> Result<(), AllocError>
        ensures { OnOk result (noted_in looks.new ≡ with_looks (noted_in looks.old)
            (spec.looks_alone spec.binding_name same.same_binding (look_in self.now)
            (map binding_of bindings.now))) }
    {
        self.note_all(bindings, looks)
    }

    /// Notes the names of attributes. The only error is that memory runs out.
    #[tactic(auto, using(crate::proofs::ChangedRows::attributes_alone))]
    pub(crate) fn note_attributes(
        &self,
        attributes: &[SelfAttribute],
        looks: &mut Looks,
    ) -> Result<(), AllocError>
        ensures { OnOk result (noted_in looks.new ≡ with_looks (noted_in looks.old)
            (spec.looks_alone spec.attribute_name same.same_attribute (look_in self.now)
            (map attribute_of attributes.now))) }
    {
        self.note_all(attributes, looks)
    }
}
