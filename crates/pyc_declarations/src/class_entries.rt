//! The classes that files declare, as they count in the orders of classes.

ghost use Rattle.std.specs.Prelude.{◌≡◌, ◌++◌, map, flat_map, IfOk, OnOk, is_some, codes};
ghost use Rattle.pyc_annotations.specs.Views.{base_of};
ghost use Rattle.pyc_ast.specs.ExprView.{argument_of};
ghost use Rattle.pyc_class_table.specs.EntryView.{entry_in};
ghost use Rattle.pyc_declarations.specs.ClassEntries as spec;
ghost use Rattle.pyc_declarations.specs.KindsView.{declarations_in};
ghost use Rattle.pyc_declarations.specs.Looks as look;
ghost use Rattle.pyc_members.specs.ClassBodies.{own_member};
ghost use Rattle.pyc_members.specs.ClassBodyView.{class_body_of};
ghost use Rattle.pyc_members.specs.DeclaredClassView.{declared_class_of, declared_class_in};
ghost use Rattle.pyc_names.specs.FixedModules.{fixed_module as fixed_module_of};
ghost use Rattle.pyc_names.specs.InterfaceView.{interface_in};
ghost use Rattle.pyc_names.specs.NotedLooks.{with_looks};
ghost use Rattle.pyc_names.specs.NotedLooksView.{noted_in};

use crate::declaration_recorder::DeclarationRecorder;
use crate::declarations::Declarations;
use crate::kinds::own_class;
use crate::looking::note_read;
use pyc_annotations::{Base, read_bases};
use pyc_ast::{Argument, Text};
use pyc_class_table::{ClassEntry, WrittenBase};
use pyc_members::{ClassBody, DeclaredClass};
use pyc_names::{Interface, Looks, fixed_module};
use std::alloc::{AllocError, Global};
use std::rc::Rc;

impl Declarations<'_> {
    /// The classes that files declare, with the bases that they have; what is looked at for them is noted. The only
    /// error is that memory runs out.
    #[tactic(auto, using(pyc_names::proofs::NotedLemmas::noting), unfolding(crate::specs::ClassEntries::class_entries, crate::specs::Looks::entries_looks))]
    pub fn class_entries(
        &self,
        alloc: Global,
        looks: &mut Looks,
    ) -> Result<Vec<ClassEntry>, AllocError>
        ensures entries { IfOk result (λ entries. map entry_in entries.items
            ≡ spec.class_entries (declarations_in self.now)) }
        ensures looks { IfOk result (λ entries. noted_in looks.new
            ≡ with_looks (noted_in looks.old) (look.entries_looks (declarations_in self.now))) }
    {
        let mut entries = Vec::new(alloc);
        for file in self.files() {
            self.push_classes(alloc, file, file.classes(), &mut entries, looks)?;
        }
        Ok(entries)
    }

    /// Adds classes of a file.
    #[tactic(auto, using(pyc_names::proofs::NotedLemmas::noting))]
    fn push_classes(
        &self,
        alloc: Global,
        file: &Interface,
        classes: &[Rc<DeclaredClass>],
        entries: &mut Vec<ClassEntry>,
        looks: &mut Looks,
    ) -> Result<(), AllocError>
        ensures entries { OnOk result (map entry_in entries.new.items
            ≡ map entry_in entries.old.items
            ++ map (spec.class_entry (declarations_in self.now) (interface_in file.now))
            (map declared_class_in classes.now)) }
        ensures looks { OnOk result (noted_in looks.new ≡ with_looks (noted_in looks.old)
            (flat_map (look.class_looks (declarations_in self.now) (interface_in file.now))
            (map declared_class_in classes.now))) }
    {
        for class in classes {
            entries.push(self.class_entry(alloc, file, class, looks)?)?;
        }
        Ok(())
    }

    /// A class that a file declares.
    fn class_entry(
        &self,
        alloc: Global,
        file: &Interface,
        class: &DeclaredClass,
        looks: &mut Looks,
    ) -> Result<ClassEntry, AllocError>
        ensures entry { IfOk result (λ entry. entry_in entry
            ≡ spec.class_entry (declarations_in self.now) (interface_in file.now) (declared_class_of class.now)) }
        ensures looks { IfOk result (λ entry. noted_in looks.new ≡ with_looks (noted_in looks.old)
            (look.class_looks (declarations_in self.now) (interface_in file.now) (declared_class_of class.now))) }
    {
        let id = own_class(alloc, file, &class.name)?;
        let bases = self.written_bases(alloc, file, &class.head.arguments, looks)?;
        let has_call = has_call(alloc, &class.body)?;
        Ok(ClassEntry {
            id,
            bases,
            has_call,
        })
    }

    /// The bases of a class that stands in a file and has these arguments.
    #[tactic(auto, unfolding(crate::specs::ClassEntries::written_bases, crate::specs::Looks::bases_looks))]
    fn written_bases(
        &self,
        alloc: Global,
        file: &Interface,
        arguments: &[Argument],
        looks: &mut Looks,
    ) -> Result<Vec<WrittenBase>, AllocError>
        ensures bases { IfOk result (λ bases. bases.items
            ≡ spec.written_bases (declarations_in self.now) (interface_in file.now) (map argument_of arguments.now)) }
        ensures looks { IfOk result (λ bases. noted_in looks.new ≡ with_looks (noted_in looks.old)
            (look.bases_looks (declarations_in self.now) (interface_in file.now) (map argument_of arguments.now))) }
    {
        note_fixed(file.name().parts(), looks)?;
        let mut recorder = DeclarationRecorder::new(alloc, *self);
        let found = read_bases(alloc, &mut recorder, file, arguments)?;
        note_read(alloc, self, recorder.keys(), looks)?;
        let bases = all_written(alloc, found)?;
        Ok(bases)
    }
}

/// Notes the module with these parts, where it is a fixed one: no key asks for the names of a file that is named so.
/// The only error is that memory runs out.
#[tactic(auto, using(pyc_names::proofs::NotedLemmas::noting))]
pub fn note_fixed(parts: &[Text], looks: &mut Looks) -> Result<(), AllocError>
    ensures { OnOk result (noted_in looks.new ≡ with_looks (noted_in looks.old)
        (look.fixed_looks parts.now (fixed_module_of parts.now))) }
{
    match fixed_module(parts) {
        Some(_) => looks.note_module(parts),
        None => Ok(()),
    }
}

/// Bases as they count in the order of a class.
fn all_written(alloc: Global, found: Vec<Base>) -> Result<Vec<WrittenBase>, AllocError>
    ensures { IfOk result (λ bases. bases.items ≡ map spec.written_base (map base_of found.items)) }
{
    let mut bases = Vec::with_capacity(alloc, found.len())?;
    for base in found {
        bases.push(written_base(base))?;
    }
    Ok(bases)
}

/// A base as it counts in the order of a class.
fn written_base(base: Base) -> WrittenBase
    ensures { result ≡ spec.written_base (base_of base) }
{
    match base {
        Base::Class(class) => WrittenBase::Class(class),
        _ => WrittenBase::Unknown,
    }
}

/// Whether a class has a member `__call__` of its own.
fn has_call(alloc: Global, body: &ClassBody) -> Result<bool, AllocError>
    ensures { IfOk result (λ found. found ≡ is_some (own_member (class_body_of body.now) (codes "__call__"))) }
{
    let name = Text::new(alloc, "__call__")?;
    Ok(body.own_member(&name).is_some())
}
