//! The classes of files, where they are declared.

ghost use Rattle.std.specs.Prelude.{◌≡◌, map, IfOk, option_map};
ghost use Rattle.pyc_iface.specs.DeclaredView.{declared_at};
ghost use Rattle.pyc_iface.specs.Members as spec;
ghost use Rattle.pyc_iface.specs.PlainWorldView.{world_in};
ghost use Rattle.pyc_members.specs.DeclaredClassView.{declared_class_in, declared_class_of};
ghost use Rattle.pyc_names.specs.InterfaceView.{interface_in};
ghost use Rattle.pyc_reading.specs.AnswerView.{member_answer_of};
ghost use Rattle.pyc_type_forms.specs.TypeView.{ty_of};

use crate::world::PlainWorld;
use pyc_class_ids::ClassId;
use pyc_members::{ClassBody, DeclaredClass};
use pyc_names::Interface;
use pyc_reading::{MemberAnswer, MemberKind};
use pyc_types::Ty;
use std::alloc::{AllocError, Global};
use std::rc::Rc;

/// A class where it is declared.
#[derive(Clone, Copy, Drop)]
pub(crate) struct Declared<'a> {
    pub(crate) id: &'a ClassId,
    pub(crate) file: &'a Interface,
    pub(crate) body: &'a ClassBody,
}

impl PlainWorld {
    /// The class of a source, where its module's file declares it.
    pub(crate) fn declared<'a>(&'a self, class: &'a ClassId) -> Option<Declared<'a>>
        ensures { option_map declared_at result ≡ spec.declared_of (world_in self.now) class.now }
    {
        class_in_file(class, self.table.file(class.module()))
    }
}

fn class_in_file<'a>(id: &'a ClassId, file: Option<&'a Interface>) -> Option<Declared<'a>>
    ensures { option_map declared_at result
        ≡ spec.class_in_file id.now (option_map (λ file. interface_in file.now) file.entry) }
{
    match file {
        Some(file) => declared_class(id, file, class_named(file.classes(), id.name())),
        None => None,
    }
}

fn declared_class<'a>(
    id: &'a ClassId,
    file: &'a Interface,
    found: Option<&'a DeclaredClass>,
) -> Option<Declared<'a>>
    ensures { option_map declared_at result
        ≡ spec.declared_class id.now (interface_in file.now) (option_map (λ c. declared_class_of c.now) found.entry) }
{
    match found {
        Some(class) => Some(Declared {
            id,
            file,
            body: &class.body,
        }),
        None => None,
    }
}

/// A class of this name among those that a file declares.
fn class_named<'a>(classes: &'a [Rc<DeclaredClass>], name: &str) -> Option<&'a DeclaredClass>
    ensures { option_map (λ c. declared_class_of c.now) result
        ≡ spec.class_named (map declared_class_in classes.now) name.now }
{
    for class in classes {
        if class.name.as_str() == name {
            return Some(class);
        }
    }
    None
}

/// A member of a class of this kind and type.
pub(crate) fn member_of(
    c: Declared<'_>,
    kind: MemberKind,
    ty: Ty,
) -> Result<MemberAnswer, AllocError>
    ensures { IfOk result (λ found. member_answer_of found ≡ spec.member_of (declared_at c.entry) kind (ty_of ty)) }
{
    Ok(MemberAnswer {
        class: c.id.clone()?,
        kind,
        ty,
    })
}

/// A variable of a class.
pub(crate) fn variable(c: Declared<'_>, ty: Ty) -> Result<MemberAnswer, AllocError>
    ensures { IfOk result (λ found. member_answer_of found ≡ spec.variable (declared_at c.entry) (ty_of ty)) }
{
    member_of(c, MemberKind::Variable, ty)
}
