//! The locals of a function.

ghost use Rattle.std.specs.Prelude.{◌≡◌, IfOk, OnOk, option_map};
ghost use Rattle.pyc_locals.specs.Locals as spec;
ghost use Rattle.pyc_type_forms.specs.TypeView.{ty_of};

use indexmap::IndexMap;
use pyc_ast::Text;
use pyc_type_forms::Ty;
use std::alloc::{AllocError, Global};

/// What is known of a local at a point of its function, in text order.
#[derive(Debug)]
pub enum LocalType {
    /// Nothing before has declared it.
    Undeclared,
    /// Its type: what is assigned to it must be of it.
    Declared(Ty),
    /// An import, a function or a class bound it first: what is assigned to it is not looked at.
    Bound(Ty),
}

/// Written out: the crates above call it, where what `derive` writes would be made and proved in each of them.
impl Drop for LocalType {
    fn drop(self) {
        match self {
            LocalType::Undeclared => {}
            LocalType::Declared(ty) => drop(ty),
            LocalType::Bound(ty) => drop(ty),
        }
    }
}

impl LocalType {
    ghost use Rattle.pyc_locals.specs.Views.{local_type_of};

    /// The type of the local: Any before it is declared. The only error is that memory runs out.
    pub fn ty(&self) -> Result<Ty, AllocError>
        ensures { IfOk result (λ ty. ty_of ty ≡ spec.local_type (local_type_of self.now)) }
    {
        match self {
            LocalType::Undeclared => Ok(Ty::Any),
            LocalType::Declared(ty) => ty.clone(),
            LocalType::Bound(ty) => ty.clone(),
        }
    }

    /// Declares the local so, unless it was declared before. It takes no memory.
    fn declare(&mut self, ty: LocalType)
        ensures { local_type_of self.new ≡ spec.first_type (local_type_of self.old) (local_type_of ty) }
    {
        if let LocalType::Undeclared = self {
            *self = ty;
        }
    }
}

/// The locals of a function, each name once. To look one up takes a step, however many there are.
pub struct Locals {
    types: IndexMap<Text, LocalType>,
}

/// Written out: the crates above call it, where what `derive` writes would be made and proved in each of them.
impl Drop for Locals {
    fn drop(self) {
        let Locals { types } = self;
        drop(types);
    }
}

impl Locals {
    ghost use Rattle.pyc_locals.specs.Views.{local_type_of, locals_in};

    /// A body without locals. It takes no memory.
    pub fn none(alloc: Global) -> Locals
        ensures { locals_in result ≡ spec.no_locals }
    {
        Locals {
            types: IndexMap::new(alloc),
        }
    }

    /// Each of these names is a local, which nothing has declared; one that comes again is the local that it was. The
    /// only error is that memory runs out.
    pub fn of_names(alloc: Global, names: &[Text]) -> Result<Locals, AllocError>
        ensures { IfOk result (λ locals. locals_in locals ≡ spec.locals_of_names names.now) }
    {
        let mut types = IndexMap::new(alloc);
        for name in names {
            types.insert(name.clone()?, LocalType::Undeclared)?;
        }
        Ok(Locals { types })
    }

    /// What is known of the local of a name, if the name is one. It takes no memory.
    pub fn resolve_name(&self, name: &Text) -> Option<&LocalType>
        ensures { option_map (λ ty. local_type_of ty.now) result ≡ spec.local_of (locals_in self.now) name.now }
    {
        self.types.get(name)
    }

    /// Declares the local of a name so, unless it was declared before; a name that is no local does not become one. It
    /// takes no memory.
    pub fn declare(&mut self, name: &Text, ty: LocalType)
        ensures { locals_in self.new ≡ spec.with_local name.now (local_type_of ty) (locals_in self.old) }
    {
        if let Some(known) = self.types.get_mut(name) {
            known.declare(ty);
        }
    }
}
