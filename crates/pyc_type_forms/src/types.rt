//! Types.

ghost use Rattle.std.specs.Prelude.{◌≡◌};
ghost use Rattle.pyc_type_forms.specs.TypeView.{ty_of};

use pyc_ast::Text;
use pyc_class_ids::ClassId;
use std::alloc::AllocError;
use std::rc::Rc;

/// A type. Its parts are shared, so that a copy costs a reference count.
#[cycle(ty)]
#[derive(Debug)]
pub enum Ty {
    /// Not known: assignable both ways to every type.
    Any,
    /// The type of `None`.
    None,
    /// A module, by the parts of its dotted name.
    Module(Rc<Vec<Text>>),
    /// The instances of a class; those of list, dict and tuple have forms of their own.
    Instance(ClassId),
    /// `type[C]`, the class object itself.
    Class(ClassId),
    /// `list[T]`
    List(Rc<Ty>),
    /// `dict[K, V]`
    Dict(Rc<DictTypes>),
    /// A tuple with these items.
    Tuple(Rc<Vec<Ty>>),
    /// `tuple[T, ...]`, a tuple of any length.
    TupleOf(Rc<Ty>),
    /// One of these types.
    Union(Rc<Vec<Ty>>),
    /// What can be called.
    Callable(Rc<Signature>),
}

/// Written out: the crates above call it, where what `derive` writes would be made and proved in each of them.
impl Drop for Ty {
    #[cycle(ty)]
    fn drop(self) {
        match self {
            Ty::Module(part) => drop(part),
            Ty::Instance(part) => drop(part),
            Ty::Class(part) => drop(part),
            Ty::List(part) => drop(part),
            Ty::Dict(part) => drop(part),
            Ty::Tuple(part) => drop(part),
            Ty::TupleOf(part) => drop(part),
            Ty::Union(part) => drop(part),
            Ty::Callable(part) => drop(part),
            Ty::Any | Ty::None => {}
        }
    }
}

/// The types of the keys and values of a dictionary.
#[cycle(ty)]
#[derive(Debug, Drop)]
pub struct DictTypes {
    pub key: Ty,
    pub value: Ty,
}

/// What a call takes and gives.
#[cycle(ty)]
#[derive(Debug)]
pub struct Signature {
    pub params: Params,
    pub result: Ty,
}

/// Written out: the crates above call it, where what `derive` writes would be made and proved in each of them.
impl Drop for Signature {
    #[cycle(ty)]
    fn drop(self) {
        let Signature { params, result } = self;
        drop(params);
        drop(result);
    }
}

/// What a call takes.
#[cycle(ty)]
#[derive(Debug)]
pub enum Params {
    /// `...`: any arguments.
    Dots,
    /// These parameters, in the order in which they are written.
    Listed(Vec<Param>),
}

/// Written out: the crates above call it, where what `derive` writes would be made and proved in each of them.
impl Drop for Params {
    #[cycle(ty)]
    fn drop(self) {
        match self {
            Params::Listed(part) => drop(part),
            Params::Dots => {}
        }
    }
}

/// A parameter: its kind with its name, its type, and whether a call may leave it out.
#[cycle(ty)]
#[derive(Debug)]
pub struct Param {
    pub kind: ParamKind,
    pub ty: Ty,
    pub is_optional: bool,
}

/// Written out: the crates above call it, where what `derive` writes would be made and proved in each of them.
impl Drop for Param {
    #[cycle(ty)]
    fn drop(self) {
        let Param {
            kind,
            ty,
            is_optional: _,
        } = self;
        drop(kind);
        drop(ty);
    }
}

/// The kind of a parameter, with its name.
#[derive(Debug, Drop)]
pub enum ParamKind {
    /// Filled by place, or by its name where it has one.
    Plain(Option<Text>),
    /// `*args`: each further place.
    Star,
    /// Filled by its name alone.
    KeywordOnly(Text),
    /// `**kwargs`: each further name.
    DoubleStar,
}

impl Clone for Ty {
    ghost is_clone = { λ ty copy. ty_of copy ≡ ty_of ty };

    /// A clone takes no memory, and costs a reference count. The only error is a full count.
    fn clone(&self) -> Result<Ty, AllocError> {
        Ok(match self {
            Ty::Any => Ty::Any,
            Ty::None => Ty::None,
            Ty::Module(parts) => Ty::Module(parts.clone()?),
            Ty::Instance(class) => Ty::Instance(class.clone()?),
            Ty::Class(class) => Ty::Class(class.clone()?),
            Ty::List(item) => Ty::List(item.clone()?),
            Ty::Dict(types) => Ty::Dict(types.clone()?),
            Ty::Tuple(items) => Ty::Tuple(items.clone()?),
            Ty::TupleOf(item) => Ty::TupleOf(item.clone()?),
            Ty::Union(items) => Ty::Union(items.clone()?),
            Ty::Callable(signature) => Ty::Callable(signature.clone()?),
        })
    }
}
