//! Classes.

ghost use Rattle.std.specs.Prelude.{◌≡◌, IfOk};
ghost use Rattle.pyc_class_ids.specs.Class.{builtin, user, same_class, name_of, module_of, builtin_of};
ghost use Rattle.pyc_class_ids.specs.Class.{builtin_form, form_of};

use crate::BuiltinClass;
use pyc_ast::Text;
use std::alloc::{AllocError, Global};
use std::hash::{Hash, Hasher};
use std::marker::Model;
use std::rc::Rc;

/// A class: a builtin one, or one of a source. To make, copy or compare a builtin class takes no memory. Contracts see
/// where a class is defined and its name there.
#[derive(Debug)]
pub struct ClassId {
    named: Named,
}

/// Written out: the crates above call it, where what `derive` writes would be made and proved in each of them.
impl Drop for ClassId {
    fn drop(self) {
        let ClassId { named } = self;
        drop(named);
    }
}

/// How a class is named.
#[derive(Debug, Drop)]
pub(crate) enum Named {
    Builtin(BuiltinClass),
    User(Rc<UserClass>),
}

/// A class of a source: the parts of its module's dotted name, and its own name.
#[derive(Debug, Drop)]
pub(crate) struct UserClass {
    pub(crate) module_parts: Vec<Text>,
    pub(crate) own_name: Text,
}

/// The form of type that an instance of a class has.
#[derive(Clone, Copy, Debug, PartialEq, Eq)]
pub enum InstanceForm {
    /// `list[..]`
    List,
    /// `dict[.., ..]`
    Dict,
    /// `tuple[..]`
    Tuple,
    /// The class itself.
    Plain,
}

impl Model for ClassId {
    ghost use Rattle.pyc_class_ids.specs.Class.{Id, id_of};

    ghost Value = { Id };

    ghost view = { λ class. id_of class.named };
}

impl ClassId {
    /// A builtin class. Takes no memory.
    pub fn builtin(class: BuiltinClass) -> ClassId
        ensures { result ≡ builtin class }
    {
        ClassId {
            named: Named::Builtin(class),
        }
    }

    /// The class of this name in its home, the module that defines it, by the parts of the module's name. The only
    /// error is that memory runs out.
    pub fn user(alloc: Global, module_path: Vec<Text>, name: Text) -> Result<ClassId, AllocError>
        ensures { IfOk result (λ class. class ≡ user module_path.items name) }
    {
        let class = UserClass {
            module_parts: module_path,
            own_name: name,
        };
        Ok(ClassId {
            named: Named::User(Rc::new(alloc, class)?),
        })
    }

    /// The builtin class that this is.
    pub fn as_builtin(&self) -> Option<BuiltinClass>
        ensures { result ≡ builtin_of self.now }
    {
        match &self.named {
            Named::Builtin(class) => Some(*class),
            Named::User(_) => None,
        }
    }

    /// Whether this is that builtin class.
    pub fn is_builtin(&self, class: BuiltinClass) -> bool
        ensures { result ≡ same_class self.now (builtin class) }
    {
        match &self.named {
            Named::Builtin(own) => own.number() == class.number(),
            Named::User(_) => false,
        }
    }

    /// The parts of the name of the module that defines the class; a builtin class has none.
    pub fn module(&self) -> &[Text]
        ensures { result.now ≡ module_of self.now }
    {
        match &self.named {
            Named::Builtin(_) => &[],
            Named::User(class) => class.module_parts.as_slice(),
        }
    }

    /// The name of the class in its module.
    pub fn name(&self) -> &str
        ensures { result.now ≡ name_of self.now }
    {
        match &self.named {
            Named::Builtin(class) => class.name(),
            Named::User(class) => class.own_name.as_str(),
        }
    }

    /// The form of type that an instance of the class has.
    pub fn instance_form(&self) -> InstanceForm
        ensures { result ≡ form_of self.now }
    {
        match &self.named {
            Named::Builtin(class) => builtin_form(*class),
            Named::User(_) => InstanceForm::Plain,
        }
    }
}

/// The form of type that an instance of a builtin class has.
fn builtin_form(class: BuiltinClass) -> InstanceForm
    ensures { result ≡ builtin_form class }
{
    match class {
        BuiltinClass::List => InstanceForm::List,
        BuiltinClass::Dict => InstanceForm::Dict,
        BuiltinClass::Tuple => InstanceForm::Tuple,
        _ => InstanceForm::Plain,
    }
}

impl Clone for ClassId {
    ghost is_clone = { λ class copy. copy ≡ class };

    /// A clone shares the class's name, and takes no memory. The only error is a full count of those that share it.
    fn clone(&self) -> Result<ClassId, AllocError> {
        let named = match &self.named {
            Named::Builtin(class) => Named::Builtin(*class),
            Named::User(class) => Named::User(class.clone()?),
        };
        Ok(ClassId { named })
    }
}

impl PartialEq for ClassId {
    ghost use Rattle.std.specs.Cmp.{partial_equiv_from_equiv};
    ghost use Rattle.pyc_class_ids.specs.ClassEquality.{same_class_equiv};

    ghost eq = { same_class };

    ghost laws = { partial_equiv_from_equiv same_class_equiv };

    /// Whether both are one class. Takes no memory.
    fn eq(&self, other: &ClassId) -> bool {
        match &self.named {
            Named::Builtin(class) => other.is_builtin(*class),
            Named::User(class) => match &other.named {
                Named::Builtin(_) => false,
                Named::User(known) => is_same_user(class, known),
            },
        }
    }
}

impl Eq for ClassId {
    ghost use Rattle.pyc_class_ids.specs.ClassEquality.{same_class_equiv};

    ghost laws = { same_class_equiv };
}

impl Hash for ClassId {
    ghost use Rattle.pyc_class_ids.specs.ClassHash.{hash_input, same_class_fed};

    ghost hash_input = { hash_input };

    ghost respects_eq = { same_class_fed };

    fn hash<H: Hasher>(&self, state: &mut H) {
        match &self.named {
            Named::Builtin(class) => class.number().hash(state),
            Named::User(class) => {
                class.module_parts.as_slice().hash(state);
                class.own_name.hash(state);
            }
        }
    }
}

/// Whether two classes of sources are one.
fn is_same_user(class: &UserClass, other: &UserClass) -> bool
    ensures { result ≡ same_class (user class.now.module_parts.items class.now.own_name)
        (user other.now.module_parts.items other.now.own_name) }
{
    class.own_name == other.own_name
        && class.module_parts.as_slice() == other.module_parts.as_slice()
}
