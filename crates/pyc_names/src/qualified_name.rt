//! A name of a module, and what it stands for.

ghost use Rattle.std.specs.Prelude.{◌≡◌};
ghost use Rattle.pyc_names.specs.Following.{same_name};
ghost use Rattle.pyc_names.specs.FollowingView.{qualified_of};

use crate::module_name::ModuleName;
use pyc_ast::Text;
use std::alloc::AllocError;

/// A name of a module: the module, and the name in it.
#[derive(Debug, Drop)]
pub struct QualifiedName {
    pub module_path: ModuleName,
    pub name: Text,
}

/// What a name stands for.
#[derive(Debug, Drop)]
pub enum Referent {
    /// What the declaration of this name declares, or a name of a fixed module that is not Any.
    Declared(QualifiedName),
    Module(ModuleName),
    /// A name of a file with a fault, of which nothing is known.
    Opaque,
    /// A name of a fixed module that is Any.
    FixedAny,
    /// A name of a module that is not there, or a module that is not there.
    NoModule,
    /// A name that its module does not have.
    NoName,
    /// It leads from import to import without end.
    Cycle,
}

/// What one step of following leads to.
#[derive(Debug, Drop)]
pub(crate) enum Step {
    Ends(Referent),
    /// A name of another module.
    Leads(QualifiedName),
}

impl QualifiedName {
    /// Whether both are the same name of the same module.
    pub fn is_same(&self, other: &QualifiedName) -> bool
        ensures { result ≡ same_name (qualified_of self.now) (qualified_of other.now) }
    {
        self.module_path == other.module_path && self.name == other.name
    }
}

impl Clone for QualifiedName {
    ghost is_clone = { λ q copy. qualified_of copy ≡ qualified_of q };

    /// A clone shares the parts of the name. The only error is that memory runs out.
    fn clone(&self) -> Result<QualifiedName, AllocError> {
        Ok(QualifiedName {
            module_path: self.module_path.clone()?,
            name: self.name.clone()?,
        })
    }
}
