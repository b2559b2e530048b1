//! What an expression is there for.

ghost use Rattle.std.specs.Prelude.{◌≡◌};
ghost use Rattle.pyc_lower_atom.specs.Roles as spec;

/// Whether an expression is read as a value or as an annotation, in which a string may spell an expression.
#[derive(Clone, Copy, Debug, PartialEq, Eq)]
pub enum Role {
    Value,
    Annotation,
}

impl Role {
    /// Whether an expression is read as an annotation.
    pub fn is_annotation(self) -> bool
        ensures { result ≡ spec.is_annotation self }
    {
        match self {
            Role::Annotation => true,
            Role::Value => false,
        }
    }
}
