//! What is assigned to.

use crate::expr::{Expr, Index};
use crate::position::Position;
use crate::text::Text;

/// A target: where it begins, its parentheses included, where it begins within them, and what it is.
#[cycle(target)]
pub struct Target {
    pub at: Position,
    pub inside: Position,
    pub form: TargetForm,
}

/// Written out: the crates above call it, where what `derive` writes would be made and proved in each of them.
impl Drop for Target {
    #[cycle(target)]
    fn drop(self) {
        let Target {
            at: _,
            inside: _,
            form,
        } = self;
        drop(form);
    }
}

/// What a target is.
#[cycle(target)]
pub enum TargetForm {
    Name(Text),
    Attribute { value: Box<Expr>, name: Text },
    Subscript { value: Box<Expr>, index: Box<Index> },
    /// A tuple or a list of targets.
    Unpacking(Vec<TargetElement>),
}

/// Written out: the crates above call it, where what `derive` writes would be made and proved in each of them.
impl Drop for TargetForm {
    #[cycle(target)]
    fn drop(self) {
        match self {
            TargetForm::Name(part) => drop(part),
            TargetForm::Attribute { value, name } => {
                drop(value);
                drop(name);
            }
            TargetForm::Subscript { value, index } => {
                drop(value);
                drop(index);
            }
            TargetForm::Unpacking(part) => drop(part),
        }
    }
}

/// An item of a list of targets, perhaps after `*`.
#[cycle(target)]
#[derive(Drop)]
pub struct TargetElement {
    pub is_starred: bool,
    pub target: Target,
}
