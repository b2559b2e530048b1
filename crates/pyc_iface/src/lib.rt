//! What the files of a workspace answer to what is asked of them.
#![tactic(auto)]

mod declared;
mod flags;
pub mod laws;
mod looked_classes;
mod member_types;
mod members;
mod options;
mod world;

pub use flags::Flags;
pub use options::{Options, TURNS};
pub use pyc_declarations::{Answers, DeclarationRecorder, literal_type};
pub use pyc_reading::{
    Answer, Ask, Export, Key, MemberAnswer, MemberKind, MemberName, MroAnswer, NameAnswer,
    NameKind, Presence,
};
pub use world::{PlainWorld, PlainWorldAnswers};
