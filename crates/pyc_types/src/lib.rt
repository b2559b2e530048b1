//! When one type of annotated Python is assignable to another. The types, the classes and the builtins are passed on.
#![tactic(auto)]

mod assigning;
mod fitting;
pub mod laws;
mod ways;

pub use assigning::assignable;
pub use pyc_builtins::{
    Builtin, BuiltinName, Builtins, FoundMember, FunctionResult, Member, MethodResult,
    builtin_member, builtin_name, is_dunder, member_type, own_member,
};
pub use pyc_class_ids::{BuiltinClass, ClassId, InstanceForm, Lin, Lins, UnknownMro};
pub use pyc_type_forms::{
    DictTypes, Param, ParamKind, Params, Signature, Ty, instance_of, items_of, narrow_away,
    narrow_to, same_type, show, union_of, without_none,
};
