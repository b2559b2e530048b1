//! The registry of messages: the text of each message stands here once, in the order of docs/RULES.md. The definition
//! of a message that a rule reports by itself has its code, too; that of an obligation has the code of the kind of the
//! obligation. The texts of faults are those of `pyc_parse`.
#![tactic(auto)]

mod annotations;
mod assignments;
mod calls;
mod definitions;
mod expressions;
mod functions;
mod overrides;

pub use annotations::{
    base_cycle_text, invalid_annotation_text, invalid_base_text, no_order_text, not_a_type_text,
    wrong_count_text,
};
pub use assignments::{
    item_assignment_text, read_only_text, too_few_values_text, too_many_values_text,
    unsupported_target_text, variable_assignment_text,
};
pub use calls::{
    missing_name_text, missing_place_text, named_argument_text, not_callable_text,
    placed_argument_text, repeated_argument_text, revealed_type_text, too_many_arguments_text,
    unexpected_argument_text,
};
pub use definitions::{
    import_cycle_text, missing_module_text, no_imported_name_text, no_module_attribute_text,
    not_defined_text, redefinition_text,
};
pub use expressions::{
    dict_entry_text, index_text, item_not_iterable_text, list_item_text, no_attribute_text,
    no_item_attribute_text, not_indexable_text, not_iterable_text, operand_text, operands_text,
    range_text,
};
pub use functions::{
    default_text, missing_return_text, no_return_value_text, return_value_text, wrong_return_text,
};
pub use overrides::{
    argument_override_text, result_override_text, signature_override_text, variable_override_text,
};
