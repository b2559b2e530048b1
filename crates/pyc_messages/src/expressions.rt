//! The texts on displays, attributes, subscripts, iterations and operators.

ghost use Rattle.std.specs.Prelude.{◌≡◌, IfOk, string_bytes};
ghost use Rattle.pyc_messages.specs.Expressions as spec;

use std::alloc::{AllocError, Global};

/// The text on an item of a list, with the code `list-item`. The only error is that memory runs out.
#[tactic(auto, unfolding(crate::specs::Expressions::list_item_text))]
pub fn list_item_text(
    alloc: Global,
    index: usize,
    got: &str,
    want: &str,
) -> Result<String, AllocError>
    ensures { IfOk result (λ text. string_bytes text ≡ spec.list_item_text index got.now want.now) }
{
    format!(in alloc; "List item {index} has incompatible type \"{got}\"; expected \"{want}\"")
}

/// The text on an entry of a dictionary, with the code `dict-item`. The only error is that memory runs out.
#[tactic(auto, unfolding(crate::specs::Expressions::dict_entry_text))]
pub fn dict_entry_text(
    alloc: Global,
    index: usize,
    got_key: &str,
    got_value: &str,
    want_key: &str,
    want_value: &str,
) -> Result<String, AllocError>
    ensures { IfOk result (λ text. string_bytes text
        ≡ spec.dict_entry_text index got_key.now got_value.now want_key.now want_value.now) }
{
    format!(in alloc;
        "Dict entry {index} has incompatible type \"{got_key}\": \"{got_value}\"; \
         expected \"{want_key}\": \"{want_value}\""
    )
}

/// The text on a type that has no such attribute, with the code `attr-defined`. The only error is that memory runs out.
#[tactic(auto, unfolding(crate::specs::Expressions::no_attribute_text))]
pub fn no_attribute_text(alloc: Global, shown: &str, name: &str) -> Result<String, AllocError>
    ensures { IfOk result (λ text. string_bytes text ≡ spec.no_attribute_text shown.now name.now) }
{
    format!(in alloc; "\"{shown}\" has no attribute \"{name}\"")
}

/// The text on an item of a union that has no such attribute, with the code `union-attr`. The only error is that memory
/// runs out.
#[tactic(auto, unfolding(crate::specs::Expressions::no_item_attribute_text))]
pub fn no_item_attribute_text(
    alloc: Global,
    item: &str,
    whole: &str,
    name: &str,
) -> Result<String, AllocError>
    ensures { IfOk result (λ text. string_bytes text ≡ spec.no_item_attribute_text item.now whole.now name.now) }
{
    format!(in alloc; "Item \"{item}\" of \"{whole}\" has no attribute \"{name}\"")
}

/// The text on an index of another type than is wanted, with the code `index`. The only error is that memory runs out.
#[tactic(auto, unfolding(crate::specs::Expressions::index_text))]
pub fn index_text(alloc: Global, got: &str, whole: &str, want: &str) -> Result<String, AllocError>
    ensures { IfOk result (λ text. string_bytes text ≡ spec.index_text got.now whole.now want.now) }
{
    format!(in alloc; "Invalid index type \"{got}\" for \"{whole}\"; expected type \"{want}\"")
}

/// The text on a place that a tuple does not have, with the code `misc`. The only error is that memory runs out.
#[tactic(auto, unfolding(crate::specs::Expressions::range_text))]
pub fn range_text(alloc: Global) -> Result<String, AllocError>
    ensures { IfOk result (λ text. string_bytes text ≡ spec.range_text) }
{
    String::from_str(alloc, "Tuple index out of range")
}

/// The text on a type that has no subscripts, with the code `index`. The only error is that memory runs out.
#[tactic(auto, unfolding(crate::specs::Expressions::not_indexable_text))]
pub fn not_indexable_text(alloc: Global, shown: &str) -> Result<String, AllocError>
    ensures { IfOk result (λ text. string_bytes text ≡ spec.not_indexable_text shown.now) }
{
    format!(in alloc; "Value of type \"{shown}\" is not indexable")
}

/// The text on a type that is not iterable, with the code `attr-defined`. The only error is that memory runs out.
#[tactic(auto, unfolding(crate::specs::Expressions::not_iterable_text))]
pub fn not_iterable_text(alloc: Global, shown: &str) -> Result<String, AllocError>
    ensures { IfOk result (λ text. string_bytes text ≡ spec.not_iterable_text shown.now) }
{
    format!(in alloc; "\"{shown}\" has no attribute \"__iter__\" (not iterable)")
}

/// The text on an item of a union that is not iterable, with the code `union-attr`. The only error is that memory runs
/// out.
#[tactic(auto, unfolding(crate::specs::Expressions::item_not_iterable_text))]
pub fn item_not_iterable_text(alloc: Global, item: &str, whole: &str) -> Result<String, AllocError>
    ensures { IfOk result (λ text. string_bytes text ≡ spec.item_not_iterable_text item.now whole.now) }
{
    format!(in alloc; "Item \"{item}\" of \"{whole}\" has no attribute \"__iter__\" (not iterable)")
}

/// The text on operands that an operation does not take, by its symbol, with the code `operator`. The only error is
/// that memory runs out.
#[tactic(auto, unfolding(crate::specs::Expressions::operands_text))]
pub fn operands_text(
    alloc: Global,
    symbol: &str,
    left: &str,
    right: &str,
) -> Result<String, AllocError>
    ensures { IfOk result (λ text. string_bytes text ≡ spec.operands_text symbol.now left.now right.now) }
{
    format!(in alloc; "Unsupported operand types for {symbol} (\"{left}\" and \"{right}\")")
}

/// The text on an operand that a unary operation does not take, by its symbol, with the code `operator`. The only error
/// is that memory runs out.
#[tactic(auto, unfolding(crate::specs::Expressions::operand_text))]
pub fn operand_text(alloc: Global, symbol: &str, operand: &str) -> Result<String, AllocError>
    ensures { IfOk result (λ text. string_bytes text ≡ spec.operand_text symbol.now operand.now) }
{
    format!(in alloc; "Unsupported operand type for unary {symbol} (\"{operand}\")")
}
