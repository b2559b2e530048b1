//! The text of each message, as the rules write it.

use pyc_messages::*;
use std::test::Fail;

/// What is called, as messages show it.
const F: &str = "\"m\" of \"C\"";

#[test]
fn texts_on_imports_definitions_and_names(rt: HostRuntime) -> Result<(), Fail> {
    assert_eq!(rt;
        missing_module_text(rt.alloc(), "..z")?.as_str(),
        "Cannot find implementation or library stub for module named \"..z\""
    );
    assert_eq!(rt;
        no_imported_name_text(rt.alloc(), "b", "z")?.as_str(),
        "Module \"b\" has no attribute \"z\""
    );
    assert_eq!(rt;
        import_cycle_text(rt.alloc(), "x")?.as_str(),
        "Cannot resolve name \"x\" (possible cyclic definition)"
    );
    assert_eq!(rt;
        redefinition_text(rt.alloc(), "x", 1)?.as_str(),
        "Name \"x\" already defined on line 1"
    );
    assert_eq!(rt;
        not_defined_text(rt.alloc(), "x")?.as_str(),
        "Name \"x\" is not defined"
    );
    assert_eq!(rt;
        no_module_attribute_text(rt.alloc(), "n")?.as_str(),
        "Module has no attribute \"n\""
    );
    Ok(())
}

#[test]
fn texts_on_annotations_and_bases(rt: HostRuntime) -> Result<(), Fail> {
    assert_eq!(rt;
        not_a_type_text(rt.alloc(), "f")?.as_str(),
        "\"f\" is not valid as a type"
    );
    assert_eq!(rt;
        wrong_count_text(rt.alloc(), "list")?.as_str(),
        "Wrong number of type arguments for \"list\""
    );
    assert_eq!(rt;
        invalid_annotation_text(rt.alloc())?.as_str(),
        "Invalid type comment or annotation"
    );
    assert_eq!(rt;
        invalid_base_text(rt.alloc(), "x")?.as_str(),
        "Invalid base class \"x\""
    );
    assert_eq!(rt;
        base_cycle_text(rt.alloc(), "C")?.as_str(),
        "Cycle in the bases of \"C\""
    );
    assert_eq!(rt;
        no_order_text(rt.alloc(), "C")?.as_str(),
        "Cannot determine consistent method resolution order (MRO) for \"C\""
    );
    Ok(())
}

#[test]
fn texts_on_overrides(rt: HostRuntime) -> Result<(), Fail> {
    assert_eq!(rt;
        variable_override_text(rt.alloc(), "B", "G", "T")?.as_str(),
        "Incompatible types in assignment (expression has type \"G\", base class \"B\" defined the type as \"T\")"
    );
    assert_eq!(rt;
        result_override_text(rt.alloc(), "f", "B", "G", "T")?.as_str(),
        "Return type \"G\" of \"f\" incompatible with return type \"T\" in supertype \"B\""
    );
    assert_eq!(rt;
        argument_override_text(rt.alloc(), 1, "f", "B", "T")?.as_str(),
        "Argument 1 of \"f\" is incompatible with supertype \"B\"; supertype defines the argument type as \"T\""
    );
    assert_eq!(rt;
        signature_override_text(rt.alloc(), "f", "B")?.as_str(),
        "Signature of \"f\" incompatible with supertype \"B\""
    );
    Ok(())
}

#[test]
fn texts_on_displays_and_attributes(rt: HostRuntime) -> Result<(), Fail> {
    assert_eq!(rt;
        list_item_text(rt.alloc(), 0, "G", "T")?.as_str(),
        "List item 0 has incompatible type \"G\"; expected \"T\""
    );
    assert_eq!(rt;
        dict_entry_text(rt.alloc(), 0, "G", "H", "K", "V")?.as_str(),
        "Dict entry 0 has incompatible type \"G\": \"H\"; expected \"K\": \"V\""
    );
    assert_eq!(rt;
        no_attribute_text(rt.alloc(), "G", "n")?.as_str(),
        "\"G\" has no attribute \"n\""
    );
    assert_eq!(rt;
        no_item_attribute_text(rt.alloc(), "G", "U", "n")?.as_str(),
        "Item \"G\" of \"U\" has no attribute \"n\""
    );
    Ok(())
}

#[test]
fn texts_on_subscripts_iterations_and_operators(rt: HostRuntime) -> Result<(), Fail> {
    assert_eq!(rt;
        index_text(rt.alloc(), "G", "T", "K")?.as_str(),
        "Invalid index type \"G\" for \"T\"; expected type \"K\""
    );
    assert_eq!(rt;
        range_text(rt.alloc())?.as_str(),
        "Tuple index out of range"
    );
    assert_eq!(rt;
        not_indexable_text(rt.alloc(), "G")?.as_str(),
        "Value of type \"G\" is not indexable"
    );
    assert_eq!(rt;
        not_iterable_text(rt.alloc(), "G")?.as_str(),
        "\"G\" has no attribute \"__iter__\" (not iterable)"
    );
    assert_eq!(rt;
        item_not_iterable_text(rt.alloc(), "G", "U")?.as_str(),
        "Item \"G\" of \"U\" has no attribute \"__iter__\" (not iterable)"
    );
    assert_eq!(rt;
        operands_text(rt.alloc(), "+", "G", "H")?.as_str(),
        "Unsupported operand types for + (\"G\" and \"H\")"
    );
    assert_eq!(rt;
        operand_text(rt.alloc(), "-", "G")?.as_str(),
        "Unsupported operand type for unary - (\"G\")"
    );
    Ok(())
}

#[test]
fn texts_on_calls(rt: HostRuntime) -> Result<(), Fail> {
    assert_eq!(rt;
        not_callable_text(rt.alloc(), "G")?.as_str(),
        "\"G\" not callable"
    );
    assert_eq!(rt;
        too_many_arguments_text(rt.alloc(), F)?.as_str(),
        "Too many arguments for \"m\" of \"C\""
    );
    assert_eq!(rt;
        repeated_argument_text(rt.alloc(), "k", F)?.as_str(),
        "\"m\" of \"C\" gets multiple values for keyword argument \"k\""
    );
    assert_eq!(rt;
        unexpected_argument_text(rt.alloc(), "k", F)?.as_str(),
        "Unexpected keyword argument \"k\" for \"m\" of \"C\""
    );
    assert_eq!(rt;
        missing_place_text(rt.alloc(), "a", F)?.as_str(),
        "Missing positional argument \"a\" in call to \"m\" of \"C\""
    );
    assert_eq!(rt;
        missing_name_text(rt.alloc(), "k", F)?.as_str(),
        "Missing named argument \"k\" for \"m\" of \"C\""
    );
    assert_eq!(rt;
        placed_argument_text(rt.alloc(), 1, F, "G", "T")?.as_str(),
        "Argument 1 to \"m\" of \"C\" has incompatible type \"G\"; expected \"T\""
    );
    assert_eq!(rt;
        named_argument_text(rt.alloc(), "k", F, "G", "T")?.as_str(),
        "Argument \"k\" to \"m\" of \"C\" has incompatible type \"G\"; expected \"T\""
    );
    assert_eq!(rt;
        revealed_type_text(rt.alloc(), "T")?.as_str(),
        "Revealed type is \"T\""
    );
    Ok(())
}

#[test]
fn texts_on_functions(rt: HostRuntime) -> Result<(), Fail> {
    assert_eq!(rt;
        default_text(rt.alloc(), "a", "G", "T")?.as_str(),
        "Incompatible default for argument \"a\" (default has type \"G\", argument has type \"T\")"
    );
    assert_eq!(rt;
        missing_return_text(rt.alloc())?.as_str(),
        "Missing return statement"
    );
    assert_eq!(rt;
        wrong_return_text(rt.alloc(), "G", "T")?.as_str(),
        "Incompatible return value type (got \"G\", expected \"T\")"
    );
    assert_eq!(rt;
        no_return_value_text(rt.alloc())?.as_str(),
        "No return value expected"
    );
    assert_eq!(rt;
        return_value_text(rt.alloc())?.as_str(),
        "Return value expected"
    );
    Ok(())
}

#[test]
fn texts_on_assignments(rt: HostRuntime) -> Result<(), Fail> {
    assert_eq!(rt;
        variable_assignment_text(rt.alloc(), "G", "T")?.as_str(),
        "Incompatible types in assignment (expression has type \"G\", variable has type \"T\")"
    );
    assert_eq!(rt;
        item_assignment_text(rt.alloc(), "G", "T")?.as_str(),
        "Incompatible types in assignment (expression has type \"G\", target has type \"T\")"
    );
    assert_eq!(rt;
        unsupported_target_text(rt.alloc(), "G")?.as_str(),
        "Unsupported target for indexed assignment (\"G\")"
    );
    assert_eq!(rt;
        read_only_text(rt.alloc(), "n", "C")?.as_str(),
        "Property \"n\" defined in \"C\" is read-only"
    );
    assert_eq!(rt;
        too_few_values_text(rt.alloc(), 1, 2)?.as_str(),
        "Need more than 1 value to unpack (2 expected)"
    );
    assert_eq!(rt;
        too_few_values_text(rt.alloc(), 2, 3)?.as_str(),
        "Need more than 2 values to unpack (3 expected)"
    );
    assert_eq!(rt;
        too_many_values_text(rt.alloc(), 3, 2)?.as_str(),
        "Too many values to unpack (2 expected, 3 provided)"
    );
    Ok(())
}
