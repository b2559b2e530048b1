//! What an assignment to a target meets.

ghost use Rattle.std.specs.Prelude.{◌≡◌, option_map};
ghost use Rattle.pyc_targets.specs.TargetTypes as spec;
ghost use Rattle.pyc_targets.specs.Views.{target_type_of};
ghost use Rattle.pyc_type_forms.specs.TypeView.{ty_of};

use pyc_type_forms::Ty;

/// The type that a target takes, none where nothing is required of it, and whether the target is an item of a
/// subscript.
#[derive(Debug, Drop)]
pub struct TargetType {
    pub want: Option<Ty>,
    pub is_item: bool,
}

impl TargetType {
    /// What a target takes that is no item of a subscript. It takes no memory.
    pub fn plain(want: Option<Ty>) -> TargetType
        ensures { target_type_of result ≡ spec.plain_target_type (option_map ty_of want) }
    {
        TargetType {
            want,
            is_item: false,
        }
    }

    /// What an item of a subscript takes. It takes no memory.
    pub fn item(ty: Ty) -> TargetType
        ensures { target_type_of result ≡ spec.item_target_type (ty_of ty) }
    {
        TargetType {
            want: Some(ty),
            is_item: true,
        }
    }
}
