//! Which parameters an argument may fill, by their kinds.

ghost use Rattle.std.specs.Prelude.{◌≡◌};
ghost use Rattle.pyc_matching.specs.Matching as spec;
ghost use Rattle.pyc_type_forms.specs.TypeView.{kind_of};

use pyc_ast::Text;
use pyc_type_forms::ParamKind;

/// Whether a parameter is filled by place.
pub(crate) fn is_plain(kind: &ParamKind) -> bool
    ensures { result ≡ spec.is_plain (kind_of kind.now) }
{
    matches!(kind, ParamKind::Plain(_))
}

/// Whether a parameter gathers the arguments of further places.
pub(crate) fn is_star(kind: &ParamKind) -> bool
    ensures { result ≡ spec.is_star (kind_of kind.now) }
{
    matches!(kind, ParamKind::Star)
}

/// Whether a parameter gathers the arguments of further names.
pub(crate) fn is_double_star(kind: &ParamKind) -> bool
    ensures { result ≡ spec.is_double_star (kind_of kind.now) }
{
    matches!(kind, ParamKind::DoubleStar)
}

/// Whether a parameter can be filled by this name.
pub(crate) fn is_named(name: &Text, kind: &ParamKind) -> bool
    ensures { result ≡ spec.is_named name.now (kind_of kind.now) }
{
    match kind {
        ParamKind::Plain(Some(own)) => own == name,
        ParamKind::KeywordOnly(own) => own == name,
        _ => false,
    }
}
