//! The names of the classes of operators.

ghost use Rattle.std.specs.Prelude.{◌≡◌};
ghost use Rattle.apx_dag.specs.Role.{role_view};
ghost use Rattle.apx_plan.specs.Class.{kind_name, class_name};

use apx_dag::Role;
use apx_tuple::{InputKind, Kind};

fn kind_name(kind: Kind) -> &'static str
    ensures { result.now ≡ kind_name kind }
{
    match kind {
        Kind::Keep { .. } => "keep",
        Kind::Scale { .. } => "scale",
        Kind::Words => "words",
        Kind::Prefix { .. } => "prefix",
        Kind::Count => "count",
        Kind::Sum => "sum",
        Kind::Peak => "peak",
        Kind::First => "first",
        Kind::Tumble { .. } => "tumble",
        Kind::Match => "match",
        Kind::Enrich => "enrich",
        Kind::Top { .. } => "top",
    }
}

/// The name of the class that an operator of this role has in an application.
pub(crate) fn class_name(role: &Role) -> &'static str
    ensures { result.now ≡ class_name (role_view role.now) }
{
    match role {
        Role::Input {
            kind: InputKind::Lines,
            ..
        } => "lines",
        Role::Input {
            kind: InputKind::Pairs,
            ..
        } => "pairs",
        Role::Inner(kind) => kind_name(*kind),
        Role::Sink => "store",
    }
}
