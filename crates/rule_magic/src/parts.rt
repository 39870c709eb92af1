// Parts of the boxes that absorbing makes.
ghost use Rattle.std.specs.Prelude.{◌≡◌};
ghost use Rattle.rule_magic.specs.Boxes as spec;

use qgm_core::{BoxKind, BoxParts, Conds, Distinct, Head, Role};
use std::alloc::Global;

/// No condition.
pub fn no_conds(alloc: Global) -> Conds
    ensures { result ≡ spec.no_conds }
{
    Conds::new(alloc)
}

/// The parts of a new box, without a cell.
pub fn new_parts(alloc: Global, kind: BoxKind) -> BoxParts
    ensures { result ≡ spec.new_parts kind }
{
    BoxParts {
        kind,
        distinct: Distinct::Preserve,
        role: Role::Plain,
        conds: no_conds(alloc),
        head: Head::new(alloc),
    }
}
