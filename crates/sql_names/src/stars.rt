// `*` and `r.*` of a list (SQL-92, 7.9).
ghost use Rattle.std.specs.Prelude.{◌≡◌, IfOk, OnOk};
ghost use Rattle.sql_meaning.specs.Even.{innermost};
ghost use Rattle.sql_meaning.specs.ResolvedTrees as tree;
ghost use Rattle.sql_names.specs.Onto.{values_onto};
ghost use Rattle.sql_names.specs.Places.{span_of, width};
ghost use Rattle.sql_names.specs.Resolved as spec;
ghost use Rattle.sql_names.specs.Shapes.{shapes};

use crate::build::push_columns;
use crate::place::span_of;
use crate::scope::Shapes;
use shared_types::{OutOfMemory, Text};
use sql_meaning::Value;
use sqlite_items::Items;

/// Adds the columns of the range of a name at the end.
pub(crate) fn push_range_columns(
    name: &Text,
    s: &Shapes<'_>,
    out: &mut Items<Value>,
) -> Result<(), OutOfMemory>
    ensures { OnOk result ((rest : tree.Values) → values_onto out.new rest ≡ values_onto out.old (spec.append (spec.columns_of (span_of name.now (shapes s.now))) rest)) }
{
    match span_of(name, s)? {
        Some(found) => push_columns(out, found.scope, found.first, found.columns.len()),
        None => Ok(()),
    }
}

/// Adds all columns of the innermost scope at the end.
pub(crate) fn push_innermost(s: &Shapes<'_>, out: &mut Items<Value>) -> Result<(), OutOfMemory>
    ensures { OnOk result ((rest : tree.Values) → values_onto out.new rest ≡ values_onto out.old (spec.append (spec.columns_from 0 0 (width (innermost (shapes s.now)))) rest)) }
{
    match s {
        Shapes::Outermost => Ok(()),
        Shapes::Inside(scope, _) => push_columns(out, 0, 0, scope.width()),
    }
}
