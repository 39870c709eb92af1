// The types of the columns of a fed box.
ghost use Rattle.std.specs.Prelude.{◌≡◌, IfOk};
ghost use Rattle.qgm_wellformed.specs.Types.{lookup_of};
ghost use Rattle.rule_magic.specs.AbsorbSetSteps as spec;

use qgm_core::{Graph, Head};
use qgm_wellformed::{cell_type, column_types};
use shared_types::OutOfMemory;
use sql_value::SqlType;
use sqlite_items::Items;
use std::alloc::Global;

/// The types of these cells, as far as they are known.
pub fn known_types(alloc: Global, graph: &Graph, head: &Head) -> Result<Items<SqlType>, OutOfMemory>
    ensures { IfOk result (λ ts. ts ≡ spec.known_types (lookup_of graph.now.boxes) head.now) }
{
    let known = column_types(alloc, graph.nodes())?;
    let mut types = Items::new(alloc);
    for x in head.as_slice() {
        if let Some(found) = cell_type(&known, x) {
            types.push(found)?;
        }
    }
    Ok(types)
}
