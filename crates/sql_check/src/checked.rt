// Valid queries and views, with their names resolved.
ghost use Rattle.std.specs.Prelude.{◌≡◌};

use sql_faults::{Columns, ViewHeads};
use sql_meaning::Query;
use sql_names::ResolvedSchema;
use sql_value::{OrderKeys, OutNames};

/// A valid query with its names resolved.
pub struct Checked {
    /// The query, each column of it a scope and a place.
    pub query: Query,
    /// Its columns with their types (SQL-92, 7.9).
    pub columns: Columns,
    /// The names of its columns, some of which may have none.
    pub names: OutNames,
    /// The keys of its ORDER BY (SQL-92, 13.1).
    pub order: OrderKeys,
}

// By hand, so that crates above cite this function: a derived one is proved in each of them, with those
// of all parts.
impl Drop for Checked {
    fn drop(self) {
        let Checked {
            query,
            columns,
            names,
            order,
        } = self;
        drop(query);
        drop(columns);
        drop(names);
        drop(order);
    }
}

/// What the answer of a query takes of the query itself.
#[derive(Drop)]
pub struct Heading {
    pub names: OutNames,
    pub order: OrderKeys,
}

impl Checked {
    /// The heading of its answer. The query goes.
    pub fn into_heading(self) -> Heading
        ensures names { result.names ≡ self.names }
        ensures order { result.order ≡ self.order }
    {
        let Checked {
            query,
            columns,
            names,
            order,
        } = self;
        drop(query);
        drop(columns);
        Heading { names, order }
    }
}

/// The views of a catalog, all of which are valid: their columns, and their bodies with their names
/// resolved.
pub struct Views {
    pub heads: ViewHeads,
    pub schema: ResolvedSchema,
}

// By hand, as that of a valid query.
impl Drop for Views {
    fn drop(self) {
        let Views { heads, schema } = self;
        drop(heads);
        drop(schema);
    }
}
