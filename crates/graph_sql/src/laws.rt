// What the tests of a statement mean.
ghost use Rattle.graph_sql.specs.Examples.{OfGraphs, OfGroups, OfReadings};
ghost use Rattle.graph_sql.specs.ReadingLaw.{Cells, Conditions, Filters};
ghost use Rattle.graph_sql.specs.SelectLaw.{Repeated, Selects, Sources};

/// Over an environment in which nothing that is reached is an error, what is compared has one type, and
/// no column is null that is told to hold none: an expression has the cell that the graph gives it, each
/// of the four readings of a condition is true just where what it asks is so, and a row passes the first
/// reading of all conditions just where they are all true. It does nothing.
pub fn readings()
    ensures cells { Cells }
    ensures conditions { Conditions }
    ensures filters { Filters }
{}

/// Where nothing that is reached is an error, a select without DISTINCT has the rows of its SELECT, in
/// order (`selects`). EXISTS asks the same of the rows of a SELECT, and of what its FROM binds and its
/// WHERE passes, with its cells as one more item (`items`); nor does it matter how often a row stands
/// there (`repeated`), so that DISTINCT may fall away. It does nothing.
pub fn select_laws()
    ensures selects { Selects }
    ensures items { Sources }
    ensures repeated { Repeated }
{}

/// Graphs, conditions and groups have these statements. It does nothing.
pub fn examples()
    ensures graphs { OfGraphs }
    ensures readings { OfReadings }
    ensures groups { OfGroups }
{}
