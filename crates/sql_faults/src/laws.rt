// The laws of valid queries.
ghost use Rattle.sql_faults.specs.Laws.{FoundHasCell, SameNames, SameTables, TypedTables, ValidIsEven, ValidIsFound, ValidIsTyped, ValidText, ValidTextIsFound, ValidViews};

/// What later phases rest on. The checks find the columns that the meaning of queries has. In a query
/// without faults each name stands for one column, as the meaning looks it up, and set operations have
/// equal numbers of columns, at any depth; its columns have known types. So it is in each view, where
/// none is refused. It does nothing.
pub fn check_laws()
    ensures names { SameNames }
    ensures tables { SameTables }
    ensures found { ValidIsFound }
    ensures cells { FoundHasCell }
    ensures even { ValidIsEven }
    ensures types { ValidIsTyped }
    ensures views { ValidViews }
    ensures typed_tables { TypedTables }
    ensures text { ValidText }
    ensures found_text { ValidTextIsFound }
{}
