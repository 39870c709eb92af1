// The laws of queries that boxes can be made for, of the types of their expressions, and of what is built of them, as theorems.
ghost use Rattle.qgm_translation_laws.specs.Buildable.{ValidIsBuildable, ValidTextIsBuildable, ValidViewsAreBuildable};
ghost use Rattle.qgm_translation_laws.specs.Sample.{Sampled};
ghost use Rattle.qgm_translation_laws.specs.Joined.{SchemaNamesStand, ValidIsWellFormed, ValidQueryIsBuildable, ValidRootAgrees};
ghost use Rattle.qgm_translation_laws.specs.Sources.{SchemaSources, SchemaSourcesTyped};
ghost use Rattle.qgm_translation_laws.specs.Typing.{ValidHasTypes, ValidSourcesTyped, ValidTextHasTypes, ValidViewsHaveTypes};

/// Where a query is of the grammar and the checks find no fault in it, boxes can be made for its
/// resolved form: over any tables and views, over a schema, and so for each view of a schema none of
/// whose views is refused. It does nothing.
pub fn buildable_laws()
    ensures queries { ValidIsBuildable }
    ensures texts { ValidTextIsBuildable }
    ensures views { ValidViewsAreBuildable }
{}

/// Where a query is of the grammar and the checks find no fault in it, the expressions of its
/// resolved form have types, and its columns those that the checks state: over any tables and views
/// that have columns of known types, over a valid schema, and so for each view of a valid schema;
/// sources that say of names what a valid schema says have these types. It does nothing.
pub fn type_laws()
    ensures queries { ValidHasTypes }
    ensures texts { ValidTextHasTypes }
    ensures views { ValidViewsHaveTypes }
    ensures sources { ValidSourcesTyped }
    ensures sampled { Sampled }
{}

/// Over a valid schema, what names stand for where boxes are made of a query is what the schema says,
/// and has the types that the checks state; boxes can be made for a valid query. A graph that is
/// built so of a valid query is well-formed, its root's columns have the types that the checks state,
/// and its root's bag, over tables that fit the schema, is the query's rows, by places and by names.
/// It does nothing.
pub fn built_laws()
    ensures said { SchemaSources }
    ensures sources { SchemaSourcesTyped }
    ensures buildable { ValidQueryIsBuildable }
    ensures formed { ValidIsWellFormed }
    ensures stand { SchemaNamesStand }
    ensures rows { ValidRootAgrees }
{}
