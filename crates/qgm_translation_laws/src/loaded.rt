// The laws of tables that fit a schema, as a theorem.
ghost use Rattle.qgm_translation_laws.specs.Loaded.{LoadedAreTables, LoadedSatisfies};

/// Tables that fit a schema are tables of it, and they satisfy the bases of the graph that is built
/// of a valid query over it. It does nothing.
pub fn loaded_laws()
    ensures tables { LoadedAreTables }
    ensures satisfied { LoadedSatisfies }
{}
