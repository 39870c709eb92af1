// The laws of names.
ghost use Rattle.std.specs.Prelude.{◌≡◌, ℕ, List, []};
ghost use Rattle.row_bag.specs.declared.tables.Table.{Table};
ghost use Rattle.sql_ast.specs.Declarations.{Declared};
ghost use Rattle.sql_meaning.specs.Meaning.{known_of, relation_of};

/// Over a schema without views a name stands for a table alone. It does nothing.
#[tactic(auto, using(crate::proofs::Named::without_views))]
pub fn name_laws()
    ensures { (catalog : Declared) → (tables : List Table) → catalog.views ≡ [] → (name : List ℕ) → known_of catalog tables name ≡ relation_of catalog tables name }
{}
