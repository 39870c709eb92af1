// What a query means by names it means by places, as theorems.
ghost use Rattle.std.specs.Prelude.{◌≡◌, ℕ, List, None};
ghost use Rattle.row_bag.specs.declared.tables.Table.{Table};
ghost use Rattle.sql_ast.specs.Syntax as syntax;
ghost use Rattle.sql_ast.specs.declared.name.Column.{Column};
ghost use Rattle.sql_ast.specs.Declarations.{Declared};
ghost use Rattle.sql_catalog.specs.Catalog.{fault};
ghost use Rattle.sql_meaning.specs.Meaning.{known_at};
ghost use Rattle.sql_meaning.specs.Names.{Known};
ghost use Rattle.sql_meaning.specs.Scopes.{Scopes};
ghost use Rattle.sql_names.specs.Agreed.{AllWide, AreWideFrames, columns_of};
ghost use Rattle.sql_names.specs.Laws as law;
ghost use Rattle.sql_names.specs.Schema.{Sound, columns_at};

/// A name stands for the cell at its place. A query means by names what its resolved form means by
/// places: over any tables and views whose rows are as wide as their columns, in any scopes, where
/// the operands of its set operations have the same number of columns; and its rows are as wide as
/// its columns. The same over a schema and its views, where the schema isn't refused, its tables fit
/// it, and the set operations in its views are even. It does nothing.
#[tactic(auto, using(crate::proofs::Columns::column_found, crate::proofs::ByPlaces::same_meaning, crate::proofs::ByPlaces::same_width, crate::proofs::Depths::columns_known, crate::proofs::Valid::shallow))]
pub fn place_laws()
    ensures column { (c : Column) → (scopes : Scopes) → AreWideFrames scopes → law.SameCell c scopes }
    ensures meaning { (known : Known) → AllWide known → (q : syntax.Query) → (scopes : Scopes) → AreWideFrames scopes → law.IsEven known q scopes → law.SameRows known q scopes }
    ensures width { (known : Known) → AllWide known → (q : syntax.Query) → (scopes : Scopes) → AreWideFrames scopes → law.IsEven known q scopes → law.HasWideRows known q scopes }
    ensures columns { (catalog : Declared) → (tables : List Table) → (depth : ℕ) → (name : List ℕ) → columns_at catalog depth name ≡ columns_of (known_at catalog tables depth) name }
    ensures shallow { (catalog : Declared) → fault catalog ≡ None → law.NestsShallow catalog }
    ensures sound { (catalog : Declared) → fault catalog ≡ None → (tables : List Table) → law.HasDeclaredRows catalog tables → law.HasWideTables catalog tables → law.HasEvenViews catalog → Sound catalog tables }
    ensures schema { (catalog : Declared) → (tables : List Table) → Sound catalog tables → (q : syntax.Query) → law.IsEvenOver catalog q → law.SameSchemaRows catalog tables q }
    ensures answers { (catalog : Declared) → (tables : List Table) → Sound catalog tables → (text : syntax.QueryText) → law.IsEvenOver catalog text.query → law.SameAnswer catalog tables text }
{}
