// Tables of a FROM with their names resolved, and the scopes of their ranges.
ghost use Rattle.std.specs.Prelude.{◌≡◌, ◌∷◌, ◌++◌, [], ℕ, List, Option, IfOk, OnOk};
ghost use Rattle.sql_meaning.specs.Names as named;
ghost use Rattle.sql_meaning.specs.ResolvedShown as shown;
ghost use Rattle.sql_meaning.specs.ResolvedTrees as tree;
ghost use Rattle.sql_meaning.specs.Scopes.{Shape};
ghost use Rattle.sql_names.specs.Onto.{froms_onto};
ghost use Rattle.sql_names.specs.Places.{width};
ghost use Rattle.sql_names.specs.Resolved.{named_range};
ghost use Rattle.sql_names.specs.Shapes.{columns_of};

use crate::boxes::{boxed, pair};
use crate::build as made;
use crate::names::{derived_scope, named_scope};
use crate::queries::ResolvedQuery;
use crate::scope::{Scope, Setting};
use shared_types::{OutOfMemory, Text};
use sql_ast::Correlation;
use sql_meaning::{From, Test};
use sqlite_items::Items;
use std::alloc::Global;

/// Tables of a FROM with their names resolved, and the scope of their ranges.
#[derive(Drop)]
pub(crate) struct ResolvedFrom {
    pub from: Items<From>,
    pub scope: Scope,
}

/// The same of one table, which may be a join.
#[derive(Drop)]
pub(crate) struct ResolvedTable {
    pub table: Box<From>,
    pub scope: Scope,
}

/// The two tables of a join, the number of columns of the right one, and the scope of both.
#[derive(Drop)]
pub(crate) struct ResolvedPair {
    pub left: Box<From>,
    pub right: Box<From>,
    pub width: usize,
    pub scope: Scope,
}

/// The same with the condition of the join.
#[derive(Drop)]
pub(crate) struct ResolvedJoin {
    pub pair: Box<ResolvedPair>,
    pub on: Box<Test>,
}

/// No tables.
pub(crate) fn no_tables(alloc: Global) -> Result<Box<ResolvedFrom>, OutOfMemory>
    ensures from { IfOk result (λ out. out.value.from ≡ []) }
    ensures scope { IfOk result (λ out. out.value.scope ≡ []) }
{
    boxed(
        alloc,
        ResolvedFrom {
            from: Items::new(alloc),
            scope: Scope::new(alloc),
        },
    )
}

/// Adds a table at the end.
pub(crate) fn push_table(
    alloc: Global,
    out: &mut ResolvedFrom,
    next: Box<ResolvedTable>,
) -> Result<(), OutOfMemory>
    ensures from { OnOk result ((rest : tree.Froms) → froms_onto out.new.from rest ≡ froms_onto out.old.from (tree.one_from (shown.from next.value.table.value) rest)) }
    ensures scope { OnOk result (out.new.scope ≡ out.old.scope ++ next.value.scope) }
{
    let ResolvedTable { table, scope } = Box::into_inner(next);
    let pushed = made::push_from(&mut out.from, table);
    out.scope.append(alloc, scope)?;
    pushed
}

/// The tables alone.
pub(crate) fn tables_of(from: Box<ResolvedFrom>) -> Items<From>
    ensures { result ≡ from.value.from }
{
    Box::into_inner(from).from
}

// Two tables side by side.
fn both_tables(
    alloc: Global,
    left: Box<ResolvedTable>,
    right: Box<ResolvedTable>,
) -> Result<Box<ResolvedPair>, OutOfMemory>
    ensures left { IfOk result (λ p. p.value.left.value ≡ left.value.table.value) }
    ensures right { IfOk result (λ p. p.value.right.value ≡ right.value.table.value) }
    ensures width { IfOk result (λ p. p.value.width ≡ width right.value.scope) }
    ensures scope { IfOk result (λ p. p.value.scope ≡ left.value.scope ++ right.value.scope) }
{
    let left = Box::into_inner(left);
    let right = Box::into_inner(right);
    let width = right.scope.width();
    let scope = left.scope.join(alloc, right.scope)?;
    boxed(
        alloc,
        ResolvedPair {
            left: left.table,
            right: right.table,
            width,
            scope,
        },
    )
}

/// Two tables of a join.
pub(crate) fn paired(
    alloc: Global,
    left: Result<Box<ResolvedTable>, OutOfMemory>,
    right: Result<Box<ResolvedTable>, OutOfMemory>,
) -> Result<Box<ResolvedPair>, OutOfMemory>
    ensures left { (a : tree.From) → IfOk left (λ v. shown.from v.value.table.value ≡ a) → IfOk result (λ v. shown.from v.value.left.value ≡ a) }
    ensures right { (a : tree.From) → IfOk right (λ v. shown.from v.value.table.value ≡ a) → IfOk result (λ v. shown.from v.value.right.value ≡ a) }
    ensures width { (a : Shape) → IfOk right (λ v. v.value.scope ≡ a) → IfOk result (λ v. v.value.width ≡ width a) }
    ensures scope { (a b : Shape) → IfOk left (λ v. v.value.scope ≡ a) → IfOk right (λ v. v.value.scope ≡ b) → IfOk result (λ v. v.value.scope ≡ a ++ b) }
{
    let (left, right) = pair(left, right)?;
    both_tables(alloc, left, right)
}

// A table of this scope.
fn resolved(
    alloc: Global,
    table: Result<Box<From>, OutOfMemory>,
    scope: Result<Scope, OutOfMemory>,
) -> Result<Box<ResolvedTable>, OutOfMemory>
    ensures table { (a : tree.From) → IfOk table (λ v. shown.from v.value ≡ a) → IfOk result (λ v. shown.from v.value.table.value ≡ a) }
    ensures scope { (a : Shape) → IfOk scope (λ v. v ≡ a) → IfOk result (λ v. v.value.scope ≡ a) }
{
    let (table, scope) = pair(table, scope)?;
    boxed(alloc, ResolvedTable { table, scope })
}

/// Two tables of a join with its condition.
pub(crate) fn with_condition(
    pair: Box<ResolvedPair>,
    on: Result<Box<Test>, OutOfMemory>,
) -> Result<ResolvedJoin, OutOfMemory>
    ensures left { IfOk result (λ v. v.pair.value.left.value ≡ pair.value.left.value) }
    ensures right { IfOk result (λ v. v.pair.value.right.value ≡ pair.value.right.value) }
    ensures width { IfOk result (λ v. v.pair.value.width ≡ pair.value.width) }
    ensures scope { IfOk result (λ v. v.pair.value.scope ≡ pair.value.scope) }
    ensures on { (a : tree.Test) → IfOk on (λ v. shown.test v.value ≡ a) → IfOk result (λ v. shown.test v.on.value ≡ a) }
{
    let on = on?;
    Ok(ResolvedJoin { pair, on })
}

/// A join.
pub(crate) fn inner_join(
    alloc: Global,
    join: Result<ResolvedJoin, OutOfMemory>,
) -> Result<Box<ResolvedTable>, OutOfMemory>
    ensures table { (a b : tree.From) (p : tree.Test) → IfOk join (λ v. shown.from v.pair.value.left.value ≡ a) → IfOk join (λ v. shown.from v.pair.value.right.value ≡ b) → IfOk join (λ v. shown.test v.on.value ≡ p) → IfOk result (λ v. shown.from v.value.table.value ≡ tree.joined a b p) }
    ensures scope { (a : Shape) → IfOk join (λ v. v.pair.value.scope ≡ a) → IfOk result (λ v. v.value.scope ≡ a) }
{
    let join = join?;
    let pair = Box::into_inner(join.pair);
    let table = made::joined(alloc, pair.left, pair.right, join.on);
    resolved(alloc, table, Ok(pair.scope))
}

/// A left join.
pub(crate) fn left_join(
    alloc: Global,
    join: Result<ResolvedJoin, OutOfMemory>,
) -> Result<Box<ResolvedTable>, OutOfMemory>
    ensures table { (a b : tree.From) (n : ℕ) (p : tree.Test) → IfOk join (λ v. shown.from v.pair.value.left.value ≡ a) → IfOk join (λ v. shown.from v.pair.value.right.value ≡ b) → IfOk join (λ v. v.pair.value.width ≡ n) → IfOk join (λ v. shown.test v.on.value ≡ p) → IfOk result (λ v. shown.from v.value.table.value ≡ tree.left_joined a b n p) }
    ensures scope { (a : Shape) → IfOk join (λ v. v.pair.value.scope ≡ a) → IfOk result (λ v. v.value.scope ≡ a) }
{
    let join = join?;
    let pair = Box::into_inner(join.pair);
    let table = made::left_joined(alloc, pair.left, pair.right, pair.width, join.on);
    resolved(alloc, table, Ok(pair.scope))
}

/// A cross join.
pub(crate) fn cross_join(
    alloc: Global,
    left: Result<Box<ResolvedTable>, OutOfMemory>,
    right: Result<Box<ResolvedTable>, OutOfMemory>,
) -> Result<Box<ResolvedTable>, OutOfMemory>
    ensures table { (a b : tree.From) → IfOk left (λ v. shown.from v.value.table.value ≡ a) → IfOk right (λ v. shown.from v.value.table.value ≡ b) → IfOk result (λ v. shown.from v.value.table.value ≡ tree.crossed a b) }
    ensures scope { (a b : Shape) → IfOk left (λ v. v.value.scope ≡ a) → IfOk right (λ v. v.value.scope ≡ b) → IfOk result (λ v. v.value.scope ≡ a ++ b) }
{
    let pair = Box::into_inner(paired(alloc, left, right)?);
    let table = made::crossed(alloc, pair.left, pair.right);
    resolved(alloc, table, Ok(pair.scope))
}

/// A table or a view.
pub(crate) fn named_table(
    setting: &Setting<'_>,
    name: &Text,
    alias: &Option<Correlation>,
) -> Result<Box<ResolvedTable>, OutOfMemory>
    ensures table { IfOk result (λ v. shown.from v.value.table.value ≡ tree.named name.now) }
    ensures scope { IfOk result (λ v. v.value.scope ≡ named_range (columns_of setting.now) name.now alias.now ∷ []) }
{
    let table = made::named(setting.alloc, name);
    resolved(setting.alloc, table, named_scope(setting, name, alias))
}

/// A subquery in FROM.
pub(crate) fn derived_table(
    alloc: Global,
    q: Result<Box<ResolvedQuery>, OutOfMemory>,
    alias: &Correlation,
) -> Result<Box<ResolvedTable>, OutOfMemory>
    ensures table { (a : tree.Query) → IfOk q (λ v. shown.query v.value.query.value ≡ a) → IfOk result (λ v. shown.from v.value.table.value ≡ tree.derived a) }
    ensures scope { (names : List (Option (List ℕ))) → IfOk q (λ v. v.value.columns ≡ names) → IfOk result (λ v. v.value.scope ≡ (alias.now.name, named.renamed alias.now.columns names) ∷ []) }
{
    let q = Box::into_inner(q?);
    let scope = derived_scope(alloc, alias, q.columns.as_slice());
    resolved(alloc, made::derived(alloc, q.query), scope)
}
