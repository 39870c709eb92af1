// Queries with their names resolved, of parts that are resolved.
ghost use Rattle.std.specs.Prelude.{◌≡◌, ℕ, List, Option, length, IfOk};
ghost use Rattle.sql_meaning.specs.Groups.{is_distinct};
ghost use Rattle.sql_meaning.specs.ResolvedShown as shown;
ghost use Rattle.sql_meaning.specs.ResolvedTrees as tree;
ghost use Rattle.sql_names.specs.Places as places;

use crate::boxes::{boxed, pair};
use crate::build as made;
use crate::grouping::grouping_places;
use crate::tables::{ResolvedFrom, tables_of};
use shared_types::OutOfMemory;
use sql_ast::{Block, SetOperator, SetQuantifier};
use sql_meaning::{Query, Test, Value};
use sql_value::OutNames;
use sqlite_items::Items;
use std::alloc::Global;

/// A query with its names resolved, and the names of its columns.
#[derive(Drop)]
pub(crate) struct ResolvedQuery {
    pub query: Box<Query>,
    pub columns: OutNames,
}

/// A query whose columns have these names.
pub(crate) fn resolved(
    alloc: Global,
    query: Result<Box<Query>, OutOfMemory>,
    columns: Result<OutNames, OutOfMemory>,
) -> Result<Box<ResolvedQuery>, OutOfMemory>
    ensures query { (a : tree.Query) → IfOk query (λ v. shown.query v.value ≡ a) → IfOk result (λ v. shown.query v.value.query.value ≡ a) }
    ensures columns { (names : List (Option (List ℕ))) → IfOk columns (λ v. v ≡ names) → IfOk result (λ v. v.value.columns ≡ names) }
{
    let (query, columns) = pair(query, columns)?;
    boxed(alloc, ResolvedQuery { query, columns })
}

/// A query whose columns need no names.
pub(crate) fn query_of(
    q: Result<Box<ResolvedQuery>, OutOfMemory>,
) -> Result<Box<Query>, OutOfMemory>
    ensures { (a : tree.Query) → IfOk q (λ v. shown.query v.value.query.value ≡ a) → IfOk result (λ v. shown.query v.value ≡ a) }
{
    Ok(Box::into_inner(q?).query)
}

/// UNION or EXCEPT, which has the columns of its left operand.
pub(crate) fn combine(
    alloc: Global,
    left: Result<Box<ResolvedQuery>, OutOfMemory>,
    op: SetOperator,
    all: bool,
    right: Result<Box<ResolvedQuery>, OutOfMemory>,
) -> Result<Box<ResolvedQuery>, OutOfMemory>
    ensures query { (a b : tree.Query) (names : List (Option (List ℕ))) → IfOk left (λ v. shown.query v.value.query.value ≡ a) → IfOk left (λ v. v.value.columns ≡ names) → IfOk right (λ v. shown.query v.value.query.value ≡ b) → IfOk result (λ v. shown.query v.value.query.value ≡ tree.combine a op all (length names) b) }
    ensures columns { (names : List (Option (List ℕ))) → IfOk left (λ v. v.value.columns ≡ names) → IfOk result (λ v. v.value.columns ≡ names) }
{
    let (left, right) = pair(left, query_of(right))?;
    let ResolvedQuery { query, columns } = Box::into_inner(left);
    let query = made::combine(alloc, query, op, all, columns.len(), right);
    resolved(alloc, query, Ok(columns))
}

/// INTERSECT, likewise.
pub(crate) fn intersect(
    alloc: Global,
    left: Result<Box<ResolvedQuery>, OutOfMemory>,
    all: bool,
    right: Result<Box<ResolvedQuery>, OutOfMemory>,
) -> Result<Box<ResolvedQuery>, OutOfMemory>
    ensures query { (a b : tree.Query) (names : List (Option (List ℕ))) → IfOk left (λ v. shown.query v.value.query.value ≡ a) → IfOk left (λ v. v.value.columns ≡ names) → IfOk right (λ v. shown.query v.value.query.value ≡ b) → IfOk result (λ v. shown.query v.value.query.value ≡ tree.intersect a all (length names) b) }
    ensures columns { (names : List (Option (List ℕ))) → IfOk left (λ v. v.value.columns ≡ names) → IfOk result (λ v. v.value.columns ≡ names) }
{
    let (left, right) = pair(left, query_of(right))?;
    let ResolvedQuery { query, columns } = Box::into_inner(left);
    let query = made::intersect(alloc, query, all, columns.len(), right);
    resolved(alloc, query, Ok(columns))
}

/// A block that isn't grouped.
pub(crate) fn ungrouped(
    alloc: Global,
    quantifier: Option<SetQuantifier>,
    list: Result<Items<Value>, OutOfMemory>,
    from: Box<ResolvedFrom>,
    by: Result<Box<Test>, OutOfMemory>,
) -> Result<Box<Query>, OutOfMemory>
    ensures { (a : tree.Values) (b : tree.Test) → IfOk list (λ v. shown.value_list v ≡ a) → IfOk by (λ v. shown.test v.value ≡ b) → IfOk result (λ v. shown.query v.value ≡ tree.block (is_distinct quantifier) a (shown.from_list from.value.from) b) }
{
    let (list, by) = pair(list, by)?;
    made::block(alloc, made::distinct(quantifier), list, tables_of(from), by)
}

/// A grouped block.
pub(crate) fn grouped(
    alloc: Global,
    b: &Block,
    list: Result<Items<Value>, OutOfMemory>,
    from: Box<ResolvedFrom>,
    by: Result<Box<Test>, OutOfMemory>,
    having: Result<Box<Test>, OutOfMemory>,
) -> Result<Box<Query>, OutOfMemory>
    ensures { (x : tree.Values) (p r : tree.Test) → IfOk list (λ v. shown.value_list v ≡ x) → IfOk by (λ v. shown.test v.value ≡ p) → IfOk having (λ v. shown.test v.value ≡ r) → IfOk result (λ v. shown.query v.value ≡ tree.grouped (is_distinct b.now.quantifier) x (shown.from_list from.value.from) p (places.grouping_places b.now.grouping from.value.scope) (places.width from.value.scope) r) }
{
    let (list, (by, having)) = pair(list, pair(by, having))?;
    let places = grouping_places(alloc, b.grouping.as_slice(), &from.scope)?;
    let groups = made::Groups {
        places,
        width: from.scope.width(),
        having,
    };
    let distinct = made::distinct(b.quantifier);
    made::grouped(alloc, distinct, list, tables_of(from), by, groups)
}
