// The groups of a box (SQL-92, 7.7 and 6.5).
ghost use Rattle.std.specs.Prelude.{◌≡◌, ◌≤◌, [], ◌++◌, drop, length, map, take, IfOk, IsOkAnd, OnOk};
ghost use Rattle.box_exec.specs.Bound.{env_of};
ghost use Rattle.box_exec.specs.Groups as spec;
ghost use Rattle.box_exec.specs.Sources.{held};
ghost use Rattle.group_states.specs.Groups.{HasRows};
ghost use Rattle.qgm_meaning.specs.Aggregated as a;
ghost use Rattle.qgm_meaning.specs.Meaning as m;
ghost use Rattle.qgm_terms.specs.Shown.{aggregate, taken, term, terms};
ghost use Rattle.row_bag.specs.Bags.{Alike};
ghost use Rattle.row_bag.specs.Errors.{error_among, error_in};
ghost use Rattle.row_bag.specs.Groups.{key_error};
ghost use Rattle.row_bag.specs.RowRefs.{lent};

use crate::bindings::Bindings;
use crate::evaluation::value;
use crate::heads::append_head;
use group_states::{Fold, GroupTable, append_values, states_of, take_row};
use qgm_core::{Gx, QuantId};
use row_bag::{Bag, Operand, Row, RowRef, error_at, failed_row, key_error_of, worst_of};
use shared_types::OutOfMemory;
use sql_value::{Aggregate, Cell, Kind, Level, Taken};
use sqlite_items::Items;
use std::alloc::Global;

// An aggregate of an expression, as one of cells.
fn aggregate_of(f: qgm_terms::Aggregate) -> Aggregate
    ensures { result ≡ a.aggregate_of (aggregate f) }
{
    match f {
        qgm_terms::Aggregate::Single => Aggregate::Single,
        qgm_terms::Aggregate::Count => Aggregate::Count,
        qgm_terms::Aggregate::Sum => Aggregate::Sum,
        qgm_terms::Aggregate::Avg => Aggregate::Avg,
        qgm_terms::Aggregate::Min => Aggregate::Min,
        qgm_terms::Aggregate::Max => Aggregate::Max,
    }
}

// Which cells an aggregate takes.
fn taken_of(each: qgm_terms::Taken) -> Taken
    ensures { result ≡ a.taken_of (taken each) }
{
    match each {
        qgm_terms::Taken::All => Taken::All,
        qgm_terms::Taken::Once => Taken::Distinct,
    }
}

// The cell of a group that a term of a head is.
fn fold_of(x: &Gx) -> Fold
    ensures { result ≡ spec.fold_of (term x.now) }
{
    match x {
        Gx::CountAll => Fold::Rows,
        Gx::Fold(f, each, _) => Fold::Of(aggregate_of(*f), taken_of(*each)),
        Gx::Chain(a, list) => if list.is_empty() {
            fold_of(a)
        } else {
            Fold::Nothing
        },
        // A group has no other cell.
        Gx::Int(_)
        | Gx::Text(_)
        | Gx::NullInt
        | Gx::NullText
        | Gx::Col(_, _)
        | Gx::Scalar(_)
        | Gx::Neg(_)
        | Gx::Case(_, _) => Fold::Nothing,
    }
}

// The cells of a group that the terms of a head are.
fn folds_of(alloc: Global, folds: &[Gx]) -> Result<Vec<Fold>, OutOfMemory>
    ensures { IfOk result (λ made. made.items ≡ map spec.fold_of (terms folds.now)) }
{
    let mut made = Vec::with_capacity(alloc, folds.len())?;
    for x in folds {
        made.push(fold_of(x))?;
    }
    Ok(made)
}

// What such a cell takes of a row; null where it is no aggregate.
fn argument(alloc: Global, x: &Gx, inside: &Bindings) -> Result<Cell, OutOfMemory>
    ensures { IfOk result (λ cell. cell ≡ spec.argument_of (term x.now) (env_of inside.now)) }
{
    match x {
        Gx::Fold(_, _, a) => value(alloc, a, &[], inside),
        Gx::Chain(a, list) => {
            if list.is_empty() {
                argument(alloc, a, inside)
            } else {
                Ok(Cell::Null)
            }
        }
        Gx::CountAll
        | Gx::Int(_)
        | Gx::Text(_)
        | Gx::NullInt
        | Gx::NullText
        | Gx::Col(_, _)
        | Gx::Scalar(_)
        | Gx::Neg(_)
        | Gx::Case(_, _) => Ok(Cell::Null),
    }
}

// Adds what each such cell takes of a row.
fn append_arguments(
    alloc: Global,
    folds: &[Gx],
    inside: &Bindings,
    out: &mut Vec<Cell>,
) -> Result<(), OutOfMemory>
    ensures { OnOk result (out.new.items ≡ out.old.items ++ spec.arguments_in (terms folds.now) (env_of inside.now)) }
{
    for x in folds {
        out.push(argument(alloc, x, inside)?)?;
    }
    Ok(())
}

// The key of a row, and then what each other cell of its group takes of it, at its level.
fn asked(
    alloc: Global,
    keys: &[Gx],
    folds: &[Gx],
    quant: QuantId,
    row: RowRef<'_>,
    env: &Bindings,
) -> Result<Row, OutOfMemory>
    ensures { IfOk result (λ made. made ≡ spec.asked (terms keys.now) (terms folds.now) quant (env_of env.now) (lent row.entry)) }
{
    let inside = Bindings::Row(quant, row.cells, &*env);
    let mut cells = Vec::with_capacity(alloc, keys.len().saturating_add(folds.len()))?;
    append_head(alloc, keys, &[], &inside, &mut cells)?;
    append_arguments(alloc, folds, &inside, &mut cells)?;
    Ok(Row {
        cells: Items::from_vec(cells),
        level: row.level,
    })
}

/// Groups of rows, and the greatest error among the levels and keys of the rows.
#[derive(Drop)]
struct KeyedGroups {
    table: GroupTable,
    error: Option<Kind>,
}

// The groups of rows by their keys.
fn groups_of(
    alloc: Global,
    keys: &[Gx],
    folds: &[Gx],
    quant: QuantId,
    rows: &Bag,
    env: &Bindings,
) -> Result<KeyedGroups, OutOfMemory>
    ensures table { IfOk result (λ made. HasRows (length keys.now) (map spec.fold_of (terms folds.now)) (map (spec.asked (terms keys.now) (terms folds.now) quant (env_of env.now)) rows.now) made.table) }
    ensures error { IfOk result (λ made. made.error ≡ key_error (length keys.now) (map (spec.asked (terms keys.now) (terms folds.now) quant (env_of env.now)) rows.now)) }
{
    let mut table = GroupTable::new(alloc, keys.len(), folds_of(alloc, folds)?)?;
    let mut error = None;
    for i in 0..rows.len() {
        let made = asked(alloc, keys, folds, quant, rows.at(i), env)?;
        error = worst_of(error, key_error_of(&made, keys.len()));
        table = table.taken(alloc, &made)?;
    }
    Ok(KeyedGroups { table, error })
}

// One row for each tuple of these first cells of a head.
fn by_keys(
    alloc: Global,
    keys: &[Gx],
    folds: &[Gx],
    quant: QuantId,
    rows: &Bag,
    env: &Bindings,
) -> Result<Bag, OutOfMemory>
    ensures { IfOk result (λ made. Alike made (spec.by_keys (terms keys.now) (terms folds.now) quant (env_of env.now) rows.now)) }
{
    let KeyedGroups { table, error } = groups_of(alloc, keys, folds, quant, rows, env)?;
    match error {
        Some(kind) => failed_row(alloc, keys.len() + folds.len(), kind),
        None => table.into_rows(alloc),
    }
}

// The error that the level of a row is.
fn level_error_of(row: RowRef<'_>) -> Option<Kind>
    ensures { result ≡ spec.level_error_of (lent row.entry) }
{
    error_at(row.level)
}

// The greatest error that the level of a row is.
fn level_error(rows: &Bag) -> Option<Kind>
    ensures { result ≡ error_among (λ cells. error_in []) rows.now }
{
    let mut found = None;
    for i in 0..rows.len() {
        found = worst_of(found, level_error_of(rows.at(i)));
    }
    found
}

// The cells of one group of all rows.
fn whole_cells(
    alloc: Global,
    folds: &[Gx],
    quant: QuantId,
    rows: &Bag,
    env: &Bindings,
) -> Result<Vec<Cell>, OutOfMemory>
    ensures { IfOk result (λ cells. cells.items ≡ map (m.fold_cell quant (env_of env.now) rows.now) (terms folds.now)) }
{
    let asked_for = folds_of(alloc, folds)?;
    let mut states = states_of(alloc, &asked_for)?;
    for i in 0..rows.len() {
        let made = asked(alloc, &[], folds, quant, rows.at(i), env)?;
        take_row(alloc, &mut states, 0, &made)?;
    }
    let mut cells = Vec::with_capacity(alloc, folds.len())?;
    append_values(alloc, states, &mut cells)?;
    Ok(cells)
}

// All rows as one group.
fn whole(
    alloc: Global,
    folds: &[Gx],
    quant: QuantId,
    rows: &Bag,
    env: &Bindings,
) -> Result<Bag, OutOfMemory>
    ensures { IfOk result (λ made. made ≡ m.grouped_rows 0 (terms folds.now) quant (env_of env.now) rows.now) }
{
    if let Some(kind) = level_error(rows) {
        return failed_row(alloc, folds.len(), kind);
    }
    let cells = whole_cells(alloc, folds, quant, rows, env)?;
    let mut made = Bag::new(alloc);
    made.push(Row {
        cells: Items::from_vec(cells),
        level: Level::Yes,
    })?;
    Ok(made)
}

// The first cells of a head, so many.
fn first_cells(head: &[Gx], n: usize) -> &[Gx]
    requires { n ≤ length head.now }
    ensures { result.now ≡ take n head.now }
{
    &head[..n]
}

// The others.
fn last_cells(head: &[Gx], n: usize) -> &[Gx]
    requires { n ≤ length head.now }
    ensures { result.now ≡ drop n head.now }
{
    &head[n..]
}

// The groups of rows of a quantifier by the first cells of a head, so many: one row for each group,
// or one row of the greatest error, where a row is at an error level or a key cell is an error.
fn in_groups(
    alloc: Global,
    keys: usize,
    head: &[Gx],
    quant: QuantId,
    rows: &Bag,
    env: &Bindings,
) -> Result<Bag, OutOfMemory>
    ensures { IfOk result (λ made. Alike made (m.grouped_rows keys (terms head.now) quant (env_of env.now) rows.now)) }
{
    if keys == 0 {
        return whole(alloc, head, quant, rows, env);
    }
    let n = keys.min(head.len());
    let first = first_cells(head, n);
    let last = last_cells(head, n);
    by_keys(alloc, first, last, quant, rows, env)
}

/// The groups of rows of a quantifier by the first cells of a head, so many: one row for each group,
/// or one row of the greatest error, where a row is at an error level or a key cell is an error. It
/// fails where the rows do, or for want of memory.
pub(crate) fn grouped(
    alloc: Global,
    keys: usize,
    head: &[Gx],
    quant: QuantId,
    rows: Result<Operand<'_>, OutOfMemory>,
    env: &Bindings,
) -> Result<Bag, OutOfMemory>
    ensures { IfOk result (λ made. IsOkAnd rows.entry (λ s. Alike made (m.grouped_rows keys (terms head.now) quant (env_of env.now) (held s)))) }
{
    let rows = rows?;
    in_groups(alloc, keys, head, quant, rows.rows(), env)
}
