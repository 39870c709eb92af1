// The SELECT of a box.
ghost use Rattle.std.specs.Prelude.{◌≡◌, ◌++◌, if◌then◌else◌, codes, [], OnOk};
ghost use Rattle.graph_sql.specs.Bodies as bodies;
ghost use Rattle.graph_sql.specs.BodyText as text;
ghost use Rattle.graph_sql.specs.Lists as lists;
ghost use Rattle.graph_sql.specs.Scoped as spec;
ghost use Rattle.qgm_core.specs.Kinds.{is_enforce};
ghost use Rattle.qgm_terms.specs.Shown.{terms};

use crate::groups::{is_any_wrapped, put_by, put_group_cells, put_overs};
use crate::names::put_name;
use crate::numbered::{Listed, put_columns, put_numbered};
use crate::scope::{Scope, put_range};
use crate::selects::{each_id, first_ids, put_cells, put_from, put_tests};
use crate::tables::TableNames;
use graph_print::put_word;
use qgm_core::{BaseTable, BoxKind, Distinct, Node, SetOperator};
use qgm_terms::{Gx, QuantId};
use shared_types::{OutOfMemory, Text};
use sql_value::SqlType;
use std::alloc::Global;

// The names of the columns of the first table of a name.
fn columns_of<'a>(tables: &'a [TableNames], name: &Text) -> &'a [Text]
    ensures { result.now ≡ bodies.columns_named tables.now name.now }
{
    for table in tables {
        if table.name == *name {
            return table.columns.as_slice();
        }
    }
    &[]
}

fn put_cast(column: SqlType, out: &mut Text) -> Result<(), OutOfMemory>
    ensures { OnOk result (out.new ≡ out.old ++ text.cast_text column) }
{
    match column {
        SqlType::Integer => put_word(b" AS bigint)", out),
        SqlType::Varchar => put_word(b" AS text) COLLATE \"C\"", out),
    }
}

// A column of a stored table.
#[tactic(auto, unfolding(crate::specs::BodyText::stored_text))]
fn put_stored(name: &Text, column: SqlType, out: &mut Text) -> Result<(), OutOfMemory>
    ensures { OnOk result (out.new ≡ out.old ++ text.stored_text (record { name = name.now; type = column })) }
{
    put_word(b"CAST(t.", out)?;
    put_name(name, out)?;
    put_cast(column, out)
}

// A column of a stored table behind another one.
fn put_next_stored(name: &Text, column: SqlType, out: &mut Text) -> Result<(), OutOfMemory>
    ensures { OnOk result (out.new ≡ out.old ++ text.next_text text.stored_text (record { name = name.now; type = column })) }
{
    put_word(b", ", out)?;
    put_stored(name, column, out)
}

// Columns of a stored table behind a first one.
fn put_more_stored(names: &[Text], types: &[SqlType], out: &mut Text) -> Result<(), OutOfMemory>
    ensures { OnOk result (out.new ≡ out.old ++ lists.more_stored names.now types.now) }
{
    let n = names.len().min(types.len());
    for i in 0..n {
        put_next_stored(&names[i], types[i], out)?;
    }
    Ok(())
}

// The columns of a stored table.
fn put_stored_list(names: &[Text], types: &[SqlType], out: &mut Text) -> Result<(), OutOfMemory>
    ensures { OnOk result (out.new ≡ out.old ++ text.list_text text.stored_text (bodies.stored_columns names.now types.now)) }
{
    let [name, rest @ ..] = names else {
        return put_word(b"1", out);
    };
    let [column, others @ ..] = types else {
        return put_word(b"1", out);
    };
    put_stored(name, *column, out)?;
    put_more_stored(rest, others, out)
}

// The SELECT of a stored table.
#[tactic(auto, unfolding(crate::specs::BodyText::body_text))]
fn put_base(tables: &[TableNames], table: &BaseTable, out: &mut Text) -> Result<(), OutOfMemory>
    ensures { OnOk result (out.new ≡ out.old ++ lists.base_text tables.now table.now) }
{
    put_word(b"SELECT ", out)?;
    put_stored_list(columns_of(tables, &table.name), table.types.as_slice(), out)?;
    put_word(b" FROM ", out)?;
    put_name(&table.name, out)?;
    put_word(b" AS t", out)
}

fn put_distinct(distinct: Distinct, out: &mut Text) -> Result<(), OutOfMemory>
    ensures { OnOk result (out.new ≡ out.old ++ (if is_enforce distinct then codes "DISTINCT " else [])) }
{
    if distinct.is_enforce() {
        put_word(b"DISTINCT ", out)
    } else {
        Ok(())
    }
}

// That of a select.
fn put_select(
    alloc: Global,
    scope: &Scope<'_>,
    node: &Node,
    out: &mut Text,
) -> Result<(), OutOfMemory>
    ensures { OnOk result (out.new ≡ out.old ++ lists.select_text scope.now node.now) }
{
    let ids = each_id(alloc, node.quants.as_slice())?;
    put_word(b"SELECT ", out)?;
    put_distinct(node.parts.distinct, out)?;
    put_cells(scope, node.parts.head.as_slice(), out)?;
    put_from(scope, b", ", &ids, out)?;
    put_tests(scope, b" WHERE ", b"", node.parts.conds.as_slice(), out)
}

// That of an outer join.
fn put_outer(
    alloc: Global,
    scope: &Scope<'_>,
    node: &Node,
    out: &mut Text,
) -> Result<(), OutOfMemory>
    ensures { OnOk result (out.new ≡ out.old ++ lists.outer_text scope.now node.now) }
{
    let ids = first_ids(alloc, node.quants.as_slice(), 2)?;
    put_word(b"SELECT ", out)?;
    put_cells(scope, node.parts.head.as_slice(), out)?;
    put_from(scope, b" LEFT JOIN ", &ids, out)?;
    put_tests(
        scope,
        b" ON ",
        b" ON TRUE",
        node.parts.conds.as_slice(),
        out,
    )
}

// The SELECT that groups.
fn put_inner(
    scope: &Scope<'_>,
    keys: usize,
    head: &[Gx],
    ids: &[QuantId],
    out: &mut Text,
) -> Result<(), OutOfMemory>
    ensures { OnOk result (out.new ≡ out.old ++ lists.inner_text scope.now keys (terms head.now) ids.now) }
{
    put_word(b"SELECT ", out)?;
    put_group_cells(scope, head, out)?;
    put_from(scope, b", ", ids, out)?;
    put_by(keys, head, out)
}

// The FROM item that groups.
fn put_item(
    scope: &Scope<'_>,
    keys: usize,
    head: &[Gx],
    ids: &[QuantId],
    out: &mut Text,
) -> Result<(), OutOfMemory>
    ensures { OnOk result (out.new ≡ out.old ++ lists.item_text scope.now keys (terms head.now) ids.now) }
{
    put_word(b" FROM (", out)?;
    put_inner(scope, keys, head, ids, out)?;
    put_word(b") AS g", out)?;
    put_columns(head.len(), out)
}

// That of a group some of whose cells are made outside it.
fn put_wrapped(
    scope: &Scope<'_>,
    keys: usize,
    head: &[Gx],
    ids: &[QuantId],
    out: &mut Text,
) -> Result<(), OutOfMemory>
    ensures { OnOk result (out.new ≡ out.old ++ lists.wrapped_text scope.now keys (terms head.now) ids.now) }
{
    put_word(b"SELECT ", out)?;
    put_overs(head, out)?;
    put_item(scope, keys, head, ids, out)
}

// That of a group.
fn put_group(
    scope: &Scope<'_>,
    keys: usize,
    head: &[Gx],
    ids: &[QuantId],
    out: &mut Text,
) -> Result<(), OutOfMemory>
    ensures { OnOk result (out.new ≡ out.old ++ lists.group_by_text scope.now keys (terms head.now) ids.now) }
{
    if is_any_wrapped(head) {
        put_wrapped(scope, keys, head, ids, out)
    } else {
        put_inner(scope, keys, head, ids, out)
    }
}

fn put_operator(operator: SetOperator, out: &mut Text) -> Result<(), OutOfMemory>
    ensures { OnOk result (out.new ≡ out.old ++ text.operator_word operator) }
{
    match operator {
        SetOperator::Union => put_word(b" UNION ", out),
        SetOperator::UnionAll => put_word(b" UNION ALL ", out),
        SetOperator::Intersect => put_word(b" INTERSECT ", out),
        SetOperator::IntersectAll => put_word(b" INTERSECT ALL ", out),
        SetOperator::Except => put_word(b" EXCEPT ", out),
        SetOperator::ExceptAll => put_word(b" EXCEPT ALL ", out),
    }
}

// The columns of an arm.
fn put_arm_cells(
    scope: &Scope<'_>,
    width: usize,
    q: QuantId,
    out: &mut Text,
) -> Result<(), OutOfMemory>
    ensures { OnOk result (out.new ≡ out.old ++ text.arm_cells (spec.number_in scope.now) width q) }
{
    if width == 0 {
        put_word(b"1", out)
    } else {
        put_numbered(Listed::Of(scope.at.place_of(q)), width, out)
    }
}

// An arm of a set operation.
fn put_arm(scope: &Scope<'_>, width: usize, q: QuantId, out: &mut Text) -> Result<(), OutOfMemory>
    ensures { OnOk result (out.new ≡ out.old ++ lists.arm_text scope.now width q) }
{
    put_word(b"SELECT ", out)?;
    put_arm_cells(scope, width, q, out)?;
    put_word(b" FROM ", out)?;
    put_range(scope, q, out)
}

// An arm behind another one.
fn put_next_arm(
    scope: &Scope<'_>,
    operator: SetOperator,
    width: usize,
    q: QuantId,
    out: &mut Text,
) -> Result<(), OutOfMemory>
    ensures { OnOk result (out.new ≡ out.old ++ lists.next_arm scope.now operator width q) }
{
    put_operator(operator, out)?;
    put_arm(scope, width, q, out)
}

// Arms behind a first one.
fn put_more_arms(
    scope: &Scope<'_>,
    operator: SetOperator,
    width: usize,
    ids: &[QuantId],
    out: &mut Text,
) -> Result<(), OutOfMemory>
    ensures { OnOk result (out.new ≡ out.old ++ lists.more_arms scope.now operator width ids.now) }
{
    for q in ids {
        put_next_arm(scope, operator, width, *q, out)?;
    }
    Ok(())
}

// That of a set operation.
fn put_arms(
    scope: &Scope<'_>,
    operator: SetOperator,
    width: usize,
    ids: &[QuantId],
    out: &mut Text,
) -> Result<(), OutOfMemory>
    ensures { OnOk result (out.new ≡ out.old ++ lists.arms_text scope.now operator width ids.now) }
{
    match ids {
        [] => Ok(()),
        [first, rest @ ..] => {
            put_arm(scope, width, *first, out)?;
            put_more_arms(scope, operator, width, rest, out)
        }
    }
}

// That of a box, part by part.
fn put_parts(
    alloc: Global,
    tables: &[TableNames],
    scope: &Scope<'_>,
    node: &Node,
    out: &mut Text,
) -> Result<(), OutOfMemory>
    ensures { OnOk result (out.new ≡ out.old ++ lists.node_text tables.now scope.now node.now) }
{
    match &node.parts.kind {
        BoxKind::Base(table) => put_base(tables, table, out),
        BoxKind::Select => put_select(alloc, scope, node, out),
        BoxKind::Group(keys) => {
            let ids = first_ids(alloc, node.quants.as_slice(), 1)?;
            put_group(scope, *keys, node.parts.head.as_slice(), &ids, out)
        }
        BoxKind::SetOp(operator, types) => {
            let ids = first_ids(alloc, node.quants.as_slice(), 2)?;
            put_arms(scope, *operator, types.as_slice().len(), &ids, out)
        }
        BoxKind::OuterJoin => put_outer(alloc, scope, node, out),
    }
}

/// Adds the SELECT of a box.
pub fn put_body(
    alloc: Global,
    tables: &[TableNames],
    scope: &Scope<'_>,
    node: &Node,
    out: &mut Text,
) -> Result<(), OutOfMemory>
    ensures { OnOk result (out.new ≡ out.old ++ text.body_text (spec.number_in scope.now) (bodies.body_sql (spec.names_in scope.now) tables.now node.now)) }
{
    put_parts(alloc, tables, scope, node, out)
}
