// The lines of a graph, added to a text.
ghost use Rattle.std.specs.Prelude.{◌≡◌, ◌++◌, OnOk};
ghost use Rattle.std.specs.List.{flat_map};
ghost use Rattle.graph_print.specs.GraphText as spec;
ghost use Rattle.qgm_wellformed.specs.Types.{lookup_by};
ghost use Rattle.qgm_terms.specs.Shown.{cond, conds, term, terms};

use crate::numbers::Places;
use crate::terms::{put_cond, put_term};
use crate::writing::{put_doubled, put_number, put_word};
use qgm_core::{BoxKind, Distinct, Node, OwnedQuant, QuantKind, Role, SetOperator};
use qgm_terms::{Gc, Gx};
use qgm_wellformed::{KnownTypes, cell_type};
use shared_types::{OutOfMemory, Text};
use sql_value::{OrderKey, SqlType};

/// Adds a name in quotes. It fails only for want of memory.
pub fn put_quoted(name: &Text, out: &mut Text) -> Result<(), OutOfMemory>
    ensures { OnOk result (out.new ≡ out.old ++ spec.quoted name.now) }
{
    put_word(b"\"", out)?;
    put_doubled('"', name, out)?;
    put_word(b"\"", out)
}

// The name of an output column.
#[tactic(auto, unfolding(crate::specs::GraphText::name_text))]
fn put_name(name: &Option<Text>, out: &mut Text) -> Result<(), OutOfMemory>
    ensures { OnOk result (out.new ≡ out.old ++ spec.name_text name.now) }
{
    match name {
        Some(name) => {
            put_word(b" ", out)?;
            put_quoted(name, out)
        }
        None => put_word(b" -", out),
    }
}

fn put_names(names: &[Option<Text>], out: &mut Text) -> Result<(), OutOfMemory>
    ensures { OnOk result (out.new ≡ out.old ++ flat_map spec.name_text names.now) }
{
    for name in names {
        put_name(name, out)?;
    }
    Ok(())
}

/// Adds the line of the output columns.
pub fn put_out_line(names: &[Option<Text>], out: &mut Text) -> Result<(), OutOfMemory>
    ensures { OnOk result (out.new ≡ out.old ++ spec.out_line names.now) }
{
    put_word(b"out", out)?;
    put_names(names, out)?;
    put_word(b"\n", out)
}

// A key of the order.
#[tactic(auto, unfolding(crate::specs::GraphText::key_text))]
fn put_key(key: OrderKey, out: &mut Text) -> Result<(), OutOfMemory>
    ensures { OnOk result (out.new ≡ out.old ++ spec.key_text key) }
{
    put_word(b" ", out)?;
    put_number(key.column, out)?;
    if key.descending {
        put_word(b" desc", out)
    } else {
        put_word(b" asc", out)
    }
}

fn put_keys(keys: &[OrderKey], out: &mut Text) -> Result<(), OutOfMemory>
    ensures { OnOk result (out.new ≡ out.old ++ flat_map spec.key_text keys.now) }
{
    for key in keys {
        put_key(*key, out)?;
    }
    Ok(())
}

/// Adds the line of the order.
pub fn put_order_line(keys: &[OrderKey], out: &mut Text) -> Result<(), OutOfMemory>
    ensures { OnOk result (out.new ≡ out.old ++ spec.order_line keys.now) }
{
    put_word(b"order", out)?;
    put_keys(keys, out)?;
    put_word(b"\n", out)
}

fn put_quant_kind(kind: QuantKind, out: &mut Text) -> Result<(), OutOfMemory>
    ensures { OnOk result (out.new ≡ out.old ++ spec.kind_word kind) }
{
    match kind {
        QuantKind::F => put_word(b" F ", out),
        QuantKind::E => put_word(b" E ", out),
        QuantKind::A => put_word(b" A ", out),
        QuantKind::S => put_word(b" S ", out),
    }
}

fn put_distinct(distinct: Distinct, out: &mut Text) -> Result<(), OutOfMemory>
    ensures { OnOk result (out.new ≡ out.old ++ spec.distinct_word distinct) }
{
    match distinct {
        Distinct::Enforce => put_word(b" enforce", out),
        Distinct::Preserve => put_word(b" preserve", out),
        Distinct::Permit => put_word(b" permit", out),
    }
}

fn put_role(role: Role, out: &mut Text) -> Result<(), OutOfMemory>
    ensures { OnOk result (out.new ≡ out.old ++ spec.role_word role) }
{
    match role {
        Role::Plain => put_word(b" plain", out),
        Role::Magic => put_word(b" magic", out),
        Role::Fed => put_word(b" fed", out),
    }
}

fn put_operator(operator: SetOperator, out: &mut Text) -> Result<(), OutOfMemory>
    ensures { OnOk result (out.new ≡ out.old ++ spec.operator_word operator) }
{
    match operator {
        SetOperator::Union => put_word(b" union", out),
        SetOperator::UnionAll => put_word(b" union-all", out),
        SetOperator::Intersect => put_word(b" intersect", out),
        SetOperator::IntersectAll => put_word(b" intersect-all", out),
        SetOperator::Except => put_word(b" except", out),
        SetOperator::ExceptAll => put_word(b" except-all", out),
    }
}

fn put_type(known: Option<SqlType>, out: &mut Text) -> Result<(), OutOfMemory>
    ensures { OnOk result (out.new ≡ out.old ++ spec.type_word known) }
{
    match known {
        Some(SqlType::Integer) => put_word(b"int", out),
        Some(SqlType::Varchar) => put_word(b"text", out),
        None => put_word(b"none", out),
    }
}

fn put_closed(closed: bool, out: &mut Text) -> Result<(), OutOfMemory>
    ensures { OnOk result (out.new ≡ out.old ++ spec.closed_word closed) }
{
    if closed {
        put_word(b" closed", out)
    } else {
        put_word(b" open", out)
    }
}

// What a box is.
#[tactic(auto, unfolding(crate::specs::GraphText::kind_text))]
fn put_kind(
    kind: &BoxKind,
    distinct: Distinct,
    role: Role,
    out: &mut Text,
) -> Result<(), OutOfMemory>
    ensures { OnOk result (out.new ≡ out.old ++ spec.kind_text kind.now distinct role) }
{
    match kind {
        BoxKind::Base(table) => {
            put_word(b" base ", out)?;
            put_quoted(&table.name, out)
        }
        BoxKind::Select => {
            put_word(b" select", out)?;
            put_distinct(distinct, out)?;
            put_role(role, out)
        }
        BoxKind::Group(keys) => {
            put_word(b" group ", out)?;
            put_number(*keys, out)
        }
        BoxKind::SetOp(operator, _) => {
            put_word(b" setop", out)?;
            put_operator(*operator, out)
        }
        BoxKind::OuterJoin => put_word(b" outerjoin", out),
    }
}

/// Adds the first line of a box.
#[tactic(auto, unfolding(crate::specs::GraphText::box_line))]
pub fn put_box_line(
    number: usize,
    closed: bool,
    node: &Node,
    out: &mut Text,
) -> Result<(), OutOfMemory>
    ensures { OnOk result (out.new ≡ out.old ++ spec.box_line number closed node.now) }
{
    put_word(b"box ", out)?;
    put_number(number, out)?;
    put_kind(&node.parts.kind, node.parts.distinct, node.parts.role, out)?;
    put_closed(closed, out)?;
    put_word(b"\n", out)
}

// The line of a quantifier.
#[tactic(auto, unfolding(crate::specs::GraphText::quant_line))]
fn put_quant_line(
    boxes: &Places,
    quants: &Places,
    range: OwnedQuant,
    out: &mut Text,
) -> Result<(), OutOfMemory>
    ensures { OnOk result (out.new ≡ out.old ++ spec.quant_line boxes.now quants.now range) }
{
    put_word(b"quant ", out)?;
    put_number(quants.place_of(range.id), out)?;
    put_quant_kind(range.kind, out)?;
    put_number(boxes.place_of(range.over), out)?;
    put_word(b"\n", out)
}

fn put_quant_lines(
    boxes: &Places,
    quants: &Places,
    ranges: &[OwnedQuant],
    out: &mut Text,
) -> Result<(), OutOfMemory>
    ensures { OnOk result (out.new ≡ out.old ++ flat_map (spec.quant_line boxes.now quants.now) ranges.now) }
{
    for range in ranges {
        put_quant_line(boxes, quants, *range, out)?;
    }
    Ok(())
}

fn put_cond_word(kind: &BoxKind, out: &mut Text) -> Result<(), OutOfMemory>
    ensures { OnOk result (out.new ≡ out.old ++ spec.cond_word kind.now) }
{
    match kind {
        BoxKind::OuterJoin => put_word(b"on ", out),
        BoxKind::Base(_) | BoxKind::Select | BoxKind::Group(_) | BoxKind::SetOp(_, _) => {
            put_word(b"where ", out)
        }
    }
}

// The line of a condition.
#[tactic(auto, unfolding(crate::specs::GraphText::cond_line))]
fn put_cond_line(quants: &Places, kind: &BoxKind, c: &Gc, out: &mut Text) -> Result<(), OutOfMemory>
    ensures { OnOk result (out.new ≡ out.old ++ spec.cond_line quants.now kind.now (cond c.now)) }
{
    put_cond_word(kind, out)?;
    put_cond(quants, c, out)?;
    put_word(b"\n", out)
}

fn put_cond_lines(
    quants: &Places,
    kind: &BoxKind,
    list: &[Gc],
    out: &mut Text,
) -> Result<(), OutOfMemory>
    ensures { OnOk result (out.new ≡ out.old ++ flat_map (spec.cond_line quants.now kind.now) (conds list.now)) }
{
    for c in list {
        put_cond_line(quants, kind, c, out)?;
    }
    Ok(())
}

// The line of a column by its type alone.
#[tactic(auto, unfolding(crate::specs::GraphText::type_line))]
fn put_type_line(column: SqlType, out: &mut Text) -> Result<(), OutOfMemory>
    ensures { OnOk result (out.new ≡ out.old ++ spec.type_line column) }
{
    put_word(b"head ", out)?;
    put_type(Some(column), out)?;
    put_word(b"\n", out)
}

fn put_type_lines(types: &[SqlType], out: &mut Text) -> Result<(), OutOfMemory>
    ensures { OnOk result (out.new ≡ out.old ++ flat_map spec.type_line types.now) }
{
    for column in types {
        put_type_line(*column, out)?;
    }
    Ok(())
}

// The line of a column by its type and its cell.
#[tactic(auto, unfolding(crate::specs::GraphText::cell_line))]
fn put_cell_line(
    types: &KnownTypes,
    quants: &Places,
    x: &Gx,
    out: &mut Text,
) -> Result<(), OutOfMemory>
    ensures { OnOk result (out.new ≡ out.old ++ spec.cell_line (lookup_by types.now) quants.now (term x.now)) }
{
    put_word(b"head ", out)?;
    put_type(cell_type(types, x), out)?;
    put_word(b" ", out)?;
    put_term(quants, x, out)?;
    put_word(b"\n", out)
}

fn put_cell_lines(
    types: &KnownTypes,
    quants: &Places,
    list: &[Gx],
    out: &mut Text,
) -> Result<(), OutOfMemory>
    ensures { OnOk result (out.new ≡ out.old ++ flat_map (spec.cell_line (lookup_by types.now) quants.now) (terms list.now)) }
{
    for x in list {
        put_cell_line(types, quants, x, out)?;
    }
    Ok(())
}

// The lines of the columns.
fn put_head_lines(
    types: &KnownTypes,
    quants: &Places,
    node: &Node,
    out: &mut Text,
) -> Result<(), OutOfMemory>
    ensures { OnOk result (out.new ≡ out.old ++ spec.head_lines (lookup_by types.now) quants.now node.now.parts.kind node.now.parts.head) }
{
    match &node.parts.kind {
        BoxKind::Base(table) => put_type_lines(table.types.as_slice(), out),
        BoxKind::SetOp(_, columns) => put_type_lines(columns.as_slice(), out),
        BoxKind::Select | BoxKind::Group(_) | BoxKind::OuterJoin => {
            put_cell_lines(types, quants, node.parts.head.as_slice(), out)
        }
    }
}

/// Adds the lines of a box behind its first one.
#[tactic(auto, unfolding(crate::specs::GraphText::part_lines))]
pub fn put_part_lines(
    types: &KnownTypes,
    boxes: &Places,
    quants: &Places,
    node: &Node,
    out: &mut Text,
) -> Result<(), OutOfMemory>
    ensures { OnOk result (out.new ≡ out.old ++ spec.part_lines (lookup_by types.now) boxes.now quants.now node.now) }
{
    put_quant_lines(boxes, quants, node.quants.as_slice(), out)?;
    put_cond_lines(quants, &node.parts.kind, node.parts.conds.as_slice(), out)?;
    put_head_lines(types, quants, node, out)
}
