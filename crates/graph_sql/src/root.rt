// Entries of WITH, and the root of the statement.
ghost use Rattle.std.specs.Prelude.{◌≡◌, ◌++◌, ◌<◌, ◌^◌, OnOk};
ghost use Rattle.std.specs.List.{flat_map};
ghost use Rattle.graph_sql.specs.Settings.{made_at, setting_in};
ghost use Rattle.graph_sql.specs.StatementText as spec;

use crate::boxes::{columns_at, put_made};
use crate::made::Made;
use crate::numbered::{Listed, put_before, put_columns, put_numbered};
use crate::setting::Sheet;
use graph_print::{put_quoted, put_word};
use qgm_core::{BoxId, Graph};
use shared_types::{OutOfMemory, Text};
use sql_value::OrderKey;
use std::collections::HashMap;

// An entry.
#[tactic(auto, unfolding(crate::specs::StatementText::entry_text))]
fn put_entry(
    sheet: &Sheet<'_>,
    made: &HashMap<BoxId, Made>,
    b: BoxId,
    out: &mut Text,
) -> Result<(), OutOfMemory>
    ensures { OnOk result (out.new ≡ out.old ++ spec.entry_text (setting_in sheet.now) (made_at made.now) b) }
{
    put_before(b"b$", sheet.boxes.place_of(b), out)?;
    put_columns(columns_at(made, b), out)?;
    put_word(b" AS (", out)?;
    put_made(made, b, out)?;
    put_word(b")", out)
}

// An entry behind another one.
fn put_next_entry(
    sheet: &Sheet<'_>,
    made: &HashMap<BoxId, Made>,
    b: BoxId,
    out: &mut Text,
) -> Result<(), OutOfMemory>
    ensures { OnOk result (out.new ≡ out.old ++ spec.next_entry (setting_in sheet.now) (made_at made.now) b) }
{
    put_word(b", ", out)?;
    put_entry(sheet, made, b, out)
}

// Entries behind a first one.
fn put_more_entries(
    sheet: &Sheet<'_>,
    made: &HashMap<BoxId, Made>,
    list: &[BoxId],
    out: &mut Text,
) -> Result<(), OutOfMemory>
    ensures { OnOk result (out.new ≡ out.old ++ flat_map (spec.next_entry (setting_in sheet.now) (made_at made.now)) list.now) }
{
    for b in list {
        put_next_entry(sheet, made, *b, out)?;
    }
    Ok(())
}

/// Adds WITH and its entries, if there are any.
pub fn put_with(
    sheet: &Sheet<'_>,
    made: &HashMap<BoxId, Made>,
    list: &[BoxId],
    out: &mut Text,
) -> Result<(), OutOfMemory>
    ensures { OnOk result (out.new ≡ out.old ++ spec.with_text (setting_in sheet.now) (made_at made.now) list.now) }
{
    match list {
        [] => Ok(()),
        [first, rest @ ..] => {
            put_word(b"WITH ", out)?;
            put_entry(sheet, made, *first, out)?;
            put_more_entries(sheet, made, rest, out)?;
            put_word(b" ", out)
        }
    }
}

// The name of an output column.
fn put_out_name(k: usize, name: &Option<Text>, out: &mut Text) -> Result<(), OutOfMemory>
    ensures { OnOk result (out.new ≡ out.old ++ spec.out_name k name.now) }
{
    match name {
        Some(name) => put_quoted(name, out),
        None => {
            put_before(b"\"COL", k, out)?;
            put_word(b"\"", out)
        }
    }
}

// What stands before an output column.
fn put_gap(i: usize, out: &mut Text) -> Result<(), OutOfMemory>
    ensures { OnOk result (out.new ≡ out.old ++ spec.gap_text i) }
{
    if i == 0 {
        put_word(b" ", out)
    } else {
        put_word(b", ", out)
    }
}

// An output column behind so many.
fn put_out(i: usize, name: &Option<Text>, out: &mut Text) -> Result<(), OutOfMemory>
    requires { i < 2 ^ 63 }
    ensures { OnOk result (out.new ≡ out.old ++ spec.out_text i name.now) }
{
    put_gap(i, out)?;
    put_before(b"q0.c", i + 1, out)?;
    put_word(b" AS ", out)?;
    put_out_name(i + 1, name, out)
}

// The output columns.
fn put_outs(names: &[Option<Text>], out: &mut Text) -> Result<(), OutOfMemory>
    ensures { OnOk result (out.new ≡ out.old ++ spec.outs_text 0 names.now) }
{
    for i in 0..names.len() {
        put_out(i, &names[i], out)?;
    }
    Ok(())
}

fn put_direction(descending: bool, out: &mut Text) -> Result<(), OutOfMemory>
    ensures { OnOk result (out.new ≡ out.old ++ spec.direction_text descending) }
{
    if descending {
        put_word(b" DESC NULLS LAST", out)
    } else {
        put_word(b" ASC NULLS FIRST", out)
    }
}

// A key of the order.
#[tactic(auto, unfolding(crate::specs::StatementText::key_text))]
fn put_key(key: OrderKey, out: &mut Text) -> Result<(), OutOfMemory>
    ensures { OnOk result (out.new ≡ out.old ++ spec.key_text key) }
{
    put_before(b"q0.c", key.column, out)?;
    put_direction(key.descending, out)
}

// A key, and a comma.
fn put_next_key(key: OrderKey, out: &mut Text) -> Result<(), OutOfMemory>
    ensures { OnOk result (out.new ≡ out.old ++ spec.next_key key) }
{
    put_key(key, out)?;
    put_word(b", ", out)
}

fn put_keys(keys: &[OrderKey], out: &mut Text) -> Result<(), OutOfMemory>
    ensures { OnOk result (out.new ≡ out.old ++ flat_map spec.next_key keys.now) }
{
    for key in keys {
        put_next_key(*key, out)?;
    }
    Ok(())
}

// The order, by the keys and then by all of so many columns.
fn put_order(keys: &[OrderKey], n: usize, out: &mut Text) -> Result<(), OutOfMemory>
    ensures { OnOk result (out.new ≡ out.old ++ spec.order_text keys.now n) }
{
    if n == 0 {
        return Ok(());
    }
    put_word(b" ORDER BY ", out)?;
    put_keys(keys, out)?;
    put_numbered(Listed::Ascending, n, out)
}

// The FROM of the root.
fn put_root_item(
    made: &HashMap<BoxId, Made>,
    root: BoxId,
    out: &mut Text,
) -> Result<(), OutOfMemory>
    ensures { OnOk result (out.new ≡ out.old ++ spec.root_item (made_at made.now root)) }
{
    put_word(b" FROM (", out)?;
    put_made(made, root, out)?;
    put_word(b") AS q0", out)?;
    put_columns(columns_at(made, root), out)
}

/// Adds the SELECT of the root, with the names and the order of the graph.
pub fn put_root(
    graph: &Graph,
    made: &HashMap<BoxId, Made>,
    out: &mut Text,
) -> Result<(), OutOfMemory>
    ensures { OnOk result (out.new ≡ out.old ++ spec.root_text graph.now (made_at made.now graph.now.root)) }
{
    let names = graph.names().as_slice();
    put_word(b"SELECT", out)?;
    put_outs(names, out)?;
    put_root_item(made, graph.root(), out)?;
    put_order(graph.order().as_slice(), names.len(), out)
}
