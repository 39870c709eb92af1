// The SELECT of each box of a graph, from the last to the first.
ghost use Rattle.std.specs.Prelude.{ℕ, ◌≡◌, ◌==◌, ◌++◌, if◌then◌else◌, map, IfOk, OnOk};
ghost use Rattle.graph_sql.specs.Bodies.{body_sql};
ghost use Rattle.graph_sql.specs.Scoped.{is_sure, names_in, number_in};
ghost use Rattle.graph_sql.specs.Settings as settings;
ghost use Rattle.graph_sql.specs.Settings.{made_at, setting_in};
ghost use Rattle.graph_sql.specs.StatementText as spec;
ghost use Rattle.qgm_core.specs.Boxes.{width};

use crate::bodies::put_body;
use crate::made::Made;
use crate::numbered::{put_before, put_columns};
use crate::scope::{Item, Scope, put_text};
use crate::setting::Sheet;
use crate::sources::{put_conditions_of, put_source_of};
use crate::tables::TableNames;
use graph_print::put_word;
use qgm_core::{BoxId, BoxKind, Node, OwnedQuant};
use shared_types::{OutOfMemory, Text};
use std::alloc::Global;
use std::collections::HashMap;

// How many columns a box has.
fn width_of(node: &Node) -> usize
    ensures { result ≡ width node.now }
{
    match &node.parts.kind {
        BoxKind::Base(base) => base.types.len(),
        BoxKind::SetOp(_, types) => types.len(),
        BoxKind::Select | BoxKind::Group(_) | BoxKind::OuterJoin => node.parts.head.len(),
    }
}

// How many columns its SELECT has.
fn columns_of(node: &Node) -> usize
    ensures { result ≡ spec.at_least_one (width node.now) }
{
    let n = width_of(node);
    if n == 0 { 1 } else { n }
}

/// Adds the SELECT of a box.
pub fn put_made(made: &HashMap<BoxId, Made>, b: BoxId, out: &mut Text) -> Result<(), OutOfMemory>
    ensures { OnOk result (out.new ≡ out.old ++ (made_at made.now b).text) }
{
    match made.get(&b) {
        Some(m) => put_text(&m.text, out),
        None => Ok(()),
    }
}

// Adds, for EXISTS, what stands before the name of the item that has the cells of a box.
fn put_made_source(made: &HashMap<BoxId, Made>, b: BoxId, out: &mut Text) -> Result<(), OutOfMemory>
    ensures { OnOk result (out.new ≡ out.old ++ (made_at made.now b).source) }
{
    match made.get(&b) {
        Some(m) => put_text(&m.source, out),
        None => Ok(()),
    }
}

// Adds what stands behind the columns of that item.
fn put_made_conditions(
    made: &HashMap<BoxId, Made>,
    b: BoxId,
    out: &mut Text,
) -> Result<(), OutOfMemory>
    ensures { OnOk result (out.new ≡ out.old ++ (made_at made.now b).conditions) }
{
    match made.get(&b) {
        Some(m) => put_text(&m.conditions, out),
        None => Ok(()),
    }
}

/// How many columns the SELECT of a box has.
pub fn columns_at(made: &HashMap<BoxId, Made>, b: BoxId) -> usize
    ensures { result ≡ (made_at made.now b).columns }
{
    match made.get(&b) {
        Some(m) => m.columns,
        None => 0,
    }
}

// A SELECT in place.
fn put_inline(
    sheet: &Sheet<'_>,
    made: &HashMap<BoxId, Made>,
    r: OwnedQuant,
    out: &mut Text,
) -> Result<(), OutOfMemory>
    ensures { OnOk result (out.new ≡ out.old ++ spec.inline_text (setting_in sheet.now) (made_at made.now) r) }
{
    put_word(b"LATERAL (", out)?;
    put_made(made, r.over, out)?;
    put_before(b") AS q", sheet.quants.place_of(r.id), out)?;
    put_columns(columns_at(made, r.over), out)
}

// An entry of WITH by its name.
fn put_entry_name(sheet: &Sheet<'_>, r: OwnedQuant, out: &mut Text) -> Result<(), OutOfMemory>
    ensures { OnOk result (out.new ≡ out.old ++ spec.named_text (setting_in sheet.now) r) }
{
    put_before(b"b$", sheet.boxes.place_of(r.over), out)?;
    put_before(b" AS q", sheet.quants.place_of(r.id), out)
}

// The FROM item of a quantifier.
#[tactic(auto, unfolding(crate::specs::StatementText::item_text))]
fn item_text(
    alloc: Global,
    sheet: &Sheet<'_>,
    made: &HashMap<BoxId, Made>,
    r: OwnedQuant,
) -> Result<Text, OutOfMemory>
    ensures { IfOk result (λ t. t ≡ spec.item_text (setting_in sheet.now) (made_at made.now) r) }
{
    let mut text = Text::new(alloc)?;
    if sheet.entries.has(r.over) {
        put_entry_name(sheet, r, &mut text)?;
    } else {
        put_inline(sheet, made, r, &mut text)?;
    }
    Ok(text)
}

// The items of which EXISTS asks, in place.
fn put_inline_source(
    sheet: &Sheet<'_>,
    made: &HashMap<BoxId, Made>,
    r: OwnedQuant,
    out: &mut Text,
) -> Result<(), OutOfMemory>
    ensures { OnOk result (out.new ≡ out.old ++ spec.inline_source (setting_in sheet.now) (made_at made.now) r) }
{
    put_made_source(made, r.over, out)?;
    put_before(b" AS q", sheet.quants.place_of(r.id), out)?;
    put_columns(columns_at(made, r.over), out)?;
    put_made_conditions(made, r.over, out)
}

// What stands between FROM and the test of an EXISTS.
#[tactic(auto, unfolding(crate::specs::StatementText::source_of))]
fn source_of(
    alloc: Global,
    sheet: &Sheet<'_>,
    made: &HashMap<BoxId, Made>,
    r: OwnedQuant,
) -> Result<Text, OutOfMemory>
    ensures { IfOk result (λ t. t ≡ spec.source_of (setting_in sheet.now) (made_at made.now) r) }
{
    let mut text = Text::new(alloc)?;
    if sheet.entries.has(r.over) {
        put_entry_name(sheet, r, &mut text)?;
        put_word(b" WHERE ", &mut text)?;
    } else {
        put_inline_source(sheet, made, r, &mut text)?;
    }
    Ok(text)
}

// The FROM item of a quantifier, and the items of which EXISTS asks.
fn item_of(
    alloc: Global,
    sheet: &Sheet<'_>,
    made: &HashMap<BoxId, Made>,
    r: OwnedQuant,
) -> Result<Item, OutOfMemory>
    ensures { IfOk result (λ i. i ≡ settings.item_of (setting_in sheet.now) (made_at made.now) r) }
{
    let text = item_text(alloc, sheet, made, r)?;
    let source = source_of(alloc, sheet, made, r)?;
    Ok(Item {
        id: r.id,
        text,
        source,
    })
}

// Those of quantifiers.
fn items_of(
    alloc: Global,
    sheet: &Sheet<'_>,
    made: &HashMap<BoxId, Made>,
    ranges: &[OwnedQuant],
) -> Result<Vec<Item>, OutOfMemory>
    ensures { IfOk result (λ v. v.items ≡ map (settings.item_of (setting_in sheet.now) (made_at made.now)) ranges.now) }
{
    let mut items = Vec::new(alloc);
    for r in ranges {
        let item = item_of(alloc, sheet, made, *r)?;
        items.push(item)?;
    }
    Ok(items)
}

// What a box with these items looks up.
fn scope_of<'a>(sheet: &'a Sheet<'a>, items: &'a [Item]) -> Scope<'a>
    ensures at { result.at.now ≡ sheet.now.quants.now }
    ensures items { result.items.now ≡ items.now }
    ensures sure { is_sure result.sure.now ≡ is_sure sheet.now.sure }
{
    Scope {
        at: sheet.quants,
        items,
        sure: &sheet.sure,
    }
}

// What is made of a box with these items.
fn written(
    alloc: Global,
    tables: &[TableNames],
    scope: &Scope<'_>,
    node: &Node,
) -> Result<Made, OutOfMemory>
    ensures { IfOk result (λ m. m ≡ spec.made_by (number_in scope.now) (spec.at_least_one (width node.now)) (body_sql (names_in scope.now) tables.now node.now)) }
{
    let mut text = Text::new(alloc)?;
    put_body(alloc, tables, scope, node, &mut text)?;
    let mut source = Text::new(alloc)?;
    put_source_of(alloc, scope, &text, node, &mut source)?;
    let mut conditions = Text::new(alloc)?;
    put_conditions_of(scope, node, &mut conditions)?;
    Ok(Made {
        columns: columns_of(node),
        text,
        source,
        conditions,
    })
}

// The SELECT of a box, over those of the boxes behind it.
fn made_of(
    alloc: Global,
    sheet: &Sheet<'_>,
    made: &HashMap<BoxId, Made>,
    node: &Node,
) -> Result<Made, OutOfMemory>
    ensures { IfOk result (λ m. m ≡ spec.made_of (setting_in sheet.now) node.now (made_at made.now)) }
{
    let items = items_of(alloc, sheet, made, node.quants.as_slice())?;
    let scope = scope_of(sheet, &items);
    written(alloc, sheet.tables, &scope, node)
}

// What is made of one more box, in place of what was made of one of this number.
fn add_made(made: &mut HashMap<BoxId, Made>, b: BoxId, m: Made) -> Result<(), OutOfMemory>
    ensures { OnOk result ((k : ℕ) → made_at made.new k ≡ (if b == k then m else made_at made.old k)) }
{
    let _old = made.insert(b, m)?;
    Ok(())
}

/// The SELECT of each of these boxes.
pub fn made_in(
    alloc: Global,
    sheet: &Sheet<'_>,
    nodes: &[Node],
) -> Result<HashMap<BoxId, Made>, OutOfMemory>
    ensures { IfOk result (λ made. (b : ℕ) → made_at made b ≡ spec.made_in (setting_in sheet.now) nodes.now b) }
{
    let mut made = HashMap::new(alloc);
    let mut i = nodes.len();
    while i > 0 {
        i -= 1;
        let m = made_of(alloc, sheet, &made, &nodes[i])?;
        add_made(&mut made, nodes[i].id, m)?;
    }
    Ok(made)
}
