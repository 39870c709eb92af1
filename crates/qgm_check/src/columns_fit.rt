// Whether the columns that a box names are there.
ghost use Rattle.std.specs.Prelude.{◌≡◌, ◌++◌, option_map, OnOk, IfOk};
ghost use Rattle.std.specs.List.{list_all};
ghost use Rattle.qgm_core.specs.Boxes.{is_box, is_quant, owns, width};
ghost use Rattle.list_laws.specs.Lists.{first};
ghost use Rattle.qgm_wellformed.specs.Columns as spec;

use qgm_core::{BoxId, BoxKind, Column, Node, OwnedQuant, QuantId, has_range};
use qgm_term_search::{add_columns_of_cells, add_columns_of_conds};
use shared_types::OutOfMemory;
use sqlite_items::Items;
use std::alloc::Global;

// The columns that a box names.
fn columns_of(alloc: Global, node: &Node) -> Result<Vec<Column>, OutOfMemory>
    ensures { IfOk result (λ columns. columns.items ≡ spec.columns_of node.now) }
{
    let mut columns = Vec::new(alloc);
    add_columns_of_cells(node.parts.head.as_slice(), &mut columns)?;
    add_columns_of_conds(node.parts.conds.as_slice(), &mut columns)?;
    Ok(columns)
}

// The owner of a quantifier.
fn owner_of(nodes: &[Node], q: QuantId) -> Option<&Node>
    ensures { option_map (λ n. n.now) result ≡ first (owns q) nodes.now }
{
    for node in nodes {
        if has_range(node.quants.as_slice(), q) {
            return Some(node);
        }
    }
    None
}

// A quantifier in its owner.
fn range_in(ranges: &[OwnedQuant], q: QuantId) -> Option<OwnedQuant>
    ensures { result ≡ first (is_quant q) ranges.now }
{
    for range in ranges {
        if range.id == q {
            return Some(*range);
        }
    }
    None
}

// The box of a number.
pub fn box_at(nodes: &[Node], b: BoxId) -> Option<&Node>
    ensures { option_map (λ n. n.now) result ≡ first (is_box b) nodes.now }
{
    for node in nodes {
        if node.id == b {
            return Some(node);
        }
    }
    None
}

// The box that a quantifier ranges over.
pub fn box_under(nodes: &[Node], q: QuantId) -> Option<&Node>
    ensures { option_map (λ n. n.now) result ≡ spec.box_under nodes.now q }
{
    let owner = owner_of(nodes, q)?;
    let range = range_in(owner.quants.as_slice(), q)?;
    box_at(nodes, range.over)
}

// How many columns a box has.
pub fn width(node: &Node) -> usize
    ensures { result ≡ width node.now }
{
    match &node.parts.kind {
        BoxKind::Base(base) => base.types.len(),
        BoxKind::SetOp(_, types) => types.len(),
        BoxKind::Select | BoxKind::Group(_) | BoxKind::OuterJoin => node.parts.head.len(),
    }
}

fn within(width: usize, k: usize) -> bool
    ensures { result ≡ spec.within width k }
{
    0 < k && k <= width
}

// Whether the box under the column's quantifier has the column.
fn fits(nodes: &[Node], column: Column) -> bool
    ensures { result ≡ spec.fits column.place (spec.box_under nodes.now column.quant) }
{
    match box_under(nodes, column.quant) {
        Some(node) => within(width(node), column.place),
        None => false,
    }
}

// Whether each is a place among so many.
fn all_within(width: usize, places: &[usize]) -> bool
    ensures { result ≡ list_all (spec.within width) places.now }
{
    places.iter().all(|k| within(width, *k))
}

// Whether each key's columns are places among so many.
fn keys_within(width: usize, keys: &[Items<usize>]) -> bool
    ensures { result ≡ list_all (λ key. list_all (spec.within width) key) keys.now }
{
    keys.iter().all(|key| all_within(width, key.as_slice()))
}

// Whether the keys and the not-null columns of a base are columns of it.
fn places_fit(kind: &BoxKind) -> bool
    ensures { result ≡ spec.places_fit kind.now }
{
    match kind {
        BoxKind::Base(base) => {
            let width = base.types.len();
            all_within(width, base.not_null.as_slice()) && keys_within(width, base.keys.as_slice())
        }
        BoxKind::Select | BoxKind::Group(_) | BoxKind::SetOp(_, _) | BoxKind::OuterJoin => true,
    }
}

// Whether each of the columns is there.
fn all_fit(nodes: &[Node], columns: &[Column]) -> bool
    ensures { result ≡ list_all (λ c. spec.fits c.place (spec.box_under nodes.now c.quant)) columns.now }
{
    columns.iter().all(|c| fits(nodes, *c))
}

// Whether each column that a box names is there.
pub fn columns_fit(alloc: Global, nodes: &[Node], node: &Node) -> Result<bool, OutOfMemory>
    ensures { IfOk result (λ k. k ≡ spec.columns_fit nodes.now node.now) }
{
    let columns = columns_of(alloc, node)?;
    Ok(places_fit(&node.parts.kind) && all_fit(nodes, &columns))
}
