// Where columns are named.
ghost use Rattle.std.specs.Prelude.{◌≡◌, ◌++◌, ◌∷◌, ◌<◌, ℕ, [], length, map, slice_index_or, IfOk, OnOk};
ghost use Rattle.std.specs.List.{flat_map};
ghost use Rattle.list_laws.specs.Lists.{times};
ghost use Rattle.qgm_terms.specs.Shown.{cond, conds, term, terms};
ghost use Rattle.rule_merge.specs.MergeSelectCopies as spec;

use qgm_core::{Counts, Gc, Gx, Node, QuantId};
use qgm_term_search::{add_columns, add_columns_of_cond};
use qgm_term_size::{cell_levels, cond_levels};
use qgm_terms::{Column, ROOM};
use shared_types::OutOfMemory;
use std::alloc::Global;
use std::marker::Model;

/// A name of a column, and how many levels the cell or the condition has in which it stands.
#[derive(Clone, Copy)]
pub struct Name {
    pub quant: QuantId,
    pub place: usize,
    pub levels: usize,
}

/// Names of columns. Contracts see them as the list of them.
#[derive(Drop)]
pub struct Names {
    list: Vec<Name>,
    // The places that are named, by quantifier.
    places: Vec<Counts>,
    // The most levels, by quantifier.
    levels: Vec<usize>,
}

impl Model for Names {
    ghost use Rattle.std.specs.Prelude.{ℕ, List, [], ◌≡◌, slice_index_or};
    ghost use Rattle.rule_merge.specs.MergeSelectCopies.{levels_of, places_of};
    ghost use Rattle.rule_merge.specs.declared.merge_select.names.Name.{Name};

    ghost Value = { List Name };

    ghost view = { λ t. t.list.items };

    ghost invariant = { λ t. (q : ℕ) → (slice_index_or t.places.items q [] ≡ places_of q t.list.items) × (slice_index_or t.levels.items q 0 ≡ levels_of q t.list.items) };
}

// Makes a table long enough to be read at q. What is read of it stays.
fn reach_places(alloc: Global, table: &mut Vec<Counts>, q: QuantId) -> Result<(), OutOfMemory>
    ensures within { OnOk result (q < length table.new.items) }
    ensures same { (r : ℕ) → slice_index_or table.new.items r [] ≡ slice_index_or table.old.items r [] }
{
    while table.len() <= q {
        table.push(Counts::new(alloc))?;
    }
    Ok(())
}

// The same of levels.
fn reach_levels(table: &mut Vec<usize>, q: QuantId) -> Result<(), OutOfMemory>
    ensures within { OnOk result (q < length table.new.items) }
    ensures same { (r : ℕ) → slice_index_or table.new.items r 0 ≡ slice_index_or table.old.items r 0 }
{
    let long = table.len().max(q.saturating_add(1));
    table.resize(long, 0).or(Err(OutOfMemory))
}

impl Names {
    /// None.
    pub fn new(alloc: Global) -> Names
        ensures { result ≡ [] }
    {
        Names {
            list: Vec::new(alloc),
            places: Vec::new(alloc),
            levels: Vec::new(alloc),
        }
    }

    /// Adds one.
    pub fn push(&mut self, alloc: Global, name: Name) -> Result<(), OutOfMemory>
        ensures { OnOk result (self.new ≡ self.old ++ name ∷ []) }
    {
        reach_places(alloc, &mut self.places, name.quant)?;
        reach_levels(&mut self.levels, name.quant)?;
        self.list.push(name)?;
        if let Err(full) = self.places[name.quant].push(name.place) {
            self.list.clear();
            self.places.clear();
            self.levels.clear();
            return Err(full);
        }
        let levels = self.levels[name.quant].max(name.levels);
        self.levels[name.quant] = levels;
        Ok(())
    }

    /// How often column k of q is named.
    pub fn times(&self, q: QuantId, k: usize) -> usize
        ensures { result ≡ times k (spec.places_of q self.now) }
    {
        if q < self.places.len() {
            self.places[q].count(k)
        } else {
            0
        }
    }

    /// The most levels where a column of q is named.
    pub fn levels(&self, q: QuantId) -> usize
        ensures { result ≡ spec.levels_of q self.now }
    {
        if q < self.levels.len() {
            self.levels[q]
        } else {
            0
        }
    }
}

// Adds these columns, which are named where there are so many levels.
fn add_each(
    alloc: Global,
    columns: &[Column],
    levels: usize,
    out: &mut Names,
) -> Result<(), OutOfMemory>
    ensures { (n : ℕ) → levels ≡ spec.cut n → OnOk result (out.new ≡ out.old ++ map (spec.name_of n) columns.now) }
{
    for column in columns {
        let name = Name {
            quant: column.quant,
            place: column.place,
            levels,
        };
        out.push(alloc, name)?;
    }
    Ok(())
}

// Adds the names in a cell.
fn add_cell(
    alloc: Global,
    x: &Gx,
    columns: &mut Vec<Column>,
    out: &mut Names,
) -> Result<(), OutOfMemory>
    ensures { OnOk result (out.new ≡ out.old ++ spec.names_in_cell (term x.now)) }
{
    columns.clear();
    add_columns(x, columns)?;
    add_each(alloc, columns, cell_levels(x, ROOM + 1), out)
}

// Adds those in a condition.
fn add_cond(
    alloc: Global,
    c: &Gc,
    columns: &mut Vec<Column>,
    out: &mut Names,
) -> Result<(), OutOfMemory>
    ensures { OnOk result (out.new ≡ out.old ++ spec.names_in_cond (cond c.now)) }
{
    columns.clear();
    add_columns_of_cond(c, columns)?;
    add_each(alloc, columns, cond_levels(c, ROOM + 1), out)
}

// Adds those in cells.
fn add_cells(
    alloc: Global,
    list: &[Gx],
    columns: &mut Vec<Column>,
    out: &mut Names,
) -> Result<(), OutOfMemory>
    ensures { OnOk result (out.new ≡ out.old ++ flat_map spec.names_in_cell (terms list.now)) }
{
    for x in list {
        add_cell(alloc, x, columns, out)?;
    }
    Ok(())
}

// Adds those in conditions.
fn add_conds(
    alloc: Global,
    list: &[Gc],
    columns: &mut Vec<Column>,
    out: &mut Names,
) -> Result<(), OutOfMemory>
    ensures { OnOk result (out.new ≡ out.old ++ flat_map spec.names_in_cond (conds list.now)) }
{
    for c in list {
        add_cond(alloc, c, columns, out)?;
    }
    Ok(())
}

// Adds those in a box.
fn add_box(
    alloc: Global,
    node: &Node,
    columns: &mut Vec<Column>,
    out: &mut Names,
) -> Result<(), OutOfMemory>
    ensures { OnOk result (out.new ≡ out.old ++ spec.names_in_box node.now) }
{
    add_cells(alloc, node.parts.head.as_slice(), columns, out)?;
    add_conds(alloc, node.parts.conds.as_slice(), columns, out)
}

/// The names of columns in boxes.
pub fn names_in(alloc: Global, nodes: &[Node]) -> Result<Names, OutOfMemory>
    ensures { IfOk result (λ names. names ≡ spec.names_in nodes.now) }
{
    let mut names = Names::new(alloc);
    let mut columns = Vec::new(alloc);
    for node in nodes {
        add_box(alloc, node, &mut columns, &mut names)?;
    }
    Ok(names)
}
