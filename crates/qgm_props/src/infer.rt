// What is inferred of a graph.
ghost use Rattle.std.specs.Prelude.{◌≡◌, ◌<◌, length, true, false, List, IfOk, OnOk};
ghost use Rattle.row_bag.specs.declared.tables.Table.{Table};
ghost use Rattle.qgm_props.specs.Holding.{Holds};
ghost use Rattle.qgm_props.specs.Inferred.{Fact, says};
ghost use Rattle.qgm_props.specs.Laws.{Premises, Tells};
ghost use Rattle.qgm_props.specs.Table.{Improves, Stable, StableAt, facts_of, unknown_in};

use crate::answers::Props;
use crate::boxes::improved_facts;
use crate::fact_table::FactTable;
use crate::range_table::RangeTable;
use crate::settling::is_settled;
use qgm_core::Graph;
use qgm_terms::either;
use shared_types::OutOfMemory;
use std::alloc::Global;

// Improves what is known of the box at a rank, and tells whether it improved. It takes memory only where
// it does.
fn improve_at(
    alloc: Global,
    nodes: &RangeTable<'_>,
    table: &mut FactTable,
    i: usize,
) -> Result<bool, OutOfMemory>
    requires within { i < length nodes.now }
    requires improves { Improves nodes.now table.old }
    ensures improves { OnOk result (Improves nodes.now table.new) }
    ensures same { IfOk result (λ better. better ≡ false → (table.new ≡ table.old) × StableAt nodes.now table.new i) }
    ensures less { IfOk result (λ better. better ≡ true → unknown_in table.new < unknown_in table.old) }
{
    let node = &nodes.nodes()[i];
    let old = table.at(i);
    if is_settled(nodes, &*table, node, old) {
        return Ok(false);
    }
    let next = improved_facts(alloc, nodes, &*table, node, old)?;
    table.put(i, next);
    Ok(true)
}

// Improves it so, and once more where it improved: the columns of a group that is clean are without
// errors then, and a box of exactly one row has at most one.
fn improve_twice(
    alloc: Global,
    nodes: &RangeTable<'_>,
    table: &mut FactTable,
    i: usize,
) -> Result<bool, OutOfMemory>
    requires within { i < length nodes.now }
    requires improves { Improves nodes.now table.old }
    ensures improves { OnOk result (Improves nodes.now table.new) }
    ensures same { IfOk result (λ better. better ≡ false → (table.new ≡ table.old) × StableAt nodes.now table.new i) }
    ensures less { IfOk result (λ better. better ≡ true → unknown_in table.new < unknown_in table.old) }
{
    if !improve_at(alloc, nodes, table, i)? {
        return Ok(false);
    }
    let more = improve_at(alloc, nodes, table, i)?;
    Ok(either(true, more))
}

// Improves what is known of each box, from the last one to the first, and tells whether one improved.
fn improve_each(
    alloc: Global,
    nodes: &RangeTable<'_>,
    table: &mut FactTable,
) -> Result<bool, OutOfMemory>
    requires { Improves nodes.now table.old }
    ensures improves { OnOk result (Improves nodes.now table.new) }
    ensures stable { IfOk result (λ better. better ≡ false → Stable nodes.now table.new) }
    ensures less { IfOk result (λ better. better ≡ true → unknown_in table.new < unknown_in table.old) }
{
    let mut better = false;
    let mut i = nodes.nodes().len();
    while i > 0 {
        i -= 1;
        if improve_twice(alloc, nodes, table, i)? {
            better = true;
        }
    }
    Ok(better)
}

// All that is inferred.
fn improved_table(alloc: Global, nodes: &RangeTable<'_>) -> Result<FactTable, OutOfMemory>
    ensures improves { IfOk result (λ t. Improves nodes.now t) }
    ensures stable { IfOk result (λ t. Stable nodes.now t) }
{
    let mut table = FactTable::none(alloc, nodes.nodes())?;
    loop {
        if !improve_each(alloc, nodes, &mut table)? {
            return Ok(table);
        }
    }
}

/// Infers what holds of the boxes of a graph: the least set of facts that the sentences give. It
/// fails only for want of memory.
pub fn props(alloc: Global, graph: &Graph) -> Result<Props, OutOfMemory>
    ensures exact { IfOk result (λ p. Tells (facts_of p) graph.now.boxes) }
    ensures holds { IfOk result (λ p. (tables : List Table) → Premises tables graph.now.boxes → (fact : Fact) → says (facts_of p) fact ≡ true → Holds tables graph.now.boxes fact) }
{
    let nodes = RangeTable::of(alloc, graph.nodes())?;
    let boxes = improved_table(alloc, &nodes)?;
    Ok(Props::of(boxes))
}
