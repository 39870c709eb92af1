// The box under each quantifier, and the columns that hold no null.
ghost use Rattle.std.specs.Prelude.{ℕ, ◌≡◌, ◌==◌, if◌then◌else◌, nat_eq, Some, IfOk, OnOk};
ghost use Rattle.std.specs.HashMap.{get};
ghost use Rattle.graph_sql.specs.Scoped.{is_sure};
ghost use Rattle.graph_sql.specs.Settings.{over_of, over_or};
ghost use Rattle.list_laws.specs.Lists.{first};
ghost use Rattle.qgm_core.specs.Boxes.{is_quant};
ghost use Rattle.qgm_props.specs.Inferred.{not_null_under};
ghost use Rattle.qgm_props.specs.Table.{facts_of};

use crate::scope::Sure;
use qgm_core::{BoxId, Node, OwnedQuant};
use qgm_props::Props;
use qgm_terms::QuantId;
use shared_types::OutOfMemory;
use std::alloc::Global;
use std::collections::HashMap;

// A quantifier ranges over this box now.
fn add_over(overs: &mut HashMap<QuantId, BoxId>, q: QuantId, b: BoxId) -> Result<(), OutOfMemory>
    ensures { OnOk result ((k : ℕ) → get nat_eq overs.new k ≡ (if q == k then Some b else get nat_eq overs.old k)) }
{
    let _old = overs.insert(q, b)?;
    Ok(())
}

// The quantifiers of a box, of which the first of a number counts.
fn add_overs(overs: &mut HashMap<QuantId, BoxId>, ranges: &[OwnedQuant]) -> Result<(), OutOfMemory>
    ensures { OnOk result ((q : ℕ) → get nat_eq overs.new q ≡ over_or (first (is_quant q) ranges.now) (get nat_eq overs.old q)) }
{
    let mut i = ranges.len();
    while i > 0 {
        i -= 1;
        add_over(overs, ranges[i].id, ranges[i].over)?;
    }
    Ok(())
}

// The box under each quantifier of these boxes.
fn overs_of(alloc: Global, nodes: &[Node]) -> Result<HashMap<QuantId, BoxId>, OutOfMemory>
    ensures { IfOk result (λ overs. (q : ℕ) → get nat_eq overs q ≡ over_of nodes.now q) }
{
    let mut overs = HashMap::new(alloc);
    let mut i = nodes.len();
    while i > 0 {
        i -= 1;
        add_overs(&mut overs, nodes[i].quants.as_slice())?;
    }
    Ok(overs)
}

/// Which columns of quantifiers are known to hold no null.
pub fn sure_of<'a>(alloc: Global, facts: &'a Props, nodes: &[Node]) -> Result<Sure<'a>, OutOfMemory>
    ensures { IfOk result (λ s. is_sure s ≡ not_null_under nodes.now (facts_of facts.now)) }
{
    let overs = overs_of(alloc, nodes)?;
    Ok(Sure { overs, facts })
}
