// What is inferred of a graph, as it is asked.
ghost use Rattle.std.specs.Prelude.{◌≡◌, false, true, IfOk};
ghost use Rattle.qgm_core.specs.Edits.{set_distinct};
ghost use Rattle.qgm_core.specs.declared.kinds.Distinct.TheVariants.{Preserve};
ghost use Rattle.qgm_terms.specs.Shown.{cond};
ghost use Rattle.qgm_props.specs.Inferred.{cond_free};
ghost use Rattle.qgm_props.specs.Keys as keys;
ghost use Rattle.qgm_props.specs.Laws.{KeyHolds, Tells, TellsKey};
ghost use Rattle.qgm_props.specs.Table.{facts_of};

use crate::expressions::is_cond_free;
use crate::fact_table::FactTable;
use crate::facts::{has_at_most_one, has_exactly_one, is_clean, is_error_free, is_not_null};
use crate::keys::{has_key, has_key_preserved};
use crate::range_table::RangeTable;
use qgm_core::{BoxId, Gc, Graph};
use shared_types::OutOfMemory;
use std::alloc::Global;
use std::marker::Model;

/// What is inferred of the boxes of a graph.
#[derive(Drop)]
pub struct Props {
    boxes: FactTable,
}

impl Model for Props {
    ghost use Rattle.std.specs.Prelude.{List};
    ghost use Rattle.qgm_props.specs.declared.facts.BoxFacts.{BoxFacts};

    ghost Value = { List BoxFacts };

    ghost view = { λ p. p.boxes };
}

impl Props {
    // That of a table.
    pub(crate) fn of(boxes: FactTable) -> Props
        ensures { result ≡ boxes }
    {
        Props { boxes }
    }

    // The table.
    pub(crate) fn table(&self) -> &FactTable
        ensures { result.now ≡ self.now }
    {
        &self.boxes
    }

    /// Whether no row of the box is at an error level.
    pub fn clean(&self, b: BoxId) -> bool
        ensures { result ≡ (facts_of self.now).clean b }
    {
        is_clean(&self.boxes, b)
    }

    /// Whether no row of the box holds an error in the column; columns count from 1.
    pub fn error_free(&self, b: BoxId, column: usize) -> bool
        ensures { result ≡ (facts_of self.now).error_free b column }
    {
        is_error_free(&self.boxes, b, column)
    }

    /// Whether no row of the box holds a null in the column.
    pub fn not_null(&self, b: BoxId, column: usize) -> bool
        ensures { result ≡ (facts_of self.now).not_null b column }
    {
        is_not_null(&self.boxes, b, column)
    }

    /// Whether at most one row of the box is there.
    pub fn at_most_one(&self, b: BoxId) -> bool
        ensures { result ≡ (facts_of self.now).at_most_one b }
    {
        has_at_most_one(&self.boxes, b)
    }

    /// Whether exactly one row of the box is there.
    pub fn exactly_one(&self, b: BoxId) -> bool
        ensures { result ≡ (facts_of self.now).exactly_one b }
    {
        has_exactly_one(&self.boxes, b)
    }

    /// Whether a condition is without errors, for the graph that these facts were inferred of. It fails
    /// only for want of memory.
    pub fn cond_error_free(&self, alloc: Global, graph: &Graph, c: &Gc) -> Result<bool, OutOfMemory>
        ensures { IfOk result (λ free. free ≡ cond_free graph.now.boxes (facts_of self.now) false (cond c.now)) }
    {
        let nodes = RangeTable::of(alloc, graph.nodes())?;
        Ok(is_cond_free(&nodes, &self.boxes, false, c))
    }

    /// Whether the set of columns holds a key of the box, for the graph that these facts were
    /// inferred of: whether some of the columns are a key. A box of at most one row has the empty
    /// key. It fails only for want of memory.
    pub fn holds_key(
        &self,
        alloc: Global,
        graph: &Graph,
        b: BoxId,
        columns: &[usize],
    ) -> Result<bool, OutOfMemory>
        ensures exact { IfOk result (λ k. k ≡ keys.holds_key (facts_of self.now).at_most_one graph.now.boxes b columns.now) }
        ensures holds { IfOk result (λ k. k ≡ true → Tells (facts_of self.now) graph.now.boxes → KeyHolds graph.now.boxes b columns.now) }
        ensures inferred { IfOk result (λ k. TellsKey k (facts_of self.now) graph.now.boxes b columns.now) }
    {
        has_key(alloc, graph.nodes(), &self.boxes, b, columns)
    }

    /// Whether the set of columns would hold a key of the box if it were PRESERVE: no fact but a key
    /// hangs on DISTINCT. It fails only for want of memory.
    pub fn holds_key_preserved(
        &self,
        alloc: Global,
        graph: &Graph,
        b: BoxId,
        columns: &[usize],
    ) -> Result<bool, OutOfMemory>
        ensures { IfOk result (λ k. k ≡ keys.holds_key (facts_of self.now).at_most_one (set_distinct b Preserve graph.now).boxes b columns.now) }
    {
        has_key_preserved(alloc, graph.nodes(), &self.boxes, b, columns)
    }
}
