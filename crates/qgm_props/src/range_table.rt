// The boxes of a graph, with what each quantifier ranges over found at once.
ghost use Rattle.std.specs.Prelude.{ℕ, ◌≡◌, ◌<◌, ◌==◌, if◌then◌else◌, IfOk, None, OnOk, Some, length, slice_get, slice_index_or};
ghost use Rattle.std.specs.Option.{option_or};
ghost use Rattle.qgm_core.specs.Boxes.{is_quant, owns, range_in};
ghost use Rattle.list_laws.specs.Lists.{first};

use qgm_core::{Node, OwnedQuant, QuantId};
use shared_types::OutOfMemory;
use std::alloc::Global;
use std::marker::Model;

/// The boxes of a graph by rank, and each quantifier by its number. Contracts see the boxes.
#[derive(Drop)]
pub struct RangeTable<'a> {
    nodes: &'a [Node],
    by_number: Vec<Option<OwnedQuant>>,
}

impl<'a> Model for RangeTable<'a> {
    ghost use Rattle.std.specs.Prelude.{ℕ, List, None, ◌≡◌, slice_index_or};
    ghost use Rattle.qgm_core.specs.Boxes.{owns, range_in};
    ghost use Rattle.qgm_core.specs.declared.node.Node.{Node};
    ghost use Rattle.list_laws.specs.Lists.{first};
    ghost use Rattle.qgm_terms.specs.TermCodes.{coded_cond, coded_term};
    ghost use Rattle.std.specs.Coded.{codes};

    ghost Value = { List Node };

    ghost coded = { Prim.hlevel (codes, coded_term, coded_cond) };

    ghost view = { λ t. t.nodes.now };

    ghost invariant = { λ t. (q : ℕ) → slice_index_or t.by_number.items q None ≡ range_in q (first (owns q) t.nodes.now) };
}

// Makes a table long enough to be read at a number. What is read of it stays.
fn make_long(by_number: &mut Vec<Option<OwnedQuant>>, q: QuantId) -> Result<(), OutOfMemory>
    ensures within { OnOk result (q < length by_number.new.items) }
    ensures same { (r : ℕ) → slice_index_or by_number.new.items r None ≡ slice_index_or by_number.old.items r None }
{
    let long = by_number.len().max(q.saturating_add(1));
    by_number.resize(long, None).or(Err(OutOfMemory))
}

// Notes a quantifier by its number, if none of that number is noted.
fn note(by_number: &mut Vec<Option<OwnedQuant>>, range: OwnedQuant) -> Result<(), OutOfMemory>
    ensures { OnOk result ((q : ℕ) → slice_index_or by_number.new.items q None ≡ option_or (slice_index_or by_number.old.items q None) (if range.id == q then Some range else None)) }
{
    make_long(by_number, range.id)?;
    by_number[range.id] = by_number[range.id].or(Some(range));
    Ok(())
}

// Notes the quantifiers of a box.
fn note_all(
    by_number: &mut Vec<Option<OwnedQuant>>,
    ranges: &[OwnedQuant],
) -> Result<(), OutOfMemory>
    ensures { OnOk result ((q : ℕ) → slice_index_or by_number.new.items q None ≡ option_or (slice_index_or by_number.old.items q None) (first (is_quant q) ranges.now)) }
{
    for range in ranges {
        note(by_number, *range)?;
    }
    Ok(())
}

// The quantifiers of boxes by their numbers. Of one number the first box's counts.
fn noted(alloc: Global, nodes: &[Node]) -> Result<Vec<Option<OwnedQuant>>, OutOfMemory>
    ensures { IfOk result (λ t. (q : ℕ) → slice_index_or t.items q None ≡ range_in q (first (owns q) nodes.now)) }
{
    let mut by_number = Vec::new(alloc);
    for node in nodes {
        note_all(&mut by_number, node.quants.as_slice())?;
    }
    Ok(by_number)
}

impl<'a> RangeTable<'a> {
    /// That of these boxes. It fails only for want of memory.
    pub fn of(alloc: Global, nodes: &'a [Node]) -> Result<RangeTable<'a>, OutOfMemory>
        ensures { IfOk result (λ t. t ≡ nodes.now) }
    {
        let by_number = noted(alloc, nodes)?;
        Ok(RangeTable { nodes, by_number })
    }

    /// The boxes.
    pub fn nodes(&self) -> &'a [Node]
        ensures { result.now ≡ self.now }
    {
        self.nodes
    }

    /// The quantifier of a number, if a box owns one.
    pub fn find(&self, q: QuantId) -> Option<OwnedQuant>
        ensures { result ≡ range_in q (first (owns q) self.now) }
    {
        if q < self.by_number.len() {
            self.by_number[q]
        } else {
            None
        }
    }
}
