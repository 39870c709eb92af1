// Which quantifiers are in view in a box.
ghost use Rattle.std.specs.Prelude.{◌≡◌, ◌++◌, [], false, OnOk, IfOk};
ghost use Rattle.qgm_wellformed.specs.View as spec;

use qgm_core::{Marks, Node, OwnedQuant, QuantId, has_range, mark_overs};
use shared_types::OutOfMemory;
use std::alloc::Global;

// Whether q is an F quantifier of these.
fn is_row(q: QuantId, ranges: &[OwnedQuant]) -> bool
    ensures { result ≡ spec.is_row q ranges.now }
{
    ranges.iter().any(|r| r.id == q && r.kind.is_f())
}

// Appends the boxes that see q by the quantifiers of one box.
fn add_scoped(
    q: QuantId,
    own: bool,
    ranges: &[OwnedQuant],
    marks: &mut Marks,
) -> Result<(), OutOfMemory>
    ensures { OnOk result (marks.new ≡ marks.old ++ spec.scoped q own false ranges.now) }
{
    let mut met = false;
    for range in ranges {
        let sees = if range.kind.is_f() { met } else { own };
        if sees {
            marks.push(range.over)?;
        }
        met = met || (range.id == q && range.kind.is_f());
    }
    Ok(())
}

// Appends the boxes that see q by this box.
fn add_shown(q: QuantId, node: &Node, marks: &mut Marks) -> Result<(), OutOfMemory>
    ensures { OnOk result (marks.new ≡ marks.old ++ spec.shown_by q marks.old node.now) }
{
    if marks.has(node.id) {
        return mark_overs(node.quants.as_slice(), marks);
    }
    if node.parts.kind.is_select() {
        let own = is_row(q, node.quants.as_slice());
        return add_scoped(q, own, node.quants.as_slice(), marks);
    }
    Ok(())
}

// The boxes that see q.
fn viewers(alloc: Global, q: QuantId, nodes: &[Node]) -> Result<Marks, OutOfMemory>
    ensures { IfOk result (λ marks. marks ≡ spec.viewers q [] nodes.now) }
{
    let mut marks = Marks::new(alloc);
    for node in nodes {
        add_shown(q, node, &mut marks)?;
    }
    Ok(marks)
}

// Whether q is in view in the box.
pub fn in_view(alloc: Global, nodes: &[Node], node: &Node, q: QuantId) -> Result<bool, OutOfMemory>
    ensures { IfOk result (λ v. v ≡ spec.in_view nodes.now node.now q) }
{
    if has_range(node.quants.as_slice(), q) {
        return Ok(true);
    }
    let marks = viewers(alloc, q, nodes)?;
    Ok(marks.has(node.id))
}
