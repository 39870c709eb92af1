// Edits of a graph, as a script writes them.
ghost use Rattle.std.specs.Prelude.{◌≡◌, length, IfOk};
ghost use Rattle.qgm_core.specs.Boxes.{HasQuant, quants_of};
ghost use Rattle.qgm_core.specs.Edits as edits;

use crate::faults::LineError;
use crate::items::{Item, Rest};
use crate::known::{need, need_box, need_quant};
use crate::script::Line;
use crate::sketch::{Sketch, distinctness, quant_kind};
use qgm_core::{BoxId, BoxKind, BoxParts, Conds, Distinct, Graph, Head, QuantId, Role};
use std::alloc::Global;

/// Does an edit to a graph, by the word that it begins with and what follows it. It fails where the graph
/// lacks what the edit names. Places count from 1.
///
/// - `move-below C D`, `set-distinct B DISTINCTNESS`, `reserve B N`, `move-conjunct B I TO`,
///   `drop-column B K`
/// - `add-quant N OWNER PLACE KIND OVER` (the quantifier is to have the number N), `drop-quant Q`,
///   `move-quant Q OWNER PLACE`, `put-quant Q KIND`, `redirect Q OVER`
/// - `compact`; `copy`: the graph's copy in its place; `rounds N`: so often a box is added, and the graph
///   made compact.
pub fn edit(
    alloc: Global,
    graph: &mut Graph,
    word: &str,
    rest: &mut Rest,
) -> Result<(), LineError> {
    match word {
        "move-below" => move_below(graph, rest),
        "set-distinct" => set_distinct(graph, rest),
        "reserve" => reserve(graph, rest),
        "move-conjunct" => move_conjunct(graph, rest),
        "drop-column" => drop_column(graph, rest),
        "compact" => compact(alloc, graph),
        "copy" => copy(alloc, graph),
        "rounds" => rounds(alloc, graph, rest),
        word => edit_quants(alloc, graph, word, rest),
    }
}

// An edit of quantifiers.
fn edit_quants(
    alloc: Global,
    graph: &mut Graph,
    word: &str,
    rest: &mut Rest,
) -> Result<(), LineError> {
    match word {
        "add-quant" => add_quant(graph, rest),
        "drop-quant" => drop_quant(graph, rest),
        "move-quant" => move_quant(alloc, graph, rest),
        "put-quant" => put_quant(graph, rest),
        "redirect" => redirect(graph, rest),
        _ => Err(LineError::Faulty("nothing that a line begins with")),
    }
}

fn compact(alloc: Global, graph: &mut Graph) -> Result<(), LineError> {
    Ok(graph.compact(alloc)?)
}

fn copy(alloc: Global, graph: &mut Graph) -> Result<(), LineError> {
    *graph = graph.copy(alloc)?;
    Ok(())
}

/// Adds a box, last or just below another one. It fails where the box gets another number than it is to
/// have.
pub fn add_box(
    alloc: Global,
    graph: &mut Graph,
    below: Option<BoxId>,
    rest: Rest,
    lines: &[Line],
    at: &mut usize,
) -> Result<(), LineError> {
    let sketch = Sketch::of_lines(alloc, rest, lines, at)?;
    if let Some(b) = below {
        need_box(graph, b)?;
    }
    let id = sketch.id;
    let given = graph.add_box(alloc, sketch.into_parts(), below)?;
    need(given == id, "the new box has another number")
}

/// Adds a box just below another one, whose number stands first.
pub fn add_box_below(
    alloc: Global,
    graph: &mut Graph,
    rest: Rest,
    lines: &[Line],
    at: &mut usize,
) -> Result<(), LineError> {
    let mut rest = rest;
    let below = Some(rest.number()?);
    add_box(alloc, graph, below, rest, lines, at)
}

/// Gives a box another kind, role, conditions and head.
pub fn put_box(
    alloc: Global,
    graph: &mut Graph,
    rest: Rest,
    lines: &[Line],
    at: &mut usize,
) -> Result<(), LineError> {
    let sketch = Sketch::of_lines(alloc, rest, lines, at)?;
    let b = sketch.id;
    need_box(graph, b)?;
    let BoxParts {
        kind,
        role,
        conds,
        head,
        ..
    } = sketch.into_parts();
    graph.put_box(b, kind, role, conds, head);
    Ok(())
}

fn move_below(graph: &mut Graph, rest: &mut Rest) -> Result<(), LineError> {
    let c = rest.number()?;
    let d = rest.number()?;
    need_box(graph, c)?;
    need_box(graph, d)?;
    need(c != d, "a box doesn't stand below itself")?;
    graph.move_below(c, d);
    Ok(())
}

fn set_distinct(graph: &mut Graph, rest: &mut Rest) -> Result<(), LineError> {
    let b = rest.number()?;
    let distinct = distinctness(rest.word()?.as_str())?;
    need_box(graph, b)?;
    graph.set_distinct(b, distinct);
    Ok(())
}

fn reserve(graph: &mut Graph, rest: &mut Rest) -> Result<(), LineError> {
    let b = rest.number()?;
    let n = rest.number()?;
    need_box(graph, b)?;
    Ok(graph.reserve(b, n)?)
}

fn move_conjunct(graph: &mut Graph, rest: &mut Rest) -> Result<(), LineError> {
    let b = rest.number()?;
    let i = rest.number()?;
    let to = rest.number()?;
    need_box(graph, b)?;
    need_box(graph, to)?;
    let conds = graph.parts(b).conds.len();
    need(1 <= i && i <= conds, "the box has no such condition")?;
    let spare = graph.parts(to).conds.spare();
    need(1 <= spare, "the box has no room for a condition")?;
    graph.move_conjunct(b, i, to);
    Ok(())
}

fn drop_column(graph: &mut Graph, rest: &mut Rest) -> Result<(), LineError> {
    let b = rest.number()?;
    let k = rest.number()?;
    need_box(graph, b)?;
    let columns = graph.parts(b).head.len();
    need(1 <= k && k <= columns, "the box has no such column")?;
    graph.drop_column(b, k);
    Ok(())
}

// Cells up to the end of the line.
fn cells(alloc: Global, rest: Rest) -> Result<Head, LineError> {
    let mut cells = Head::new(alloc);
    for item in rest.into_items() {
        match item {
            Item::Cell(x) => cells.push(Box::into_inner(x))?,
            Item::Word(_) | Item::Quoted(_) | Item::Cond(_) => {
                return Err(LineError::Faulty("a cell is to stand here"));
            }
        }
    }
    Ok(cells)
}

/// Puts cells in place of a quantifier's columns in a box: `substitute B Q CELL ..`.
pub fn substitute(alloc: Global, graph: &mut Graph, rest: Rest) -> Result<(), LineError> {
    let mut rest = rest;
    let b = rest.number()?;
    let q = rest.number()?;
    let cells = cells(alloc, rest)?;
    need_box(graph, b)?;
    Ok(graph.substitute(alloc, b, q, &cells)?)
}

// It fails where the quantifier gets another number than it is to have.
fn add_quant(graph: &mut Graph, rest: &mut Rest) -> Result<(), LineError> {
    let id = rest.number()?;
    let owner = rest.number()?;
    let place = rest.number()?;
    let kind = quant_kind(rest.word()?.as_str())?;
    let over = rest.number()?;
    need_box(graph, owner)?;
    need_box(graph, over)?;
    let quants = graph.quants(owner).as_slice().len();
    need(
        1 <= place && place - 1 <= quants,
        "the box has no such place",
    )?;
    let given = graph.add_quant(owner, place, kind, over)?;
    need(given == id, "the new quantifier has another number")
}

fn drop_quant(graph: &mut Graph, rest: &mut Rest) -> Result<(), LineError> {
    let q = rest.number()?;
    need_quant(graph, q)?;
    graph.drop_quant(q);
    Ok(())
}

// How many quantifiers a box owns beside this one.
fn others(alloc: Global, graph: &Graph, q: QuantId, b: BoxId) -> Result<usize, LineError>
    requires { HasQuant q graph.now }
    ensures { IfOk result (λ n. n ≡ length (quants_of b (edits.drop_quant q graph.now))) }
{
    let mut without = graph.copy(alloc)?;
    without.drop_quant(q);
    need_box(&without, b)?;
    Ok(without.quants(b).as_slice().len())
}

fn move_quant(alloc: Global, graph: &mut Graph, rest: &mut Rest) -> Result<(), LineError> {
    let q = rest.number()?;
    let owner = rest.number()?;
    let place = rest.number()?;
    need_quant(graph, q)?;
    need_box(graph, owner)?;
    let others = others(alloc, graph, q, owner)?;
    need(
        1 <= place && place - 1 <= others,
        "the box has no such place",
    )?;
    Ok(graph.move_quant(q, owner, place)?)
}

fn put_quant(graph: &mut Graph, rest: &mut Rest) -> Result<(), LineError> {
    let q = rest.number()?;
    let kind = quant_kind(rest.word()?.as_str())?;
    need_quant(graph, q)?;
    graph.put_quant(q, kind);
    Ok(())
}

fn redirect(graph: &mut Graph, rest: &mut Rest) -> Result<(), LineError> {
    let q = rest.number()?;
    let over = rest.number()?;
    need_quant(graph, q)?;
    need_box(graph, over)?;
    graph.redirect(q, over);
    Ok(())
}

// A select without columns.
fn bare(alloc: Global) -> BoxParts {
    BoxParts {
        kind: BoxKind::Select,
        distinct: Distinct::Preserve,
        role: Role::Plain,
        conds: Conds::new(alloc),
        head: Head::new(alloc),
    }
}

fn rounds(alloc: Global, graph: &mut Graph, rest: &mut Rest) -> Result<(), LineError> {
    for _ in 0..rest.number()? {
        let _b = graph.add_box(alloc, bare(alloc), None)?;
        graph.compact(alloc)?;
    }
    Ok(())
}
