// Where N2 may fire.
ghost use Rattle.std.specs.Prelude.{◌≡◌, ◌&&◌, not, true, filter, length, IfOk};
ghost use Rattle.std.specs.List.{list_any};
ghost use Rattle.qgm_core.specs.Boxes.{owns};
ghost use Rattle.qgm_core.specs.Kinds.{is_F};
ghost use Rattle.list_laws.specs.Lists.{In};
ghost use Rattle.qgm_edit_laws.specs.DropQuants.{without_those};
ghost use Rattle.qgm_meaning.specs.Scope.{read_by};
ghost use Rattle.qgm_props.specs.Inferred.{clean, exactly_one};
ghost use Rattle.qgm_props.specs.Laws.{Tells};
ghost use Rattle.qgm_props.specs.Table.{facts_of};
ghost use Rattle.qgm_wellformed.specs.Sentences.{WellFormed};
ghost use Rattle.rule_facts.specs.FedClosed.{any_fed_closed};
ghost use Rattle.rule_facts.specs.Told.{infers};
ghost use Rattle.rule_prune.specs.DropQuantifier as spec;

use crate::drop_quantifier::action::without_quant;
use qgm_core::{BoxId, Graph, Node, OwnedQuant, QuantId};
use qgm_props::Props;
use qgm_term_search::{stands_in_cells, stands_in_conds};
use qgm_terms::{Sought, both};
use rule_facts::{any_fed, any_fed_closed};
use shared_types::OutOfMemory;
use std::alloc::Global;

// How many F quantifiers are among these.
fn count_f(ranges: &[OwnedQuant]) -> usize
    ensures { result ≡ length (filter (λ r. is_F r.kind) ranges.now) }
{
    ranges.iter().filter(|r| r.kind.is_f()).count()
}

/// Whether a box is a plain select with two F quantifiers or more. Else N2 has no place there.
pub fn may_have(node: &Node) -> bool
    ensures { result ≡ spec.may_have node.now }
{
    node.parts.kind.is_select()
        && node.parts.role.is_plain()
        && count_f(node.quants.as_slice()) >= 2
}

// Whether a box is inferred clean and of exactly one row.
fn has_one_row(graph: &Graph, facts: &Props, b: BoxId) -> bool
    requires { Tells (facts_of facts.now) graph.now.boxes }
    ensures { result ≡ (infers graph.now.boxes (clean b) && infers graph.now.boxes (exactly_one b)) }
{
    let _graph = graph;
    both(facts.clean(b), facts.exactly_one(b))
}

// Whether a quantifier is an F over such a box.
fn is_one_row(graph: &Graph, facts: &Props, r: OwnedQuant) -> bool
    requires { Tells (facts_of facts.now) graph.now.boxes }
    ensures { result ≡ spec.is_one_row graph.now.boxes r }
{
    r.kind.is_f() && has_one_row(graph, facts, r.over)
}

// Whether a box reads a column of q.
fn reads(node: &Node, q: QuantId) -> bool
    ensures { result ≡ read_by node.now q }
{
    stands_in_cells(node.parts.head.as_slice(), Sought::Row(q))
        || stands_in_conds(node.parts.conds.as_slice(), Sought::Row(q))
}

// Whether one of these boxes does.
fn any_reads(nodes: &[Node], q: QuantId) -> bool
    ensures { result ≡ list_any (λ y. read_by y q) nodes.now }
{
    nodes.iter().any(|y| reads(y, q))
}

// Whether a box reads q. Mostly its owner does, which is asked first.
fn is_read(nodes: &[Node], owner: &Node, q: QuantId) -> bool
    ensures { result ≡ spec.is_read nodes.now owner.now q }
{
    reads(owner, q) || any_reads(nodes, q)
}

// Whether no fed box is over a closed one where quantifier q of a box has gone. Where no box is fed, none
// will be, so that the graph after it isn't made.
fn leaves_open(alloc: Global, graph: &Graph, owner: &Node, q: QuantId) -> Result<bool, OutOfMemory>
    requires formed { WellFormed graph.now }
    requires within { In owner.now graph.now.boxes }
    requires owned { owns q owner.now ≡ true }
    ensures { IfOk result (λ kept. kept ≡ not (any_fed_closed (without_those owner.now (spec.others q) graph.now))) }
{
    graph.each_number_once();
    if !any_fed(graph.nodes()) {
        return Ok(true);
    }
    let after = without_quant(alloc, graph, q)?;
    let closed = any_fed_closed(alloc, &after)?;
    Ok(!closed)
}

/// Whether N2 may fire at quantifier r of such a box.
pub fn may_drop(
    alloc: Global,
    graph: &Graph,
    facts: &Props,
    node: &Node,
    r: OwnedQuant,
) -> Result<bool, OutOfMemory>
    requires formed { WellFormed graph.now }
    requires told { Tells (facts_of facts.now) graph.now.boxes }
    requires within { In node.now graph.now.boxes }
    requires owned { owns r.id node.now ≡ true }
    requires fits { spec.may_have node.now ≡ true }
    ensures { IfOk result (λ may. may ≡ spec.may_drop_quantifier graph.now node.now r) }
{
    if !is_one_row(graph, facts, r) || is_read(graph.nodes(), node, r.id) {
        return Ok(false);
    }
    leaves_open(alloc, graph, node, r.id)
}
