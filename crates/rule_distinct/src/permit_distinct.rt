// L2.
ghost use Rattle.std.specs.Prelude.{◌≡◌, IfOk, OnErr, OnOk};
ghost use Rattle.std.specs.List.{list_any};
ghost use Rattle.qgm_wellformed.specs.Sentences.{WellFormed};
ghost use Rattle.qgm_core.specs.Boxes.{box_of};
ghost use Rattle.qgm_props.specs.Laws.{KeptOf};
ghost use Rattle.rule_api.specs.Rules.{Preserves};
ghost use Rattle.rule_api.specs.declared.rule_id.RuleId.TheVariants.{L2};
ghost use Rattle.rule_distinct.specs.PermitDistinct as spec;
ghost use Rattle.rule_distinct.specs.PermitDistinct.{MayPermitDistinct, PermitsDistinct};
ghost use Rattle.rule_distinct.specs.PermitDistinctExact.{permit_distinct_exact};
ghost use Rattle.rule_facts.specs.Places.{in_box};

use crate::parts::{is_plain_select, put_distinct};
use qgm_core::{BoxId, Distinct, Graph, Node};
use qgm_props::Inference;
use rule_api::{Place, Rule, RuleId, add_if};
use rule_facts::{box_at, infers_clean};
use shared_types::OutOfMemory;
use std::alloc::Global;

/// L2: a plain select that is inferred clean and over which E and A quantifiers alone range may give a
/// row once or more often (Pirahesh, Hellerstein and Hasan 1992, 3).
#[derive(Clone, Copy)]
pub struct PermitDistinct;

// Whether an F or S quantifier of a box ranges over b.
fn is_counted(b: BoxId, node: &Node) -> bool
    ensures { result ≡ spec.counted b node.now }
{
    node.quants
        .as_slice()
        .iter()
        .any(|r| r.over == b && r.kind.is_f_or_s())
}

// Whether an F or S quantifier ranges over b.
fn any_counted(b: BoxId, nodes: &[Node]) -> bool
    ensures { result ≡ list_any (spec.counted b) nodes.now }
{
    nodes.iter().any(|y| is_counted(b, y))
}

// Whether E and A quantifiers alone range over a plain select that isn't PERMIT yet, nor the root.
fn is_read_as_set(graph: &Graph, node: &Node) -> bool
    ensures { result ≡ spec.is_read_as_set graph.now node.now }
{
    is_plain_select(node)
        && !node.parts.distinct.is_permit()
        && node.id != graph.root()
        && !any_counted(node.id, graph.nodes())
}

// Whether L2 may fire at a box.
fn may_permit_distinct(
    alloc: Global,
    graph: &Graph,
    known: &mut Inference,
    node: &Node,
) -> Result<bool, OutOfMemory>
    requires { KeptOf known.old graph.now.boxes }
    ensures test { IfOk result (λ passes. passes ≡ spec.may_permit_distinct graph.now node.now) }
    ensures known { KeptOf known.new graph.now.boxes }
{
    if !is_read_as_set(graph, node) {
        return Ok(false);
    }
    infers_clean(alloc, graph, known, node.id)
}

// Whether it may fire at the box of a number.
fn may_at(
    alloc: Global,
    graph: &Graph,
    known: &mut Inference,
    b: BoxId,
) -> Result<bool, OutOfMemory>
    requires { KeptOf known.old graph.now.boxes }
    ensures test { IfOk result (λ passes. passes ≡ in_box (spec.may_permit_distinct graph.now) (box_of b graph.now)) }
    ensures known { KeptOf known.new graph.now.boxes }
{
    graph.each_number_once();
    match box_at(graph.nodes(), b) {
        Some(node) => may_permit_distinct(alloc, graph, known, node),
        None => Ok(false),
    }
}

// Does L2 at a place.
fn permitted(alloc: Global, graph: &mut Graph, place: Place) -> Result<(), OutOfMemory>
    requires formed { WellFormed graph.old }
    requires given { MayPermitDistinct place graph.old }
    ensures acts { OnOk result (PermitsDistinct place graph.old graph.new) }
    ensures preserves { OnOk result (Preserves graph.old graph.new) }
    ensures err { OnErr result (graph.new ≡ graph.old) }
{
    graph.each_number_once();
    put_distinct(alloc, graph, place.at, Distinct::Permit)
}

impl Rule for PermitDistinct {
    ghost pairs = { λ _. spec.permit_distinct_pairs };

    ghost may = { λ _. MayPermitDistinct };

    ghost act = { λ _. PermitsDistinct };

    ghost name = { λ _. L2 };

    ghost exact = { λ _. permit_distinct_exact };

    fn id(&self) -> RuleId {
        RuleId::L2
    }

    #[tactic(auto, unfolding(crate::specs::PermitDistinct::permit_distinct_pairs))]
    fn places(
        &self,
        alloc: Global,
        graph: &Graph,
        known: &mut Inference,
        b: BoxId,
    ) -> Result<Vec<Place>, OutOfMemory> {
        let mut out = Vec::new(alloc);
        let passes = may_at(alloc, graph, known, b)?;
        add_if(&mut out, passes, b, 0, 0)?;
        Ok(out)
    }

    fn apply(&self, alloc: Global, graph: &mut Graph, place: Place) -> Result<(), OutOfMemory> {
        permitted(alloc, graph, place)?;
        Ok(())
    }
}
