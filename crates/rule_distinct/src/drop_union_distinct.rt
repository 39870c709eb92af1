// L3.
ghost use Rattle.std.specs.Prelude.{◌≡◌, OnErr, OnOk, option_map};
ghost use Rattle.list_laws.specs.Lists.{first};
ghost use Rattle.qgm_wellformed.specs.Sentences.{WellFormed};
ghost use Rattle.qgm_core.specs.Boxes.{box_of};
ghost use Rattle.rule_api.specs.Rules.{Preserves};
ghost use Rattle.rule_api.specs.declared.rule_id.RuleId.TheVariants.{L3};
ghost use Rattle.rule_distinct.specs.DropUnionDistinct as spec;
ghost use Rattle.rule_distinct.specs.DropUnionDistinct.{MayDropUnionDistinct};
ghost use Rattle.rule_distinct.specs.DropUnionDistinctExact.{drop_union_distinct_exact};
ghost use Rattle.rule_distinct.specs.PlainAt.{DropsDistinct};
ghost use Rattle.rule_facts.specs.Places.{in_box, of_set};

use crate::parts::{is_plain_select, put_distinct};
use qgm_core::{BoxId, BoxKind, Distinct, Graph, Node, SetOperator};
use qgm_props::Inference;
use rule_api::{Place, Rule, RuleId, add_if};
use rule_facts::box_at;
use shared_types::OutOfMemory;
use std::alloc::Global;

/// L3: an ENFORCE plain select over which one quantifier ranges, that of a union, keeps repeated rows,
/// since the union drops them (Pirahesh, Hellerstein and Hasan 1992, 3).
#[derive(Clone, Copy)]
pub struct DropUnionDistinct;

// Whether it is UNION without ALL.
fn is_union(operator: SetOperator) -> bool
    ensures { result ≡ spec.is_union operator }
{
    match operator {
        SetOperator::Union => true,
        SetOperator::UnionAll
        | SetOperator::Intersect
        | SetOperator::IntersectAll
        | SetOperator::Except
        | SetOperator::ExceptAll => false,
    }
}

// Whether a box of this kind is a union.
fn is_union_kind(kind: &BoxKind) -> bool
    ensures { result ≡ of_set (λ form types. spec.is_union form) kind.now }
{
    match kind {
        BoxKind::SetOp(operator, _) => is_union(*operator),
        BoxKind::Base(_) | BoxKind::Select | BoxKind::Group(_) | BoxKind::OuterJoin => false,
    }
}

// Whether a box ranges over b.
fn ranges_over(b: BoxId, node: &Node) -> bool
    ensures { result ≡ spec.ranges_over b node.now }
{
    node.quants.as_slice().iter().any(|r| r.over == b)
}

// The first box that ranges over b.
fn first_reader(b: BoxId, nodes: &[Node]) -> Option<&Node>
    ensures { option_map (λ n. n.now) result ≡ first (spec.ranges_over b) nodes.now }
{
    for node in nodes {
        if ranges_over(b, node) {
            return Some(node);
        }
    }
    None
}

// Whether the first box that ranges over b is a union.
fn is_read_by_union(b: BoxId, nodes: &[Node]) -> bool
    ensures { result ≡ spec.is_union_found (first (spec.ranges_over b) nodes.now) }
{
    match first_reader(b, nodes) {
        Some(node) => is_union_kind(&node.parts.kind),
        None => false,
    }
}

// Whether one quantifier ranges over a box, and that of a union. All boxes are looked at only where the
// first that ranges over it is one.
#[tactic(auto, using(crate::proofs::FirstReader::under_union_is))]
fn is_under_union(graph: &Graph, node: &Node) -> bool
    ensures { result ≡ spec.is_under_union graph.now node.now }
{
    is_read_by_union(node.id, graph.nodes()) && graph.uses(node.id) == 1
}

// Whether L3 may fire at a box.
fn may_drop_union_distinct(graph: &Graph, node: &Node) -> bool
    ensures { result ≡ spec.may_drop_union_distinct graph.now node.now }
{
    is_plain_select(node) && (node.parts.distinct.is_enforce() && is_under_union(graph, node))
}

// Whether it may fire at the box of a number.
fn may_at(graph: &Graph, b: BoxId) -> bool
    ensures { result ≡ in_box (spec.may_drop_union_distinct graph.now) (box_of b graph.now) }
{
    graph.each_number_once();
    match box_at(graph.nodes(), b) {
        Some(node) => may_drop_union_distinct(graph, node),
        None => false,
    }
}

// Does L3 at a place.
fn dropped(alloc: Global, graph: &mut Graph, place: Place) -> Result<(), OutOfMemory>
    requires formed { WellFormed graph.old }
    requires given { MayDropUnionDistinct place graph.old }
    ensures acts { OnOk result (DropsDistinct place graph.old graph.new) }
    ensures preserves { OnOk result (Preserves graph.old graph.new) }
    ensures err { OnErr result (graph.new ≡ graph.old) }
{
    graph.each_number_once();
    put_distinct(alloc, graph, place.at, Distinct::Preserve)
}

impl Rule for DropUnionDistinct {
    ghost pairs = { λ _. spec.drop_union_distinct_pairs };

    ghost may = { λ _. MayDropUnionDistinct };

    ghost act = { λ _. DropsDistinct };

    ghost name = { λ _. L3 };

    ghost exact = { λ _. drop_union_distinct_exact };

    fn id(&self) -> RuleId {
        RuleId::L3
    }

    #[tactic(auto, unfolding(crate::specs::DropUnionDistinct::drop_union_distinct_pairs))]
    fn places(
        &self,
        alloc: Global,
        graph: &Graph,
        known: &mut Inference,
        b: BoxId,
    ) -> Result<Vec<Place>, OutOfMemory> {
        let mut out = Vec::new(alloc);
        let _facts = known;
        add_if(&mut out, may_at(graph, b), b, 0, 0)?;
        Ok(out)
    }

    fn apply(&self, alloc: Global, graph: &mut Graph, place: Place) -> Result<(), OutOfMemory> {
        dropped(alloc, graph, place)?;
        Ok(())
    }
}
