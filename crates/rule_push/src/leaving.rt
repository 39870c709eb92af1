// What leaves a box at a place of P1 to P4.
ghost use Rattle.std.specs.Prelude.{◌≡◌};
ghost use Rattle.qgm_wellformed.specs.Sentences.{WellFormed};
ghost use Rattle.rule_push.specs.Leaving.{LeavesAt, first_range, second_range};
ghost use Rattle.rule_push.specs.PushPlaces.{Anywhere, MayPush};

use crate::push_places::read_quant;
use qgm_core::{Gc, Graph, Node, OwnedQuant};
use rule_api::Place;
use rule_facts::box_at;

/// A conjunct p of b that may go down, the quantifier r that it reads, and the box c under that.
#[derive(Drop)]
pub struct Leaving<'a> {
    pub b: &'a Node,
    pub p: &'a Gc,
    pub r: OwnedQuant,
    pub c: &'a Node,
}

/// The one at a place.
pub fn leaving_at<'a>(graph: &'a Graph, place: Place) -> Leaving<'a>
    requires formed { WellFormed graph.now }
    requires leaves { MayPush Anywhere place graph.now }
    ensures { (m : MayPush Anywhere place graph.now) → LeavesAt place graph.now m result }
{
    graph.each_number_once();
    let Some(b) = box_at(graph.nodes(), place.at) else {
        unreachable!()
    };
    let p = b.parts.conds.at(place.i);
    let Some(r) = read_quant(b.quants.as_slice(), p) else {
        unreachable!()
    };
    let Some(c) = box_at(graph.nodes(), r.over) else {
        unreachable!()
    };
    Leaving { b, p, r, c }
}

/// The first of these quantifiers.
pub fn first_range(ranges: &[OwnedQuant]) -> Option<OwnedQuant>
    ensures { result ≡ first_range ranges.now }
{
    match ranges {
        [] => None,
        [s, ..] => Some(*s),
    }
}

/// The second of these quantifiers.
pub fn second_range(ranges: &[OwnedQuant]) -> Option<OwnedQuant>
    ensures { result ≡ second_range ranges.now }
{
    match ranges {
        [] | [_] => None,
        [_, t, ..] => Some(*t),
    }
}
