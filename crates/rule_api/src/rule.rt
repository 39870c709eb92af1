// What a rule is.
ghost use Rattle.std.specs.Prelude.{ℕ, ◌≡◌, ◌↔◌, IfOk, List, OnErr, OnOk, map};
ghost use Rattle.qgm_core.specs.Boxes.{HasBox, QueryGraph, numbers};
ghost use Rattle.list_laws.specs.Lists.{EachOnce, In};
ghost use Rattle.qgm_wellformed.specs.Sentences.{WellFormed};
ghost use Rattle.qgm_props.specs.Laws.{KeptOf};
ghost use Rattle.rule_api.specs.Rules.{Ascending, Pair, Preserves, place_at};
ghost use Rattle.rule_api.specs.declared.place.Place.{Place};
ghost use Rattle.rule_api.specs.declared.rule_id.RuleId.{RuleId};

use crate::place::Place;
use crate::rule_id::RuleId;
use qgm_core::{BoxId, Graph};
use qgm_props::Inference;
use shared_types::OutOfMemory;
use std::alloc::Global;

/// A rewrite rule: a condition on places of a graph, and an action (Pirahesh, Hellerstein and Hasan
/// 1992, 3).
pub trait Rule {
    /// Its places at a box, each by its two numbers, in order.
    ghost pairs: { Self → QueryGraph → ℕ → List Pair };

    /// Its condition.
    ghost may: { Self → Place → QueryGraph → Type 0 };

    /// Its action, from the graph before to the graph after.
    ghost act: { Self → Place → QueryGraph → QueryGraph → Type 0 };

    /// Its name.
    ghost name: { Self → RuleId };

    /// Its name.
    fn id(&self) -> RuleId
        ensures { result ≡ name self.now };

    /// Its places at a box, by their first and then their second number. What it asks to be inferred of
    /// the graph is kept in `known`. It fails where there is no memory.
    fn places(
        &self,
        alloc: Global,
        graph: &Graph,
        known: &mut Inference,
        b: BoxId,
    ) -> Result<Vec<Place>, OutOfMemory>
        requires formed { WellFormed graph.now }
        requires held { HasBox b graph.now }
        requires known { KeptOf known.old graph.now.boxes }
        ensures list { IfOk result (λ v. v.items ≡ map (place_at b) (pairs self.now graph.now b)) }
        ensures order { Ascending (pairs self.now graph.now b) }
        ensures known { KeptOf known.new graph.now.boxes };

    /// Does its action at one of its places. Where there is no memory it fails, and the graph is as
    /// before.
    fn apply(&self, alloc: Global, graph: &mut Graph, place: Place) -> Result<(), OutOfMemory>
        requires formed { WellFormed graph.old }
        requires given { In (place.i, place.j) (pairs self.now graph.old place.at) }
        ensures acts { OnOk result (act self.now place graph.old graph.new) }
        ensures preserves { OnOk result (Preserves graph.old graph.new) }
        ensures err { OnErr result (graph.new ≡ graph.old) };

    /// In a graph that has each number once, as every graph has, its places are exactly those where its
    /// condition holds.
    ghost exact: { (s : Self) (g : QueryGraph) (b i j : ℕ) → EachOnce (numbers g.boxes) → WellFormed g → In (i, j) (pairs s g b) ↔ may s (record { at = b; i = i; j = j }) g };
}
