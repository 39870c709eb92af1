// Rules by their names.
ghost use Rattle.std.specs.Prelude.{ℕ, ◌≡◌, ◌↔◌, IfOk, List, OnErr, OnOk, map};
ghost use Rattle.qgm_core.specs.Boxes.{HasBox, QueryGraph, numbers};
ghost use Rattle.list_laws.specs.Lists.{EachOnce, In};
ghost use Rattle.qgm_wellformed.specs.Sentences.{WellFormed};
ghost use Rattle.qgm_props.specs.Laws.{KeptOf};
ghost use Rattle.rule_api.specs.Rules.{Pair, Preserves, place_at};
ghost use Rattle.rule_api.specs.declared.place.Place.{Place};
ghost use Rattle.rule_api.specs.declared.rule_id.RuleId.{RuleId};

use qgm_core::{BoxId, Graph};
use qgm_props::Inference;
use rule_api::{Place, RuleId};
use shared_types::OutOfMemory;
use std::alloc::Global;

/// Rules by their names, each of which keeps the law of `Rule`. A name whose rule isn't built has no
/// place.
pub trait Rules {
    /// The places of a rule at a box, each by its two numbers, in order.
    ghost pairs: { Self → RuleId → QueryGraph → ℕ → List Pair };

    /// The condition of a rule.
    ghost may: { Self → RuleId → Place → QueryGraph → Type 0 };

    /// The action of a rule, from the graph before to the graph after.
    ghost act: { Self → RuleId → Place → QueryGraph → QueryGraph → Type 0 };

    /// The places of a rule at a box, in order. What it asks to be inferred of the graph is kept in
    /// `known`. It fails where there is no memory.
    fn places(
        &self,
        alloc: Global,
        rule: RuleId,
        graph: &Graph,
        known: &mut Inference,
        b: BoxId,
    ) -> Result<Vec<Place>, OutOfMemory>
        requires formed { WellFormed graph.now }
        requires held { HasBox b graph.now }
        requires known { KeptOf known.old graph.now.boxes }
        ensures list { IfOk result (λ v. v.items ≡ map (place_at b) (pairs self.now rule graph.now b)) }
        ensures known { KeptOf known.new graph.now.boxes };

    /// Does the action of a rule at one of its places. Where there is no memory it fails, and the graph
    /// is as before.
    fn apply(
        &self,
        alloc: Global,
        rule: RuleId,
        graph: &mut Graph,
        place: Place,
    ) -> Result<(), OutOfMemory>
        requires formed { WellFormed graph.old }
        requires given { In (place.i, place.j) (pairs self.now rule graph.old place.at) }
        ensures acts { OnOk result (act self.now rule place graph.old graph.new) }
        ensures preserves { OnOk result (Preserves graph.old graph.new) }
        ensures err { OnErr result (graph.new ≡ graph.old) };

    /// In a graph that has each number once, as every graph has, the places of a rule are exactly those
    /// where its condition holds.
    ghost exact: { (s : Self) (r : RuleId) (g : QueryGraph) (b i j : ℕ) → EachOnce (numbers g.boxes) → WellFormed g → In (i, j) (pairs s r g b) ↔ may s r (record { at = b; i = i; j = j }) g };
}
