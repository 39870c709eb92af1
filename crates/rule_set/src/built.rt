// The rules that are built, as the engine takes them.
ghost use Rattle.std.specs.Prelude.{IfOk};
ghost use Rattle.qgm_wellformed.specs.Sentences.{WellFormed};
ghost use Rattle.rule_set.specs.Rewriting.{Rewrites};
ghost use Rattle.rule_set.specs.Built.{built_act, built_exact, built_may, built_pairs};

use qgm_core::{BoxId, Graph};
use qgm_props::Inference;
use rule_api::{Place, Rule, RuleId};
use rule_distinct::{DropKeyDistinct, DropUnionDistinct, PermitDistinct};
use rule_engine::{Rules, Trace, rewrite};
use rule_feed::Feed;
use rule_magic::{AbsorbGroup, AbsorbOuterJoin, AbsorbSelect, AbsorbSetOperation};
use rule_merge::{DropCopy, MergeSelect};
use rule_plan::Plan;
use rule_prune::{DropColumn, DropQuantifier};
use rule_push::{PushIntoArms, PushIntoLeft, PushIntoSelect, PushThroughGroup};
use rule_subquery::{ExistsToJoin, ScalarToGroup, ScalarToJoin, SetToExists};
use rule_trans::{EqualColumns, EqualLiteral};
use shared_types::OutOfMemory;
use std::alloc::Global;

/// All 22 rules: M1, M2, U1 to U4, L1 to L3, P1 to P4, J1, J2, N1, N2 and G1 to G5.
#[derive(Clone, Copy)]
pub struct BuiltRules;

impl Rules for BuiltRules {
    ghost pairs = { λ _. built_pairs };

    ghost may = { λ _. built_may };

    ghost act = { λ _. built_act };

    ghost exact = { λ _. built_exact };

    fn places(
        &self,
        alloc: Global,
        rule: RuleId,
        graph: &Graph,
        known: &mut Inference,
        b: BoxId,
    ) -> Result<Vec<Place>, OutOfMemory> {
        match rule {
            RuleId::M1 => MergeSelect.places(alloc, graph, known, b),
            RuleId::M2 => DropCopy.places(alloc, graph, known, b),
            RuleId::U1 => ExistsToJoin.places(alloc, graph, known, b),
            RuleId::U2 => ScalarToGroup.places(alloc, graph, known, b),
            RuleId::U3 => ScalarToJoin.places(alloc, graph, known, b),
            RuleId::U4 => SetToExists.places(alloc, graph, known, b),
            RuleId::L1 => DropKeyDistinct.places(alloc, graph, known, b),
            RuleId::L2 => PermitDistinct.places(alloc, graph, known, b),
            RuleId::L3 => DropUnionDistinct.places(alloc, graph, known, b),
            RuleId::P1 => PushIntoSelect.places(alloc, graph, known, b),
            RuleId::P2 => PushThroughGroup.places(alloc, graph, known, b),
            RuleId::P3 => PushIntoArms.places(alloc, graph, known, b),
            RuleId::P4 => PushIntoLeft.places(alloc, graph, known, b),
            RuleId::J1 => EqualColumns.places(alloc, graph, known, b),
            RuleId::J2 => EqualLiteral.places(alloc, graph, known, b),
            RuleId::N1 => DropColumn.places(alloc, graph, known, b),
            RuleId::N2 => DropQuantifier.places(alloc, graph, known, b),
            RuleId::G1 => Feed.places(alloc, graph, known, b),
            RuleId::G2 => AbsorbSelect.places(alloc, graph, known, b),
            RuleId::G3 => AbsorbGroup.places(alloc, graph, known, b),
            RuleId::G4 => AbsorbSetOperation.places(alloc, graph, known, b),
            RuleId::G5 => AbsorbOuterJoin.places(alloc, graph, known, b),
        }
    }

    fn apply(
        &self,
        alloc: Global,
        rule: RuleId,
        graph: &mut Graph,
        place: Place,
    ) -> Result<(), OutOfMemory> {
        match rule {
            RuleId::M1 => MergeSelect.apply(alloc, graph, place),
            RuleId::M2 => DropCopy.apply(alloc, graph, place),
            RuleId::U1 => ExistsToJoin.apply(alloc, graph, place),
            RuleId::U2 => ScalarToGroup.apply(alloc, graph, place),
            RuleId::U3 => ScalarToJoin.apply(alloc, graph, place),
            RuleId::U4 => SetToExists.apply(alloc, graph, place),
            RuleId::L1 => DropKeyDistinct.apply(alloc, graph, place),
            RuleId::L2 => PermitDistinct.apply(alloc, graph, place),
            RuleId::L3 => DropUnionDistinct.apply(alloc, graph, place),
            RuleId::P1 => PushIntoSelect.apply(alloc, graph, place),
            RuleId::P2 => PushThroughGroup.apply(alloc, graph, place),
            RuleId::P3 => PushIntoArms.apply(alloc, graph, place),
            RuleId::P4 => PushIntoLeft.apply(alloc, graph, place),
            RuleId::J1 => EqualColumns.apply(alloc, graph, place),
            RuleId::J2 => EqualLiteral.apply(alloc, graph, place),
            RuleId::N1 => DropColumn.apply(alloc, graph, place),
            RuleId::N2 => DropQuantifier.apply(alloc, graph, place),
            RuleId::G1 => Feed.apply(alloc, graph, place),
            RuleId::G2 => AbsorbSelect.apply(alloc, graph, place),
            RuleId::G3 => AbsorbGroup.apply(alloc, graph, place),
            RuleId::G4 => AbsorbSetOperation.apply(alloc, graph, place),
            RuleId::G5 => AbsorbOuterJoin.apply(alloc, graph, place),
        }
    }
}

/// Rewrites a graph by the rules that are built, and says what fired. It fails where there is no
/// memory.
pub fn rewrite_built(
    alloc: Global,
    graph: Graph,
    plan: &Plan,
) -> Result<(Graph, Trace), OutOfMemory>
    requires { WellFormed graph }
    ensures { IfOk result (λ r. Rewrites plan.now graph r.1 r.0) }
{
    rewrite(alloc, &BuiltRules, graph, plan)
}
