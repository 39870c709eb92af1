// J2.
ghost use Rattle.std.specs.Prelude.{◌≡◌, ◌+◌, ◌++◌, IfOk, OnOk, map, option_map};
ghost use Rattle.std.specs.List.{list_any};
ghost use Rattle.list_laws.specs.Lists.{In};
ghost use Rattle.qgm_props.specs.Laws.{Tells};
ghost use Rattle.qgm_props.specs.Table.{facts_of};
ghost use Rattle.qgm_terms.specs.Shown.{cond, conds};
ghost use Rattle.qgm_wellformed.specs.Sentences.{WellFormed};
ghost use Rattle.rule_api.specs.Picks.{cross};
ghost use Rattle.rule_api.specs.Rules.{place_at};
ghost use Rattle.rule_api.specs.declared.rule_id.RuleId.TheVariants.{J2};
ghost use Rattle.rule_trans.specs.EqualLiteral.{AddsEqualLiteral, MayEqualLiteral};
ghost use Rattle.rule_trans.specs.EqualLiteralExact.{PlansAt, equal_literal_exact};
ghost use Rattle.rule_trans.specs.EqualLiteralPlaces as spec;
ghost use Rattle.rule_trans.specs.Equalities.{is_equality};
ghost use Rattle.rule_trans.specs.Equalities as columns;
ghost use Rattle.rule_trans.specs.FixedRows as rows;
ghost use Rattle.rule_trans.specs.Literals.{shown_conjunct, shown_fixed};
ghost use Rattle.rule_trans.specs.Literals as literals;

use crate::adding::{AddPlan, add, plan_add};
use crate::equal_columns::takes;
use crate::equalities::{Equality, equated, is_equality, is_same};
use crate::known::{infers_free, ranges_over_base};
use crate::literals::{
    FixedColumn, FixedConjunct, expression, fixed, fixed_conjuncts, has_fixed, is_there,
};
use qgm_core::{BoxId, Column, Gc, Graph, Gx, Node};
use qgm_props::{Inference, Props, props};
use qgm_terms::Sign;
use rule_api::{Place, Rule, RuleId, add_if};
use rule_facts::box_at;
use shared_types::OutOfMemory;
use std::alloc::Global;

/// J2: of a column of a base that equals an error-free one, and of that one which equals a literal, the
/// equality of the first column and the literal is added, where it isn't there yet (Pirahesh, Hellerstein
/// and Hasan 1992, 3).
#[derive(Clone, Copy)]
pub struct EqualLiteral;

// Whether one of these conditions is an equality of two columns.
fn has_equality(list: &[Gc]) -> bool
    ensures { result ≡ list_any is_equality (conds list.now) }
{
    for c in list {
        if is_equality(c) {
            return true;
        }
    }
    false
}

// Whether a box that may get conditions has an equality of columns and one with a literal. Else it has
// no place, and facts aren't inferred.
fn may_have(node: &Node) -> bool
    ensures { result ≡ spec.may_have node.now }
{
    let list = node.parts.conds.as_slice();
    takes(node) && has_equality(list) && has_fixed(list)
}

// Whether it follows of a = b, and of b's equality with a literal, that a is the literal, which isn't
// there yet.
fn joins(
    graph: &Graph,
    known: &Props,
    all: &[FixedConjunct<'_>],
    a: Column,
    b: Column,
    f: FixedColumn<'_>,
) -> bool
    requires { Tells (facts_of known.now) graph.now.boxes }
    ensures { result ≡ rows.joins graph.now (map shown_conjunct all.now) a b (shown_fixed f.entry) }
{
    is_same(b, f.column)
        && !is_there(a, f.literal, all)
        && ranges_over_base(graph, a.quant)
        && infers_free(graph, known, b)
}

// What follows of an equality of columns and of one with a literal.
fn implied_by<'a>(
    graph: &Graph,
    known: &Props,
    all: &[FixedConjunct<'_>],
    e: Equality,
    f: FixedColumn<'a>,
) -> Option<FixedColumn<'a>>
    requires { Tells (facts_of known.now) graph.now.boxes }
    ensures { option_map shown_fixed result ≡ rows.implied_by graph.now (map shown_conjunct all.now) e (shown_fixed f.entry) }
{
    if joins(graph, known, all, e.left, e.right, f) {
        return Some(FixedColumn {
            column: e.left,
            literal: f.literal,
        });
    }
    if joins(graph, known, all, e.right, e.left, f) {
        return Some(FixedColumn {
            column: e.right,
            literal: f.literal,
        });
    }
    None
}

// What follows of two conjuncts of a box.
fn implied<'a>(
    graph: &Graph,
    known: &Props,
    all: &[FixedConjunct<'_>],
    c: &Gc,
    d: &'a Gc,
) -> Option<FixedColumn<'a>>
    requires { Tells (facts_of known.now) graph.now.boxes }
    ensures { option_map shown_fixed result ≡ rows.implied_of graph.now (map shown_conjunct all.now) (columns.equated (cond c.now)) (literals.fixed (cond d.now)) }
{
    let e = equated(c)?;
    let f = fixed(d)?;
    implied_by(graph, known, all, e, f)
}

// Adds a place for each conjunct with a literal with which an equality passes, which is conjunct i,
// from 1.
fn add_row(
    graph: &Graph,
    known: &Props,
    all: &[FixedConjunct<'_>],
    b: BoxId,
    i: usize,
    e: Equality,
    out: &mut Vec<Place>,
) -> Result<(), OutOfMemory>
    requires { Tells (facts_of known.now) graph.now.boxes }
    ensures { OnOk result (out.new.items ≡ out.old.items ++ map (place_at b) (rows.row_in graph.now (map shown_conjunct all.now) e i (map shown_conjunct all.now))) }
{
    for f in all {
        let passes = implied_by(graph, known, all, e, f.fixed).is_some();
        add_if(out, passes, b, i, f.place)?;
    }
    Ok(())
}

// Adds a place for each two conjuncts that pass, of whichever order.
fn add_cross(
    alloc: Global,
    graph: &Graph,
    known: &Props,
    node: &Node,
    b: BoxId,
    out: &mut Vec<Place>,
) -> Result<(), OutOfMemory>
    requires { Tells (facts_of known.now) graph.now.boxes }
    ensures { OnOk result (out.new.items ≡ out.old.items ++ map (place_at b) (cross (spec.passes graph.now node.now) node.now.parts.conds.items 1 node.now.parts.conds.items)) }
{
    let list = node.parts.conds.as_slice();
    let all = fixed_conjuncts(alloc, list)?;
    for i in 0..list.len() {
        let c = &list[i];
        if let Some(e) = equated(c) {
            add_row(graph, known, &all, b, i + 1, e, out)?;
        }
    }
    Ok(())
}

// The condition that a column is a literal.
fn equality(alloc: Global, f: FixedColumn<'_>) -> Result<Gc, OutOfMemory>
    ensures { IfOk result (λ c. cond c ≡ spec.equality (shown_fixed f.entry)) }
{
    let left = Box::new(alloc, Gx::Col(f.column.quant, f.column.place))?;
    let right = Box::new(alloc, expression(alloc, f.literal)?)?;
    Ok(Gc::Compare(Sign::Eq, left, right))
}

// What J2 does at a place.
fn plan_at(alloc: Global, graph: &Graph, place: Place) -> Result<AddPlan, OutOfMemory>
    requires formed { WellFormed graph.now }
    requires given { In (place.i, place.j) (spec.equal_literal_pairs graph.now place.at) }
    ensures { IfOk result (λ m. PlansAt place graph.now m) }
{
    graph.each_number_once();
    let Some(node) = box_at(graph.nodes(), place.at) else {
        unreachable!()
    };
    let known = props(alloc, graph)?;
    let all = fixed_conjuncts(alloc, node.parts.conds.as_slice())?;
    let c = node.parts.conds.at(place.i);
    let d = node.parts.conds.at(place.j);
    let Some(f) = implied(graph, &known, &all, c, d) else {
        unreachable!()
    };
    let p = equality(alloc, f)?;
    plan_add(alloc, node, p)
}

impl Rule for EqualLiteral {
    ghost pairs = { λ _. spec.equal_literal_pairs };

    ghost may = { λ _. MayEqualLiteral };

    ghost act = { λ _. AddsEqualLiteral };

    ghost name = { λ _. J2 };

    ghost exact = { λ _. equal_literal_exact };

    fn id(&self) -> RuleId {
        RuleId::J2
    }

    #[tactic(auto, unfolding(crate::specs::EqualLiteralPlaces::equal_literal_pairs))]
    fn places(
        &self,
        alloc: Global,
        graph: &Graph,
        known: &mut Inference,
        b: BoxId,
    ) -> Result<Vec<Place>, OutOfMemory> {
        let mut out = Vec::new(alloc);
        graph.each_number_once();
        let Some(node) = box_at(graph.nodes(), b) else {
            return Ok(out);
        };
        if !may_have(node) {
            return Ok(out);
        }
        let facts = known.take(alloc, graph)?;
        add_cross(alloc, graph, &facts, node, b, &mut out)?;
        known.put(facts);
        Ok(out)
    }

    fn apply(&self, alloc: Global, graph: &mut Graph, place: Place) -> Result<(), OutOfMemory> {
        graph.each_number_once();
        let m = plan_at(alloc, graph, place)?;
        add(alloc, graph, m)?;
        Ok(())
    }
}
