// The box under a quantifier is fed.
ghost use Rattle.std.specs.Prelude.{ℕ, ◌≡◌, ◌==◌, ◌++◌, ◌&&◌, [], suc, false, not, IfOk, OnOk, filter};
ghost use Rattle.list_laws.specs.Lists.{In, holds};
ghost use Rattle.qgm_core.specs.Boxes.{HasBox, HasQuant, numbers};
ghost use Rattle.qgm_core.specs.Edits as edit;
ghost use Rattle.qgm_core.specs.Held.{HasAll};
ghost use Rattle.qgm_meaning.specs.Tags.{columns_from};
ghost use Rattle.rule_feed.specs.Feed as feed;
ghost use Rattle.rule_feed.specs.FeedSteps as steps;
ghost use Rattle.rule_feed.specs.FillCode as code;
ghost use Rattle.rule_feed.specs.FillSteps as spec;
ghost use Rattle.rule_feed.specs.NamedColumns as named;

use crate::feed::condition::width_of;
use crate::feed::edits::{add_columns, columns, put_each};
use crate::feed::named::{add_all, all_of, cells, count, flags, joins, picked};
use crate::feed::split::Split;
use crate::feed::terms::{fed_conds, fed_head};
use qgm_core::{
    BoxId, BoxKind, BoxParts, Conds, Distinct, Graph, Head, Marks, Node, OwnedQuant, QuantId,
    QuantKind, Role, reached,
};
use shared_types::OutOfMemory;
use std::alloc::Global;

/// The numbers of what is new: the fed box d with its quantifiers dm and dc, over the magic box m, with
/// its quantifier mq, and over the box that is fed.
#[derive(Clone, Copy)]
pub struct Filled {
    pub d: BoxId,
    pub m: BoxId,
    pub dm: QuantId,
    pub dc: QuantId,
    pub mq: QuantId,
}

/// The magic box and its quantifier.
#[derive(Clone, Copy)]
pub struct Magic {
    pub m: BoxId,
    pub mq: QuantId,
}

/// What is read of the graph: which columns are named, and how many; the boxes that are reached, and
/// those beside; how many columns the box has that is fed, and its distinctness after.
#[derive(Drop)]
pub struct Gathered {
    pub flags: Vec<bool>,
    pub many: usize,
    pub reached: Vec<BoxId>,
    pub beside: Vec<BoxId>,
    pub deep: usize,
    pub distinct: Distinct,
}

/// Terms of the box that owns the quantifier.
#[derive(Drop)]
pub struct OwnTerms {
    pub conds: Conds,
    pub head: Head,
}

// The marked boxes.
fn reached_ids(alloc: Global, nodes: &[Node], marks: &Marks) -> Result<Vec<BoxId>, OutOfMemory>
    ensures { IfOk result (λ v. v.items ≡ filter (λ z. holds z marks.now) (numbers nodes.now)) }
{
    let mut out = Vec::new(alloc);
    for node in nodes {
        if marks.has(node.id) {
            out.push(node.id)?;
        }
    }
    Ok(out)
}

// The others, but b.
fn beside_ids(
    alloc: Global,
    nodes: &[Node],
    marks: &Marks,
    b: BoxId,
) -> Result<Vec<BoxId>, OutOfMemory>
    ensures { IfOk result (λ v. v.items ≡ filter (λ z. not (z == b) && not (holds z marks.now)) (numbers nodes.now)) }
{
    let mut out = Vec::new(alloc);
    for node in nodes {
        if node.id != b && !marks.has(node.id) {
            out.push(node.id)?;
        }
    }
    Ok(out)
}

// PERMIT goes.
fn unpermitted(distinct: Distinct) -> Distinct
    ensures { result ≡ feed.unpermitted distinct }
{
    match distinct {
        Distinct::Permit | Distinct::Preserve => Distinct::Preserve,
        Distinct::Enforce => Distinct::Enforce,
    }
}

// What is read of the graph.
fn find(
    alloc: Global,
    graph: &Graph,
    b: BoxId,
    split: Split,
    i: OwnedQuant,
) -> Result<Gathered, OutOfMemory>
    requires { HasBox i.over graph.now }
    ensures { IfOk result (λ x. code.IsGathered graph.now b split.s split.q i x) }
{
    graph.each_number_once();
    let nodes = graph.nodes();
    let marks = reached(alloc, nodes, i.over)?;
    let w = width_of(nodes, split.s);
    let flags = flags(alloc, nodes, &marks, split.q, w)?;
    let many = count(&flags);
    let reached = reached_ids(alloc, nodes, &marks)?;
    let beside = beside_ids(alloc, nodes, &marks, b)?;
    Ok(Gathered {
        flags,
        many,
        reached,
        beside,
        deep: width_of(nodes, i.over),
        distinct: unpermitted(graph.parts(i.over).distinct),
    })
}

// The conditions, and those of the join where i is F.
fn own_conds(
    alloc: Global,
    conds: &Conds,
    i: OwnedQuant,
    n: usize,
    join: &Conds,
) -> Result<Conds, OutOfMemory>
    ensures { IfOk result (λ a. a ≡ spec.fed_conjuncts i n join.now.items conds.now) }
{
    let k = all_of(alloc, join.as_slice())?;
    let mut all = fed_conds(alloc, conds, i.id, n, &k)?;
    if i.kind.is_f() {
        add_all(alloc, &mut all, join.as_slice())?;
    }
    Ok(all)
}

// Terms of b over the fed box, where those columns of q are named.
fn own_terms(
    alloc: Global,
    parts: &BoxParts,
    q: QuantId,
    i: OwnedQuant,
    flags: &[bool],
) -> Result<OwnTerms, OutOfMemory>
    ensures conds { IfOk result (λ o. o.conds ≡ spec.fed_conjuncts i (named.count flags.now) (named.joins_by flags.now q i.id 1 1) parts.now.conds) }
    ensures head { IfOk result (λ o. o.head ≡ spec.fed_cells i (named.count flags.now) (named.joins_by flags.now q i.id 1 1) parts.now.head) }
{
    let n = count(flags);
    let join = joins(alloc, flags, q, i.id)?;
    let k = all_of(alloc, join.as_slice())?;
    let head = fed_head(alloc, &parts.head, i.id, n, &k)?;
    let conds = own_conds(alloc, &parts.conds, i, n, &join)?;
    Ok(OwnTerms { conds, head })
}

// A select without cells and conditions.
fn empty(alloc: Global, distinct: Distinct, role: Role) -> BoxParts
    ensures { result ≡ steps.select_parts distinct role [] [] }
{
    BoxParts {
        kind: BoxKind::Select,
        distinct,
        role,
        conds: Conds::new(alloc),
        head: Head::new(alloc),
    }
}

// Puts the magic box just below b: the named columns of its quantifier over s.
fn add_magic(
    alloc: Global,
    graph: &mut Graph,
    b: BoxId,
    s: BoxId,
    flags: &[bool],
) -> Result<Magic, OutOfMemory>
    requires held { HasBox b graph.old }
    requires over { HasBox s graph.old }
    ensures graph { IfOk result (λ x. graph.new ≡ spec.with_magic b s x.m x.mq (named.picked_by flags.now x.mq 1) graph.old) }
    ensures new_m { IfOk result (λ x. HasBox x.m graph.old → ⊥) }
    ensures new_mq { IfOk result (λ x. HasQuant x.mq graph.old → ⊥) }
    ensures held_m { IfOk result (λ x. HasBox x.m graph.new) }
    ensures held_mq { IfOk result (λ x. HasQuant x.mq graph.new) }
    ensures kept { HasAll graph.old graph.new }
{
    let parts = empty(alloc, Distinct::Enforce, Role::Magic);
    let m = graph.add_box(alloc, parts, Some(b))?;
    let mq = graph.add_quant(m, 1, QuantKind::F, s)?;
    let head = picked(alloc, flags, mq)?;
    graph.put_terms(m, Conds::new(alloc), head);
    Ok(Magic { m, mq })
}

// Puts the fed box just below b: all columns of the magic box, n of them, and of c.
fn add_fed(
    alloc: Global,
    graph: &mut Graph,
    b: BoxId,
    c: BoxId,
    magic: Magic,
    n: usize,
    v: usize,
) -> Result<Filled, OutOfMemory>
    requires held { HasBox b graph.old }
    requires under { HasBox c graph.old }
    requires magic { HasBox magic.m graph.old }
    ensures same_m { IfOk result (λ x. x.m ≡ magic.m) }
    ensures same_mq { IfOk result (λ x. x.mq ≡ magic.mq) }
    ensures graph { IfOk result (λ x. graph.new ≡ spec.with_fed b c (spec.as_numbers x) (columns_from x.dm 1 n ++ columns_from x.dc 1 v) graph.old) }
    ensures new_d { IfOk result (λ x. HasBox x.d graph.old → ⊥) }
    ensures new_dm { IfOk result (λ x. HasQuant x.dm graph.old → ⊥) }
    ensures new_dc { IfOk result (λ x. HasQuant x.dc graph.old → ⊥) }
    ensures apart { IfOk result (λ x. (x.dc == x.dm) ≡ false) }
    ensures held_d { IfOk result (λ x. HasBox x.d graph.new) }
    ensures kept { HasAll graph.old graph.new }
{
    let parts = empty(alloc, Distinct::Preserve, Role::Fed);
    let d = graph.add_box(alloc, parts, Some(b))?;
    let dc = graph.add_quant(d, 1, QuantKind::F, c)?;
    let dm = graph.add_quant(d, 1, QuantKind::F, magic.m)?;
    let mut head = columns(alloc, dm, 0, n)?;
    add_columns(&mut head, dc, v)?;
    graph.put_terms(d, Conds::new(alloc), head);
    let Magic { m, mq } = magic;
    Ok(Filled { d, m, dm, dc, mq })
}

// Columns of q become columns of dm in the boxes that are reached, and columns of i go up in those beside.
fn put_names(
    alloc: Global,
    graph: &mut Graph,
    x: &Gathered,
    q: QuantId,
    i: QuantId,
    dm: QuantId,
) -> Result<(), OutOfMemory>
    requires reached { (y : ℕ) → In y x.now.reached.items → HasBox y graph.old }
    requires beside { (y : ℕ) → In y x.now.beside.items → HasBox y graph.old }
    ensures graph { OnOk result (graph.new ≡ steps.put_each x.now.beside.items i (columns_from i (suc x.now.many) x.now.deep) (steps.put_each x.now.reached.items q (named.cells_by x.now.flags.items dm 1) graph.old)) }
    ensures kept { HasAll graph.old graph.new }
{
    let masked = cells(alloc, &x.flags, dm)?;
    put_each(alloc, graph, &x.reached, q, &masked)?;
    let shifted = columns(alloc, i, x.many, x.deep)?;
    put_each(alloc, graph, &x.beside, i, &shifted)
}

// The box under i gets its distinctness, b its terms, and i ranges over d.
fn put_own(graph: &mut Graph, b: BoxId, i: OwnedQuant, d: BoxId, distinct: Distinct, own: OwnTerms)
    requires held { HasBox b graph.old }
    requires under { HasBox i.over graph.old }
    requires owned { HasQuant i.id graph.old }
    requires fed { HasBox d graph.old }
    ensures { graph.new ≡ edit.redirect i.id d (edit.put_terms b own.conds own.head (edit.set_distinct i.over distinct graph.old)) }
{
    let OwnTerms { conds, head } = own;
    graph.set_distinct(i.over, distinct);
    graph.put_terms(b, conds, head);
    graph.redirect(i.id, d);
}

/// Feeds the box under quantifier i of b, which names columns of the split's quantifier alone. It fails,
/// too, where there are too many columns to count.
pub fn fill(
    alloc: Global,
    graph: &mut Graph,
    b: BoxId,
    split: Split,
    i: OwnedQuant,
) -> Result<Filled, OutOfMemory>
    requires held { HasBox b graph.old }
    requires select { HasBox split.s graph.old }
    requires under { HasBox i.over graph.old }
    requires owned { HasQuant i.id graph.old }
    ensures fresh { IfOk result (λ x. spec.AreNew graph.old (spec.as_numbers x)) }
    ensures graph { IfOk result (λ x. graph.new ≡ spec.fill_edits graph.old b split.s split.q i (spec.as_numbers x)) }
{
    let x = find(alloc, graph, b, split, i)?;
    let own = own_terms(alloc, graph.parts(b), split.q, i, &x.flags)?;
    let magic = add_magic(alloc, graph, b, split.s, &x.flags)?;
    let new = add_fed(alloc, graph, b, i.over, magic, x.many, x.deep)?;
    put_names(alloc, graph, &x, split.q, i.id, new.dm)?;
    put_own(graph, b, i, new.d, x.distinct, own);
    Ok(new)
}
